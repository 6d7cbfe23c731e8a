//! Why a text is not read into a style sheet.
ghost use Rattle.std.specs.Prelude.{◌≡◌};
ghost use Rattle.css_text.specs.declared.sheet_error.SheetError.TheVariants.{Memory};

use std::alloc::{AllocError, AllocFailed};
use std::error::Error;
use std::io::ErrorKind;
use std::{fmt, io};

/// Why a text is not read into a style sheet. A sheet that was there before is unchanged.
#[derive(Clone, Copy, Debug, PartialEq)]
pub enum SheetError {
    /// The rules of the text would hold more declarations than the limit.
    TooManyDeclarations,
    /// An allocation failed.
    Memory,
}

/// Prints the error in a few words. The formatter's width, fill and flags change nothing.
impl fmt::Display for SheetError {
    ghost use Rattle.std.specs.Prelude.{Some};
    ghost use Rattle.css_text.specs.SheetMessages.{message_of};

    ghost output = { λ error. Some (message_of error) };

    ghost styled_output = { λ error _. Some (message_of error) };

    #[tactic(auto, using(crate::proofs::round_trip::StyledWrites::plain_of_styled))]
    fn fmt<W: fmt::Write>(&self, f: &mut fmt::Formatter<W>) -> fmt::Result {
        match self {
            SheetError::TooManyDeclarations => f.write_str("too many declarations"),
            SheetError::Memory => f.write_str("out of memory"),
        }
    }
}

impl Error for SheetError {}

impl From<AllocError> for SheetError {
    ghost from_gives = { λ _ error. error ≡ Memory };

    fn from(_error: AllocError) -> SheetError {
        SheetError::Memory
    }
}

impl<T: Drop> From<AllocFailed<T>> for SheetError {
    ghost from_gives = { λ _ error. error ≡ Memory };

    fn from(_error: AllocFailed<T>) -> SheetError {
        SheetError::Memory
    }
}

/// Lets `?` convert `SheetError` into `io::Error`.
impl From<SheetError> for io::Error {
    ghost use Rattle.std.specs.IoError.{error_kind};
    ghost use Rattle.css_text.specs.SheetMessages.{kind_of};

    ghost from_gives = { λ error fault. error_kind fault ≡ kind_of error };

    fn from(error: SheetError) -> io::Error {
        match error {
            SheetError::TooManyDeclarations => {
                io::Error::new(ErrorKind::InvalidData, "too many declarations")
            }
            SheetError::Memory => io::Error::from(ErrorKind::OutOfMemory),
        }
    }
}
