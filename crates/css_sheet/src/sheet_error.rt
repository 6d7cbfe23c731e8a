//! Why a sheet is not read.
ghost use Rattle.std.specs.Prelude.{◌≡◌};

use css_cascade::LayersError;
use std::alloc::{AllocError, AllocFailed};
use std::error::Error;
use std::io::ErrorKind;
use std::{fmt, io};

/// Why a sheet is not read.
#[derive(Clone, Copy, Debug, PartialEq)]
pub enum SheetError {
    /// The rules would hold more declarations than the limit.
    TooManyDeclarations,
    /// There would be more than 1,024 layers.
    TooManyLayers,
    /// An allocation failed.
    Memory,
}

/// Prints the error in a few words. The formatter's width, fill and flags change nothing.
impl fmt::Display for SheetError {
    ghost use Rattle.std.specs.Prelude.{Some};
    ghost use Rattle.css_sheet.specs.SheetMessages.{message_of};

    ghost output = { λ error. Some (message_of error) };

    ghost styled_output = { λ error _. Some (message_of error) };

    #[tactic(auto, using(css_text::proofs::round_trip::StyledWrites::plain_of_styled))]
    fn fmt<W: fmt::Write>(&self, f: &mut fmt::Formatter<W>) -> fmt::Result {
        match self {
            SheetError::TooManyDeclarations => f.write_str("too many declarations"),
            SheetError::TooManyLayers => f.write_str("too many layers"),
            SheetError::Memory => f.write_str("out of memory"),
        }
    }
}

impl Error for SheetError {}

impl From<AllocError> for SheetError {
    ghost use Rattle.css_sheet.specs.declared.sheet_error.SheetError.TheVariants.{Memory};

    ghost from_gives = { λ _ error. error ≡ Memory };

    fn from(_error: AllocError) -> SheetError {
        SheetError::Memory
    }
}

impl<T: Drop> From<AllocFailed<T>> for SheetError {
    ghost use Rattle.css_sheet.specs.declared.sheet_error.SheetError.TheVariants.{Memory};

    ghost from_gives = { λ _ error. error ≡ Memory };

    fn from(_error: AllocFailed<T>) -> SheetError {
        SheetError::Memory
    }
}

impl From<LayersError> for SheetError {
    ghost use Rattle.css_sheet.specs.SheetMessages.{of_layers};

    ghost from_gives = { λ fault error. error ≡ of_layers fault };

    fn from(error: LayersError) -> SheetError {
        match error {
            LayersError::TooManyLayers => SheetError::TooManyLayers,
            LayersError::Memory => SheetError::Memory,
        }
    }
}

/// Lets `?` convert `SheetError` into `io::Error`.
impl From<SheetError> for io::Error {
    ghost use Rattle.std.specs.IoError.{error_kind};
    ghost use Rattle.css_sheet.specs.SheetMessages.{kind_of};

    ghost from_gives = { λ error fault. error_kind fault ≡ kind_of error };

    fn from(error: SheetError) -> io::Error {
        match error {
            SheetError::TooManyDeclarations => {
                io::Error::new(ErrorKind::InvalidData, "too many declarations")
            }
            SheetError::TooManyLayers => io::Error::new(ErrorKind::InvalidData, "too many layers"),
            SheetError::Memory => io::Error::from(ErrorKind::OutOfMemory),
        }
    }
}
