//! Why a call has no answer whose sheets, texts or trees have a fault.

use crate::answer::CallError;
use css_selectors::{Refusal, Why};
use css_sheet::SheetError;
use css_tree::{MarkingError, NumberingError};

impl From<SheetError> for CallError {
    ghost use Rattle.std.specs.Prelude.{◌≡◌};
    ghost use Rattle.call_answers.specs.Failures.{unread};

    ghost from_gives = { λ error failure. failure ≡ unread error };

    fn from(error: SheetError) -> CallError {
        match error {
            SheetError::TooManyDeclarations => CallError::TooManyDeclarations,
            SheetError::TooManyLayers => CallError::TooManyLayers,
            SheetError::Memory => CallError::Memory,
        }
    }
}

impl From<Refusal<'_>> for CallError {
    ghost use Rattle.std.specs.Prelude.{◌≡◌};
    ghost use Rattle.call_answers.specs.Failures.{error_of};

    ghost from_gives = { λ refusal error. error ≡ error_of refusal.why };

    fn from(refusal: Refusal<'_>) -> CallError {
        match refusal.why {
            Why::Memory => CallError::Memory,
            _ => CallError::Refused,
        }
    }
}

/// More answers than a `usize` has numbers are too many for memory.
impl From<MarkingError> for CallError {
    ghost use Rattle.std.specs.Prelude.{◌≡◌};
    ghost use Rattle.call_answers.specs.declared.answer.CallError.TheVariants.{Memory};

    ghost from_gives = { λ _ error. error ≡ Memory };

    fn from(_error: MarkingError) -> CallError {
        CallError::Memory
    }
}

/// A tree of 2^32 elements or more is too large for memory.
impl From<NumberingError> for CallError {
    ghost use Rattle.std.specs.Prelude.{◌≡◌};
    ghost use Rattle.call_answers.specs.declared.answer.CallError.TheVariants.{Memory};

    ghost from_gives = { λ _ error. error ≡ Memory };

    fn from(_error: NumberingError) -> CallError {
        CallError::Memory
    }
}
