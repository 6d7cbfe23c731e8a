//! What the call answers.
ghost use Rattle.std.specs.Prelude.{IfOk, string_bytes};
ghost use Rattle.css_edit_calls.specs.EditCalls.{IsEditedBy};

use crate::numbers::edits_of;
use call_answers::answer::CallError;
use call_answers::texts::{text_of, texts_of};
use css_edits::editing::edited;
use css_edits::edits::Refusal;
use std::alloc::{AllocError, Global};

/// Why a sheet is not edited.
#[derive(Clone, Copy, Debug, PartialEq)]
pub enum Failure {
    /// What is passed is not edits of a text.
    Call(CallError),
    /// The edits are refused.
    Refused(Refusal),
}

impl From<CallError> for Failure {
    fn from(error: CallError) -> Failure {
        Failure::Call(error)
    }
}

impl From<Refusal> for Failure {
    fn from(refusal: Refusal) -> Failure {
        Failure::Refused(refusal)
    }
}

impl From<AllocError> for Failure {
    fn from(_error: AllocError) -> Failure {
        Failure::Call(CallError::Memory)
    }
}

/// Returns a sheet with the edits that numbers and strings stand for: a kind and two offsets of each, and a text.
pub fn edit(
    alloc: Global,
    sheet: &[u8],
    numbers: &[usize],
    strings: &[u8],
    ends: &[usize],
) -> Result<String, Failure>
    ensures { IfOk result (λ text. IsEditedBy sheet.now numbers.now strings.now ends.now (string_bytes text)) }
{
    let sheet = text_of(sheet)?;
    let texts = texts_of(alloc, strings, ends)?;
    match edits_of(alloc, numbers, texts.as_slice())? {
        Some(edits) => Ok(edited(alloc, sheet, edits.as_slice())?),
        None => Err(Failure::Call(CallError::Refused)),
    }
}
