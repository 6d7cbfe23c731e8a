//! What each call answers.

ghost use Rattle.std.specs.Prelude.{◌≡◌, None, MatchResult};
ghost use Rattle.std.specs.Str.{IsUtf8};
ghost use Rattle.call_answers.specs.Calls.{FailsFor};
ghost use Rattle.kept_sheets.specs.SheetCalls.{AnswersInNumbers, AnswersInText, IsMade};

use crate::handle::SheetHandle;
use crate::questions::{NumbersWithin, SheetNumbers, SheetText};
use crate::sheet::KeptSheet;
use call_answers::answer::{CallError, hand_over, hand_over_numbers};
use std::alloc::Global;

/// The status of a call that is done.
const DONE: u32 = 0;
/// The status of a question that is none.
const REFUSED: u32 = 1;
/// The status of a question to a handle that has no sheet.
const CLOSED: u32 = 8;

/// The sheet of a text, on the heap, or why there is none.
fn keep(alloc: Global, text: &[u8]) -> Result<Box<KeptSheet>, CallError>
    ensures { MatchResult result (λ whole. (whole.value ≡ text.now) × IsUtf8 text.now)
        (FailsFor ⊥ (λ fault. ⊥) (¬ (IsUtf8 text.now))) }
{
    let sheet = KeptSheet::new(alloc, text)?;
    Ok(Box::new(alloc, sheet)?)
}

/// Keeps a copy of a text. What the handle had before is let go.
pub fn sheet_new(alloc: Global, text: &[u8], out: &mut SheetHandle) -> u32
    ensures { IsMade text.now result out.new.value }
{
    *out = SheetHandle::none(alloc);
    match keep(alloc, text) {
        Ok(whole) => {
            *out = SheetHandle::of(whole);
            DONE
        }
        Err(failure) => failure.status(),
    }
}

/// Hands over the numbers of what is asked, at most so many.
pub fn sheet_numbers(
    alloc: Global,
    sheet: &mut SheetHandle,
    asked: Option<SheetNumbers>,
    most: usize,
    out: &mut [usize],
    len: &mut usize,
) -> u32
    ensures answer { AnswersInNumbers asked most sheet.old.value result out.old out.new len.new }
    ensures kept { sheet.new.value ≡ sheet.old.value }
{
    let Some(asked) = asked else {
        *len = 0;
        return REFUSED;
    };
    match sheet.ask(alloc, NumbersWithin { asked, most }) {
        Some(outcome) => hand_over_numbers(outcome, out, len),
        None => {
            *len = 0;
            CLOSED
        }
    }
}

/// Hands over the text of what is asked.
pub fn sheet_text(
    alloc: Global,
    sheet: &mut SheetHandle,
    asked: Option<SheetText>,
    out: &mut [u8],
    len: &mut usize,
) -> u32
    ensures answer { AnswersInText asked sheet.old.value result out.old out.new len.new }
    ensures kept { sheet.new.value ≡ sheet.old.value }
{
    let Some(asked) = asked else {
        *len = 0;
        return REFUSED;
    };
    match sheet.ask(alloc, asked) {
        Some(outcome) => hand_over(outcome, out, len),
        None => {
            *len = 0;
            CLOSED
        }
    }
}

/// Lets a sheet go, where the handle has one.
pub fn sheet_free(alloc: Global, sheet: &mut SheetHandle)
    ensures { sheet.new.value ≡ None }
{
    *sheet = SheetHandle::none(alloc);
}
