//! Edits of style sheets.

ghost use Rattle.std.specs.Prelude.{◌≡◌};
ghost use Rattle.simplecss_c.specs.EditCalls.{IsSheetEditCall};

use call_answers::answer::{TreeFault, copy_whole};
use css_edit_calls::calls::{Failure, edit};
use css_edits::edits::Refusal;
use std::alloc::Global;

/// The number of the fault of an edit that is where it cannot be.
const MISPLACED: u32 = 6;
/// The number of the fault of an edit that would be read as something else.
const OTHER_SHEET: u32 = 7;
/// The status of a call with a fault.
const FAULT: u32 = 2;

/// Returns the status of an edit that is refused, and sets its number, from 1.
fn refused(kind: u32, index: usize, fault: &mut TreeFault) -> u32
    ensures { ¬ (result ≡ 0) }
{
    fault.fault = kind;
    fault.element = index.saturating_add(1);
    FAULT
}

/// Returns the status of a failure, and sets the number of the edit that it names.
fn status_of(failure: Failure, fault: &mut TreeFault) -> u32
    ensures { ¬ (result ≡ 0) }
{
    match failure {
        Failure::Call(error) => error.status(),
        Failure::Refused(Refusal::Memory) => 3,
        Failure::Refused(Refusal::Misplaced(index)) => refused(MISPLACED, index, fault),
        Failure::Refused(Refusal::Differs(index)) => refused(OTHER_SHEET, index, fault),
    }
}

/// Writes a style sheet with edits, each of which has three numbers and a string.
#[unsafe(no_mangle)]
pub extern "C" fn simplecss_edit(
    alloc: Global,
    text: &[u8],
    edits: &[usize],
    strings: &[u8],
    ends: &[usize],
    out: &mut [u8],
    len: &mut usize,
    fault: &mut TreeFault,
) -> u32
    ensures { IsSheetEditCall text.now edits.now strings.now ends.now result out.old out.new len.new }
{
    *len = 0;
    match edit(alloc, text, edits, strings, ends) {
        Ok(sheet) => copy_whole(sheet.as_bytes(), out, len),
        Err(failure) => status_of(failure, fault),
    }
}
