//! Style sheets that the library keeps.

ghost use Rattle.std.specs.Prelude.{◌≡◌, None};
ghost use Rattle.kept_sheets.specs.SheetCalls.{AnswersInNumbers, AnswersInText, IsMade};
ghost use Rattle.simplecss_c.specs.SheetQuestions.{numbers_asked as numbers_asked_of, text_asked as text_asked_of};

use css_sheet::Layout;
use kept_sheets::{SheetHandle, SheetNumbers, SheetText, calls};
use std::alloc::Global;

/// What is asked in numbers by a number.
fn numbers_asked(asked: usize) -> Option<SheetNumbers>
    ensures { result ≡ numbers_asked_of asked }
{
    match asked {
        0 => Some(SheetNumbers::Statements),
        1 => Some(SheetNumbers::Contents),
        _ => None,
    }
}

/// What is asked as a text by a number.
fn text_asked(asked: usize) -> Option<SheetText>
    ensures { result ≡ text_asked_of asked }
{
    match asked {
        0 => Some(SheetText::Printed(Layout::Short)),
        1 => Some(SheetText::Printed(Layout::Lines)),
        2 => Some(SheetText::Imports),
        _ => None,
    }
}

/// Keeps a copy of a text as a style sheet. What the handle had before is let go.
#[unsafe(no_mangle)]
pub extern "C" fn simplecss_sheet_new(alloc: Global, text: &[u8], out: &mut SheetHandle) -> u32
    ensures { IsMade text.now result out.new.value }
{
    calls::sheet_new(alloc, text, out)
}

/// Writes what is asked of a style sheet, with offsets into it: of each statement ten numbers of what it is and where, how many
/// there are of its group rules, its selectors and its items, and these, six of each group rule, nine of each selector and ten
/// of each item; or ten of each item in a style rule, of each style rule and group rule where its block begins, and of
/// each block where it ends.
#[unsafe(no_mangle)]
pub extern "C" fn simplecss_sheet_numbers(
    alloc: Global,
    sheet: &mut SheetHandle,
    asked: usize,
    most: usize,
    out: &mut [usize],
    len: &mut usize,
) -> u32
    ensures answer { AnswersInNumbers (numbers_asked_of asked) most sheet.old.value
        result out.old out.new len.new }
    ensures kept { sheet.new.value ≡ sheet.old.value }
{
    calls::sheet_numbers(alloc, sheet, numbers_asked(asked), most, out, len)
}

/// Writes what is asked of a style sheet: its printed text, with no more bytes than are needed or with a line for each
/// declaration and each rule; or of each `@import` that is in force a line of nine numbers, and its url, the name of its
/// layer, its condition and its media queries, one after another, with a newline.
#[unsafe(no_mangle)]
pub extern "C" fn simplecss_sheet_text(
    alloc: Global,
    sheet: &mut SheetHandle,
    asked: usize,
    out: &mut [u8],
    len: &mut usize,
) -> u32
    ensures answer { AnswersInText (text_asked_of asked) sheet.old.value result out.old out.new len.new }
    ensures kept { sheet.new.value ≡ sheet.old.value }
{
    calls::sheet_text(alloc, sheet, text_asked(asked), out, len)
}

/// Lets a style sheet go, where the handle has one.
#[unsafe(no_mangle)]
pub extern "C" fn simplecss_sheet_free(alloc: Global, sheet: &mut SheetHandle)
    ensures { sheet.new.value ≡ None }
{
    calls::sheet_free(alloc, sheet)
}
