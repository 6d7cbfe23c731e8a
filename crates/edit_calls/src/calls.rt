//! What the call answers.

ghost use Rattle.std.specs.Prelude.{IfOk};
ghost use Rattle.edit_calls.specs.EditCalls.{IsPageEdited};

use crate::numbers::Numbers;
use html_edits::editing::edited;
use html_edits::edits::{Edit, Language, Refusal};
use std::alloc::Global;

const MARK: &[u8] = &[0xEF, 0xBB, 0xBF];

/// Returns a page with edits, of which a mark of the order of bytes at its front is no part.
fn edited_page(
    alloc: Global,
    language: Language,
    page: &[u8],
    edits: &[Edit<'_>],
) -> Result<Vec<u8>, Refusal>
    ensures { IfOk result (λ text. IsPageEdited language page.now text.items) }
{
    let Some(rest) = page.strip_prefix(MARK) else {
        return edited(alloc, language, page, edits);
    };
    let text = edited(alloc, language, rest, edits)?;
    let mut out = Vec::from_slice(alloc, MARK)?;
    out.extend_from_slice(text.as_slice())?;
    Ok(out)
}

/// Returns a page with the edits that numbers and strings stand for.
pub fn edit(
    alloc: Global,
    language: Language,
    page: &[u8],
    rows: &[usize],
    strings: &[u8],
    ends: &[usize],
) -> Result<Vec<u8>, Refusal>
    ensures { IfOk result (λ text. IsPageEdited language page.now text.items) }
{
    let start = if page.starts_with(MARK) {
        MARK.len()
    } else {
        0
    };
    let numbers = Numbers {
        rows,
        strings,
        ends,
        start,
    };
    let changes = numbers.changes(alloc)?;
    match numbers.edits(alloc, changes.as_slice())? {
        Some(edits) => edited_page(alloc, language, page, edits.as_slice()),
        None => Err(Refusal::Misplaced),
    }
}
