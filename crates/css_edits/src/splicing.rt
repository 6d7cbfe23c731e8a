//! A text with others in place of parts of it.
ghost use Rattle.std.specs.Prelude.{◌≡◌, IfOk, true, length};
ghost use Rattle.css_edits.specs.Splicing.{spliced as spliced_of, are_in_order};

use crate::edits::{Edit, Refusal};
use std::alloc::Global;

/// Whether a character begins at an offset, or the text ends.
fn is_boundary(bytes: &[u8], at: usize) -> bool {
    !matches!(bytes.get(at), Some(0x80..=0xBF))
}

/// Returns a text with others in place of parts of it, which are in order.
pub(crate) fn spliced(alloc: Global, text: &str, edits: &[Edit<'_>]) -> Result<Vec<u8>, Refusal>
    ensures order { IfOk result (λ new. are_in_order 0 (length text.now) edits.now ≡ true) }
    ensures text { IfOk result (λ new. new.items ≡ spliced_of text.now 0 edits.now) }
{
    let bytes = text.as_bytes();
    let mut out = Vec::new(alloc);
    let mut last: usize = 0;
    let mut rest = edits;
    'edits: while let [edit, after @ ..] = rest {
        let is_placed = last <= edit.from && edit.from <= edit.to && edit.to <= bytes.len();
        if !is_placed || !is_boundary(bytes, edit.from) || !is_boundary(bytes, edit.to) {
            return Err(Refusal::Misplaced(edits.len().saturating_sub(rest.len())));
        }
        out.extend_from_slice(&bytes[last..edit.from])?;
        out.extend_from_slice(edit.text.as_bytes())?;
        last = edit.to;
        rest = after;
    }
    out.extend_from_slice(&bytes[last..])?;
    Ok(out)
}
