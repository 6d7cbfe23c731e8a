//! A page with texts in place of parts of it.
ghost use Rattle.std.specs.Prelude.{◌≡◌, IfOk, true, length};
ghost use Rattle.html_edits.specs.Splicing.{spliced as spliced_of, are_in_order};

use crate::edits::Refusal;
use std::alloc::Global;

/// A text that takes the place of a part of a page.
#[derive(Drop)]
pub struct Splice {
    /// Where the part begins.
    pub from: usize,
    /// Where it ends.
    pub to: usize,
    /// The text.
    pub text: Vec<u8>,
}

/// Returns a page with texts in place of parts of it, which are in order.
pub(crate) fn spliced(alloc: Global, page: &[u8], splices: &[Splice]) -> Result<Vec<u8>, Refusal>
    ensures order { IfOk result (λ text. are_in_order 0 (length page.now) splices.now ≡ true) }
    ensures text { IfOk result (λ text. text.items ≡ spliced_of page.now 0 splices.now) }
{
    let mut out = Vec::new(alloc);
    let mut last: usize = 0;
    let mut rest = splices;
    'splices: while let [splice, after @ ..] = rest {
        if splice.from < last || splice.to < splice.from || page.len() < splice.to {
            return Err(Refusal::Misplaced);
        }
        out.extend_from_slice(&page[last..splice.from])?;
        out.extend_from_slice(splice.text.as_slice())?;
        last = splice.to;
        rest = after;
    }
    out.extend_from_slice(&page[last..])?;
    Ok(out)
}
