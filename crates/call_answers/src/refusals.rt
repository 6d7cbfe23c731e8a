//! Where the first error of a text is, and why.

ghost use Rattle.std.specs.Prelude.{◌≡◌, IfOk, string_bytes};
ghost use Rattle.call_answers.specs.Refusals.{position_text as position_text_of};

use css_text::TextPos;
use std::alloc::{AllocError, Global};

/// Returns the row and the column of a position, and what is wrong there, with a space between them.
pub fn position_text(alloc: Global, pos: TextPos, reason: &str) -> Result<String, AllocError>
    ensures { IfOk result (λ text. string_bytes text ≡ position_text_of pos reason.now) }
{
    let (row, column) = (pos.row, pos.col);
    format!(in alloc; "{row} {column} {reason}")
}
