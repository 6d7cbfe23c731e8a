//! Hints on the heads of rule sets.
ghost use Rattle.std.specs.Prelude.{◌≡◌, ◌++◌, OnOk, IfOk};
ghost use Rattle.simplecss_grammar.specs.Statements.{parts};
ghost use Rattle.simplecss.specs.Hints.{head_hints, head_parts, is_stray, keeps_one, part_hints};
ghost use Rattle.simplecss.specs.Hints.{refuses_one};
ghost use Rattle.simplecss.specs.HintViews.{hints_of};
ghost use Rattle.simplecss.specs.internal.HeadViews.{head_part_of, head_parts_of};
ghost use Rattle.css_text.specs.Comments.{past_blank};
ghost use Rattle.css_text.specs.Cursor.{text_of, rest_of};
ghost use Rattle.css_text.specs.ThisEdition.{this_edition};

use crate::hints::{Hint, HintKind};
use crate::sheet::consume_part;
use css_text::stream::Stream;
use css_text::{readers, scan};
use simplecss_grammar::report::Silent;
use std::alloc::{AllocError, Global};

/// A part of a rule set's head.
#[derive(Clone, Copy)]
pub(crate) struct Part<'a> {
    /// The text from its start on.
    from: &'a str,
    /// Whether its selector is kept.
    is_kept: bool,
}

/// Reads the head of a rule set, and returns its parts.
pub(crate) fn read_head<'a>(alloc: Global, s: &mut Stream<'a>) -> Result<Vec<Part<'a>>, AllocError>
    ensures text { text_of s.new ≡ text_of s.old }
    ensures parts { IfOk result
        (λ found. head_parts_of found.items ≡ head_parts this_edition (rest_of s.old)) }
    ensures rest { OnOk result (rest_of s.new ≡ (parts this_edition (rest_of s.old)).1) }
{
    let mut found = Vec::new(alloc);
    let mut selectors = Vec::new(alloc);
    'parts: loop {
        let from = s.slice_tail();
        selectors.clear();
        consume_part(&mut Silent, alloc, s, &mut selectors)?;
        let is_kept = !selectors.is_empty();
        found.push(Part { from, is_kept })?;
        if !readers::skip_byte(s, b',') {
            return Ok(found);
        }
    }
}

/// Whether a selector of the head is kept.
pub(crate) fn keeps_one(parts: &[Part]) -> bool
    ensures { result ≡ keeps_one (head_parts_of parts.now) }
{
    for part in parts {
        if part.is_kept {
            return true;
        }
    }
    false
}

/// Whether a selector of the head is refused.
fn refuses_one(parts: &[Part]) -> bool
    ensures { result ≡ refuses_one (head_parts_of parts.now) }
{
    for part in parts {
        if !part.is_kept {
            return true;
        }
    }
    false
}

/// Returns the text after the blank at its start.
fn after_blank(text: &str) -> &str
    ensures { result.now ≡ past_blank text.now }
{
    &text[scan::find_gap(text).len..]
}

/// Whether the part's selector is the `*` of a `*/` that closes no comment.
fn is_stray(part: Part) -> bool
    ensures { result ≡ is_stray (head_part_of part.entry) }
{
    part.is_kept && after_blank(part.from).starts_with("*/")
}

/// Adds the hint on a part, if there is one.
fn push_part<'a>(hints: &mut Vec<Hint<'a>>, part: Part<'a>) -> Result<(), AllocError>
    ensures { OnOk result (hints_of hints.new.items
        ≡ hints_of hints.old.items ++ part_hints (head_part_of part.entry)) }
{
    if is_stray(part) {
        hints.push(Hint {
            from: after_blank(part.from),
            kind: HintKind::StrayCommentEnd,
        })?;
    }
    Ok(())
}

/// Adds the hints on the head of the rule set at the start of the text.
pub(crate) fn push_head<'a>(
    hints: &mut Vec<Hint<'a>>,
    text: &'a str,
    parts: &[Part<'a>],
) -> Result<(), AllocError>
    ensures { OnOk result (hints_of hints.new.items
        ≡ hints_of hints.old.items ++ head_hints text.now (head_parts_of parts.now)) }
{
    if keeps_one(parts) && refuses_one(parts) {
        hints.push(Hint {
            from: text,
            kind: HintKind::OtherSelectors,
        })?;
    }
    for part in parts {
        push_part(hints, *part)?;
    }
    Ok(())
}
