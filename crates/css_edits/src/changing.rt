//! What an edit makes of the entries that it changes.
ghost use Rattle.std.specs.Prelude.{◌≡◌, ◌++◌, true, IfOk, IfSome, map, drop, length, string_bytes};
ghost use Rattle.css_edits.specs.Changes.{in_rule as in_rule_of, inside as inside_of, piece, changed, may_change};
ghost use Rattle.css_edits.specs.internal.Views.{said_texts};

use crate::edits::Change;
use crate::entries::{Entry, front, is_whole, past, read_entries};
use crate::pieces::with_piece;
use crate::same::{begins_with, is_same};
use std::alloc::{AllocError, Global};

/// Whether entries begin with what an edit of a piece makes of some.
fn begins_with_pieces(change: Change, text: &str, old: &[Entry<'_>], found: &[Entry<'_>]) -> bool
    ensures { result ≡ true → said_texts found.now
        ≡ map (piece change text.now) (said_texts old.now) ++ said_texts (drop (length old.now) found.now) }
{
    let mut left = old;
    let mut rest = found;
    'entries: while let [one, more @ ..] = left {
        let wanted = with_piece(change, text, one.said);
        match rest {
            [other, after @ ..] if is_same(&wanted, &other.said) => {
                left = more;
                rest = after;
            }
            _ => return false,
        }
    }
    true
}

/// Returns how many entries those are that an edit of a piece makes of some, if others begin with these.
fn count_pieces(change: Change, text: &str, old: &[Entry<'_>], found: &[Entry<'_>]) -> Option<usize>
    ensures { IfSome result (λ count. said_texts found.now
        ≡ map (piece change text.now) (said_texts old.now) ++ said_texts (drop count found.now)) }
{
    if !begins_with_pieces(change, text, old, found) {
        return None;
    }
    Some(old.len())
}

/// Returns how many entries those of a sheet are, if some begin with these, in no style rule, and if both are whole.
fn count_statements(
    alloc: Global,
    text: &str,
    depth: usize,
    old: &[Entry<'_>],
    found: &[Entry<'_>],
) -> Result<Option<usize>, AllocError>
    ensures change { IfOk result (λ count. IfSome count (λ count. said_texts found.now
        ≡ changed Change.Statements text.now (said_texts old.now) ++ said_texts (drop count found.now))) }
    ensures may { IfOk result (λ count. IfSome count (λ _.
        may_change Change.Statements text.now depth (said_texts old.now) ≡ true)) }
{
    let said = read_entries(alloc, text)?;
    if depth != 0 || !is_whole(old) || !is_whole(said.as_slice()) {
        return Ok(None);
    }
    if !begins_with(found, said.as_slice()) {
        return Ok(None);
    }
    Ok(Some(said.len()))
}

/// Returns a style rule with this text in its block.
fn in_rule(alloc: Global, text: &str) -> Result<String, AllocError>
    ensures { IfOk result (λ rule. string_bytes rule ≡ in_rule_of text.now) }
{
    let mut rule = String::new(alloc);
    rule.push_str("a{")?;
    rule.push_str(text)?;
    rule.push_str("}")?;
    Ok(rule)
}

/// Returns the entries between the first and the last.
fn inside<'n, 'a>(entries: &'n [Entry<'a>]) -> &'n [Entry<'a>]
    ensures { said_texts result.now ≡ inside_of (said_texts entries.now) }
{
    let count = entries.len().saturating_sub(2);
    let rest = past(entries, 1);
    front(rest, count)
}

/// Returns how many entries those of the contents of a style rule are, if some begin with these, in a style rule, and
/// if both are whole.
fn count_contents(
    alloc: Global,
    text: &str,
    depth: usize,
    old: &[Entry<'_>],
    found: &[Entry<'_>],
) -> Result<Option<usize>, AllocError>
    ensures change { IfOk result (λ count. IfSome count (λ count. said_texts found.now
        ≡ changed Change.Contents text.now (said_texts old.now) ++ said_texts (drop count found.now))) }
    ensures may { IfOk result (λ count. IfSome count (λ _.
        may_change Change.Contents text.now depth (said_texts old.now) ≡ true)) }
{
    let rule = in_rule(alloc, text)?;
    let all = read_entries(alloc, rule.as_str())?;
    let said = inside(all.as_slice());
    if depth == 0 || !is_whole(old) || !is_whole(all.as_slice()) || !is_whole(said) {
        return Ok(None);
    }
    if !begins_with(found, said) {
        return Ok(None);
    }
    Ok(Some(said.len()))
}

/// Returns how many entries those are that an edit makes of some, if others begin with these, and if it may.
pub(crate) fn count_changed(
    alloc: Global,
    change: Change,
    text: &str,
    depth: usize,
    old: &[Entry<'_>],
    found: &[Entry<'_>],
) -> Result<Option<usize>, AllocError>
    ensures change { IfOk result (λ count. IfSome count (λ count. said_texts found.now
        ≡ changed change text.now (said_texts old.now) ++ said_texts (drop count found.now))) }
    ensures may { IfOk result (λ count. IfSome count (λ _.
        may_change change text.now depth (said_texts old.now) ≡ true)) }
{
    match change {
        Change::Prelude | Change::Value | Change::Block => {
            Ok(count_pieces(change, text, old, found))
        }
        Change::Statements => count_statements(alloc, text, depth, old, found),
        Change::Contents => count_contents(alloc, text, depth, old, found),
    }
}
