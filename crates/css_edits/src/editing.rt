//! A sheet with edits.
ghost use Rattle.std.specs.Prelude.{◌≡◌, ◌++◌, ◌+◌, ◌-◌, ◌<◌, ◌≤◌, ◌^◌, true, IfOk, length, map, drop, string_bytes};
ghost use Rattle.css_edits.specs.Changes.{before as before_of, count_before as count_before_of, count_in as count_in_of};
ghost use Rattle.css_edits.specs.Changes.{kept_before as kept_before_of, in_edit, from_edit as from_edit_of, after_edit as after_edit_of, depth_at as depth_at_of, changed, may_change, edited as edited_of, may_be_made};
ghost use Rattle.css_edits.specs.Editing.{IsEdited};
ghost use Rattle.css_edits.specs.Entries.{entries, said_in, said_of, depth_past as depth_past_of};
ghost use Rattle.css_edits.specs.internal.Views.{entry_of, said_texts};

use crate::changing::count_changed;
use crate::edits::{Change, Edit, Refusal};
use crate::entries::{Entry, depth_past, front, past, read_entries};
use crate::same::begins_with;
use crate::splicing::spliced;
use std::alloc::Global;

/// Returns how many entries at the front begin before an offset, or also with it.
fn before(with: bool, offset: usize, entries: &[Entry<'_>]) -> usize
    ensures { result ≡ before_of with offset (map entry_of entries.now) }
{
    let mut count: usize = 0;
    let mut rest = entries;
    'entries: while let [entry, after @ ..] = rest {
        if !(entry.start < offset || (with && entry.start == offset)) {
            return count;
        }
        count += 1;
        rest = after;
    }
    count
}

/// Returns how many entries come before those that an edit changes.
fn count_before(edit: &Edit<'_>, old: &[Entry<'_>]) -> usize
    ensures { result ≡ count_before_of edit.now.change edit.now.from (map entry_of old.now) }
{
    match edit.change {
        Change::Prelude | Change::Value | Change::Block => {
            before(true, edit.from, old).saturating_sub(1)
        }
        Change::Statements | Change::Contents => before(false, edit.from, old),
    }
}

/// Returns how many entries an edit changes, of those from the first one on.
fn count_in(edit: &Edit<'_>, old: &[Entry<'_>]) -> usize
    ensures { result ≡ count_in_of edit.now.change edit.now.to (map entry_of old.now) }
{
    match edit.change {
        Change::Prelude | Change::Value | Change::Block => 1,
        Change::Statements | Change::Contents => before(false, edit.to, old),
    }
}

/// Returns the entries from the first that an edit changes on.
#[tactic(auto, using(crate::proofs::Cuts::drop_entries))]
fn from_edit<'n, 'a>(edit: &Edit<'_>, old: &'n [Entry<'a>]) -> &'n [Entry<'a>]
    ensures { map entry_of result.now ≡ from_edit_of edit.now (map entry_of old.now) }
{
    past(old, count_before(edit, old))
}

/// Returns the entries after those that an edit changes.
#[tactic(auto, using(crate::proofs::Cuts::drop_entries))]
fn after_edit<'n, 'a>(edit: &Edit<'_>, old: &'n [Entry<'a>]) -> &'n [Entry<'a>]
    ensures { map entry_of result.now ≡ after_edit_of edit.now (map entry_of old.now) }
{
    let from = from_edit(edit, old);
    past(from, count_in(edit, from))
}

/// Returns in how many rules an edit is, counted from the outermost style rule, where what is left is in so many.
#[tactic(auto, using(crate::proofs::Cuts::take_entries, crate::proofs::Cuts::count_entries, crate::proofs::Cuts::both_parts))]
fn depth_at(depth: usize, edit: &Edit<'_>, old: &[Entry<'_>]) -> usize
    requires { depth + length old.now < 2 ^ 63 }
    ensures is { result ≡ depth_at_of depth edit.now (map entry_of old.now) }
    ensures small { result + length (from_edit_of edit.now (map entry_of old.now)) ≤ depth + length old.now }
{
    depth_past(depth, front(old, count_before(edit, old)))
}

/// Returns the same after an edit that is in so many.
#[tactic(auto, using(crate::proofs::Cuts::take_entries, crate::proofs::Cuts::count_entries, crate::proofs::Cuts::both_parts))]
fn depth_left(depth: usize, edit: &Edit<'_>, old: &[Entry<'_>]) -> usize
    requires { depth + length (from_edit_of edit.now (map entry_of old.now)) < 2 ^ 63 }
    ensures is { result ≡ depth_past_of depth (map said_of (in_edit edit.now (map entry_of old.now))) }
    ensures small { result + length (after_edit_of edit.now (map entry_of old.now))
        ≤ depth + length (from_edit_of edit.now (map entry_of old.now)) }
{
    let from = from_edit(edit, old);
    depth_past(depth, front(from, count_in(edit, from)))
}

/// Returns the entries before those that an edit changes.
#[tactic(auto, using(crate::proofs::Cuts::take_entries))]
fn kept_before<'n, 'a>(edit: &Edit<'_>, old: &'n [Entry<'a>]) -> &'n [Entry<'a>]
    ensures { map entry_of result.now ≡ kept_before_of edit.now (map entry_of old.now) }
{
    front(old, count_before(edit, old))
}

/// Returns how many entries those are that the edit of this number, in so many rules, makes of those that it changes, if
/// some begin with these.
#[tactic(auto, using(crate::proofs::Cuts::take_entries))]
fn count_made(
    alloc: Global,
    edit: &Edit<'_>,
    number: usize,
    depth: usize,
    old: &[Entry<'_>],
    found: &[Entry<'_>],
) -> Result<usize, Refusal>
    ensures change { IfOk result (λ count. said_texts found.now
        ≡ changed edit.now.change edit.now.text.now (map said_of (in_edit edit.now (map entry_of old.now)))
        ++ said_texts (drop count found.now)) }
    ensures may { IfOk result (λ _. may_change edit.now.change edit.now.text.now depth
        (map said_of (in_edit edit.now (map entry_of old.now))) ≡ true) }
{
    let from = from_edit(edit, old);
    let inside = front(from, count_in(edit, from));
    match count_changed(alloc, edit.change, edit.text, depth, inside, found)? {
        Some(count) => Ok(count),
        None => Err(Refusal::Differs(number)),
    }
}

/// Checks that a sheet says what another one said, with what edits make of it.
fn check(
    alloc: Global,
    old: &[Entry<'_>],
    edits: &[Edit<'_>],
    new: &[Entry<'_>],
) -> Result<(), Refusal>
    ensures said { IfOk result (λ _. said_texts new.now ≡ edited_of (map entry_of old.now) edits.now) }
    ensures made { IfOk result (λ _. may_be_made 0 (map entry_of old.now) edits.now ≡ true) }
{
    let mut depth: usize = 0;
    let mut left = old;
    let mut found = new;
    let mut rest = edits;
    'edits: while let [edit, after @ ..] = rest {
        let number = edits.len().saturating_sub(rest.len());
        let within = depth_at(depth, edit, left);
        let kept = kept_before(edit, left);
        if !begins_with(found, kept) {
            return Err(Refusal::Differs(number));
        }
        found = past(found, kept.len());
        let count = count_made(alloc, edit, number, within, left, found)?;
        found = past(found, count);
        depth = depth_left(within, edit, left);
        left = after_edit(edit, left);
        rest = after;
    }
    if found.len() != left.len() || !begins_with(found, left) {
        return Err(Refusal::Differs(edits.len().saturating_sub(1)));
    }
    Ok(())
}

/// Checks that a text says what a sheet said, with what edits make of it.
fn check_text(alloc: Global, sheet: &str, edits: &[Edit<'_>], text: &str) -> Result<(), Refusal>
    ensures said { IfOk result (λ _. said_in text.now ≡ edited_of (entries sheet.now) edits.now) }
    ensures made { IfOk result (λ _. may_be_made 0 (entries sheet.now) edits.now ≡ true) }
{
    let old = read_entries(alloc, sheet)?;
    let new = read_entries(alloc, text)?;
    check(alloc, old.as_slice(), edits, new.as_slice())
}

/// Returns a sheet with edits, which are in order of their places.
///
/// Every other byte stays. The sheet is read again: it says what it said, with what the edits make of it.
pub fn edited(alloc: Global, sheet: &str, edits: &[Edit<'_>]) -> Result<String, Refusal>
    ensures { IfOk result (λ text. IsEdited sheet.now edits.now (string_bytes text)) }
{
    let written = spliced(alloc, sheet, edits)?;
    let Ok(text) = String::from_utf8(written) else {
        return Err(Refusal::Misplaced(edits.len()));
    };
    check_text(alloc, sheet, edits, text.as_str())?;
    Ok(text)
}
