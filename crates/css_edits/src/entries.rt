//! What a sheet has, one after another.
ghost use Rattle.std.specs.Prelude.{◌≡◌, ◌++◌, ◌∷◌, [], ◌+◌, ◌<◌, ◌≤◌, ◌^◌, IfOk, OnOk, true, length, map, take, drop};
ghost use Rattle.std.specs.List.{flat_map};
ghost use Rattle.css_syntax.specs.Placed.{placed_items};
ghost use Rattle.css_syntax.specs.Views.{list_part_of};
ghost use Rattle.css_sheet.specs.ContentViews.{content_of};
ghost use Rattle.css_edits.specs.Entries.{entries, item_entry, content_entries, ends_open as ends_open_of, is_whole as is_whole_of};
ghost use Rattle.css_edits.specs.Entries.{depth_after as depth_after_of, depth_past as depth_past_of};
ghost use Rattle.css_edits.specs.internal.Views.{entry_of, said_text, said_texts};

use css_sheet::{Part, PlacedPart, RuleKind, read_contents};
use css_syntax::Item;
use css_syntax::declarations::{FoundPart, read_part};
use std::alloc::{AllocError, Global};

/// What a sheet has.
#[derive(Clone, Copy)]
pub(crate) enum Said<'a> {
    /// A style rule or a group rule begins.
    Opens(RuleKind<'a>),
    /// The innermost rule ends.
    Closes,
    /// An item that is no such rule.
    Holds(Item<'a>),
}

/// What a sheet has, and the offset at which it begins.
#[derive(Clone, Copy)]
pub(crate) struct Entry<'a> {
    pub(crate) said: Said<'a>,
    pub(crate) start: usize,
}

/// Appends an item of a part of a sheet, which ends at this offset.
#[tactic(auto, using(crate::proofs::Cuts::more_entries))]
fn push_item<'a>(
    found: &mut Vec<Entry<'a>>,
    read: &FoundPart<'a>,
    end: usize,
) -> Result<(), AllocError>
    ensures { OnOk result (map entry_of found.new.items ≡ map entry_of found.old.items
        ++ item_entry end (record { part = list_part_of read.now.part; from = read.now.from.now }) ∷ []) }
{
    found.push(Entry {
        said: Said::Holds(read.part.item),
        start: end.saturating_sub(read.from.len()),
    })?;
    Ok(())
}

/// Returns the items of a part of a sheet, which ends at this offset.
fn items_in<'a>(alloc: Global, text: &'a str, end: usize) -> Result<Vec<Entry<'a>>, AllocError>
    ensures { IfOk result (λ found. map entry_of found.items
        ≡ map (item_entry end) (placed_items true text.now)) }
{
    let mut found = Vec::new(alloc);
    let mut rest = text;
    'items: while let Some(read) = read_part(rest, true) {
        push_item(&mut found, &read, end)?;
        rest = read.rest;
    }
    Ok(found)
}

/// Appends what a part of a sheet of this many bytes is.
#[tactic(auto, using(crate::proofs::Cuts::more_entries))]
fn push_part<'a>(
    found: &mut Vec<Entry<'a>>,
    alloc: Global,
    part: &PlacedPart<'a>,
    size: usize,
) -> Result<(), AllocError>
    ensures { OnOk result (map entry_of found.new.items
        ≡ map entry_of found.old.items ++ content_entries size (content_of size part.now)) }
{
    let start = size.saturating_sub(part.from.len());
    let said = match part.part {
        Part::States(text) => {
            let items = items_in(alloc, text, size.saturating_sub(part.rest.len()))?;
            return found.extend_from_slice(items.as_slice());
        }
        Part::Begins(kind) => Said::Opens(kind),
        Part::Ends => Said::Closes,
        Part::Stands(item) => Said::Holds(item),
    };
    found.push(Entry { said, start })?;
    Ok(())
}

/// Returns what the parts of a sheet of this many bytes are.
fn entries_of<'a>(
    alloc: Global,
    parts: &[PlacedPart<'a>],
    size: usize,
) -> Result<Vec<Entry<'a>>, AllocError>
    ensures { IfOk result (λ found. map entry_of found.items
        ≡ flat_map (content_entries size) (map (content_of size) parts.now)) }
{
    let mut found = Vec::new(alloc);
    let mut rest = parts;
    'parts: while let [part, after @ ..] = rest {
        push_part(&mut found, alloc, part, size)?;
        rest = after;
    }
    Ok(found)
}

/// Returns what a sheet has, in order.
pub(crate) fn read_entries<'a>(alloc: Global, text: &'a str) -> Result<Vec<Entry<'a>>, AllocError>
    ensures { IfOk result (λ found. map entry_of found.items ≡ entries text.now) }
{
    let parts = read_contents(alloc, text)?;
    entries_of(alloc, parts.as_slice(), text.len())
}

/// Whether each rule that begins in some entries ends there, and no other.
pub(crate) fn is_whole(entries: &[Entry<'_>]) -> bool
    ensures { result ≡ is_whole_of (said_texts entries.now) }
{
    let mut depth: usize = 0;
    let mut rest = entries;
    'entries: while let [entry, after @ ..] = rest {
        match entry.said {
            Said::Opens(_) => depth += 1,
            Said::Closes if depth == 0 => return false,
            Said::Closes => depth -= 1,
            Said::Holds(_) => {}
        }
        rest = after;
    }
    depth == 0
}

/// Returns in how many rules something is, counted from the outermost style rule, after an entry.
fn depth_after(depth: usize, said: &Said<'_>) -> usize
    requires { depth < 2 ^ 63 }
    ensures { result ≡ depth_after_of depth (said_text said.now) }
{
    match said {
        Said::Opens(RuleKind::Style(_)) => depth + 1,
        Said::Opens(RuleKind::Group(_, _)) if depth == 0 => 0,
        Said::Opens(RuleKind::Group(_, _)) => depth + 1,
        Said::Closes => depth.saturating_sub(1),
        Said::Holds(_) => depth,
    }
}

/// Returns in how many rules something is, counted from the outermost style rule, after some entries.
pub(crate) fn depth_past(depth: usize, entries: &[Entry<'_>]) -> usize
    requires { depth + length entries.now < 2 ^ 63 }
    ensures is { result ≡ depth_past_of depth (said_texts entries.now) }
    ensures small { result ≤ depth + length entries.now }
{
    let mut found = depth;
    let mut rest = entries;
    'entries: while let [entry, after @ ..] = rest {
        found = depth_after(found, &entry.said);
        rest = after;
    }
    found
}

/// Returns the first entries, as many as these.
pub(crate) fn front<'n, 'a>(entries: &'n [Entry<'a>], count: usize) -> &'n [Entry<'a>]
    ensures { result.now ≡ take count entries.now }
{
    &entries[..count.min(entries.len())]
}

/// Returns the entries after the first ones, as many as these.
pub(crate) fn past<'n, 'a>(entries: &'n [Entry<'a>], count: usize) -> &'n [Entry<'a>]
    ensures { result.now ≡ drop count entries.now }
{
    &entries[count.min(entries.len())..]
}
