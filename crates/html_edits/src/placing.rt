//! What each edit writes, and where.
ghost use Rattle.std.specs.Prelude.{◌≡◌, true, IfOk, drop, slice_get, slice_range, Some};
ghost use Rattle.css_html.specs.Views.{token_of};
ghost use Rattle.html_edits.specs.Placing.{EndsSheet, EndsText, IsElement, IsSplice, AreSplices};
ghost use Rattle.html_edits.specs.Placing.{tag_start as tag_start_of, tag_end as tag_end_of};
ghost use Rattle.html_edits.specs.Placing.{puts_in as puts_in_of, put_places as put_places_of, begin_tags as begin_tags_of};

use crate::attributes::{is_style_tag, tag_name};
use crate::edits::{Change, Edit, Language, Refusal};
use crate::elements::{element_text, ends_sheet, ends_text, is_sheet_instruction, prefix_of};
use crate::rewriting::changed_tag;
use crate::splicing::Splice;
use crate::style_texts::style_text;
use css_html::tokenizer::Token;
use std::alloc::Global;

/// Returns where a tag of a page begins.
fn tag_start(page: &[u8], tag: &Token<'_>) -> usize
    ensures { result ≡ tag_start_of page.now tag.now }
{
    page.len().saturating_sub(tag.from.len())
}

/// Returns where a tag of a page ends.
fn tag_end(page: &[u8], tag: &Token<'_>) -> usize
    ensures { result ≡ tag_end_of page.now tag.now }
{
    page.len().saturating_sub(tag.rest.len())
}

/// Returns the part of a page between two places.
fn part(page: &[u8], from: usize, to: usize) -> Result<&[u8], Refusal>
    ensures { IfOk result (λ found. found.now ≡ slice_range page.now from to) }
{
    if to < from || page.len() < to {
        return Err(Refusal::Misplaced);
    }
    Ok(&page[from..to])
}

/// Checks that a text of a `style` may end at a place.
fn check_text_end(
    language: Language,
    page: &[u8],
    tag: &Token<'_>,
    to: usize,
) -> Result<(), Refusal>
    ensures { IfOk result (λ _. EndsText language (token_of tag.now)
        (slice_range page.now (tag_end_of page.now tag.now) to) (drop to page.now)) }
{
    let between = part(page, tag_end(page, tag), to)?;
    if ends_text(language, tag, between, &page[to.min(page.len())..]) {
        Ok(())
    } else {
        Err(Refusal::Misplaced)
    }
}

/// Returns the splice that puts in a `style` element between two places.
fn element_splice(
    alloc: Global,
    language: Language,
    from: usize,
    to: usize,
    prefix: &[u8],
    text: &[u8],
) -> Result<Splice, Refusal>
    ensures from { IfOk result (λ s. s.from ≡ from) }
    ensures to { IfOk result (λ s. s.to ≡ to) }
    ensures element { IfOk result (IsElement language prefix.now text.now) }
{
    let inside = style_text(alloc, language, text)?;
    let text = element_text(alloc, language, prefix, inside.as_slice())?;
    Ok(Splice { from, to, text })
}

/// Returns the tag with an index.
fn tag_at<'t, 'a>(tags: &'t [Token<'a>], index: usize) -> Result<&'t Token<'a>, Refusal>
    ensures { IfOk result (λ tag. slice_get tags.now index ≡ Some tag.now) }
{
    match tags.get(index) {
        Some(tag) => Ok(tag),
        None => Err(Refusal::Misplaced),
    }
}

/// Returns where the element of a sheet begins that ends at a place.
fn sheet_start(
    language: Language,
    page: &[u8],
    tag: &Token<'_>,
    to: usize,
) -> Result<usize, Refusal>
    ensures start { IfOk result (λ start. start ≡ tag_start_of page.now tag.now) }
    ensures ends { IfOk result (λ _. EndsSheet language (token_of tag.now)
        (slice_range page.now (tag_end_of page.now tag.now) to)) }
{
    let between = part(page, tag_end(page, tag), to)?;
    if ends_sheet(language, tag, between) {
        Ok(tag_start(page, tag))
    } else {
        Err(Refusal::Misplaced)
    }
}

/// Returns the splice that changes the attributes of a tag.
fn tag_splice(
    alloc: Global,
    language: Language,
    page: &[u8],
    tags: &[Token<'_>],
    index: usize,
    changes: &[Change<'_>],
) -> Result<Splice, Refusal>
    ensures { IfOk result (IsSplice language page.now tags.now (Edit.Tag index changes.entry)) }
{
    let tag = tag_at(tags, index)?;
    let text = changed_tag(alloc, language, index, tag, changes)?;
    Ok(Splice {
        from: tag_start(page, tag),
        to: tag_end(page, tag),
        text,
    })
}

/// Returns the splice that replaces the text of a `style` element.
fn text_splice(
    alloc: Global,
    language: Language,
    page: &[u8],
    tags: &[Token<'_>],
    index: usize,
    to: usize,
    text: &[u8],
) -> Result<Splice, Refusal>
    ensures { IfOk result (IsSplice language page.now tags.now (Edit.Text index to text.entry)) }
{
    let tag = tag_at(tags, index)?;
    let from = tag_end(page, tag);
    if !is_style_tag(language, tag) {
        return Err(Refusal::Misplaced);
    }
    check_text_end(language, page, tag, to)?;
    let text = style_text(alloc, language, text)?;
    Ok(Splice { from, to, text })
}

/// Returns the splice that replaces the element of a sheet by a `style` element.
fn sheet_splice(
    alloc: Global,
    language: Language,
    page: &[u8],
    tags: &[Token<'_>],
    index: usize,
    to: usize,
    text: &[u8],
) -> Result<Splice, Refusal>
    ensures { IfOk result (IsSplice language page.now tags.now (Edit.Replace index to text.entry)) }
{
    let tag = tag_at(tags, index)?;
    let from = sheet_start(language, page, tag, to)?;
    let prefix = prefix_of(language, tag_name(tag));
    element_splice(alloc, language, from, to, prefix, text)
}

/// Returns the splice that takes out an instruction that names a sheet.
fn instruction_splice(
    alloc: Global,
    language: Language,
    page: &[u8],
    tags: &[Token<'_>],
    from: usize,
    to: usize,
) -> Result<Splice, Refusal>
    ensures { IfOk result (IsSplice language page.now tags.now (Edit.TakeOutInstruction from to)) }
{
    if !is_sheet_instruction(language, part(page, from, to)?) {
        return Err(Refusal::Misplaced);
    }
    let text = Vec::new(alloc);
    Ok(Splice { from, to, text })
}

/// Returns what an edit of a page with these start tags writes, and where.
fn splice_of(
    alloc: Global,
    language: Language,
    page: &[u8],
    tags: &[Token<'_>],
    edit: Edit<'_>,
) -> Result<Splice, Refusal>
    ensures { IfOk result (IsSplice language page.now tags.now edit.entry) }
{
    match edit {
        Edit::Tag(index, changes) => tag_splice(alloc, language, page, tags, index, changes),
        Edit::Text(index, to, text) => text_splice(alloc, language, page, tags, index, to, text),
        Edit::PutIn(at, prefix, text) => element_splice(alloc, language, at, at, prefix, text),
        Edit::TakeOut(index, to) => Ok(Splice {
            from: sheet_start(language, page, tag_at(tags, index)?, to)?,
            to,
            text: Vec::new(alloc),
        }),
        Edit::Replace(index, to, text) => {
            sheet_splice(alloc, language, page, tags, index, to, text)
        }
        Edit::TakeOutInstruction(from, to) => {
            instruction_splice(alloc, language, page, tags, from, to)
        }
    }
}

/// Returns what each edit of a page with these start tags writes, and where.
pub(crate) fn splices_of(
    alloc: Global,
    language: Language,
    page: &[u8],
    tags: &[Token<'_>],
    edits: &[Edit<'_>],
) -> Result<Vec<Splice>, Refusal>
    ensures { IfOk result (λ splices. AreSplices language page.now tags.now edits.now splices.items) }
{
    let mut splices = Vec::new(alloc);
    for edit in edits {
        splices.push(splice_of(alloc, language, page, tags, *edit)?)?;
    }
    Ok(splices)
}

/// Whether an edit puts in an element.
fn puts_in(edit: Edit<'_>) -> bool
    ensures { result ≡ puts_in_of edit.entry }
{
    matches!(edit, Edit::PutIn(..) | Edit::Replace(..))
}

/// Returns where in the text elements are put in by edits, which write these splices.
pub(crate) fn put_places(
    alloc: Global,
    edits: &[Edit<'_>],
    splices: &[Splice],
) -> Result<Vec<usize>, Refusal>
    ensures { IfOk result (λ places. places.items ≡ put_places_of 0 0 edits.now splices.now) }
{
    let mut places = Vec::new(alloc);
    let (mut size, mut last): (usize, usize) = (0, 0);
    let (mut left, mut right) = (edits, splices);
    'edits: while let [edit, more @ ..] = left {
        let [splice, after @ ..] = right else {
            break;
        };
        let Some(place) = size.checked_add(splice.from.saturating_sub(last)) else {
            return Err(Refusal::Misplaced);
        };
        let Some(end) = place.checked_add(splice.text.len()) else {
            return Err(Refusal::Misplaced);
        };
        if puts_in(*edit) {
            places.push(place)?;
        }
        (size, last) = (end, splice.to);
        (left, right) = (more, after);
    }
    Ok(places)
}

/// Whether a start tag of a page begins at each of some places, which are in order.
pub(crate) fn begin_tags(page: &[u8], places: &[usize], tags: &[Token<'_>]) -> bool
    ensures { result ≡ begin_tags_of page.now places.now tags.now }
{
    let mut wanted = places;
    let mut rest = tags;
    'tags: while let [place, more @ ..] = wanted {
        let [tag, after @ ..] = rest else {
            return false;
        };
        if *place == tag_start(page, tag) {
            wanted = more;
        }
        rest = after;
    }
    true
}
