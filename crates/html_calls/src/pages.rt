//! Reads a page, and writes its numbers and its strings.

ghost use Rattle.std.specs.Prelude.{◌≡◌, IfOk, map, length, None};
ghost use Rattle.css_html.specs.Views.{token_of};
ghost use Rattle.html_edits.specs.Editing.{IsRead};
ghost use Rattle.html_edits.specs.declared.edits.Language.TheVariants.{Html};
ghost use Rattle.page_sheets.specs.Page.{nodes_from};
ghost use Rattle.page_sheets.specs.Sheets.{numbers_of};
ghost use Rattle.html_calls.specs.Pages.{ArePageNumbers, HasEnd, HasEnds, tags_front};
ghost use Rattle.html_calls.specs.Pages.{past_mark as past_mark_of};

use crate::nodes::{Nodes, kind_within, number_of};
use crate::tags::{Strings, push_attributes, push_places};
use css_html::decoding::TextKind;
use css_html_tree::names::{Space, name_of};
use css_html_tree::page::{Context, Fault, Options, Page, Row};
use css_html_tree::reading::read_page;
use page_sheets::page::push_page_sheets;
use std::alloc::{AllocError, Global};

/// How a page is read, and what is written of it.
#[derive(Clone, Copy)]
pub struct Reading<'a> {
    /// Whether scripts run, and the element whose content it is.
    pub options: Options<'a>,
    /// Whether what is in templates is left out.
    pub leaves_templates: bool,
}

/// A page as numbers and strings.
#[derive(Drop)]
pub struct Answer {
    /// How many start tags it has; where each begins and ends; how many attributes, elements, other nodes
    /// and merged tags there are; whether it is in quirks mode, and whether browsers read it in
    /// different ways; where its head ends, and 1, or 0; of each tag how many attributes it has; five numbers
    /// of each attribute; six of each element; five of each other node; the element and the tag of each
    /// merged tag; where each string ends; the number of the tag of the `base`, or 0; how many sheets there are;
    /// and two numbers of each sheet.
    pub numbers: Vec<usize>,
    /// The names and the values of the attributes, then the names of the elements, and then what the
    /// other nodes say.
    pub strings: Vec<u8>,
}

/// Returns the text after a mark of the order of bytes.
pub(crate) fn past_mark(bytes: &[u8]) -> &[u8]
    ensures { result.now ≡ past_mark_of bytes.now }
{
    match bytes {
        [0xEF, 0xBB, 0xBF, rest @ ..] => rest,
        _ => bytes,
    }
}

/// Returns the context that a number of a namespace and a start tag without its `<` and `>` stand for, if it is
/// one.
pub fn context_of(space: usize, tag: &[u8]) -> Option<Context<'_>> {
    let space = match space {
        1 => Space::Html,
        2 => Space::Svg,
        3 => Space::Math,
        _ => return None,
    };
    let ends = |byte: &u8| matches!(*byte, b' ' | b'\t' | b'\n' | b'\r' | 12 | b'/' | b'>');
    let end = tag.iter().position(ends).unwrap_or(tag.len());
    let (name, attributes) = tag.split_at(end.min(tag.len()));
    Some(Context {
        space,
        name,
        attributes,
    })
}

/// Returns the namespace of the element of each tag.
fn spaces_of(alloc: Global, tags: usize, rows: &[Row<'_>]) -> Result<Vec<Space>, AllocError> {
    let mut found = Vec::from_elem(alloc, Space::Html, tags)?;
    for row in rows {
        if let Some(tag) = row.tag {
            if let Some(space) = found.get_mut(tag) {
                *space = row.space;
            }
        }
    }
    Ok(found)
}

/// Returns how texts are read that have no element as their parent.
fn outer_kind(reading: &Reading<'_>) -> TextKind {
    match &reading.options.context {
        Some(context) => kind_within(
            context.space,
            name_of(context.name),
            reading.options.has_scripts,
        ),
        None => TextKind::Text,
    }
}

/// Returns the nodes of a page, of whose bytes `start` come before it.
fn nodes_of(
    alloc: Global,
    strings: &mut Strings,
    start: usize,
    page: &[u8],
    rows: &[Row<'_>],
    reading: &Reading<'_>,
) -> Result<Nodes, AllocError> {
    let mut nodes = Nodes::new(alloc, start);
    let leaves = reading.leaves_templates;
    nodes.push_elements(strings, rows, leaves)?;
    let (kind, has_scripts) = (outer_kind(reading), reading.options.has_scripts);
    nodes.push_others(strings, page, rows, kind, has_scripts, leaves)?;
    Ok(nodes)
}

/// Returns the numbers that follow those of the places of a page's tags, and its strings.
fn rest_of(
    alloc: Global,
    size: usize,
    page: &[u8],
    read: &Page<'_>,
    reading: &Reading<'_>,
) -> Result<Answer, AllocError>
    ensures { IfOk result (λ answer. HasEnd
        (numbers_of (nodes_from read.now.tags.items None read.now.rows.items)) answer.numbers.items) }
{
    let mut strings = Strings::new(alloc);
    let (mut counts, mut attributes) = (Vec::new(alloc), Vec::new(alloc));
    let spaces = spaces_of(alloc, read.tags.len(), read.rows.as_slice())?;
    for (tag, space) in read.tags.iter().zip(spaces.iter()) {
        counts.push(push_attributes(&mut attributes, &mut strings, size, *space, tag)?)?;
    }
    let start = size.saturating_sub(page.len());
    let rows = read.rows.as_slice();
    let nodes = nodes_of(alloc, &mut strings, start, page, rows, reading)?;
    let mut merged = Vec::new(alloc);
    for (row, tag) in read.merged.iter() {
        merged.push(nodes.numbers.get(*row).copied().unwrap_or(0))?;
        merged.push(tag.saturating_add(1))?;
    }
    let head_end = read.head_end.map(|end| start.saturating_add(end));
    let mut numbers = Vec::new(alloc);
    numbers.extend_from_slice(&[
        attributes.len() / 5,
        nodes.elements.len() / 6,
        nodes.others.len() / 5,
        merged.len() / 2,
        usize::from(read.is_quirky),
        usize::from(read.is_doubtful),
        number_of(head_end),
    ])?;
    for more in [
        counts.as_slice(),
        attributes.as_slice(),
        nodes.elements.as_slice(),
        nodes.others.as_slice(),
        merged.as_slice(),
        strings.ends.as_slice(),
    ] {
        numbers.extend_from_slice(more)?;
    }
    push_page_sheets(alloc, &mut numbers, read.tags.as_slice(), rows)?;
    Ok(Answer {
        numbers,
        strings: strings.bytes,
    })
}

/// Returns the numbers and the strings of a page that was read.
fn answer_of(
    alloc: Global,
    size: usize,
    page: &[u8],
    read: &Page<'_>,
    reading: &Reading<'_>,
) -> Result<Answer, AllocError>
    ensures { IfOk result (λ answer. HasEnds (tags_front size (map token_of read.now.tags.items))
        (numbers_of (nodes_from read.now.tags.items None read.now.rows.items)) answer.numbers.items) }
{
    let mut numbers = Vec::new(alloc);
    numbers.push(read.tags.len())?;
    push_places(&mut numbers, size, read.tags.as_slice())?;
    let rest = rest_of(alloc, size, page, read, reading)?;
    numbers.extend_from_slice(rest.numbers.as_slice())?;
    Ok(Answer {
        numbers,
        strings: rest.strings,
    })
}

/// Reads the start tags and the nodes of a page.
fn page_of<'a>(alloc: Global, page: &'a [u8], options: &Options<'a>) -> Result<Page<'a>, Fault>
    ensures { IfOk result (λ found. IsRead Html page.now found.tags.items found.rows.items) }
{
    read_page(alloc, page, options)
}

/// Reads a page in UTF-8, of which a mark of the order of bytes at its front is no part.
pub fn read(alloc: Global, bytes: &[u8], reading: &Reading<'_>) -> Result<Answer, Fault>
    ensures { IfOk result (λ answer. ArePageNumbers (length bytes.now) (past_mark_of bytes.now)
        answer.numbers.items) }
{
    let page = past_mark(bytes);
    let read = page_of(alloc, page, &reading.options)?;
    Ok(answer_of(alloc, bytes.len(), page, &read, reading)?)
}
