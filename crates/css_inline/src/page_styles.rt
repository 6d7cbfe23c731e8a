//! The `style` elements of a page that are style sheets.

use css_html::marks::text_between;
use css_html::tokenizer::Token;
use css_html_tree::names::{Name, Space};
use css_html_tree::page::{Page, Row};
use html_edits::attributes::{attributes_from, first_named};
use html_edits::edits::Language;
use page_sheets::page::push_page_sheets;
use std::alloc::{AllocError, Global};

/// A `style` element that is a style sheet.
#[derive(Clone, Copy)]
pub(crate) struct PageStyle<'a> {
    /// The index of its start tag.
    pub(crate) tag: usize,
    /// Its text.
    pub(crate) text: &'a str,
    /// Where its text ends.
    pub(crate) text_end: usize,
    /// Where it ends.
    pub(crate) end: usize,
    /// Whether its rules may be written into attributes.
    pub(crate) may_go: bool,
    /// Whether it may be taken out, since no selector can notice that.
    pub(crate) may_vanish: bool,
    /// Whether its text is what it says, and not markup.
    pub(crate) is_raw: bool,
}

/// Returns where a tag begins.
pub(crate) fn tag_start(page: &str, tag: &Token<'_>) -> usize {
    page.len().saturating_sub(tag.from.len())
}

/// Returns where a tag ends.
fn tag_end(page: &str, tag: &Token<'_>) -> usize {
    page.len().saturating_sub(tag.rest.len())
}

/// Whether a tag has an attribute with a name.
fn has(alloc: Global, tag: &Token<'_>, name: &[u8]) -> Result<bool, AllocError> {
    let attributes = attributes_from(alloc, tag.inside_end)?;
    Ok(first_named(Language::Html, name, attributes.as_slice()).is_some())
}

/// Whether a sheet with this tag is one for all media.
fn is_for_all(alloc: Global, tag: &Token<'_>) -> Result<bool, AllocError> {
    let attributes = attributes_from(alloc, tag.inside_end)?;
    match first_named(Language::Html, b"media", attributes.as_slice()) {
        Some(media) => {
            let value = text_between(media.value, media.value_end).trim_ascii();
            Ok(value.is_empty() || value.eq_ignore_ascii_case(b"all"))
        }
        None => Ok(true),
    }
}

/// Whether the sheet of a tag applies to all of the page in all states of it.
fn is_plain(alloc: Global, tag: &Token<'_>) -> Result<bool, AllocError> {
    let is_named = has(alloc, tag, b"title")? || has(alloc, tag, b"disabled")?;
    Ok(!is_named && is_for_all(alloc, tag)?)
}

/// Returns the name of the element that a node is in.
fn parent_name(page: &Page<'_>, row: &Row<'_>) -> Option<Name> {
    match page.rows.get(row.parent?) {
        Some(parent) => Some(parent.name),
        None => None,
    }
}

/// What is found of the nodes of a page.
#[derive(Drop)]
struct Nodes {
    /// The node of each tag, if it has one.
    of_tags: Vec<Option<usize>>,
    /// Whether what is in each node is in a `noscript`.
    in_noscript: Vec<bool>,
}

/// Whether a node is in a `noscript`, or is one.
fn is_in_noscript(in_noscript: &[bool], row: &Row<'_>) -> bool {
    let is_above = match row.parent {
        Some(index) => in_noscript.get(index).copied().unwrap_or(false),
        None => false,
    };
    is_above || row.name == Name::Noscript
}

/// Returns what is found of the nodes of a page.
fn nodes_of(alloc: Global, page: &Page<'_>) -> Result<Nodes, AllocError> {
    let mut of_tags: Vec<Option<usize>> = Vec::with_capacity(alloc, page.tags.len())?;
    for _ in 0..page.tags.len() {
        of_tags.push(None)?;
    }
    let mut in_noscript: Vec<bool> = Vec::with_capacity(alloc, page.rows.len())?;
    for (index, row) in page.rows.iter().enumerate() {
        let is_inside = is_in_noscript(in_noscript.as_slice(), row);
        in_noscript.push(is_inside)?;
        if let Some(tag) = row.tag {
            if let Some(place) = of_tags.get_mut(tag) {
                *place = Some(index);
            }
        }
    }
    Ok(Nodes {
        of_tags,
        in_noscript,
    })
}

/// Returns the style sheet of a node with this tag.
fn style_of<'a>(
    alloc: Global,
    text: &'a str,
    page: &Page<'_>,
    nodes: &Nodes,
    index: usize,
    tag: usize,
) -> Result<Option<PageStyle<'a>>, AllocError> {
    let (Some(token), Some(row)) = (page.tags.get(tag), page.rows.get(index)) else {
        return Ok(None);
    };
    let Some(inside) = text.get(tag_end(text, token)..row.start) else {
        return Ok(None);
    };
    let is_raw = row.space == Space::Html;
    let is_scripted = is_in_noscript(nodes.in_noscript.as_slice(), row);
    let is_in_head = parent_name(page, row) == Some(Name::Head);
    Ok(Some(PageStyle {
        tag,
        text: inside,
        text_end: row.start,
        end: row.end,
        may_go: is_raw && !is_scripted && is_plain(alloc, token)?,
        may_vanish: is_in_head && row.start < row.end,
        is_raw,
    }))
}

/// Returns the style sheet with these numbers, if it is in the page.
fn style_with<'a>(
    alloc: Global,
    text: &'a str,
    page: &Page<'_>,
    nodes: &Nodes,
    number: usize,
    flags: usize,
) -> Result<Option<PageStyle<'a>>, AllocError> {
    let tag = number.saturating_sub(1);
    let (is_link, is_used) = (flags % 2 == 1, flags / 4 % 2 == 1);
    match nodes.of_tags.get(tag) {
        Some(Some(index)) if !is_link => {
            let style = style_of(alloc, text, page, nodes, *index, tag)?;
            match style {
                Some(style) => Ok(Some(PageStyle {
                    may_go: style.may_go && is_used,
                    ..style
                })),
                None => Ok(None),
            }
        }
        _ => Ok(None),
    }
}

/// Returns the style sheets that are in a page, in document order. Tags are shared that are some too where scripts
/// run.
pub(crate) fn page_styles<'a>(
    alloc: Global,
    text: &'a str,
    page: &Page<'_>,
    shared: &[bool],
) -> Result<Vec<PageStyle<'a>>, AllocError> {
    let mut numbers = Vec::new(alloc);
    push_page_sheets(
        alloc,
        &mut numbers,
        page.tags.as_slice(),
        page.rows.as_slice(),
    )?;
    let nodes = nodes_of(alloc, page)?;
    let mut found = Vec::new(alloc);
    let mut rest = numbers.as_slice().get(2..).unwrap_or(&[]);
    for _ in 0..numbers.len() {
        let [number, flags, after @ ..] = rest else {
            break;
        };
        if let Some(style) = style_with(alloc, text, page, &nodes, *number, *flags)? {
            let is_shared = shared.get(style.tag).copied().unwrap_or(false);
            found.push(PageStyle {
                may_go: style.may_go && is_shared,
                ..style
            })?;
        }
        rest = after;
    }
    Ok(found)
}
