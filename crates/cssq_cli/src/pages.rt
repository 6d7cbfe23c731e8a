//! Pages in HTML, each as the text of the tree that a browser makes of it.
use crate::visible::visible_stderr;
use css_html::attributes::{Attribute, next_attribute};
use css_html::decoding::{TextKind, decode};
use css_html::marks::text_between;
use css_html::tokenizer::Token;
use css_html_tree::names::{Name, Space};
use css_html_tree::page::{Context, Fault, NodeKind, Options, Page, Row};
use css_html_tree::reading::read_page;
use html_calls::words::{push_attribute_name, push_element_name};
use simplecss::{Place, TextPos};
use std::alloc::{AllocError, Global};
use std::collections::BTreeSet;
use std::io::Write;

/// The name of the element whose content a page is that has no tag of `html`, `head` or `body`.
const BODY: &[u8] = b"body";

/// Why there is no tree of a page.
#[derive(Clone, Copy, Debug, PartialEq)]
pub(crate) enum Unread {
    /// An allocation failed.
    Memory,
    /// The page is refused, for this reason.
    Refused(&'static str),
}

impl From<AllocError> for Unread {
    fn from(_error: AllocError) -> Unread {
        Unread::Memory
    }
}

impl From<Fault> for Unread {
    fn from(fault: Fault) -> Unread {
        match fault {
            Fault::Memory => Unread::Memory,
            Fault::TooDeep => Unread::Refused(
                "elements are nested in a way that takes time or elements out of proportion",
            ),
            Fault::TooLong => Unread::Refused("there are too many elements"),
        }
    }
}

/// Whether the file of a tree is a page, by its name.
pub(crate) fn is_page(name: &str) -> bool {
    name.ends_with(".html") || name.ends_with(".htm")
}

/// Whether a tag of `html`, `head` or `body` begins before these bytes, with the `<`.
fn begins_whole(after: &[u8]) -> bool {
    let (Some(name), Some(end)) = (after.get(..4), after.get(4)) else {
        return false;
    };
    matches!(*end, b' ' | b'\t' | b'\n' | b'\r' | b'\x0C' | b'/' | b'>')
        && (name.eq_ignore_ascii_case(b"html")
            || name.eq_ignore_ascii_case(b"head")
            || name.eq_ignore_ascii_case(BODY))
}

/// Returns how a page is read: as the content of a `body` if it has no tag of `html`, `head` or `body`.
fn options_for(text: &str) -> Options<'static> {
    let is_whole = text
        .split('<')
        .skip(1)
        .any(|after| begins_whole(after.as_bytes()));
    let body = Context {
        space: Space::Html,
        name: BODY,
        attributes: &[],
    };
    Options {
        has_scripts: false,
        context: if is_whole { None } else { Some(body) },
    }
}

/// Whether a node is an element that is in no template, by that of the nodes before it.
fn is_kept(rows: &[Row<'_>], kept: &[bool], row: &Row<'_>) -> bool {
    if row.kind != NodeKind::Element {
        return false;
    }
    let Some(index) = row.parent else {
        return true;
    };
    match (kept.get(index), rows.get(index)) {
        (Some(is_kept), Some(parent)) => {
            *is_kept && !(parent.space == Space::Html && parent.name == Name::Template)
        }
        _ => false,
    }
}

/// Returns for each node whether it is an element that is in no template.
fn kept_rows(alloc: Global, rows: &[Row<'_>]) -> Result<Vec<bool>, AllocError> {
    let mut kept: Vec<bool> = Vec::with_capacity(alloc, rows.len())?;
    for row in rows {
        let is_kept = is_kept(rows, kept.as_slice(), row);
        kept.push(is_kept)?;
    }
    Ok(kept)
}

/// Returns where each of these tags begins in a text.
fn positions_of(alloc: Global, text: &str, tags: &[Token<'_>]) -> Result<Vec<TextPos>, AllocError> {
    let mut positions = Vec::with_capacity(alloc, tags.len())?;
    let mut place = Place::START;
    for tag in tags {
        let start = text.len().saturating_sub(tag.from.len());
        place = place.find(text, text.get(start..).unwrap_or(""));
        positions.push(place.pos)?;
    }
    Ok(positions)
}

/// Replaces what would end a field or a line from an index on by spaces. Returns whether there is any.
fn blank_ends(bytes: &mut Vec<u8>, start: usize) -> bool {
    let mut found = false;
    for index in start..bytes.len() {
        if let Some(byte) = bytes.get_mut(index) {
            if matches!(*byte, b'\t' | b'\n' | b'\r') {
                *byte = b' ';
                found = true;
            }
        }
    }
    found
}

/// The lines of a tree, as they are written.
#[derive(Drop)]
struct Lines<'r, 'n> {
    rt: &'r HostRuntime,
    /// What warnings call the page.
    name: &'n str,
    /// Where each of its start tags begins.
    positions: Vec<TextPos>,
    /// The lines so far.
    out: Vec<u8>,
}

impl<'r, 'n> Lines<'r, 'n> {
    /// Warns of a value that is written with spaces.
    fn warn(&self, row: &Row<'_>, key: &[u8]) -> Result<(), AllocError> {
        let mut element = Vec::new(self.rt.alloc());
        push_element_name(&mut element, row)?;
        let element = std::str::from_utf8(element.as_slice()).unwrap_or("");
        let key = std::str::from_utf8(key).unwrap_or("");
        let (name, mut out) = (self.name, visible_stderr(self.rt));
        let _ = match row.tag.and_then(|tag| self.positions.get(tag)) {
            Some(pos) => write!(out, "{name}:{pos}: "),
            None => write!(out, "{name}: "),
        };
        let _ = writeln!(
            out,
            "'{element}': a TAB or newline in '{key}' is written as a space"
        );
        Ok(())
    }

    /// Appends the field of an attribute, unless one of its name was appended.
    fn push_attribute(
        &mut self,
        keys: &mut BTreeSet<Vec<u8>>,
        row: &Row<'_>,
        attribute: &Attribute<'_>,
    ) -> Result<(), AllocError> {
        let mut key = Vec::new(self.rt.alloc());
        let name = text_between(attribute.from, attribute.name_end);
        push_attribute_name(&mut key, row.space, name)?;
        if !keys.insert(key.clone()?)? {
            return Ok(());
        }
        self.out.push(b'\t')?;
        self.out.extend_from_slice(key.as_slice())?;
        self.out.push(b'=')?;
        let start = self.out.len();
        let value = text_between(attribute.value, attribute.value_end);
        decode(&mut self.out, TextKind::Value, value)?;
        if blank_ends(&mut self.out, start) {
            self.warn(row, key.as_slice())?;
        }
        Ok(())
    }

    /// Appends the fields of the attributes of a tag whose names are new.
    fn push_tag(
        &mut self,
        keys: &mut BTreeSet<Vec<u8>>,
        row: &Row<'_>,
        tag: &Token<'_>,
    ) -> Result<(), AllocError> {
        let mut rest = tag.inside_end;
        for _ in 0..tag.inside_end.len() {
            let Some(attribute) = next_attribute(rest) else {
                break;
            };
            self.push_attribute(keys, row, &attribute)?;
            rest = attribute.rest;
        }
        Ok(())
    }

    /// Appends the fields of the attributes that an element has besides those of its own tag. Only an
    /// `html` and a `body` have some.
    fn push_merged(
        &mut self,
        keys: &mut BTreeSet<Vec<u8>>,
        page: &Page<'_>,
        index: usize,
        row: &Row<'_>,
    ) -> Result<(), AllocError> {
        if row.space != Space::Html || !matches!(row.name, Name::Html | Name::Body) {
            return Ok(());
        }
        for (of, tag) in page.merged.iter() {
            if *of == index {
                if let Some(tag) = page.tags.get(*tag) {
                    self.push_tag(keys, row, tag)?;
                }
            }
        }
        Ok(())
    }

    /// Appends the line of an element.
    fn push_line(
        &mut self,
        page: &Page<'_>,
        index: usize,
        row: &Row<'_>,
    ) -> Result<(), AllocError> {
        let depth = format!(in self.rt.alloc(); "{}\t", row.depth)?;
        self.out.extend_from_slice(depth.as_bytes())?;
        push_element_name(&mut self.out, row)?;
        let mut keys = BTreeSet::new(self.rt.alloc());
        if let Some(tag) = row.tag.and_then(|tag| page.tags.get(tag)) {
            self.push_tag(&mut keys, row, tag)?;
        }
        self.push_merged(&mut keys, page, index, row)?;
        Ok(self.out.push(b'\n')?)
    }
}

/// Returns the text of the tree of a page with this name. A mark of the order of bytes at the front is
/// no part of it.
pub(crate) fn tree_of_page(rt: &HostRuntime, name: &str, text: &str) -> Result<String, Unread> {
    let text = text.strip_prefix('\u{feff}').unwrap_or(text);
    let page = read_page(rt.alloc(), text.as_bytes(), &options_for(text))?;
    let kept = kept_rows(rt.alloc(), page.rows.as_slice())?;
    let mut lines = Lines {
        rt,
        name,
        positions: positions_of(rt.alloc(), text, page.tags.as_slice())?,
        out: Vec::new(rt.alloc()),
    };
    for (index, row) in page.rows.iter().enumerate() {
        if kept.get(index).copied().unwrap_or(false) {
            lines.push_line(&page, index, row)?;
        }
    }
    let Lines { out, .. } = lines;
    match String::from_utf8(out) {
        Ok(tree) => Ok(tree),
        Err(_) => Err(Unread::Refused("it is no text")),
    }
}
