//! Reads an XML document, and writes its numbers and its strings.

ghost use Rattle.std.specs.Prelude.{◌≡◌, IfOk, map, length};
ghost use Rattle.css_html.specs.Views.{token_of};
ghost use Rattle.html_calls.specs.Pages.{AreXmlNumbers, IsFront, tags_front};
ghost use Rattle.html_calls.specs.Pages.{past_mark as past_mark_of};

use crate::nodes::number_of;
use crate::pages::{Answer, past_mark};
use crate::tags::{Strings, part, push_places};
use css_html::attributes::next_attribute;
use css_html::decoding::TextKind;
use css_html::tokenizer::Token;
use css_html_tree::page::{NodeKind, Row};
use css_xml::documents::{Document, read_document};
use css_xml::faults::Fault;
use css_xml::references::decode;
use css_xml::spaces::parts_of;
use std::alloc::{AllocError, Global};

impl Strings {
    /// Appends a string.
    fn push(&mut self, text: &[u8]) -> Result<(), AllocError> {
        self.bytes.extend_from_slice(text)?;
        Ok(self.ends.push(self.bytes.len())?)
    }

    /// Appends what a text of this kind stands for in XML.
    fn push_said(&mut self, kind: TextKind, text: &[u8]) -> Result<(), AllocError> {
        decode(&mut self.bytes, kind, text)?;
        Ok(self.ends.push(self.bytes.len())?)
    }
}

/// The numbers of a document after those of the places of its tags.
#[derive(Drop)]
struct Numbers {
    /// Of each tag how many attributes it has.
    counts: Vec<usize>,
    attributes: Vec<usize>,
    elements: Vec<usize>,
    others: Vec<usize>,
    /// For each row the number of its element, from 1, or 0.
    numbers: Vec<usize>,
    /// How many elements there are so far.
    count: usize,
}

impl Numbers {
    /// Creates no numbers.
    fn new(alloc: Global) -> Numbers {
        Numbers {
            counts: Vec::new(alloc),
            attributes: Vec::new(alloc),
            elements: Vec::new(alloc),
            others: Vec::new(alloc),
            numbers: Vec::new(alloc),
            count: 0,
        }
    }

    /// Appends the attributes of a tag in a text of this length.
    fn push_attributes(
        &mut self,
        strings: &mut Strings,
        size: usize,
        tag: &Token<'_>,
    ) -> Result<(), AllocError> {
        let mut rest = tag.inside_end;
        let mut count: usize = 0;
        for _ in 0..tag.inside_end.len() {
            let Some(each) = next_attribute(rest) else {
                break;
            };
            for place in [
                each.from,
                each.name_end,
                each.value,
                each.value_end,
                each.rest,
            ] {
                self.attributes.push(size.saturating_sub(place.len()))?;
            }
            strings.push(parts_of(part(each.from, each.name_end)).1)?;
            strings.push_said(TextKind::Value, part(each.value, each.value_end))?;
            count = count.saturating_add(1);
            rest = each.rest;
        }
        Ok(self.counts.push(count)?)
    }

    /// Returns the number of the element at a row, or 0.
    fn number_at(&self, row: Option<usize>) -> usize {
        match row {
            Some(row) => self.numbers.get(row).copied().unwrap_or(0),
            None => 0,
        }
    }

    /// Appends the elements, and their local names.
    fn push_elements(
        &mut self,
        strings: &mut Strings,
        start: usize,
        found: &Document<'_>,
    ) -> Result<(), AllocError> {
        for row in found.rows.iter() {
            if row.kind != NodeKind::Element {
                self.numbers.push(0)?;
                continue;
            }
            let space = found.spaces.of_tags.get(self.count).copied().unwrap_or(0);
            let numbers = [
                number_of(row.tag),
                self.number_at(row.parent),
                row.depth,
                space,
                start.saturating_add(row.start),
                start.saturating_add(row.end),
            ];
            self.elements.extend_from_slice(&numbers)?;
            strings.push(parts_of(row.word).1)?;
            self.count = self.count.saturating_add(1);
            self.numbers.push(self.count)?;
        }
        Ok(())
    }

    /// Appends another node, before which so many elements begin.
    fn push_other(
        &mut self,
        strings: &mut Strings,
        start: usize,
        page: &[u8],
        row: &Row<'_>,
        begun: usize,
    ) -> Result<(), AllocError> {
        let text = page.get(row.start..row.end).unwrap_or(&[]);
        let (kind, said) = match row.kind {
            NodeKind::Text => (1, Some(TextKind::Text)),
            NodeKind::Cdata => (2, Some(TextKind::Raw)),
            NodeKind::Comment if text.starts_with(b"<?") => (5, None),
            NodeKind::Comment => (3, None),
            _ => (4, None),
        };
        let numbers = [
            kind,
            begun,
            self.number_at(row.parent),
            start.saturating_add(row.start),
            start.saturating_add(row.end),
        ];
        self.others.extend_from_slice(&numbers)?;
        match said {
            Some(kind) => strings.push_said(kind, text),
            None => strings.push(&[]),
        }
    }

    /// Appends the nodes that are no elements.
    fn push_others(
        &mut self,
        strings: &mut Strings,
        start: usize,
        page: &[u8],
        rows: &[Row<'_>],
    ) -> Result<(), AllocError> {
        let mut begun: usize = 0;
        for (index, row) in rows.iter().enumerate() {
            if row.kind == NodeKind::Element {
                begun = self.number_at(Some(index));
            } else {
                self.push_other(strings, start, page, row, begun)?;
            }
        }
        Ok(())
    }
}

/// Returns the numbers that follow those of the places of a document's tags, and its strings.
fn rest_of(
    alloc: Global,
    size: usize,
    page: &[u8],
    found: &Document<'_>,
) -> Result<Answer, AllocError> {
    let mut strings = Strings::new(alloc);
    let mut all = Numbers::new(alloc);
    for tag in found.tags.iter() {
        all.push_attributes(&mut strings, size, tag)?;
    }
    let start = size.saturating_sub(page.len());
    all.push_elements(&mut strings, start, found)?;
    all.push_others(&mut strings, start, page, found.rows.as_slice())?;
    for name in found.spaces.names.iter() {
        strings.push(name.as_slice())?;
    }
    let mut numbers = Vec::new(alloc);
    let counts = [
        all.attributes.len() / 5,
        all.count,
        all.others.len() / 5,
        0,
        0,
        0,
        0,
    ];
    numbers.extend_from_slice(&counts)?;
    for more in [
        all.counts.as_slice(),
        all.attributes.as_slice(),
        all.elements.as_slice(),
        all.others.as_slice(),
        found.spaces.of_attributes.as_slice(),
        strings.ends.as_slice(),
    ] {
        numbers.extend_from_slice(more)?;
    }
    Ok(Answer {
        numbers,
        strings: strings.bytes,
    })
}

/// Returns the numbers and the strings of a document that was read.
fn answer_of(
    alloc: Global,
    size: usize,
    page: &[u8],
    found: &Document<'_>,
) -> Result<Answer, AllocError>
    ensures { IfOk result (λ answer. IsFront (tags_front size (map token_of found.now.tags.items))
        answer.numbers.items) }
{
    let mut numbers = Vec::new(alloc);
    numbers.push(found.tags.len())?;
    push_places(&mut numbers, size, found.tags.as_slice())?;
    let rest = rest_of(alloc, size, page, found)?;
    numbers.extend_from_slice(rest.numbers.as_slice())?;
    Ok(Answer {
        numbers,
        strings: rest.strings,
    })
}

/// Reads an XML document in UTF-8, of which a mark of the order of bytes at its front is no part.
pub fn read_xml(alloc: Global, bytes: &[u8]) -> Result<Answer, Fault>
    ensures { IfOk result (λ answer. AreXmlNumbers (length bytes.now) (past_mark_of bytes.now)
        answer.numbers.items) }
{
    let page = past_mark(bytes);
    let found = read_document(alloc, page)?;
    Ok(answer_of(alloc, bytes.len(), page, &found)?)
}
