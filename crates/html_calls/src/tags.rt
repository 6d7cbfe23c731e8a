//! The start tags of a page: where each is, and its attributes.

ghost use Rattle.std.specs.Prelude.{◌≡◌, ◌++◌, OnOk, map, length};
ghost use Rattle.css_html.specs.Views.{token_of};
ghost use Rattle.html_calls.specs.Pages.{tag_places};

use crate::words::{push_attribute_name, push_element_name};
use css_html::attributes::{Attribute, next_attribute};
use css_html::decoding::{TextKind, decode};
use css_html::tokenizer::Token;
use css_html_tree::names::Space;
use css_html_tree::page::Row;
use std::alloc::{AllocError, Global};

/// Strings, one after another, and where each ends.
#[derive(Drop)]
pub(crate) struct Strings {
    pub(crate) bytes: Vec<u8>,
    pub(crate) ends: Vec<usize>,
}

impl Strings {
    /// Creates no strings.
    pub(crate) fn new(alloc: Global) -> Strings {
        Strings {
            bytes: Vec::new(alloc),
            ends: Vec::new(alloc),
        }
    }

    /// Appends the name of an element.
    pub(crate) fn push_element_name(&mut self, row: &Row<'_>) -> Result<(), AllocError> {
        push_element_name(&mut self.bytes, row)?;
        Ok(self.ends.push(self.bytes.len())?)
    }

    /// Appends the name of an attribute of an element in this namespace.
    fn push_attribute_name(&mut self, space: Space, word: &[u8]) -> Result<(), AllocError> {
        push_attribute_name(&mut self.bytes, space, word)?;
        Ok(self.ends.push(self.bytes.len())?)
    }

    /// Appends what a text of this kind stands for.
    pub(crate) fn push_text(&mut self, kind: TextKind, text: &[u8]) -> Result<(), AllocError> {
        decode(&mut self.bytes, kind, text)?;
        self.ends.push(self.bytes.len())?;
        Ok(())
    }
}

/// Appends where each tag begins and ends in a page of this length.
pub(crate) fn push_places(
    out: &mut Vec<usize>,
    size: usize,
    tags: &[Token<'_>],
) -> Result<(), AllocError>
    ensures { OnOk result
        (out.new.items ≡ out.old.items ++ tag_places size (map token_of tags.now)) }
{
    for tag in tags {
        let start = size.saturating_sub(tag.from.len());
        out.extend_from_slice(&[start, size.saturating_sub(tag.rest.len())])?;
    }
    Ok(())
}

/// Returns the bytes before a rest.
pub(crate) fn part<'a>(bytes: &'a [u8], rest: &[u8]) -> &'a [u8] {
    &bytes[..bytes.len().saturating_sub(rest.len())]
}

/// Appends an attribute: where its name and its value begin and end, and where it ends.
fn push_attribute(
    numbers: &mut Vec<usize>,
    strings: &mut Strings,
    size: usize,
    space: Space,
    attribute: &Attribute<'_>,
) -> Result<(), AllocError> {
    numbers.extend_from_slice(&[
        size.saturating_sub(attribute.from.len()),
        size.saturating_sub(attribute.name_end.len()),
        size.saturating_sub(attribute.value.len()),
        size.saturating_sub(attribute.value_end.len()),
        size.saturating_sub(attribute.rest.len()),
    ])?;
    strings.push_attribute_name(space, part(attribute.from, attribute.name_end))?;
    strings.push_text(TextKind::Value, part(attribute.value, attribute.value_end))
}

/// Appends the attributes of a tag, whose element is in this namespace, and returns how many they are.
pub(crate) fn push_attributes(
    numbers: &mut Vec<usize>,
    strings: &mut Strings,
    size: usize,
    space: Space,
    tag: &Token<'_>,
) -> Result<usize, AllocError> {
    let mut rest = tag.inside_end;
    let mut count: usize = 0;
    for _ in 0..tag.inside_end.len() {
        let Some(attribute) = next_attribute(rest) else {
            break;
        };
        push_attribute(numbers, strings, size, space, &attribute)?;
        count = count.saturating_add(1);
        rest = attribute.rest;
    }
    Ok(count)
}
