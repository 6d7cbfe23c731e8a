//! Start tags that are written with changes of their attributes.
ghost use Rattle.std.specs.Prelude.{IfOk};
ghost use Rattle.css_html.specs.Views.{token_of};
ghost use Rattle.html_edits.specs.Changing.{IsChanged};

use crate::attributes::{attributes_from, first_named, same_name};
use crate::changing::is_changed_tag;
use crate::edits::{Change, Language, NewValue, Refusal};
use crate::values::write_value;
use css_html::attributes::Attribute;
use css_html::marks::text_between;
use css_html::tokenizer::Token;
use std::alloc::{AllocError, Global};

/// What a value may be between in place of quotes that it does not have.
const QUOTE: u8 = b'"';

/// Returns what becomes of the attribute with a name, if it changes.
fn change_of<'a>(language: Language, changes: &[Change<'a>], name: &[u8]) -> Option<Change<'a>> {
    for change in changes {
        if same_name(language, change.name, name) {
            return Some(*change);
        }
    }
    None
}

/// Whether a byte is a space.
fn is_space(byte: u8) -> bool {
    matches!(byte, b' ' | b'\t' | b'\n' | b'\r' | 12)
}

/// Returns bytes without the spaces at their end.
fn without_spaces(bytes: &[u8]) -> &[u8] {
    let end = bytes.iter().rposition(|byte| !is_space(*byte));
    match end {
        Some(end) => bytes.get(..=end).unwrap_or(bytes),
        None => &[],
    }
}

/// Returns the quote that an attribute's value is in, if it is in one.
fn quote_of(attribute: &Attribute<'_>) -> Option<u8> {
    if attribute.value_end.len() > attribute.rest.len() {
        attribute.value_end.first().copied()
    } else {
        None
    }
}

/// Returns the quote that a new value of an attribute is in, if it is that of the old one. Declarations often
/// have the other quotes.
fn kept_quote(language: Language, name: &[u8], attribute: &Attribute<'_>) -> Option<u8> {
    if same_name(language, name, b"style") {
        quote_of(attribute)
    } else {
        None
    }
}

/// Appends a value and, after it, an attribute's own one, in quotes.
fn write_quoted(
    out: &mut Vec<u8>,
    language: Language,
    value: &[u8],
    own: Option<&Attribute<'_>>,
    quote: Option<u8>,
) -> Result<(), AllocError> {
    let mark = quote.unwrap_or(QUOTE);
    out.push(b'=')?;
    out.push(mark)?;
    write_value(out, language, mark, value)?;
    if let Some(own) = own {
        let written = text_between(own.value, own.value_end);
        for byte in written {
            if *byte == QUOTE && quote.is_none() {
                out.extend_from_slice(b"&quot;")?;
            } else {
                out.push(*byte)?;
            }
        }
    }
    out.push(mark)?;
    Ok(())
}

/// Appends an attribute as it is. A value that is missing after its `=` would be what comes next.
fn write_same(out: &mut Vec<u8>, attribute: &Attribute<'_>) -> Result<(), AllocError> {
    out.extend_from_slice(text_between(attribute.from, attribute.rest))?;
    let is_empty = attribute.value.len() == attribute.rest.len();
    if is_empty && attribute.name_end.len() > attribute.rest.len() {
        out.extend_from_slice(b"\"\"")?;
    }
    Ok(())
}

/// Appends a space after an attribute, if what follows it would be of the value before it. After quotes a
/// slash may follow.
fn write_gap(
    out: &mut Vec<u8>,
    attribute: &Attribute<'_>,
    is_quoted: bool,
) -> Result<(), AllocError> {
    match attribute.rest.first() {
        Some(b'>') | None => Ok(()),
        Some(b'/') if is_quoted => Ok(()),
        Some(next) if is_space(*next) => Ok(()),
        Some(_) => Ok(out.push(b' ')?),
    }
}

/// Appends an attribute with what becomes of it, after what is before it.
fn write_changed(
    out: &mut Vec<u8>,
    language: Language,
    before: &[u8],
    attribute: &Attribute<'_>,
    change: Option<Change<'_>>,
) -> Result<(), AllocError> {
    let Some(change) = change else {
        out.extend_from_slice(before)?;
        return write_same(out, attribute);
    };
    match change.value {
        NewValue::Removed => {
            out.extend_from_slice(without_spaces(before))?;
            return write_gap(out, attribute, false);
        }
        NewValue::Set(value) => {
            out.extend_from_slice(before)?;
            out.extend_from_slice(change.name)?;
            let quote = kept_quote(language, change.name, attribute);
            write_quoted(out, language, value, None, quote)?;
        }
        NewValue::Before(value) => {
            out.extend_from_slice(before)?;
            out.extend_from_slice(change.name)?;
            write_quoted(out, language, value, Some(attribute), quote_of(attribute))?;
        }
    }
    write_gap(out, attribute, true)
}

/// Appends the attributes that a tag does not have.
fn write_new(
    out: &mut Vec<u8>,
    language: Language,
    attributes: &[Attribute<'_>],
    changes: &[Change<'_>],
) -> Result<(), AllocError> {
    for change in changes {
        let is_there = first_named(language, change.name, attributes).is_some();
        match change.value {
            NewValue::Set(value) | NewValue::Before(value) if !is_there => {
                out.push(b' ')?;
                out.extend_from_slice(change.name)?;
                write_quoted(out, language, value, None, None)?;
            }
            _ => {}
        }
    }
    Ok(())
}

/// Returns a start tag with changes of its attributes. New ones are after its own.
fn rewritten(
    alloc: Global,
    language: Language,
    tag: &Token<'_>,
    changes: &[Change<'_>],
) -> Result<Vec<u8>, AllocError> {
    let attributes = attributes_from(alloc, tag.inside_end)?;
    let mut out = Vec::new(alloc);
    out.extend_from_slice(text_between(tag.from, tag.inside_end))?;
    let mut last = tag.inside_end;
    for attribute in attributes.iter() {
        let name = text_between(attribute.from, attribute.name_end);
        let before = text_between(last, attribute.from);
        let change = change_of(language, changes, name);
        write_changed(&mut out, language, before, attribute, change)?;
        last = attribute.rest;
    }
    write_new(&mut out, language, attributes.as_slice(), changes)?;
    out.extend_from_slice(text_between(last, tag.rest))?;
    Ok(out)
}

/// Returns the start tag with this index with changes of its attributes, if it is read so again.
pub(crate) fn changed_tag(
    alloc: Global,
    language: Language,
    index: usize,
    tag: &Token<'_>,
    changes: &[Change<'_>],
) -> Result<Vec<u8>, Refusal>
    ensures { IfOk result (λ text. IsChanged language (token_of tag.now) changes.now text.items) }
{
    let text = rewritten(alloc, language, tag, changes)?;
    if is_changed_tag(alloc, language, tag, changes, text.as_slice())? {
        Ok(text)
    } else {
        Err(Refusal::Differs(index))
    }
}
