//! Processing instructions, the declaration of XML, and the front of a document type (XML 1.0, sections 2.6 and 2.8).
use crate::characters::{are_blank, is_blank, is_name};
use css_html::attributes::{Attribute, next_attribute};
use css_html::marks::text_between;
use css_html::tokenizer::Token;

/// The names of what a declaration of XML may have, in order.
const NAMES: [&[u8]; 3] = [b"version", b"encoding", b"standalone"];

const YES: &[u8] = b"yes";

const NO: &[u8] = b"no";

const XML: &[u8] = b"xml";

/// The bytes that may be in a public identifier besides letters and digits (production 13).
const PUBLIC: &[u8] = b" \r\n-'()+,./:=?;!*#@$_%";

/// Returns what is after white space.
fn past_blanks(bytes: &[u8]) -> &[u8] {
    let count = bytes.iter().take_while(|byte| is_blank(**byte)).count();
    bytes.get(count..).unwrap_or(&[])
}

/// Returns a word up to white space or one of two bytes, and what is after it.
fn word_at(bytes: &[u8], one: u8, other: u8) -> (&[u8], &[u8]) {
    let is_end = |byte: &u8| is_blank(*byte) || *byte == one || *byte == other;
    let end = bytes.iter().position(is_end).unwrap_or(bytes.len());
    bytes.split_at(end.min(bytes.len()))
}

/// Whether a value is a version of XML 1.
fn is_version(value: &[u8]) -> bool {
    match value {
        [b'1', b'.', digits @ ..] => !digits.is_empty()
            && digits.iter().all(|byte| byte.is_ascii_digit()),
        _ => false,
    }
}

/// Whether a value is the name of an encoding.
fn is_encoding(value: &[u8]) -> bool {
    let fits = |byte: &u8| byte.is_ascii_alphanumeric() || matches!(*byte, b'.' | b'_' | b'-');
    match value {
        [first, rest @ ..] => first.is_ascii_alphabetic() && rest.iter().all(fits),
        [] => false,
    }
}

/// Whether a declaration of XML may have this attribute, which is the one with an index of those that it may have.
fn is_fine_value(index: usize, value: &[u8]) -> bool {
    match index {
        0 => is_version(value),
        1 => is_encoding(value),
        _ => value == YES || value == NO,
    }
}

/// Returns the index of the name of an attribute of a declaration of XML, if it is one after those before it.
fn index_of(last: Option<usize>, attribute: &Attribute<'_>) -> Option<usize> {
    let name = text_between(attribute.from, attribute.name_end);
    let index = NAMES.iter().position(|each| *each == name)?;
    let is_next = match last {
        None => index == 0,
        Some(last) => last < index,
    };
    if is_next { Some(index) } else { None }
}

/// Whether a text is what a declaration of XML has after its target.
fn is_declaration(text: &[u8]) -> bool {
    let mut last: Option<usize> = None;
    let mut rest = text;
    for _ in 0..4 {
        let Some(attribute) = next_attribute(rest) else {
            break;
        };
        let gap = text_between(rest, attribute.from);
        let is_quoted = attribute.rest.len() < attribute.value_end.len();
        let value = text_between(attribute.value, attribute.value_end);
        match index_of(last, &attribute) {
            Some(index)
                if is_quoted && !gap.is_empty() && are_blank(gap) && is_fine_value(index, value) =>
                {
                    last = Some(index);
                }
            _ => return false,
        }
        rest = attribute.rest;
    }
    last.is_some() && are_blank(rest)
}

/// Whether a processing instruction may be where it is, at the front of a document or not. A declaration of XML may be only there.
pub(crate) fn is_fine_instruction(token: &Token<'_>, is_front: bool) -> bool {
    let inside = text_between(token.inside, token.inside_end);
    let (target, rest) = word_at(inside, b'?', b'?');
    let is_parted = rest.is_empty() || rest.first().is_some_and(|byte| is_blank(*byte));
    if target == XML {
        return is_front && is_declaration(rest);
    }
    is_parted && is_name(target) && !target.contains(&b':') && !target.eq_ignore_ascii_case(XML)
}

/// Returns what is after a literal in quotes, after white space, if there is one.
fn past_literal(bytes: &[u8]) -> Option<&[u8]> {
    let text = past_blanks(bytes);
    let (quote, inside) = text.split_first()?;
    if text.len() == bytes.len() || !matches!(*quote, b'\'' | b'"') {
        return None;
    }
    let end = inside.iter().position(|byte| byte == quote)?;
    inside.get(end.saturating_add(1)..)
}

/// Whether bytes may be in a public identifier (production 13).
fn is_public(bytes: &[u8]) -> bool {
    let fits = |byte: &u8| byte.is_ascii_alphanumeric() || PUBLIC.contains(byte);
    bytes.iter().all(fits)
}

/// Returns what is after the external identifier at the start, or all if there is none.
fn past_external(bytes: &[u8]) -> Option<&[u8]> {
    let text = past_blanks(bytes);
    let is_parted = text.len() < bytes.len();
    if let Some(rest) = text.strip_prefix(b"SYSTEM") {
        return if is_parted { past_literal(rest) } else { None };
    }
    if let Some(rest) = text.strip_prefix(b"PUBLIC") {
        let after = past_literal(rest)?;
        let literal = past_blanks(text_between(rest, after));
        let name = literal
            .get(1..literal.len().saturating_sub(1))
            .unwrap_or(&[]);
        return if is_parted && is_public(name) {
            past_literal(after)
        } else {
            None
        };
    }
    Some(bytes)
}

/// Whether a document type is well-formed before its subset.
pub(crate) fn is_doctype_front(token: &Token<'_>) -> bool {
    let after = token.inside.get(7..).unwrap_or(&[]);
    let text = past_blanks(after);
    let (name, rest) = word_at(text, b'[', b'>');
    if text.len() == after.len() || !is_name(name) {
        return false;
    }
    match past_external(rest) {
        Some(rest) => matches!(past_blanks(rest), [b'[' | b'>', ..]),
        None => false,
    }
}
