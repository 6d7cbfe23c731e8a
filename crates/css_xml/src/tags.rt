//! Which tags and texts are well-formed (XML 1.0, sections 2.4 and 3.1).
ghost use Rattle.std.specs.Prelude.{◌≡◌};
ghost use Rattle.css_html.specs.Attributes.{attributes};
ghost use Rattle.css_html.specs.Views.{attribute_of, token_of};
ghost use Rattle.css_xml.specs.Tags.{is_gap as is_gap_text, is_tail as is_tail_text, is_wrong as is_wrong_at};
ghost use Rattle.css_xml.specs.Tags.{is_said as is_said_text, is_quoted as is_quoted_attribute};
ghost use Rattle.css_xml.specs.Tags.{is_whole as is_whole_attribute, are_parted};
ghost use Rattle.css_xml.specs.Tags.{is_start_tag as is_start_tag_of, is_end_tag as is_end_tag_of};

use crate::characters::{are_blank, is_blank, is_name};
use crate::references::reference;
use crate::tokenizer::{is_empty_tag, tag_name};
use css_html::attributes::{Attribute, next_attribute};
use css_html::marks::text_between;
use css_html::tokenizer::Token;

/// Whether a text parts a tag's name and attributes: whether it is white space.
fn is_gap(bytes: &[u8]) -> bool
    ensures { result ≡ is_gap_text bytes.now }
{
    match bytes {
        [] => false,
        [_, ..] => are_blank(bytes),
    }
}

/// Whether a text is `>` or `/>`, after white space or none.
#[tactic(auto, unfolding(crate::specs::Tags::is_tail))]
fn is_tail(bytes: &[u8]) -> bool
    ensures { result ≡ is_tail_text bytes.now }
{
    let mut rest = bytes;
    'blanks: while let [byte, after @ ..] = rest {
        if !is_blank(*byte) {
            return matches!(rest, [b'>'] | [b'/', b'>']);
        }
        rest = after;
    }
    false
}

/// Whether what begins with this byte may not be in a value or a text.
fn is_wrong(in_value: bool, byte: u8, after: &[u8]) -> bool
    ensures { result ≡ is_wrong_at in_value byte after.now }
{
    if byte == b'&' {
        reference(after).is_none()
    } else if in_value {
        byte == b'<'
    } else {
        byte == b']' && matches!(after, [b']', b'>', ..])
    }
}

/// Whether a value or a text has references and characters alone.
#[tactic(auto, unfolding(crate::specs::Tags::is_said))]
pub(crate) fn is_said(in_value: bool, bytes: &[u8]) -> bool
    ensures { result ≡ is_said_text in_value bytes.now }
{
    let mut rest = bytes;
    'bytes: while let [byte, after @ ..] = rest {
        if is_wrong(in_value, *byte, after) {
            return false;
        }
        rest = after;
    }
    true
}

/// Whether the value of an attribute is in quotes.
fn is_quoted(attribute: &Attribute<'_>) -> bool
    ensures { result ≡ is_quoted_attribute (attribute_of attribute.now) }
{
    attribute.rest.len() < attribute.value_end.len()
}

/// Whether an attribute is well-formed, after white space from this place on.
fn is_whole(last: &[u8], attribute: &Attribute<'_>) -> bool
    ensures { result ≡ is_whole_attribute last.now (attribute_of attribute.now) }
{
    is_gap(text_between(last, attribute.from))
        && is_quoted(attribute)
        && is_name(text_between(attribute.from, attribute.name_end))
        && is_said(true, text_between(attribute.value, attribute.value_end))
}

/// Whether a tag has well-formed attributes from a place on, and then ends.
fn are_attributes(bytes: &[u8], end: &[u8]) -> bool
    ensures { result ≡ are_parted bytes.now (attributes bytes.now) end.now }
{
    let mut last = bytes;
    'attributes: while let Some(attribute) = next_attribute(last) {
        if !is_whole(last, &attribute) {
            return false;
        }
        last = attribute.rest;
    }
    is_tail(text_between(last, end))
}

/// Whether a start tag is well-formed.
pub(crate) fn is_start_tag(tag: &Token<'_>) -> bool
    ensures { result ≡ is_start_tag_of (token_of tag.now) }
{
    is_name(tag_name(tag)) && are_attributes(tag.inside_end, tag.rest)
}

/// Whether an end tag is well-formed.
pub(crate) fn is_end_tag(tag: &Token<'_>) -> bool
    ensures { result ≡ is_end_tag_of (token_of tag.now) }
{
    is_name(tag_name(tag)) && is_tail(text_between(tag.inside_end, tag.rest)) && !is_empty_tag(tag)
}
