//! The attributes of a start tag, by their names.
ghost use Rattle.std.specs.Prelude.{◌≡◌, ◌≤◌, ◌++◌, IfOk, OnOk, length, map, option_map};
ghost use Rattle.std.specs.List.{prefix_len};
ghost use Rattle.css_text.specs.Bytes.{past};
ghost use Rattle.css_html.specs.Attributes.{attributes as attributes_in};
ghost use Rattle.css_html.specs.Views.{attribute_of, token_of};
ghost use Rattle.html_edits.specs.Attributes.{same_name as same_name_of, first_named as first_named_in};
ghost use Rattle.html_edits.specs.Attributes.{compared as compared_in, decoded_in, is_in_prefix as is_in_prefix_byte};
ghost use Rattle.html_edits.specs.Attributes.{local_name as local_name_of, tag_name as tag_name_of};
ghost use Rattle.html_edits.specs.Attributes.{is_style_tag as is_style_tag_of, is_link_tag as is_link_tag_of};

use crate::edits::Language;
use css_html::attributes::{Attribute, next_attribute};
use css_html::decoding::{TextKind, decode as decode_html};
use css_html::marks::text_between;
use css_html::tokenizer::Token;
use css_xml::references::decode as decode_xml;
use std::alloc::{AllocError, Global};

const STYLE: &[u8] = b"style";

const LINK: &[u8] = b"link";

/// Returns a byte as names are compared.
fn compared(language: Language, byte: u8) -> u8
    ensures { result ≡ compared_in language byte }
{
    match language {
        Language::Html => byte.to_ascii_lowercase(),
        Language::Xml => byte,
    }
}

/// Whether two names are the same, in HTML with letters in any case.
pub fn same_name(language: Language, one: &[u8], other: &[u8]) -> bool
    ensures { result ≡ same_name_of language one.now other.now }
{
    let mut left = one;
    let mut right = other;
    'letters: while let [letter, letters @ ..] = left {
        match right {
            [byte, bytes @ ..] if compared(language, *letter) == compared(language, *byte) => {
                left = letters;
                right = bytes;
            }
            _ => return false,
        }
    }
    right.is_empty()
}

/// Returns the attributes from the end of a tag's name on.
pub fn attributes_from(alloc: Global, bytes: &[u8]) -> Result<Vec<Attribute<'_>>, AllocError>
    ensures { IfOk result (λ found. map attribute_of found.items ≡ attributes_in bytes.now) }
{
    let mut found = Vec::new(alloc);
    let mut rest = bytes;
    'attributes: while let Some(attribute) = next_attribute(rest) {
        found.push(attribute)?;
        rest = attribute.rest;
    }
    Ok(found)
}

/// Returns the first attribute with a name, if there is one.
pub fn first_named<'a>(
    language: Language,
    name: &[u8],
    attributes: &[Attribute<'a>],
) -> Option<Attribute<'a>>
    ensures { option_map attribute_of result
        ≡ first_named_in language name.now (map attribute_of attributes.now) }
{
    let mut rest = attributes;
    'attributes: while let [attribute, after @ ..] = rest {
        if same_name(
            language,
            name,
            text_between(attribute.from, attribute.name_end),
        ) {
            return Some(*attribute);
        }
        rest = after;
    }
    None
}

/// Appends what a text stands for.
pub(crate) fn decode(
    out: &mut Vec<u8>,
    language: Language,
    kind: TextKind,
    text: &[u8],
) -> Result<(), AllocError>
    ensures { OnOk result (out.new.items ≡ out.old.items ++ decoded_in language kind text.now) }
{
    match language {
        Language::Html => decode_html(out, kind, text),
        Language::Xml => decode_xml(out, kind, text),
    }
}

/// Returns the name of a tag, as written.
pub(crate) fn tag_name<'a>(tag: &Token<'a>) -> &'a [u8]
    ensures { result.now ≡ tag_name_of (token_of tag.now) }
{
    text_between(tag.inside, tag.inside_end)
}

/// Returns how many bytes there are before the colon of a name, or all.
fn prefix_count(name: &[u8]) -> usize
    ensures count { result ≡ prefix_len is_in_prefix_byte name.now }
    ensures within { result ≤ length name.now }
{
    name.iter().take_while(|byte| **byte != b':').count()
}

/// Returns a name from its colon on, or nothing.
pub(crate) fn from_colon(name: &[u8]) -> &[u8]
    ensures { result.now ≡ past is_in_prefix_byte name.now }
{
    &name[prefix_count(name)..]
}

/// Returns the name of a kind of elements: in XML without a prefix.
fn local_name(language: Language, name: &[u8]) -> &[u8]
    ensures { result.now ≡ local_name_of language name.now }
{
    match (language, from_colon(name)) {
        (Language::Xml, [_, local @ ..]) => local,
        _ => name,
    }
}

/// Whether a tag is that of a `style` element.
pub(crate) fn is_style_tag(language: Language, tag: &Token<'_>) -> bool
    ensures { result ≡ is_style_tag_of language (token_of tag.now) }
{
    same_name(language, STYLE, local_name(language, tag_name(tag)))
}

/// Whether a tag is that of a `link`.
pub(crate) fn is_link_tag(language: Language, tag: &Token<'_>) -> bool
    ensures { result ≡ is_link_tag_of language (token_of tag.now) }
{
    same_name(language, LINK, local_name(language, tag_name(tag)))
}
