//! What a `meta` says (HTML Standard, sections 2.4.4 and 13.2.3.2).
ghost use Rattle.std.specs.Prelude.{◌≡◌, ◌≤◌, length, option_map};
ghost use Rattle.std.specs.List.{prefix_len};
ghost use Rattle.css_text.specs.Strings.{is_quote as is_quote_byte};
ghost use Rattle.css_html.specs.Attributes.{attributes};
ghost use Rattle.html_encodings.specs.Words.{is_in_label as is_in_label_of};
ghost use Rattle.html_encodings.specs.Finding.{charset_at as charset_at_of, past_charset as past_charset_of};
ghost use Rattle.html_encodings.specs.Finding.{label_at as label_at_of, encoding_in_content as encoding_in_content_of};
ghost use Rattle.css_html.specs.Views.{attribute_of};
ghost use Rattle.html_encodings.specs.Finding.{value_named as value_named_of};
ghost use Rattle.html_encodings.specs.Finding.{value_in, is_type as is_type_of, encoding_by as encoding_by_of};
ghost use Rattle.html_encodings.specs.Finding.{readable as readable_of, named_by_meta as named_by_meta_of};
ghost use Rattle.html_encodings.specs.Finding.{encoding_of_content as encoding_of_content_of};
ghost use Rattle.html_encodings.specs.Finding.{encoding_of_meta as encoding_of_meta_of};

use crate::bytes::{is_space, is_word, past_letters, past_sign, past_spaces, up_to_byte};
use crate::encoding::{Encoding, encoding_of_label};
use css_html::attributes::{Attribute, next_attribute};
use css_html::marks::text_between;

/// Returns the rest after the word `charset` and a `=`, if the text begins with them.
fn charset_at(bytes: &[u8]) -> Option<&[u8]>
    ensures { charset_at_of bytes.now ≡ option_map (λ rest. rest.now) result }
{
    match past_letters(b"charset", bytes) {
        Some(rest) => past_sign(past_spaces(rest)),
        None => None,
    }
}

/// Returns the rest after the first word `charset` that a `=` follows.
#[tactic(auto, unfolding(crate::specs::Finding::past_charset))]
fn past_charset(bytes: &[u8]) -> Option<&[u8]>
    ensures { past_charset_of bytes.now ≡ option_map (λ rest. rest.now) result }
{
    let mut rest = bytes;
    'charset: while let [_, after @ ..] = rest {
        if let Some(found) = charset_at(rest) {
            return Some(found);
        }
        rest = after;
    }
    None
}

/// Whether the byte is a quote.
pub(crate) fn is_quote(byte: u8) -> bool
    ensures { result ≡ is_quote_byte byte }
{
    byte == b'\'' || byte == b'"'
}

/// Returns the number of bytes of a label without quotes at the start.
fn label_count(bytes: &[u8]) -> usize
    ensures count { result ≡ prefix_len is_in_label_of bytes.now }
    ensures within { result ≤ length bytes.now }
{
    bytes
        .iter()
        .take_while(|byte| !(is_space(**byte) || **byte == b';'))
        .count()
}

/// Returns the label that begins here.
fn label_at(bytes: &[u8]) -> Option<&[u8]>
    ensures { label_at_of bytes.now ≡ option_map (λ label. label.now) result }
{
    match bytes {
        [] => None,
        [quote, text @ ..] if is_quote(*quote) => up_to_byte(text, *quote),
        [_, ..] => Some(text_between(bytes, &bytes[label_count(bytes)..])),
    }
}

/// Returns the encoding that a content names.
fn encoding_in_content(bytes: &[u8]) -> Option<Encoding>
    ensures { result ≡ encoding_in_content_of bytes.now }
{
    let value = past_charset(bytes)?;
    let label = label_at(past_spaces(value))?;
    encoding_of_label(label)
}

/// Returns the value of an attribute, if it has this name, which is in lower case.
fn value_named<'a>(name: &[u8], attribute: Attribute<'a>) -> Option<&'a [u8]>
    ensures { value_named_of name.now (attribute_of attribute.entry) ≡ option_map (λ value. value.now) result }
{
    if is_word(name, text_between(attribute.from, attribute.name_end)) {
        Some(text_between(attribute.value, attribute.value_end))
    } else {
        None
    }
}

/// Returns the value of the first attribute of this name, which is in lower case, from the name of its tag on.
fn value_of<'a>(name: &[u8], bytes: &'a [u8]) -> Option<&'a [u8]>
    ensures { value_in name.now (attributes bytes.now) ≡ option_map (λ value. value.now) result }
{
    let mut rest = bytes;
    'attributes: while let Some(attribute) = next_attribute(rest) {
        if let Some(value) = value_named(name, attribute) {
            return Some(value);
        }
        rest = attribute.rest;
    }
    None
}

/// Returns UTF-8 in place of UTF-16, in which what names it could not be read.
pub(crate) fn readable(encoding: Encoding) -> Encoding
    ensures { result ≡ readable_of encoding }
{
    match encoding {
        Encoding::Utf16Be | Encoding::Utf16Le => Encoding::Utf8,
        other => other,
    }
}

/// Returns the encoding of a page in which a `meta` names this one.
fn named_by_meta(encoding: Encoding) -> Encoding
    ensures { result ≡ named_by_meta_of encoding }
{
    match encoding {
        Encoding::UserDefined => Encoding::Windows1252,
        other => readable(other),
    }
}

/// Whether an attribute `http-equiv` says that the content is a type.
fn is_type(value: Option<&[u8]>) -> bool
    ensures { result ≡ is_type_of (option_map (λ text. text.now) value.entry) }
{
    match value {
        Some(value) => is_word(b"content-type", value),
        None => false,
    }
}

/// Returns the encoding that a content names, if there is one.
fn encoding_of_content(content: Option<&[u8]>) -> Option<Encoding>
    ensures { result ≡ encoding_of_content_of (option_map (λ text. text.now) content.entry) }
{
    encoding_in_content(content?)
}

/// Returns the encoding that the values of attributes name.
fn encoding_by(
    charset: Option<&[u8]>,
    equivalent: Option<&[u8]>,
    content: Option<&[u8]>,
) -> Option<Encoding>
    ensures { result ≡ encoding_by_of (option_map (λ text. text.now) charset.entry)
        (option_map (λ text. text.now) equivalent.entry) (option_map (λ text. text.now) content.entry) }
{
    match charset {
        Some(label) => encoding_of_label(label),
        None if is_type(equivalent) => encoding_of_content(content),
        None => None,
    }
}

/// Returns the encoding that a `meta` names, from its name's end on.
pub(crate) fn encoding_of_meta(bytes: &[u8]) -> Option<Encoding>
    ensures { result ≡ encoding_of_meta_of bytes.now }
{
    let charset = value_of(b"charset", bytes);
    let equivalent = value_of(b"http-equiv", bytes);
    let content = value_of(b"content", bytes);
    match encoding_by(charset, equivalent, content) {
        Some(encoding) => Some(named_by_meta(encoding)),
        None => None,
    }
}
