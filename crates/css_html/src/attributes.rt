//! The attributes of a tag, each with its place (HTML Standard, sections 13.2.5.32 to 13.2.5.40).
ghost use Rattle.std.specs.Prelude.{◌≡◌, ◌∷◌, option_map};
ghost use Rattle.css_text.specs.Strings.{is_quote as is_quote_byte};
ghost use Rattle.css_html.specs.Attributes.{bare_attribute as bare_attribute_of};
ghost use Rattle.css_html.specs.Attributes.{quoted_attribute as quoted_attribute_of};
ghost use Rattle.css_html.specs.Attributes.{valued_attribute as valued_attribute_of};
ghost use Rattle.css_html.specs.Attributes.{named_attribute as named_attribute_of};
ghost use Rattle.css_html.specs.Attributes.{attribute_from as attribute_from_of};
ghost use Rattle.css_html.specs.Attributes.{next_attribute as next_attribute_of};
ghost use Rattle.css_html.specs.Attributes.{past_attributes as past_attributes_of};
ghost use Rattle.css_html.specs.Views.{attribute_of};

use crate::marks::{from_byte, past_attribute_name, past_bare_value, past_between, past_spaces};

/// An attribute and its place. Each place is what is left of the page from there on. An attribute without
/// a value has an empty one at its name's end.
#[derive(Clone, Copy, Debug, PartialEq)]
pub struct Attribute<'a> {
    /// What is left from its name on.
    pub from: &'a [u8],
    /// What is left after its name.
    pub name_end: &'a [u8],
    /// What is left from its value on, after the quote.
    pub value: &'a [u8],
    /// What is left after its value.
    pub value_end: &'a [u8],
    /// What is left after it.
    pub rest: &'a [u8],
}

/// An attribute without a value.
fn bare_attribute<'a>(from: &'a [u8], name_end: &'a [u8]) -> Attribute<'a>
    ensures { attribute_of result ≡ bare_attribute_of from.now name_end.now }
{
    Attribute {
        from,
        name_end,
        value: name_end,
        value_end: name_end,
        rest: name_end,
    }
}

/// An attribute with a value in quotes, from what it ends at: its quote, or the end of the page.
fn quoted_attribute<'a>(
    from: &'a [u8],
    name_end: &'a [u8],
    value: &'a [u8],
    end: &'a [u8],
) -> Attribute<'a>
    ensures { attribute_of result ≡ quoted_attribute_of from.now name_end.now value.now end.now }
{
    match end {
        [] => Attribute {
            from,
            name_end,
            value,
            value_end: end,
            rest: end,
        },
        [_, rest @ ..] => Attribute {
            from,
            name_end,
            value,
            value_end: end,
            rest,
        },
    }
}

/// Whether the byte is a quote.
#[inline(always)]
fn is_quote(byte: u8) -> bool
    ensures { result ≡ is_quote_byte byte }
{
    byte == b'\'' || byte == b'"'
}

/// Reads an attribute from its value on.
fn valued_attribute<'a>(from: &'a [u8], name_end: &'a [u8], bytes: &'a [u8]) -> Attribute<'a>
    ensures { attribute_of result ≡ valued_attribute_of from.now name_end.now bytes.now }
{
    match bytes {
        [] => quoted_attribute(from, name_end, bytes, bytes),
        [byte, after @ ..] => {
            if is_quote(*byte) {
                quoted_attribute(from, name_end, after, from_byte(after, *byte))
            } else {
                let end = past_bare_value(bytes);
                Attribute {
                    from,
                    name_end,
                    value: bytes,
                    value_end: end,
                    rest: end,
                }
            }
        }
    }
}

/// Reads an attribute from after the spaces after its name on.
fn named_attribute<'a>(from: &'a [u8], name_end: &'a [u8], bytes: &'a [u8]) -> Attribute<'a>
    ensures { attribute_of result ≡ named_attribute_of from.now name_end.now bytes.now }
{
    match bytes {
        [b'=', after @ ..] => valued_attribute(from, name_end, past_spaces(after)),
        _ => bare_attribute(from, name_end),
    }
}

/// Reads the attribute that begins with this byte, before what follows it.
fn attribute_from<'a>(byte: u8, from: &'a [u8], after: &'a [u8]) -> Attribute<'a>
    requires { from.now ≡ byte ∷ after.now }
    ensures { attribute_of result ≡ attribute_from_of byte after.now }
{
    let name_end = past_attribute_name(after);
    named_attribute(from, name_end, past_spaces(name_end))
}

/// Reads the next attribute of a tag, from its name's end or from the last attribute's rest on, if there
/// is one before `>` or the end of the page.
#[tactic(auto, unfolding(crate::specs::Attributes::next_attribute))]
pub fn next_attribute(bytes: &[u8]) -> Option<Attribute<'_>>
    ensures { next_attribute_of bytes.now ≡ option_map (λ a. (attribute_of a, a.rest.now)) result }
{
    let from = past_between(bytes);
    match from {
        [] | [b'>', ..] => None,
        [byte, after @ ..] => Some(attribute_from(*byte, from, after)),
    }
}

/// Returns the rest after the attributes of a tag and what is between them: `>`, or nothing.
#[tactic(auto, unfolding(crate::specs::Attributes::past_attributes))]
pub(crate) fn past_attributes(bytes: &[u8]) -> &[u8]
    ensures { result.now ≡ past_attributes_of bytes.now }
{
    let mut rest = bytes;
    'attributes: while let Some(attribute) = next_attribute(rest) {
        rest = attribute.rest;
    }
    past_between(rest)
}
