//! Whether a start tag is another one with changes of its attributes.
ghost use Rattle.std.specs.Prelude.{◌≡◌, true, map, option_map, IfOk};
ghost use Rattle.css_html.specs.Views.{attribute_of, token_of};
ghost use Rattle.html_edits.specs.Attributes.{value_in as value_in_of};
ghost use Rattle.html_edits.specs.Changing.{is_changed as is_changed_of, others as others_of, new_value as new_value_of};
ghost use Rattle.html_edits.specs.Changing.{token_in as token_in_of};
ghost use Rattle.html_edits.specs.Changing.{name_and_value, names_and_values, AreMade, IsNewTag, IsChanged};

use crate::attributes::{attributes_from, decode, first_named, same_name, tag_name};
use crate::edits::{Change, Language, NewValue};
use css_html::attributes::Attribute;
use css_html::decoding::TextKind;
use css_html::marks::text_between;
use css_html::modes::Mode;
use css_html::tokenizer::{Token, TokenKind, read_next as read_html};
use css_xml::tokenizer::read_next as read_xml;
use std::alloc::{AllocError, Global};

/// Whether one of the changes is of the attribute with a name.
fn is_changed(language: Language, changes: &[Change<'_>], name: &[u8]) -> bool
    ensures { result ≡ is_changed_of language changes.now name.now }
{
    let mut rest = changes;
    'changes: while let [change, after @ ..] = rest {
        if same_name(language, change.name, name) {
            return true;
        }
        rest = after;
    }
    false
}

/// Returns the attributes that the changes are not of.
fn others<'a>(
    alloc: Global,
    language: Language,
    changes: &[Change<'_>],
    attributes: &[Attribute<'a>],
) -> Result<Vec<Attribute<'a>>, AllocError>
    ensures { IfOk result (λ found. map attribute_of found.items
        ≡ others_of language changes.now (map attribute_of attributes.now)) }
{
    let mut found = Vec::new(alloc);
    let mut rest = attributes;
    'attributes: while let [attribute, after @ ..] = rest {
        let name = text_between(attribute.from, attribute.name_end);
        if !is_changed(language, changes, name) {
            found.push(*attribute)?;
        }
        rest = after;
    }
    Ok(found)
}

/// Whether two attributes are written with the same name and value.
fn is_same(one: &Attribute<'_>, other: &Attribute<'_>) -> bool
    ensures { result ≡ true → name_and_value (attribute_of one.now) ≡ name_and_value (attribute_of other.now) }
{
    text_between(one.from, one.name_end) == text_between(other.from, other.name_end)
        && text_between(one.value, one.value_end) == text_between(other.value, other.value_end)
}

/// Whether attributes are written with the same names and values as others.
fn are_same(attributes: &[Attribute<'_>], others: &[Attribute<'_>]) -> bool
    ensures { result ≡ true → names_and_values (map attribute_of attributes.now)
        ≡ names_and_values (map attribute_of others.now) }
{
    let mut left = attributes;
    let mut right = others;
    'attributes: while let [one, more @ ..] = left {
        match right {
            [other, after @ ..] if is_same(one, other) => {
                left = more;
                right = after;
            }
            _ => return false,
        }
    }
    right.is_empty()
}

/// Returns the value that an element has of an attribute, if it has it.
fn value_in(
    alloc: Global,
    language: Language,
    name: &[u8],
    attributes: &[Attribute<'_>],
) -> Result<Option<Vec<u8>>, AllocError>
    ensures { IfOk result (λ found. option_map (λ v. v.items) found
        ≡ value_in_of language name.now (map attribute_of attributes.now)) }
{
    let Some(attribute) = first_named(language, name, attributes) else {
        return Ok(None);
    };
    let mut value = Vec::new(alloc);
    let written = text_between(attribute.value, attribute.value_end);
    decode(&mut value, language, TextKind::Value, written)?;
    Ok(Some(value))
}

/// Returns what becomes of the value of an attribute.
fn new_value(
    alloc: Global,
    value: NewValue<'_>,
    own: Option<Vec<u8>>,
) -> Result<Option<Vec<u8>>, AllocError>
    ensures { IfOk result (λ found. option_map (λ v. v.items) found
        ≡ new_value_of value.entry (option_map (λ v. v.items) own)) }
{
    let mut found = Vec::new(alloc);
    match value {
        NewValue::Set(bytes) => found.extend_from_slice(bytes)?,
        NewValue::Before(bytes) => {
            found.extend_from_slice(bytes)?;
            if let Some(own) = own {
                found.extend_from_slice(own.as_slice())?;
            }
        }
        NewValue::Removed => return Ok(None),
    }
    Ok(Some(found))
}

/// Whether two values are the same.
fn is_same_value(one: &Option<Vec<u8>>, other: &Option<Vec<u8>>) -> bool
    ensures { result ≡ true
        → option_map (λ v. v.items) one.now ≡ option_map (λ v. v.items) other.now }
{
    match (one, other) {
        (Some(one), Some(other)) => one.as_slice() == other.as_slice(),
        (None, None) => true,
        _ => false,
    }
}

/// Whether an attribute that changes has its new value.
fn is_made(
    alloc: Global,
    language: Language,
    change: &Change<'_>,
    old: &[Attribute<'_>],
    new: &[Attribute<'_>],
) -> Result<bool, AllocError>
    ensures { IfOk result (λ holds. holds ≡ true
        → value_in_of language change.now.name.now (map attribute_of new.now)
        ≡ new_value_of change.now.value
        (value_in_of language change.now.name.now (map attribute_of old.now))) }
{
    let own = value_in(alloc, language, change.name, old)?;
    let wanted = new_value(alloc, change.value, own)?;
    let found = value_in(alloc, language, change.name, new)?;
    Ok(is_same_value(&found, &wanted))
}

/// Whether each attribute that changes has its new value.
fn are_made(
    alloc: Global,
    language: Language,
    changes: &[Change<'_>],
    old: &[Attribute<'_>],
    new: &[Attribute<'_>],
) -> Result<bool, AllocError>
    ensures { IfOk result (λ holds. holds ≡ true
        → AreMade language changes.now (map attribute_of old.now) (map attribute_of new.now)) }
{
    let mut rest = changes;
    'changes: while let [change, after @ ..] = rest {
        if !is_made(alloc, language, change, old, new)? {
            return Ok(false);
        }
        rest = after;
    }
    Ok(true)
}

/// Whether a start tag is another one with changes, from what is read of both.
fn is_new_tag(
    alloc: Global,
    language: Language,
    tag: &Token<'_>,
    changes: &[Change<'_>],
    new: &Token<'_>,
) -> Result<bool, AllocError>
    ensures { IfOk result (λ holds. holds ≡ true
        → IsNewTag language (token_of tag.now) changes.now (token_of new.now)) }
{
    let old_attributes = attributes_from(alloc, tag.inside_end)?;
    let new_attributes = attributes_from(alloc, new.inside_end)?;
    let old_others = others(alloc, language, changes, old_attributes.as_slice())?;
    let new_others = others(alloc, language, changes, new_attributes.as_slice())?;
    let is_name = tag_name(new) == tag_name(tag);
    if !is_name || !are_same(new_others.as_slice(), old_others.as_slice()) {
        return Ok(false);
    }
    are_made(
        alloc,
        language,
        changes,
        old_attributes.as_slice(),
        new_attributes.as_slice(),
    )
}

/// Reads the token that a text with markup begins with.
fn token_in(language: Language, text: &[u8]) -> Option<Token<'_>>
    ensures { token_in_of language text.now ≡ option_map (λ t. (token_of t, t.rest.now)) result }
{
    match language {
        Language::Html => read_html(Mode::Data, text),
        Language::Xml => read_xml(text),
    }
}

/// Whether a text is a start tag with changes of its attributes.
pub(crate) fn is_changed_tag(
    alloc: Global,
    language: Language,
    tag: &Token<'_>,
    changes: &[Change<'_>],
    text: &[u8],
) -> Result<bool, AllocError>
    ensures { IfOk result (λ holds. holds ≡ true → IsChanged language (token_of tag.now) changes.now text.now) }
{
    match token_in(language, text) {
        Some(new) if new.kind == TokenKind::StartTag && new.rest.is_empty() => {
            is_new_tag(alloc, language, tag, changes, &new)
        }
        _ => Ok(false),
    }
}
