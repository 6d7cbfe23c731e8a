//! Registrations of custom properties by `@property` (CSS Properties and Values API 1, section 2).
ghost use Rattle.std.specs.Prelude.{◌≡◌, ◌<◌, ◌++◌, IfOk, OnOk, map, option_map};
ghost use Rattle.std.specs.Option.{option_to_list};
ghost use Rattle.css_syntax.specs.Views.{declaration_of, item_of};
ghost use Rattle.css_values.specs.Registrations.{described as described_of, described_by};
ghost use Rattle.css_values.specs.Registrations.{descriptors_of, inherits_of, is_initial_value as is_initial_value_of};
ghost use Rattle.css_values.specs.Registrations.{is_keyword as is_keyword_of, is_plain as is_plain_of, is_star as is_star_of};
ghost use Rattle.css_values.specs.Registrations.{registration_of as registration_of_rule, registration_with};
ghost use Rattle.css_values.specs.Registrations.{registrations_of, syntax_from, syntax_of};
ghost use Rattle.css_values.specs.Validity.{all_valid};
ghost use Rattle.css_values.specs.Pieces.{pieces};
ghost use Rattle.css_values.specs.Views.{descriptors_text, piece_of, registration_of, stated_of};

use crate::pieces::{Piece, read_piece};
use crate::table::{Property, is_custom_name};
use css_syntax::texts::{front, past_byte, past_gap, past_string_parts, past_word, spells};
use css_syntax::{Declaration, Declarations, Item, decode, decode_string};
use css_text::readers;
use std::alloc::{AllocError, Global};

/// A registration of a custom property.
#[derive(Clone, Copy, Debug)]
pub struct Registration<'a> {
    /// The name of the property, as written.
    pub name: &'a str,
    /// Whether its syntax is `*`: a value may be any tokens.
    pub universal: bool,
    /// Whether parents hand it down.
    pub inherits: bool,
    /// Its initial value. There is one unless the syntax is `*`.
    pub initial: Option<&'a str>,
}

/// What an `@property` says.
#[derive(Clone, Copy)]
pub(crate) struct Descriptors<'a> {
    /// Whether the syntax is `*`.
    pub universal: Option<bool>,
    /// Whether parents hand the property down.
    pub inherits: Option<bool>,
    /// The initial value.
    pub initial: Option<&'a str>,
}

/// Whether the text is this keyword alone, which is in lower case.
#[tactic(auto, using(crate::proofs::PieceLemmas::word_ends))]
pub(crate) fn is_keyword(keyword: &str, text: &str) -> bool
    ensures { result ≡ is_keyword_of keyword.now text.now }
{
    let from = past_gap(text);
    let rest = past_word(from);
    spells(keyword, front(from, rest)) && past_gap(rest).is_empty()
}

/// Whether the text is a star, with blanks or none around it.
fn is_star(text: &str) -> bool
    ensures { result ≡ is_star_of text.now }
{
    let from = past_gap(text);
    readers::starts(from, b'*') && past_gap(past_byte(from, b'*')).is_empty()
}

/// Returns whether a syntax is `*`, from after this quote, with which it begins.
#[tactic(auto, using(crate::proofs::PieceLemmas::string_ends))]
fn read_syntax_from(alloc: Global, quote: u8, text: &str) -> Result<Option<bool>, AllocError>
    requires { quote < 128 }
    ensures { IfOk result (λ found. syntax_from quote text.now ≡ found) }
{
    let rest = past_string_parts(text, quote);
    let content = decode_string(alloc, front(text, rest))?;
    if past_gap(past_byte(rest, quote)).is_empty() && !content.is_empty() {
        Ok(Some(is_star(&content)))
    } else {
        Ok(None)
    }
}

/// Returns whether a syntax is `*`, if it is a string that is not empty.
fn read_syntax(alloc: Global, text: &str) -> Result<Option<bool>, AllocError>
    ensures { IfOk result (λ found. syntax_of text.now ≡ found) }
{
    if readers::starts(text, b'"') {
        read_syntax_from(alloc, b'"', past_byte(text, b'"'))
    } else if readers::starts(text, b'\'') {
        read_syntax_from(alloc, b'\'', past_byte(text, b'\''))
    } else {
        Ok(None)
    }
}

/// Returns what a value of `inherits` says.
fn read_inherits(text: &str) -> Option<bool>
    ensures { inherits_of text.now ≡ result }
{
    if is_keyword("true", text) {
        Some(true)
    } else if is_keyword("false", text) {
        Some(false)
    } else {
        None
    }
}

/// Adds what a declaration says.
fn described<'a>(
    alloc: Global,
    so_far: Descriptors<'a>,
    one: &Declaration<'a>,
) -> Result<Descriptors<'a>, AllocError>
    ensures { IfOk result (λ said. described_of (descriptors_text so_far.entry) (declaration_of one.now)
        ≡ descriptors_text said) }
{
    let mut said = so_far;
    if spells("syntax", one.name) {
        said.universal = read_syntax(alloc, one.value)?.or(so_far.universal);
    } else if spells("inherits", one.name) {
        said.inherits = read_inherits(one.value).or(so_far.inherits);
    } else if spells("initial-value", one.name) {
        said.initial = Some(one.value);
    }
    Ok(said)
}

/// Adds what an item of a block says.
fn described_by_item<'a>(
    alloc: Global,
    so_far: Descriptors<'a>,
    item: &Item<'a>,
) -> Result<Descriptors<'a>, AllocError>
    ensures { IfOk result (λ said. described_by (descriptors_text so_far.entry) (item_of item.now)
        ≡ descriptors_text said) }
{
    match item {
        Item::Declaration(one) => {
            if one.important {
                Ok(so_far)
            } else {
                described(alloc, so_far, one)
            }
        }
        _ => Ok(so_far),
    }
}

/// Returns what the block of a rule says.
fn read_descriptors<'a>(alloc: Global, block: &'a str) -> Result<Descriptors<'a>, AllocError>
    ensures { IfOk result (λ said. descriptors_of block.now ≡ descriptors_text said) }
{
    let mut said = Descriptors {
        universal: None,
        inherits: None,
        initial: None,
    };
    let mut items = Declarations::of_block(block);
    'items: while let Some(part) = items.next() {
        said = described_by_item(alloc, said, &part.item)?;
    }
    Ok(said)
}

/// Whether a piece is no reference.
fn is_plain(piece: Piece<'_>) -> bool
    ensures { result ≡ is_plain_of (piece_of piece.entry) }
{
    matches!(piece, Piece::Plain(_))
}

/// Whether a value has no reference.
fn has_no_reference(text: &str) -> bool
    ensures { all_valid is_plain_of (pieces text.now) ≡ result }
{
    let mut rest = text;
    'pieces: while let Some(read) = read_piece(rest) {
        if !is_plain(read.piece) {
            return false;
        }
        rest = read.rest;
    }
    true
}

/// Whether an initial value is allowed, or none.
fn is_initial_value(universal: bool, initial: Option<&str>) -> bool
    ensures { result ≡ is_initial_value_of universal (option_map (λ text. text.now) initial.entry) }
{
    match initial {
        None => universal,
        Some(text) => has_no_reference(text),
    }
}

/// Returns the registration of this name that a rule says, if it is one.
fn registration_said<'a>(name: &'a str, said: Descriptors<'a>) -> Option<Registration<'a>>
    ensures { registration_with name.now (descriptors_text said.entry)
        ≡ option_map registration_of result }
{
    let universal = said.universal?;
    let inherits = said.inherits?;
    if !is_initial_value(universal, said.initial) {
        return None;
    }
    Some(Registration {
        name,
        universal,
        inherits,
        initial: said.initial,
    })
}

/// Returns the registration that a rule is, by what is before its block, and by its block.
#[tactic(auto, using(crate::proofs::PieceLemmas::word_ends))]
fn read_registration<'a>(
    alloc: Global,
    rule: Property<'a>,
) -> Result<Option<Registration<'a>>, AllocError>
    ensures { IfOk result (λ found. registration_of_rule (stated_of rule.entry)
        ≡ option_map registration_of found) }
{
    let from = past_gap(rule.name);
    let rest = past_word(from);
    let name = front(from, rest);
    let decoded = decode(alloc, name)?;
    if !is_custom_name(decoded.as_bytes()) || !past_gap(rest).is_empty() {
        return Ok(None);
    }
    let said = read_descriptors(alloc, rule.text)?;
    Ok(registration_said(name, said))
}

/// Appends the registration that a rule is, if it is one.
fn push_registration<'a>(
    alloc: Global,
    found: &mut Vec<Registration<'a>>,
    rule: Property<'a>,
) -> Result<(), AllocError>
    ensures { OnOk result (map registration_of found.new.items
        ≡ map registration_of found.old.items
        ++ option_to_list (registration_of_rule (stated_of rule.entry))) }
{
    if let Some(one) = read_registration(alloc, rule)? {
        found.push(one)?;
    }
    Ok(())
}

/// Returns the registrations of custom properties that `@property` rules are, each of which is what is before
/// its block, and the contents of the block. They are from the last rule to the first: the first of a name is
/// the one that counts. Fails only if an allocation fails.
pub fn read_registrations<'a>(
    alloc: Global,
    rules: &[Property<'a>],
) -> Result<Vec<Registration<'a>>, AllocError>
    ensures { IfOk result (λ found. map registration_of found.items
        ≡ registrations_of (map stated_of rules.now)) }
{
    let mut found = Vec::new(alloc);
    let mut number = rules.len();
    'rules: while number > 0 {
        number -= 1;
        push_registration(alloc, &mut found, rules[number])?;
    }
    Ok(found)
}
