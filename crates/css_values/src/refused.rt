//! Values that no browser takes, as far as the table says.
ghost use Rattle.std.specs.Prelude.{◌≡◌, ◌<◌, ◌^◌, ℕ, List, OnOk, Some, bytes_eq, option_map, if◌then◌else◌};
ghost use Rattle.std.specs.List.{prefix_len};
ghost use Rattle.css_text.specs.Bytes.{is_hex_digit as is_hex_digit_byte, starts as starts_of};
ghost use Rattle.css_syntax.specs.TokenViews.{token_of};
ghost use Rattle.css_values.specs.Names.{is_named_in};
ghost use Rattle.css_values.specs.Refused.{byte_component as byte_component_of, component_by, components};
ghost use Rattle.css_values.specs.Refused.{fits as fits_of, found_in as found_in_of, function_component as function_component_of};
ghost use Rattle.css_values.specs.Refused.{has_letter as has_letter_of, has_unfit as has_unfit_of, inside as inside_of};
ghost use Rattle.css_values.specs.Refused.{is_bare_color as is_bare_color_of, is_color_word as is_color_word_of};
ghost use Rattle.css_values.specs.Refused.{is_listed as is_listed_of, is_prefixed as is_prefixed_of, is_refused as is_refused_of, is_unfit as is_unfit_of};
ghost use Rattle.css_values.specs.Refused.{is_substituted as is_substituted_of, is_wide as is_wide_of};
ghost use Rattle.css_values.specs.Refused.{is_zero as is_zero_of, number_component as number_component_of, quirks_named};
ghost use Rattle.css_values.specs.Refused.{number_fits as number_fits_of, zero_fits as zero_fits_of};
ghost use Rattle.css_values.specs.Refused.{refuses as refuses_of, row_in, row_named};
ghost use Rattle.css_values.specs.Refused.{digit as digit_of, dimension as dimension_of, letter_of as letter_of_text};
ghost use Rattle.css_values.specs.Refused.{listed_component, of_token, unit_class as unit_class_of, unmarked as unmarked_of};
ghost use Rattle.css_values.specs.Refused.{word_component as word_component_of, word_fits as word_fits_of};
ghost use Rattle.css_values.specs.RefusedViews.{component_of as component_view, found_of, quirks_of as quirks_view, row_of, sorts_of};
ghost use Rattle.css_values.specs.internal.Joined.{joined, row_at};

use crate::names::{cut, part_before};
use crate::value_data::{
    COLOR_WORDS, PREFIXED, QUIRKY_COLORS, QUIRKY_LENGTHS, SUBSTITUTED, UNIT_CLASSES, VALUES,
    WIDE_WORDS,
};
use css_syntax::tokenizer::read_next;
use css_syntax::tokens::spells;
use css_syntax::{Token, TokenKind};
use std::alloc::{AllocError, Global};
use std::collections::BTreeMap;
use std::marker::Model;

/// What a component of a value is.
#[derive(Clone, Copy)]
enum Component<'t> {
    /// A word.
    Word(&'t [u8]),
    /// A number without a unit that is not zero.
    Number,
    /// A number without a unit that is zero.
    Zero,
    /// A percentage, a number with a unit, a colour after a number sign, a string or a url, by the letter of
    /// its class.
    Classed(u8),
    /// A comma or a slash.
    Sign,
    /// A function of a vendor that no browser knows.
    Foreign,
    /// A function with another value in its place.
    Substituted,
    /// What the table says nothing of.
    Other,
}

/// What a property takes in quirks mode beside its other values: numbers as lengths, or numbers and words of hexadecimal
/// digits as colours.
#[derive(Clone, Copy)]
struct Quirks {
    lengths: bool,
    colors: bool,
}

/// What some components are: the letters of classes, words, and what is taken in quirks mode.
#[derive(Clone, Copy)]
struct Sorts<'r> {
    letters: &'r str,
    words: &'r str,
    quirks: Quirks,
}

/// The values of a property.
#[derive(Clone, Copy)]
struct Row<'r> {
    /// How many components they have, or 0 for any number.
    most: usize,
    /// What is a value alone, and in values with a greatest number of components.
    alone: Sorts<'r>,
    /// What is in the others.
    parts: Sorts<'r>,
}

/// What a value has: how many components, and of which sorts.
#[derive(Clone, Copy)]
struct Found {
    count: usize,
    sign: bool,
    foreign: bool,
    substituted: bool,
    other: bool,
}

// ---- words

/// Returns a word of a list, which may have a question mark before it.
fn unmarked(word: &str) -> &[u8]
    ensures { result.now ≡ unmarked_of word.now }
{
    match word.as_bytes() {
        [b'?', rest @ ..] => rest,
        bytes => bytes,
    }
}

/// Whether a word is one of these, between which spaces are.
fn is_listed(words: &str, word: &[u8]) -> bool
    ensures { result ≡ is_listed_of words.now word.now }
{
    let mut rest = words;
    'words: while let Some(part) = part_before(rest, b' ') {
        if spells(unmarked(part.front), word) {
            return true;
        }
        rest = part.rest;
    }
    false
}

/// Whether the byte is next.
fn starts(bytes: &[u8], byte: u8) -> bool
    ensures { result ≡ starts_of byte bytes.now }
{
    match bytes {
        [] => false,
        [first, ..] => *first == byte,
    }
}

/// Whether a word has a vendor's prefix, and browsers know it.
#[tactic(auto, unfolding(crate::specs::Refused::is_prefixed))]
fn is_prefixed(word: &[u8]) -> bool
    ensures { result ≡ is_prefixed_of word.now }
{
    (starts(word, b'-') || starts(word, b'\\')) && is_listed(PREFIXED, word)
}

/// Whether every property takes the word.
#[tactic(auto, unfolding(crate::specs::Refused::is_wide))]
fn is_wide(word: &[u8]) -> bool
    ensures { result ≡ is_wide_of word.now }
{
    is_listed(WIDE_WORDS, word)
}

/// Whether the word is a colour.
#[tactic(auto, unfolding(crate::specs::Refused::is_color_word))]
fn is_color_word(word: &[u8]) -> bool
    ensures { result ≡ is_color_word_of word.now }
{
    is_listed(COLOR_WORDS, word)
}

/// Whether a function has another value in its place.
#[tactic(auto, unfolding(crate::specs::Refused::is_substituted))]
fn is_substituted(name: &[u8]) -> bool
    ensures { result ≡ is_substituted_of name.now }
{
    matches!(name, [b'-', b'-', ..]) || is_listed(SUBSTITUTED, name)
}

/// Returns how many hexadecimal digits are next.
fn hex_count(bytes: &[u8]) -> usize
    ensures { result ≡ prefix_len is_hex_digit_byte bytes.now }
{
    bytes
        .iter()
        .take_while(|byte| byte.is_ascii_hexdigit())
        .count()
}

/// Whether a number has no digit but 0 before its exponent.
fn is_zero(number: &[u8]) -> bool
    ensures { result ≡ is_zero_of number.now }
{
    let mut rest = number;
    'digits: while let [first, others @ ..] = rest {
        if first.to_ascii_lowercase() == b'e' {
            return true;
        }
        if matches!(*first, b'1'..=b'9') {
            return false;
        }
        rest = others;
    }
    true
}

/// Returns what a number without a unit is.
fn number_component(number: &[u8]) -> Component<'static>
    ensures { component_view result ≡ number_component_of number.now }
{
    if is_zero(number) {
        Component::Zero
    } else {
        Component::Number
    }
}

/// Whether a word is a colour without its number sign.
fn is_bare_color(word: &[u8]) -> bool
    ensures { result ≡ is_bare_color_of word.now }
{
    (word.len() == 3 || word.len() == 6) && hex_count(word) == word.len()
}

// ---- components

/// Returns the first byte, if there is one.
fn letter_of(text: &str) -> Option<u8>
    ensures { result ≡ letter_of_text text.now }
{
    match text.as_bytes() {
        [] => None,
        [first, ..] => Some(*first),
    }
}

/// Returns the letter of the class of a unit.
#[tactic(auto, unfolding(crate::specs::Refused::unit_class))]
fn unit_class(unit: &[u8]) -> Option<u8>
    ensures { result ≡ unit_class_of unit.now }
{
    let mut rest = UNIT_CLASSES;
    'lines: while let Some(line) = part_before(rest, b'\n') {
        let class = cut(line.front, b' ');
        if is_listed(class.rest, unit) {
            return letter_of(class.front);
        }
        rest = line.rest;
    }
    None
}

/// Returns what a number with this unit is.
fn dimension(unit: &[u8]) -> Component<'_>
    ensures { component_view result ≡ dimension_of (unit_class_of unit.now) }
{
    match unit_class(unit) {
        Some(letter) => Component::Classed(letter),
        None => Component::Other,
    }
}

/// Returns what a word is.
fn word_component(word: &[u8]) -> Component<'_>
    ensures { component_view result ≡ word_component_of word.now }
{
    if matches!(word, [b'-', b'-', ..]) || is_prefixed(word) {
        Component::Other
    } else {
        Component::Word(word)
    }
}

/// Returns what a function of this name is.
fn function_component(name: &[u8]) -> Component<'_>
    ensures { component_view result ≡ function_component_of name.now }
{
    if is_substituted(name) {
        Component::Substituted
    } else if starts(name, b'-') && !is_prefixed(name) {
        Component::Foreign
    } else {
        Component::Other
    }
}

/// Returns what a byte is that is no other token.
fn byte_component(bytes: &[u8]) -> Component<'_>
    ensures { component_view result ≡ byte_component_of bytes.now }
{
    if starts(bytes, b',') || starts(bytes, b'/') {
        Component::Sign
    } else {
        Component::Other
    }
}

/// Returns what is in a token.
fn inside<'t>(token: &Token<'t>) -> &'t [u8]
    ensures { result.now ≡ inside_of (token_of token.now) }
{
    let size = token.inside.len().saturating_sub(token.inside_end.len());
    &token.inside[..size]
}

/// Returns the component that a token begins, if it is no white space and no comment.
fn component_of<'t>(token: &Token<'t>) -> Option<Component<'t>>
    ensures { option_map component_view result ≡ component_by token.now.kind (token_of token.now) }
{
    match token.kind {
        TokenKind::Whitespace | TokenKind::Comment => None,
        TokenKind::Ident => Some(word_component(inside(token))),
        TokenKind::Function => Some(function_component(inside(token))),
        TokenKind::Hash | TokenKind::IdHash => Some(Component::Classed(b'h')),
        TokenKind::String => Some(Component::Classed(b's')),
        TokenKind::Url => Some(Component::Classed(b'u')),
        TokenKind::Number => Some(number_component(inside(token))),
        TokenKind::Percentage => Some(Component::Classed(b'p')),
        TokenKind::Dimension => Some(dimension(inside(token))),
        TokenKind::Delim => Some(byte_component(token.from)),
        TokenKind::AtKeyword
        | TokenKind::BadString
        | TokenKind::BadUrl
        | TokenKind::Cdo
        | TokenKind::Cdc => Some(Component::Other),
    }
}

// ---- values

/// Returns what is found with one more component, if there is one.
fn with_component(found: Found, component: Option<Component<'_>>) -> Found
    requires { found.count < 2 ^ 63 }
    ensures { found_of result
        ≡ joined (found_of found) (found_in_of (listed_component (option_map component_view component.entry))) }
{
    let Some(one) = component else {
        return found;
    };
    Found {
        count: found.count + 1,
        sign: found.sign || matches!(one, Component::Sign),
        foreign: found.foreign || matches!(one, Component::Foreign),
        substituted: found.substituted || matches!(one, Component::Substituted),
        other: found.other || matches!(one, Component::Other),
    }
}

/// Returns what a value has.
fn found_in(value: &[u8]) -> Found
    ensures { found_of result ≡ found_in_of (components value.now) }
{
    let mut found = Found {
        count: 0,
        sign: false,
        foreign: false,
        substituted: false,
        other: false,
    };
    let mut rest = value;
    'tokens: while let Some(token) = read_next(rest) {
        found = with_component(found, component_of(&token));
        rest = token.rest;
    }
    found
}

/// Whether a class is among those with these letters, of which capitals are for numbers below zero.
fn has_letter(letters: &str, letter: u8) -> bool
    ensures { result ≡ has_letter_of letters.now letter }
{
    let mut rest = letters.as_bytes();
    'letters: while let [first, others @ ..] = rest {
        if first.to_ascii_lowercase() == letter {
            return true;
        }
        rest = others;
    }
    false
}

/// Whether a word is of these sorts.
fn word_fits(sorts: Sorts<'_>, word: &[u8]) -> bool
    ensures { result ≡ word_fits_of (sorts_of sorts.entry) word.now }
{
    has_letter(sorts.letters, b'w')
        || is_listed(sorts.words, word)
        || has_letter(sorts.letters, b'c') && is_color_word(word)
        || sorts.quirks.colors && is_bare_color(word)
        || is_wide(word)
}

/// Whether a number without a unit is of these sorts.
fn number_fits(sorts: Sorts<'_>) -> bool
    ensures { result ≡ number_fits_of (sorts_of sorts.entry) }
{
    has_letter(sorts.letters, b'i')
        || has_letter(sorts.letters, b'n')
        || sorts.quirks.lengths
        || sorts.quirks.colors
}

/// Whether zero without a unit is of these sorts.
fn zero_fits(sorts: Sorts<'_>) -> bool
    ensures { result ≡ zero_fits_of (sorts_of sorts.entry) }
{
    has_letter(sorts.letters, b'0') || has_letter(sorts.letters, b'l') || number_fits(sorts)
}

/// Whether a component is of these sorts, or one that only other components decide on.
fn fits(sorts: Sorts<'_>, component: Component<'_>) -> bool
    ensures { result ≡ fits_of (sorts_of sorts.entry) (component_view component.entry) }
{
    match component {
        Component::Word(word) => word_fits(sorts, word),
        Component::Number => number_fits(sorts),
        Component::Zero => zero_fits(sorts),
        Component::Classed(letter) => has_letter(sorts.letters, letter),
        Component::Sign | Component::Foreign | Component::Substituted | Component::Other => true,
    }
}

/// Whether a token begins a component that is not of these sorts.
fn is_unfit(sorts: Sorts<'_>, token: &Token<'_>) -> bool
    ensures { result ≡ has_unfit_of (sorts_of sorts.entry) (of_token (token_of token.now)) }
{
    match component_of(token) {
        Some(component) => !fits(sorts, component),
        None => false,
    }
}

/// Whether a value has a component that is not of these sorts.
fn has_unfit(sorts: Sorts<'_>, value: &[u8]) -> bool
    ensures { result ≡ has_unfit_of (sorts_of sorts.entry) (components value.now) }
{
    let mut rest = value;
    'tokens: while let Some(token) = read_next(rest) {
        if is_unfit(sorts, &token) {
            return true;
        }
        rest = token.rest;
    }
    false
}

/// Returns the number of a digit, or 0.
fn digit(text: &str) -> usize
    ensures { result ≡ digit_of text.now }
{
    match text.as_bytes() {
        [byte] => usize::from(byte.saturating_sub(48)),
        _ => 0,
    }
}

/// Returns what a property of this name takes in quirks mode beside its other values, and nothing in another mode.
fn quirks_of(name: &str, in_quirks: bool) -> Quirks
    ensures { quirks_view result ≡ quirks_named in_quirks name.now }
{
    Quirks {
        lengths: in_quirks && is_listed(QUIRKY_LENGTHS, name.as_bytes()),
        colors: in_quirks && is_listed(QUIRKY_COLORS, name.as_bytes()),
    }
}

/// Returns a row of the table, with what is taken in quirks mode.
fn read_row(text: &str, quirks: Quirks) -> Row<'_>
    ensures { row_of result ≡ row_in (quirks_view quirks) text.now }
{
    let most = cut(text, b'|');
    let letters = cut(most.rest, b'|');
    let words = cut(letters.rest, b'|');
    let others = cut(words.rest, b'|');
    Row {
        most: digit(most.front),
        alone: Sorts {
            letters: letters.front,
            words: words.front,
            quirks,
        },
        parts: Sorts {
            letters: others.front,
            words: others.rest,
            quirks,
        },
    }
}

/// Whether a value has too many components, or one that does not fit.
fn is_wrong(row: Row<'_>, found: Found, value: &[u8]) -> bool
    ensures { result ≡ is_unfit_of (row_of row.entry) (found_of found) (components value.now) }
{
    if row.most == 0 && found.count > 1 {
        has_unfit(row.parts, value)
    } else {
        found.sign || found.count > row.most.max(1) || has_unfit(row.alone, value)
    }
}

/// Whether no browser takes a value, by its row.
fn is_refused(row: Row<'_>, value: &[u8]) -> bool
    ensures { result ≡ is_refused_of (row_of row.entry) (components value.now) }
{
    let found = found_in(value);
    !found.substituted && (found.foreign || !found.other && is_wrong(row, found, value))
}

// ---- the table

/// Gives a name the row.
fn add_name(
    alloc: Global,
    rows: &mut BTreeMap<String, &'static str>,
    name: &str,
    row: &'static str,
) -> Result<(), AllocError>
    ensures { (key : List ℕ) → OnOk result
        (row_at rows.new key ≡ (if bytes_eq name.now key then Some row.now else row_at rows.old key)) }
{
    rows.insert(name.to_string(alloc)?, row)?;
    Ok(())
}

/// Gives each of these names the row.
fn add_names(
    alloc: Global,
    rows: &mut BTreeMap<String, &'static str>,
    names: &str,
    row: &'static str,
) -> Result<(), AllocError>
    ensures { (name : List ℕ) → OnOk result (row_at rows.new name
        ≡ (if is_named_in names.now name then Some row.now else row_at rows.old name)) }
{
    let mut rest = names;
    'names: while let Some(part) = part_before(rest, b' ') {
        add_name(alloc, rows, part.front, row)?;
        rest = part.rest;
    }
    Ok(())
}

/// What is known of the values of properties.
#[derive(Drop)]
pub struct RefusedValues {
    /// The rows of the table by the names of properties.
    rows: BTreeMap<String, &'static str>,
}

impl Model for RefusedValues {
    ghost use Rattle.std.specs.Prelude.{◌≡◌, ℕ, List};
    ghost use Rattle.css_values.specs.Refused.{row_named};
    ghost use Rattle.css_values.specs.internal.Joined.{row_at};

    ghost Value = { Unit {0} };

    ghost view = { λ k. tt };

    ghost invariant = { λ k. (name : List ℕ) → row_at k.rows name ≡ row_named name };
}

impl RefusedValues {
    /// Returns what is known. Fails only if an allocation fails.
    #[tactic(auto, unfolding(crate::specs::Refused::row_named))]
    pub fn new(alloc: Global) -> Result<RefusedValues, AllocError> {
        let mut rows = BTreeMap::new(alloc);
        let mut rest = VALUES;
        'lines: while let Some(line) = part_before(rest, b'\n') {
            let row = cut(line.front, b'|');
            add_names(alloc, &mut rows, row.front, row.rest)?;
            rest = line.rest;
        }
        Ok(RefusedValues { rows })
    }

    /// Whether no browser takes a value of a property, as far as the table says. The name of the property is in lower
    /// case; of another one nothing is known, as of a custom property. A value with a function, with a bracket or
    /// with a word that only some browsers have is refused only for a function with a vendor's prefix that none has.
    /// In quirks mode some properties take numbers as lengths and as colours; conditions are read in no such mode.
    ///
    /// The time is linear in the value, times the row of the property.
    #[tactic(auto, unfolding(crate::specs::Refused::refuses))]
    pub fn refuses(&self, name: &str, value: &[u8], in_quirks: bool) -> bool
        ensures { result ≡ refuses_of in_quirks name.now value.now }
    {
        match self.rows.get(name) {
            Some(row) => is_refused(read_row(row, quirks_of(name, in_quirks)), value),
            None => false,
        }
    }
}
