//! Whether a property takes a value, as far as the table of values says.

use crate::data::PROPERTIES;
use crate::texts::{after_bytes, first_bytes, inner_size_of, is_gap, is_sign, place_in, size_of};
use crate::values::{is_color, text_of};
use crate::vocabulary::{Names, Near, is_of_others, nearest_word};
use css_syntax::tokenizer::read_next;
use css_syntax::{Token, TokenKind};
use css_values::{COLOR_WORDS, UNIT_CLASSES, VALUES};
use std::alloc::{AllocError, Global};

/// The words that each property takes, and nothing else beside them.
const WIDE: &str = "inherit initial unset revert revert-layer";
/// One that the table does not know.
const WIDE_UNKNOWN: &str = "revert-rule";

/// Whether a value is one that a property takes.
#[derive(Clone, Copy, PartialEq)]
pub enum Known {
    /// Standards and browsers take it.
    Valid,
    /// Neither of them takes it.
    Invalid,
    /// The table does not say.
    Unknown,
}

/// What a component of a value is.
#[derive(Clone, Copy, PartialEq)]
enum Component<'t> {
    /// A word.
    Word(&'t str),
    /// A number, a string or a url, as the letter of its class.
    Class(u8),
    /// A comma or a slash.
    Sign,
    /// What the table says nothing of, such as a function.
    Other,
}

/// What some values are: the letters of classes, and words. What is not known has `?` before it.
#[derive(Clone, Copy)]
struct Sorts {
    /// The letters.
    letters: &'static str,
    /// The words, with a space between two.
    words: &'static str,
}

/// The values of a property.
#[derive(Clone, Copy)]
pub(crate) struct Row {
    /// How many components a value has, or 0 for any number.
    most: usize,
    /// What is a value alone, and of values with a greatest number, what is in them.
    alone: Sorts,
    /// What is in the other values of several components.
    parts: Sorts,
}

/// How many components a value has, and whether there is a sign between some.
#[derive(Clone, Copy)]
struct Shape {
    count: usize,
    has_sign: bool,
}

/// A component that a value can't have.
#[derive(Clone, Copy)]
pub(crate) struct Wrong {
    /// The offset in the value at which it begins.
    pub(crate) start: usize,
    /// The offset after it.
    pub(crate) end: usize,
    /// Whether it is a number in the place of a length.
    pub(crate) has_no_unit: bool,
}

/// What the table says of a value.
#[derive(Clone, Copy)]
pub(crate) enum Judged {
    /// The property takes it.
    Valid,
    /// It does not.
    Invalid(Wrong),
    /// The table does not say.
    Unknown,
}

impl Known {
    /// Returns it in a word.
    pub fn word(self) -> &'static str {
        match self {
            Known::Valid => "valid",
            Known::Invalid => "invalid",
            Known::Unknown => "unknown",
        }
    }
}

impl Judged {
    /// Returns it without the place of what is wrong.
    fn known(self) -> Known {
        match self {
            Judged::Valid => Known::Valid,
            Judged::Invalid(_) => Known::Invalid,
            Judged::Unknown => Known::Unknown,
        }
    }
}

/// Returns the part of a text before a bar, and what follows it.
fn field(text: &'static str) -> (&'static str, &'static str) {
    text.split_once('|').unwrap_or((text, ""))
}

/// Returns the number of a digit.
fn digit(text: &str) -> usize {
    match text.as_bytes() {
        [b'1'] => 1,
        [b'2'] => 2,
        [b'3'] => 3,
        [b'4'] => 4,
        _ => 0,
    }
}

/// Returns the names of a line of the table, and its row.
fn read_row(line: &'static str) -> (&'static str, Row) {
    let (names, rest) = field(line);
    let (most, rest) = field(rest);
    let (letters, rest) = field(rest);
    let (words, rest) = field(rest);
    let alone = Sorts { letters, words };
    let (letters, words) = field(rest);
    let parts = Sorts { letters, words };
    (
        names,
        Row {
            most: digit(most),
            alone,
            parts,
        },
    )
}

/// Returns what is known of a word of a list, in which `?` is before those that are not known.
fn word_in(words: &str, word: &str) -> Known {
    let mut rest = words;
    for _ in 0..words.len() {
        if rest.is_empty() {
            break;
        }
        let (one, more) = rest.split_once(' ').unwrap_or((rest, ""));
        if one.eq_ignore_ascii_case(word) {
            return Known::Valid;
        }
        if let Some(name) = one.strip_prefix('?') {
            if name.eq_ignore_ascii_case(word) {
                return Known::Unknown;
            }
        }
        rest = more;
    }
    Known::Invalid
}

/// Returns what is known of a class of which this is the letter.
fn letter_in(letters: &str, letter: u8) -> Known {
    let mut found = Known::Invalid;
    let mut is_marked = false;
    for byte in letters.as_bytes() {
        if *byte == letter {
            found = if is_marked {
                Known::Unknown
            } else {
                Known::Valid
            };
        }
        is_marked = *byte == b'?';
    }
    found
}

/// Returns both together: what holds of the second one if the first one is valid.
fn both(one: Known, other: Known) -> Known {
    match (one, other) {
        (Known::Invalid, _) | (_, Known::Invalid) => Known::Invalid,
        (Known::Valid, Known::Valid) => Known::Valid,
        _ => Known::Unknown,
    }
}

/// Returns the letter of the class of a unit.
fn unit_class(unit: &str) -> Option<u8> {
    let mut rest = UNIT_CLASSES;
    for _ in 0..UNIT_CLASSES.len() {
        let Some((line, more)) = rest.split_once('\n') else {
            break;
        };
        rest = more;
        if let Some((letter, units)) = line.split_once(' ') {
            if word_in(units, unit) == Known::Valid {
                return letter.as_bytes().first().copied();
            }
        }
    }
    None
}

/// Whether a number as written has a digit that is not 0 before its exponent.
fn is_nonzero(number: &str) -> bool {
    for byte in number.as_bytes() {
        if matches!(*byte, b'1'..=b'9') {
            return true;
        }
        if matches!(*byte, b'e' | b'E') {
            return false;
        }
    }
    false
}

/// Returns the letter of a class, the capital one for a number that is below zero.
fn signed(letter: u8, number: &str) -> u8 {
    if number.starts_with("-") && is_nonzero(number) {
        letter.to_ascii_uppercase()
    } else {
        letter
    }
}

/// Returns what a number without a unit is.
fn number_of<'t>(number: &str) -> Component<'t> {
    let is_integer = number
        .as_bytes()
        .iter()
        .all(|byte| matches!(*byte, b'0'..=b'9' | b'+' | b'-'));
    match (is_integer, is_nonzero(number)) {
        (true, true) => Component::Class(signed(b'i', number)),
        (true, false) => Component::Class(b'0'),
        (false, true) => Component::Class(signed(b'n', number)),
        (false, false) => Component::Other,
    }
}

/// Returns what a dimension is.
fn dimension_of<'t>(text: &'t str, token: &Token<'_>) -> Component<'t> {
    let at = text.len().saturating_sub(token.inside.len());
    let unit = first_bytes(after_bytes(text, at), inner_size_of(token));
    let number = first_bytes(
        after_bytes(text, place_in(text, token)),
        size_of(token).saturating_sub(inner_size_of(token)),
    );
    match unit_class(unit) {
        Some(letter) => Component::Class(signed(letter, number)),
        None => Component::Other,
    }
}

/// Whether a word has no character that is not ASCII: no word of CSS has one.
fn is_plain(word: &str) -> bool {
    word.as_bytes().iter().all(|byte| *byte < 128)
}

/// Returns what a token of a value is that is no gap.
fn component_of<'t>(text: &'t str, token: &Token<'_>) -> Component<'t> {
    let written = text_of(text, token);
    match token.kind {
        TokenKind::Ident if is_of_others(written) || !is_plain(written) => Component::Other,
        TokenKind::Ident => Component::Word(written),
        TokenKind::Number => number_of(written),
        TokenKind::Percentage => Component::Class(signed(b'p', written)),
        TokenKind::Dimension => dimension_of(text, token),
        TokenKind::Hash | TokenKind::IdHash if is_color(after_bytes(written, 1)) => {
            Component::Class(b'h')
        }
        TokenKind::String => Component::Class(b's'),
        TokenKind::Url => Component::Class(b'u'),
        TokenKind::Delim if is_sign(token, b',') || is_sign(token, b'/') => Component::Sign,
        _ => Component::Other,
    }
}

/// Returns the shape of a value, if the table may say what each of its components is.
fn shape_of(value: &str) -> Option<Shape> {
    let mut rest = value.as_bytes();
    let mut shape = Shape {
        count: 0,
        has_sign: false,
    };
    for _ in 0..rest.len() {
        let Some(token) = read_next(rest) else {
            break;
        };
        rest = token.rest;
        if is_gap(&token) {
            continue;
        }
        match component_of(value, &token) {
            Component::Other => return None,
            Component::Sign => shape.has_sign = true,
            _ => shape.count = shape.count.saturating_add(1),
        }
    }
    if shape.count > 0 { Some(shape) } else { None }
}

impl Sorts {
    /// Returns what is known of a word.
    fn word(&self, word: &str) -> Known {
        let chosen = letter_in(self.letters, b'w');
        if chosen != Known::Invalid {
            return chosen;
        }
        let listed = word_in(self.words, word);
        if listed != Known::Invalid {
            return listed;
        }
        both(letter_in(self.letters, b'c'), word_in(COLOR_WORDS, word))
    }

    /// Returns what is known of a component.
    fn component(&self, component: Component<'_>) -> Known {
        match component {
            Component::Word(word) => self.word(word),
            Component::Class(letter) => letter_in(self.letters, letter),
            Component::Sign | Component::Other => Known::Unknown,
        }
    }

    /// Whether a component is a number in the place of a length.
    fn has_no_unit(&self, component: Component<'_>) -> bool {
        matches!(component, Component::Class(b'i' | b'n' | b'I' | b'N'))
            && letter_in(self.letters, b'l') == Known::Valid
    }
}

impl Row {
    /// Returns what the table says of a value.
    pub(crate) fn judge(&self, value: &str) -> Judged {
        let Some(shape) = shape_of(value) else {
            return Judged::Unknown;
        };
        let word = value.trim();
        if word.eq_ignore_ascii_case(WIDE_UNKNOWN) {
            Judged::Unknown
        } else if word_in(WIDE, word) == Known::Valid {
            Judged::Valid
        } else if self.most == 0 && (shape.count > 1 || shape.has_sign) {
            self.judge_each(self.parts, value, usize::MAX, false)
        } else {
            self.judge_each(self.alone, value, self.most.max(1), !shape.has_sign)
        }
    }

    /// Returns what the table says of a value whose components are of these sorts, and at most this
    /// many. Whether it is valid if each of them is, is for the caller to say.
    fn judge_each(&self, sorts: Sorts, value: &str, most: usize, is_valid: bool) -> Judged {
        let mut rest = value.as_bytes();
        let (mut count, mut is_known) = (0usize, is_valid);
        for _ in 0..rest.len() {
            let Some(token) = read_next(rest) else {
                break;
            };
            rest = token.rest;
            if is_gap(&token) {
                continue;
            }
            let component = component_of(value, &token);
            let found = sorts.component(component);
            let is_sign = component == Component::Sign;
            count = count.saturating_add(usize::from(!is_sign));
            if found == Known::Invalid || count > most || is_sign && most < usize::MAX {
                return Judged::Invalid(Wrong {
                    start: place_in(value, &token),
                    end: value.len().saturating_sub(rest.len()),
                    has_no_unit: found == Known::Invalid && sorts.has_no_unit(component),
                });
            }
            is_known = is_known && found == Known::Valid;
        }
        if is_known {
            Judged::Valid
        } else {
            Judged::Unknown
        }
    }

    /// Returns the word that one which is not valid is a slip of the pen for.
    pub(crate) fn nearest(&self, alloc: Global, word: &str) -> Result<Option<Near>, AllocError> {
        let colors = if letter_in(self.alone.letters, b'c') == Known::Invalid {
            ""
        } else {
            COLOR_WORDS
        };
        nearest_word(alloc, word, &[self.alone.words, self.parts.words, colors])
    }
}

/// The values of the properties that the table knows.
#[derive(Drop)]
pub(crate) struct ValueTable {
    /// The rows.
    rows: Vec<Row>,
    /// For each number of a property one more than the index of its row, or 0.
    indices: Vec<usize>,
}

impl ValueTable {
    /// Returns that of these properties.
    pub(crate) fn new(alloc: Global, properties: &Names) -> Result<ValueTable, AllocError> {
        let mut rows = Vec::new(alloc);
        let mut indices = vec![in alloc; 0; properties.len()]?;
        let mut rest = VALUES;
        for _ in 0..VALUES.len() {
            let Some((line, more)) = rest.split_once('\n') else {
                break;
            };
            rest = more;
            let (names, row) = read_row(line);
            rows.push(row)?;
            mark_names(&mut indices, properties, names, rows.len());
        }
        Ok(ValueTable { rows, indices })
    }

    /// Returns the values of the property with this number, if the table knows it.
    pub(crate) fn row(&self, number: usize) -> Option<Row> {
        let index = self.indices.get(number).copied()?;
        self.rows.get(index.wrapping_sub(1)).copied()
    }
}

/// Writes this index at the number of each of these properties.
fn mark_names(indices: &mut [usize], properties: &Names, names: &str, index: usize) {
    let mut rest = names;
    for _ in 0..names.len() {
        if rest.is_empty() {
            break;
        }
        let (name, more) = rest.split_once(' ').unwrap_or((rest, ""));
        if let Some(number) = properties.find(name) {
            if number < indices.len() {
                indices[number] = index;
            }
        }
        rest = more;
    }
}

/// The values of the properties that are known.
#[derive(Drop)]
pub struct KnownValues {
    properties: Names,
    table: ValueTable,
}

impl KnownValues {
    /// Returns all that are known. Fails only if an allocation fails.
    pub fn new(alloc: Global) -> Result<KnownValues, AllocError> {
        let properties = Names::new(alloc, PROPERTIES)?;
        let table = ValueTable::new(alloc, &properties)?;
        Ok(KnownValues { properties, table })
    }

    /// Returns whether a property takes a value, which has no `!important`: what standards and
    /// browsers both take is valid, and what both refuse is invalid. Of a property that the table
    /// does not have, and of a value with a function, a bracket or a vendor's prefix it is not
    /// known.
    ///
    /// The time is linear in the length of the value, times that of the row of its property. Fails
    /// only if an allocation fails.
    pub fn says(&self, alloc: Global, property: &str, value: &str) -> Result<Known, AllocError> {
        let lower = property.to_ascii_lowercase(alloc)?;
        let Some(number) = self.properties.find(lower.as_str()) else {
            return Ok(Known::Unknown);
        };
        Ok(match self.table.row(number) {
            None => Known::Unknown,
            Some(row) => row.judge(value).known(),
        })
    }
}

/// Returns whether a property takes a value, as [`KnownValues::says`] does.
pub fn takes_value(alloc: Global, property: &str, value: &str) -> Result<Known, AllocError> {
    KnownValues::new(alloc)?.says(alloc, property, value)
}
