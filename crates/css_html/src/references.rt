//! Character references (HTML Standard, sections 13.2.5.72 to 13.2.5.80), from after their `&` on.
ghost use Rattle.std.specs.Prelude.{◌≡◌, ◌≤◌, ◌<◌, ◌*◌, ◌+◌, ◌++◌, nat_lt, if◌then◌else◌, option_map, IfSome, OnOk, encode_utf8};
ghost use Rattle.css_text.specs.Bytes.{past_byte, starts_by};
ghost use Rattle.css_html.specs.References.{character_of as character_of_number, base_of, digit_in, numbered};
ghost use Rattle.css_html.specs.References.{semicolon, next_digit as next_digit_of, past_digits, digits_from as digits_from_of};
ghost use Rattle.css_html.specs.References.{number_from as number_from_of, next_row as next_row_of};
ghost use Rattle.css_html.specs.References.{is_longer as is_longer_of, longer_of as longer_of_rows};
ghost use Rattle.css_html.specs.References.{named_row as named_row_of, continues_name as continues_name_of};
ghost use Rattle.css_html.specs.References.{row_before, name_from as name_from_of, reference as reference_of};
ghost use Rattle.css_html.specs.ReferenceViews.{row_of, characters_of, found_of};

use crate::marks::{from_byte, is_letter, past_bytes, split, text_between};
use crate::reference_names::rows_of;
use std::alloc::AllocError;

/// The characters of the numbers from 128 to 159.
const WINDOWS: [char; 32] = [
    '\u{20AC}', '\u{81}', '\u{201A}', '\u{192}', '\u{201E}', '\u{2026}', '\u{2020}', '\u{2021}',
    '\u{2C6}', '\u{2030}', '\u{160}', '\u{2039}', '\u{152}', '\u{8D}', '\u{17D}', '\u{8F}',
    '\u{90}', '\u{2018}', '\u{2019}', '\u{201C}', '\u{201D}', '\u{2022}', '\u{2013}', '\u{2014}',
    '\u{2DC}', '\u{2122}', '\u{161}', '\u{203A}', '\u{153}', '\u{9D}', '\u{17E}', '\u{178}',
];

/// Returns the character of a number.
fn character_of(number: u32) -> char
    ensures { result ≡ character_of_number number }
{
    if number >= 128 && number <= 159 {
        return WINDOWS[(number - 128) as usize];
    }
    match char::from_u32(number) {
        Some(character) if number != 0 => character,
        _ => '\u{FFFD}',
    }
}

/// Returns what a digit stands for, if the byte is one.
fn digit(hexadecimal: bool, byte: u8) -> Option<u32>
    ensures value { result ≡ digit_in hexadecimal byte }
    ensures small { IfSome result (λ digit. digit < 16) }
{
    match byte {
        b'0'..=b'9' => Some(u32::from(byte - b'0')),
        b'a'..=b'f' if hexadecimal => Some(u32::from(byte - 87)),
        b'A'..=b'F' if hexadecimal => Some(u32::from(byte - 55)),
        _ => None,
    }
}

/// Reads the next digit.
fn next_digit(hexadecimal: bool, bytes: &[u8]) -> Option<(u32, &[u8])>
    ensures next { next_digit_of hexadecimal bytes.now ≡ option_map (λ x. (x.0, x.1.now)) result }
    ensures small { IfSome result (λ x. x.0 < 16) }
{
    let (byte, after) = split(bytes)?;
    match digit(hexadecimal, byte) {
        None => None,
        Some(value) => Some((value, after)),
    }
}

/// Returns the number with a further digit. One past the last character stays.
fn with_digit(hexadecimal: bool, number: u32, digit: u32) -> u32
    requires within { number ≤ 17825791 }
    requires small { digit < 16 }
    ensures value { result ≡ (if nat_lt 1114111 number then number else base_of hexadecimal * number + digit) }
    ensures bound { result ≤ 17825791 }
{
    if number > 0x10_FFFF {
        number
    } else if hexadecimal {
        16 * number + digit
    } else {
        10 * number + digit
    }
}

/// Returns the character whose number the digits at the start spell, and the rest after them.
fn numbered_character(hexadecimal: bool, bytes: &[u8]) -> (char, &[u8])
    ensures character { result.0 ≡ numbered hexadecimal bytes.now }
    ensures left { result.1.now ≡ past_digits hexadecimal bytes.now }
{
    let mut number = 0u32;
    let mut rest = bytes;
    'digits: while let Some((value, after)) = next_digit(hexadecimal, rest) {
        number = with_digit(hexadecimal, number, value);
        rest = after;
    }
    (character_of(number), rest)
}

/// What a reference stands for.
#[derive(Clone, Copy, Debug, PartialEq)]
pub(crate) enum Characters {
    /// One character.
    One(char),
    /// The characters of a row of the table, as they are written there.
    Written(&'static [u8]),
}

/// What a reference stands for, and the rest after it.
#[derive(Clone, Copy, Debug, PartialEq)]
pub(crate) struct Found<'a> {
    pub(crate) characters: Characters,
    pub(crate) rest: &'a [u8],
}

/// Returns the rest after a semicolon, if one is next.
fn past_semicolon(bytes: &[u8]) -> &[u8]
    ensures { result.now ≡ past_byte semicolon bytes.now }
{
    match bytes {
        [b';', rest @ ..] => rest,
        _ => bytes,
    }
}

/// Reads the number that digits spell.
fn digits_from(hexadecimal: bool, bytes: &[u8]) -> Option<Found<'_>>
    ensures { option_map found_of result ≡ digits_from_of hexadecimal bytes.now }
{
    match bytes {
        [byte, ..] if digit(hexadecimal, *byte).is_some() => {
            let (character, rest) = numbered_character(hexadecimal, bytes);
            Some(Found {
                characters: Characters::One(character),
                rest: past_semicolon(rest),
            })
        }
        _ => None,
    }
}

/// Reads what follows `&#`.
fn number_from(bytes: &[u8]) -> Option<Found<'_>>
    ensures { option_map found_of result ≡ number_from_of bytes.now }
{
    match bytes {
        [b'x' | b'X', digits @ ..] => digits_from(true, digits),
        _ => digits_from(false, bytes),
    }
}

/// A row of the table: the rest of a name after its first letter, and its characters as they are
/// written there.
#[derive(Clone, Copy, Debug, PartialEq)]
struct Row {
    name: &'static [u8],
    characters: &'static [u8],
}

/// Reads the next row of a table, and the rest.
#[tactic(auto, unfolding(crate::specs::References::next_row))]
fn next_row(rows: &'static [u8]) -> Option<(Row, &'static [u8])>
    ensures { next_row_of rows.now ≡ option_map (λ x. (row_of x.0, x.1.now)) result }
{
    match rows {
        [] => None,
        [_, ..] => {
            let name_end = from_byte(rows, b' ');
            let characters = past_bytes(name_end, 1);
            let end = from_byte(characters, b' ');
            let row = Row {
                name: text_between(rows, name_end),
                characters: text_between(characters, end),
            };
            Some((row, past_bytes(end, 1)))
        }
    }
}

/// Whether the row has a longer name than the other.
fn is_longer(row: Row, best: Option<Row>) -> bool
    ensures { result ≡ is_longer_of (row_of row) (option_map row_of best) }
{
    match best {
        None => true,
        Some(best) => best.name.len() < row.name.len(),
    }
}

/// Returns the row, if the text begins with its name and that is longer than the other's.
fn longer_of(text: &[u8], best: Option<Row>, row: Row) -> Option<Row>
    ensures { option_map row_of result ≡ longer_of_rows text.now (option_map row_of best) (row_of row) }
{
    if text.starts_with(row.name) && is_longer(row, best) {
        Some(row)
    } else {
        best
    }
}

/// Finds the longest name that the text begins with, of those with this first letter.
fn named_row(letter: u8, text: &[u8]) -> Option<Row>
    ensures { option_map row_of result ≡ named_row_of letter text.now }
{
    let mut best: Option<Row> = None;
    let mut rest = rows_of(letter);
    'rows: while let Some((row, after)) = next_row(rest) {
        best = longer_of(text, best, row);
        rest = after;
    }
    best
}

/// Whether the byte is `=`, a letter or a digit.
fn continues_name(byte: u8) -> bool
    ensures { result ≡ continues_name_of byte }
{
    byte == b'=' || is_letter(byte) || byte.is_ascii_digit()
}

/// Whether this byte is next and keeps a name from being a reference.
fn is_continued(rest: &[u8]) -> bool
    ensures { result ≡ starts_by continues_name_of rest.now }
{
    matches!(rest, [byte, ..] if continues_name(*byte))
}

/// Returns what a row before this rest is in a text.
fn row_reference<'a>(in_value: bool, row: Row, rest: &'a [u8]) -> Option<Found<'a>>
    ensures { option_map found_of result ≡ row_before in_value (row_of row) rest.now }
{
    if in_value && !row.name.ends_with(b";") && is_continued(rest) {
        None
    } else {
        Some(Found {
            characters: Characters::Written(row.characters),
            rest,
        })
    }
}

/// Reads the longest name at the start.
#[tactic(auto, unfolding(crate::specs::References::name_from))]
fn name_from(in_value: bool, bytes: &[u8]) -> Option<Found<'_>>
    ensures { option_map found_of result ≡ name_from_of in_value bytes.now }
{
    match bytes {
        [] => None,
        [letter, text @ ..] => {
            let row = named_row(*letter, text)?;
            row_reference(in_value, row, past_bytes(text, row.name.len()))
        }
    }
}

/// Reads the character reference that begins after a `&`, in the value of an attribute or elsewhere.
pub(crate) fn reference(in_value: bool, bytes: &[u8]) -> Option<Found<'_>>
    ensures { option_map found_of result ≡ reference_of in_value bytes.now }
{
    let (byte, digits) = split(bytes)?;
    if byte == b'#' {
        number_from(digits)
    } else {
        name_from(in_value, bytes)
    }
}

/// Appends a character in UTF-8.
pub(crate) fn push_character(out: &mut Vec<u8>, character: char) -> Result<(), AllocError>
    ensures { OnOk result (out.new.items ≡ out.old.items ++ encode_utf8 character) }
{
    let mut buffer = [0u8; 4];
    let text = character.encode_utf8(&mut buffer);
    out.extend_from_slice(text.as_bytes())
}

/// Appends what a reference stands for.
pub(crate) fn push_characters(out: &mut Vec<u8>, characters: Characters) -> Result<(), AllocError>
    ensures { OnOk result (out.new.items ≡ out.old.items ++ characters_of characters) }
{
    match characters {
        Characters::One(character) => push_character(out, character),
        Characters::Written(numbers) => {
            let (first, rest) = numbered_character(true, numbers);
            push_character(out, first)?;
            match rest {
                [] => Ok(()),
                [_, second @ ..] => push_character(out, numbered_character(true, second).0),
            }
        }
    }
}
