//! References, and what texts with them stand for (XML 1.0, sections 2.11, 3.3.3, 4.1 and 4.6).
ghost use Rattle.std.specs.Prelude.{◌≡◌, ◌≤◌, ◌<◌, ◌++◌, ◌∷◌, [], option_map, IfSome, OnOk, IfOk, encode_utf8, MatchOption};
ghost use Rattle.css_text.specs.Bytes.{past_byte};
ghost use Rattle.css_text.specs.AsciiBytes.{newline};
ghost use Rattle.css_html.specs.References.{digit_in};
ghost use Rattle.css_html.specs.Decoding.{has_references as has_references_of, is_value as is_value_of};
ghost use Rattle.css_xml.specs.References.{number_with as number_with_of, numbered as numbered_of, if_character as if_character_of};
ghost use Rattle.css_xml.specs.References.{number_from as number_from_of, named as named_of, reference as reference_of};
ghost use Rattle.css_xml.specs.References.{said_by, blank_of as blank_of_kind, part_at, decoded};

use crate::characters::{is_blank, is_character};
use crate::tokenizer::past_bytes;
use css_html::decoding::TextKind;
use std::alloc::AllocError;

/// Returns what a digit stands for, if the byte is one.
fn digit(hexadecimal: bool, byte: u8) -> Option<u32>
    ensures value { result ≡ digit_in hexadecimal byte }
    ensures small { IfSome result (λ digit. digit < 16) }
{
    match byte {
        b'0'..=b'9' => Some(u32::from(byte - b'0')),
        b'a'..=b'f' if hexadecimal => Some(u32::from(byte - 87)),
        b'A'..=b'F' if hexadecimal => Some(u32::from(byte - 55)),
        _ => None,
    }
}

/// Returns the number with a further digit. One past the last character stays.
fn number_with(hexadecimal: bool, number: u32, digit: u32) -> u32
    requires within { number ≤ 17825791 }
    requires small { digit < 16 }
    ensures value { result ≡ number_with_of hexadecimal number digit }
    ensures bound { result ≤ 17825791 }
{
    if number > 0x10_FFFF {
        number
    } else if hexadecimal {
        16 * number + digit
    } else {
        10 * number + digit
    }
}

/// Reads the number of the digits at the start, and the `;` that ends them.
#[tactic(auto, unfolding(crate::specs::References::numbered))]
fn numbered(hexadecimal: bool, bytes: &[u8]) -> Option<(u32, &[u8])>
    ensures { option_map (λ x. (x.0, x.1.now)) result ≡ numbered_of hexadecimal 0 bytes.now }
{
    let mut number = 0u32;
    let mut rest = bytes;
    'digits: while let [byte, after @ ..] = rest {
        if *byte == b';' {
            return Some((number, after));
        }
        match digit(hexadecimal, *byte) {
            Some(value) => number = number_with(hexadecimal, number, value),
            None => return None,
        }
        rest = after;
    }
    None
}

/// Returns a number as a character that a document may have, if it is one.
fn if_character(found: Option<(u32, &[u8])>) -> Option<(char, &[u8])>
    ensures { option_map (λ x. (x.0, x.1.now)) result
        ≡ if_character_of (option_map (λ x. (x.0, x.1.now)) found.entry) }
{
    let (number, rest) = found?;
    match char::from_u32(number) {
        Some(character) if is_character(number) => Some((character, rest)),
        _ => None,
    }
}

/// Reads what follows `&#`.
fn number_from(bytes: &[u8]) -> Option<(char, &[u8])>
    ensures { option_map (λ x. (x.0, x.1.now)) result ≡ number_from_of bytes.now }
{
    match bytes {
        [b'x', digits @ ..] => if_character(numbered(true, digits)),
        _ => if_character(numbered(false, bytes)),
    }
}

const LESS_THAN: &[u8] = b"lt;";

const GREATER_THAN: &[u8] = b"gt;";

const AMPERSAND: &[u8] = b"amp;";

const APOSTROPHE: &[u8] = b"apos;";

const QUOTE: &[u8] = b"quot;";

/// Reads the name of an entity that each document has.
fn named(bytes: &[u8]) -> Option<(char, &[u8])>
    ensures { option_map (λ x. (x.0, x.1.now)) result ≡ named_of bytes.now }
{
    if bytes.starts_with(LESS_THAN) {
        Some(('<', past_bytes(bytes, 3)))
    } else if bytes.starts_with(GREATER_THAN) {
        Some(('>', past_bytes(bytes, 3)))
    } else if bytes.starts_with(AMPERSAND) {
        Some(('&', past_bytes(bytes, 4)))
    } else if bytes.starts_with(APOSTROPHE) {
        Some(('\'', past_bytes(bytes, 5)))
    } else if bytes.starts_with(QUOTE) {
        Some(('"', past_bytes(bytes, 5)))
    } else {
        None
    }
}

/// Reads the reference that begins after a `&`: its character, and the rest.
pub(crate) fn reference(bytes: &[u8]) -> Option<(char, &[u8])>
    ensures { option_map (λ x. (x.0, x.1.now)) result ≡ reference_of bytes.now }
{
    match bytes {
        [b'#', digits @ ..] => number_from(digits),
        _ => named(bytes),
    }
}

/// Returns the first byte and the rest, if there is a byte.
fn split(bytes: &[u8]) -> Option<(u8, &[u8])>
    ensures { MatchOption result (bytes.now ≡ []) (λ x. bytes.now ≡ x.0 ∷ x.1.now) }
{
    match bytes {
        [] => None,
        [byte, rest @ ..] => Some((*byte, rest)),
    }
}

/// Returns the rest after a line feed, if one is next.
fn past_newline(bytes: &[u8]) -> &[u8]
    ensures { result.now ≡ past_byte newline bytes.now }
{
    match bytes {
        [b'\n', rest @ ..] => rest,
        _ => bytes,
    }
}

/// Whether the text is the value of an attribute.
fn is_value(kind: TextKind) -> bool
    ensures { result ≡ is_value_of kind }
{
    matches!(kind, TextKind::Value)
}

/// Whether the text may have references.
fn has_references(kind: TextKind) -> bool
    ensures { result ≡ has_references_of kind }
{
    !matches!(kind, TextKind::Raw)
}

/// Appends what white space is: in a value a space, elsewhere a newline.
fn push_blank(out: &mut Vec<u8>, kind: TextKind) -> Result<(), AllocError>
    ensures { OnOk result (out.new.items ≡ out.old.items ++ blank_of_kind kind) }
{
    out.push(if is_value(kind) { b' ' } else { b'\n' })?;
    Ok(())
}

/// Appends a character in UTF-8.
fn push_character(out: &mut Vec<u8>, character: char) -> Result<(), AllocError>
    ensures { OnOk result (out.new.items ≡ out.old.items ++ encode_utf8 character) }
{
    let mut buffer = [0u8; 4];
    let text = character.encode_utf8(&mut buffer);
    out.extend_from_slice(text.as_bytes())
}

/// Appends what an `&` before this text stands for, and returns the rest.
fn push_reference<'a>(out: &mut Vec<u8>, after: &'a [u8]) -> Result<&'a [u8], AllocError>
    ensures pushed { OnOk result (out.new.items
        ≡ out.old.items ++ (said_by after.now (reference_of after.now)).0) }
    ensures left { IfOk result (λ rest. rest.now ≡ (said_by after.now (reference_of after.now)).1) }
{
    match reference(after) {
        None => {
            out.push(b'&')?;
            Ok(after)
        }
        Some((character, rest)) => {
            push_character(out, character)?;
            Ok(rest)
        }
    }
}

/// Appends what a byte stands for, or the end of a line or the reference that begins with it, and returns the rest.
#[tactic(auto, unfolding(crate::specs::References::part_at))]
fn push_part<'a>(
    out: &mut Vec<u8>,
    kind: TextKind,
    byte: u8,
    after: &'a [u8],
) -> Result<&'a [u8], AllocError>
    ensures pushed { OnOk result (out.new.items ≡ out.old.items ++ (part_at kind byte after.now).0) }
    ensures left { IfOk result (λ rest. rest.now ≡ (part_at kind byte after.now).1) }
{
    if byte == b'\r' {
        push_blank(out, kind)?;
        Ok(past_newline(after))
    } else if byte == b'&' && has_references(kind) {
        push_reference(out, after)
    } else if is_blank(byte) && is_value(kind) {
        out.push(b' ')?;
        Ok(after)
    } else {
        out.push(byte)?;
        Ok(after)
    }
}

/// Appends what a text of this kind stands for.
pub fn decode(out: &mut Vec<u8>, kind: TextKind, bytes: &[u8]) -> Result<(), AllocError>
    ensures { OnOk result (out.new.items ≡ out.old.items ++ decoded kind bytes.now) }
{
    let mut rest = bytes;
    'parts: while let Some((byte, after)) = split(rest) {
        rest = push_part(out, kind, byte, after)?;
    }
    Ok(())
}
