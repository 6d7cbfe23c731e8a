//! Decodes escapes (CSS Syntax 3, sections 4.3.5 and 4.3.7) and U+0000 (section 3.3).
ghost use Rattle.std.specs.Prelude.{◌≡◌, ◌≤◌, ◌++◌, ◌∷◌, true, length, IfOk};
ghost use Rattle.std.specs.List.{prefix_len};
ghost use Rattle.std.specs.String.{string_bytes};
ghost use Rattle.std.specs.Cow.{cow_str_bytes};
ghost use Rattle.css_text.specs.Bytes.{is_ascii, starts_by};
ghost use Rattle.css_text.specs.AsciiBytes.{backslash};
ghost use Rattle.css_syntax.specs.Tokens.{past_escape as past_escape_of};
ghost use Rattle.css_syntax.specs.Escapes.{character_of as character_of_number, decoded, decoded_in, decoded_string};
ghost use Rattle.css_syntax.specs.Escapes.{unescaped_in, is_itself as is_itself_byte, without_nul as without_nul_of};

use crate::texts::past_ascii;
use crate::tokens::{hex_number, is_hex_digit, is_newline, past_escape, split};
use std::alloc::{AllocError, Global};
use std::borrow::CowStr;

/// Returns the character of a number: U+FFFD for zero, a surrogate or what is more than any
/// character.
fn character_of(number: u32) -> char
    ensures { result ≡ character_of_number number }
{
    match char::from_u32(number) {
        Some(character) if number != 0 => character,
        _ => '\u{FFFD}',
    }
}

/// Returns the rest after what a backslash escapes, which begins with an ASCII character.
fn past_escaped(text: &str) -> &str
    requires { starts_by is_ascii text.now ≡ true }
    ensures { result.now ≡ past_escape_of text.now }
{
    let rest = past_escape(text.as_bytes());
    &text[text.len() - rest.len()..]
}

/// Appends what a backslash denotes with what follows it, in a string or elsewhere, and returns the
/// rest after it.
fn push_escape<'a>(out: &mut String, in_string: bool, after: &'a str) -> Result<&'a str, AllocError>
    ensures pushed { IfOk result (λ rest. string_bytes out.new ++ unescaped_in in_string rest.now
        ≡ string_bytes out.old ++ unescaped_in in_string (backslash ∷ after.now)) }
    ensures within { IfOk result (λ rest. length rest.now ≤ length after.now) }
{
    let bytes = after.as_bytes();
    match split(bytes) {
        None => {
            if in_string {
                return Ok(after);
            }
            out.push('\u{FFFD}')?;
            Ok(after)
        }
        Some((byte, _)) => {
            if is_newline(byte) {
                if in_string {
                    return Ok(past_escaped(after));
                }
                out.push('\\')?;
                Ok(after)
            } else if is_hex_digit(byte) {
                out.push(character_of(hex_number(bytes)))?;
                Ok(past_escaped(after))
            } else if byte < 128 {
                out.push(char::from(byte))?;
                Ok(past_ascii(after))
            } else {
                Ok(after)
            }
        }
    }
}

/// Returns a text whose first backslash is after `front`, with its escapes decoded.
fn unescape_from<'a>(
    alloc: Global,
    in_string: bool,
    front: &'a str,
    after: &'a str,
) -> Result<String, AllocError>
    ensures { IfOk result (λ out. string_bytes out
        ≡ front.now ++ unescaped_in in_string (backslash ∷ after.now)) }
{
    let mut out = String::new(alloc);
    out.push_str(front)?;
    let mut rest = push_escape(&mut out, in_string, after)?;
    'parts: while let Some((plain, next)) = rest.split_once('\\') {
        out.push_str(plain)?;
        rest = push_escape(&mut out, in_string, next)?;
    }
    out.push_str(rest)?;
    Ok(out)
}

/// Returns the text with its escapes decoded, as in a string or as elsewhere. A text without a backslash
/// is returned as it is.
fn unescape_in<'a>(alloc: Global, in_string: bool, text: &'a str) -> Result<CowStr<'a>, AllocError>
    ensures { IfOk result (λ found. cow_str_bytes found ≡ unescaped_in in_string text.now) }
{
    match text.split_once('\\') {
        None => Ok(CowStr::Borrowed(text)),
        Some((front, after)) => {
            Ok(CowStr::Owned(unescape_from(alloc, in_string, front, after)?))
        }
    }
}

/// Returns the text with U+FFFD in place of each U+0000.
fn without_nul(alloc: Global, text: &str) -> Result<String, AllocError>
    ensures { IfOk result (λ out. string_bytes out ≡ without_nul_of text.now) }
{
    let mut out = String::new(alloc);
    let mut rest = text;
    'parts: while let Some((plain, next)) = rest.split_once('\0') {
        out.push_str(plain)?;
        out.push('\u{FFFD}')?;
        rest = next;
    }
    out.push_str(rest)?;
    Ok(out)
}

/// Whether the byte denotes itself wherever it is.
fn is_itself(byte: u8) -> bool
    ensures { result ≡ is_itself_byte byte }
{
    !(byte == b'\\' || byte == 0)
}

/// Returns the number of bytes at the start that denote themselves.
fn plain_len(bytes: &[u8]) -> usize
    ensures { result ≡ prefix_len is_itself_byte bytes.now }
{
    bytes.iter().take_while(|byte| is_itself(**byte)).count()
}

/// Returns the text with its escapes decoded, as in a string or as elsewhere, and without U+0000.
fn decode_in<'a>(alloc: Global, in_string: bool, text: &'a str) -> Result<CowStr<'a>, AllocError>
    ensures { IfOk result (λ found. cow_str_bytes found ≡ decoded_in in_string text.now) }
{
    if plain_len(text.as_bytes()) == text.len() {
        return Ok(CowStr::Borrowed(text));
    }
    let unescaped = unescape_in(alloc, in_string, text)?;
    if unescaped.as_str().contains('\0') {
        return Ok(CowStr::Owned(without_nul(alloc, unescaped.as_str())?));
    }
    Ok(unescaped)
}

/// Returns the text that a name or a value denotes: its escapes are decoded. A text without a
/// backslash and U+0000 is returned as it is; else the decoded text is allocated. Fails only if an
/// allocation fails.
///
/// U+0000 denotes U+FFFD, and so do hexadecimal digits of zero, of a surrogate or of more than
/// U+10FFFF, and a backslash at the end. A backslash before a newline is no escape, and is kept.
pub fn decode<'a>(alloc: Global, text: &'a str) -> Result<CowStr<'a>, AllocError>
    ensures { IfOk result (λ found. cow_str_bytes found ≡ decoded text.now) }
{
    decode_in(alloc, false, text)
}

/// Returns the text that a string denotes, from what is between its quotes: as [`decode`] does, but a
/// backslash before a newline denotes nothing, with the newline, and nor does one at the end.
pub fn decode_string<'a>(alloc: Global, text: &'a str) -> Result<CowStr<'a>, AllocError>
    ensures { IfOk result (λ found. cow_str_bytes found ≡ decoded_string text.now) }
{
    decode_in(alloc, true, text)
}
