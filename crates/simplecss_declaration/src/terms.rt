//! The terms of values.
ghost use Rattle.std.specs.Prelude.{◌≡◌};
ghost use Rattle.css_text.specs.Reading.{ended};
ghost use Rattle.css_text.specs.AsciiBytes.{close_parenthesis};
ghost use Rattle.css_text.specs.Bytes.{past, is_digit, after_byte, closed_or};
ghost use Rattle.css_text.specs.Names.{name as name_read};
ghost use Rattle.css_text.specs.Bytes.{is_hex_digit};
ghost use Rattle.simplecss_grammar.specs.Terms.{past_hash, past_number, word, term};
ghost use Rattle.css_text.specs.ThisEdition.{this_edition};
ghost use Rattle.css_text.specs.Cursor.{text_of, rest_of};
ghost use Rattle.simplecss_declaration.specs.internal.UnreportedFaults.{Passes};

use css_text::stream::Stream;
use css_text::{readers, scan};

/// Skips digits.
#[inline(always)]
fn skip_digits(s: &mut Stream<'_>)
    ensures text { text_of s.new ≡ text_of s.old }
    ensures rest { rest_of s.new ≡ past is_digit (rest_of s.old) }
{
    s.skip_bytes(|byte| byte.is_ascii_digit());
}

/// Skips hexadecimal digits.
#[inline(always)]
fn skip_hex_digits(s: &mut Stream<'_>)
    ensures text { text_of s.new ≡ text_of s.old }
    ensures rest { rest_of s.new ≡ past is_hex_digit (rest_of s.old) }
{
    s.skip_bytes(|byte| byte.is_ascii_hexdigit());
}

/// Skips a hash after its number sign: a name, or if there is none, hexadecimal digits.
#[inline(always)]
fn skip_hash(s: &mut Stream<'_>)
    ensures text { text_of s.new ≡ text_of s.old }
    ensures rest { rest_of s.new ≡ past_hash (name_read this_edition (rest_of s.old)) }
{
    if readers::take_name(s).is_none() {
        skip_hex_digits(s);
    }
}

/// Skips a number after its first byte: digits, a point and digits, and a percent sign or a unit.
#[inline(always)]
fn skip_number(s: &mut Stream<'_>)
    ensures text { text_of s.new ≡ text_of s.old }
    ensures rest { rest_of s.new ≡ past_number this_edition (rest_of s.old) }
{
    skip_digits(s);
    if readers::skip_byte(s, b'.') {
        skip_digits(s);
    }
    if !readers::skip_byte(s, b'%') {
        let _ = readers::take_name(s);
    }
}

/// Skips everything up to and including the first closing parenthesis. Without one nothing is left.
#[inline(always)]
fn skip_arguments(s: &mut Stream<'_>) -> bool
    ensures text { text_of s.new ≡ text_of s.old }
    ensures reads { Passes (closed_or ended (after_byte close_parenthesis (rest_of s.old))) result
        (rest_of s.new) }
{
    match scan::find_byte(s.slice_tail(), b')') {
        Some(at) => {
            s.advance(at + 1);
            true
        }
        None => {
            s.jump_to_end();
            false
        }
    }
}

/// Skips a name, and if a parenthesis follows directly, the arguments of the function.
#[inline(always)]
fn skip_word(s: &mut Stream<'_>) -> bool
    ensures text { text_of s.new ≡ text_of s.old }
    ensures reads { Passes (word this_edition (rest_of s.old)) result (rest_of s.new) }
{
    if readers::take_name(s).is_none() {
        return false;
    }
    if readers::peek(s) == Some(b'(') {
        return skip_arguments(s);
    }
    true
}

/// Skips a term: a hash, a number, a string, a comma, a slash that opens no comment, a name or a
/// function. Returns whether there was one.
#[inline(always)]
pub fn skip_term(s: &mut Stream<'_>) -> bool
    ensures text { text_of s.new ≡ text_of s.old }
    ensures reads { Passes (term this_edition (rest_of s.old)) result (rest_of s.new) }
{
    match readers::peek(s) {
        None => false,
        Some(b'#') => {
            readers::skip_ascii(s);
            skip_hash(s);
            true
        }
        Some(b'+' | b'-' | b'.' | b'0'..=b'9') => {
            readers::skip_ascii(s);
            skip_number(s);
            true
        }
        Some(quote @ (b'\'' | b'"')) => {
            readers::skip_ascii(s);
            readers::take_string(s, quote).is_some()
        }
        Some(b',') => {
            readers::skip_ascii(s);
            true
        }
        Some(b'/') if !scan::opens_comment(s.slice_tail()) => {
            readers::skip_ascii(s);
            true
        }
        Some(_) => skip_word(s),
    }
}
