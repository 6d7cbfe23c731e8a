//! Words within conditions, and runs of component values.
ghost use Rattle.std.specs.Prelude.{◌≡◌, ◌||◌, ◌==◌, ◌&&◌, Some, true, false, option_map};
ghost use Rattle.css_text.specs.AsciiBytes.{open_parenthesis, close_parenthesis, comma};
ghost use Rattle.css_text.specs.Reading.{before as before_of};
ghost use Rattle.css_text.specs.Bytes.{starts, starts_by};
ghost use Rattle.css_syntax.specs.Tokens.{is_name_byte as is_name_byte_of, begins_url as begins_url_of};
ghost use Rattle.css_syntax.specs.Statements.{begins_ident as begins_ident_of};
ghost use Rattle.css_conditions.specs.Words.{goes_on as goes_on_of, word_end as word_end_of};
ghost use Rattle.css_conditions.specs.Words.{past_letters, past_keyword};
ghost use Rattle.css_conditions.specs.Words.{begins_name as begins_name_of};
ghost use Rattle.css_conditions.specs.Words.{begins_function as begins_function_of};
ghost use Rattle.css_conditions.specs.Words.{begins_parens as begins_parens_of};
ghost use Rattle.css_conditions.specs.Words.{ends_parens as ends_parens_of, is_end as is_end_of};
ghost use Rattle.css_conditions.specs.Words.{ends_by, values as values_of};
ghost use Rattle.css_conditions.specs.Choices.{stop_of};

use css_syntax::component_values::read_component_value;
use css_syntax::quality::{Quality, first_flaw};
use css_syntax::statements::begins_ident;
use css_syntax::tokens::{
    ReadBytes, begins_escape, begins_url, is_name_byte, past_word, take_letter,
};

/// What ends a run of component values.
#[derive(Clone, Copy, Debug, PartialEq)]
pub enum Stop {
    /// A closing parenthesis.
    Parenthesis,
    /// That, a sign of comparison, a comma, a colon or a semicolon.
    Value,
    /// A comma.
    Comma,
}

/// Returns the text before the rest.
pub fn before<'a>(text: &'a [u8], rest: &[u8]) -> &'a [u8]
    ensures { result.now ≡ before_of text.now rest.now }
{
    &text[..text.len().saturating_sub(rest.len())]
}

/// Whether the byte is next.
pub fn starts_with(bytes: &[u8], byte: u8) -> bool
    ensures { result ≡ starts byte bytes.now }
{
    match bytes {
        [] => false,
        [first, ..] => *first == byte,
    }
}

/// Whether the word goes on here.
fn goes_on(bytes: &[u8]) -> bool
    ensures { result ≡ goes_on_of bytes.now }
{
    match bytes {
        [] => false,
        [byte, ..] => is_name_byte(*byte) || begins_escape(bytes),
    }
}

/// Returns the rest after letters, which are given as small ones: in any case, and with any escapes.
#[tactic(auto, using(crate::proofs::Steps::letters_stop))]
pub fn take_letters<'a>(bytes: &'a [u8], word: &[u8]) -> Option<&'a [u8]>
    ensures { past_letters word.now (Some bytes.now) ≡ option_map (λ rest. rest.now) result }
{
    let mut rest = bytes;
    let mut left = word;
    'letters: while let [letter, more @ ..] = left {
        match take_letter(rest, *letter, letter.to_ascii_uppercase()) {
            Some(after) => rest = after,
            None => return None,
        }
        left = more;
    }
    Some(rest)
}

/// Returns the rest after a word, given in small letters, if it is next and names no function.
pub fn take_keyword<'a>(bytes: &'a [u8], word: &[u8]) -> Option<&'a [u8]>
    ensures { past_keyword word.now bytes.now ≡ option_map (λ rest. rest.now) result }
{
    match take_letters(bytes, word) {
        None => None,
        Some(rest) => {
            if goes_on(rest) || starts_with(rest, b'(') {
                None
            } else {
                Some(rest)
            }
        }
    }
}

/// Whether a name begins here, and no url without quotes.
pub fn begins_name(bytes: &[u8]) -> bool
    ensures { result ≡ begins_name_of bytes.now }
{
    begins_ident(bytes) && !begins_url(bytes)
}

/// Whether a function begins here.
pub fn begins_function(bytes: &[u8]) -> bool
    ensures { result ≡ begins_function_of bytes.now }
{
    begins_name(bytes) && starts_with(past_word(bytes), b'(')
}

/// Whether what is in parentheses, or a function, begins here.
pub fn begins_parens(bytes: &[u8]) -> bool
    ensures { result ≡ begins_parens_of bytes.now }
{
    starts_with(bytes, b'(') || begins_function(bytes)
}

/// Whether parentheses end here.
pub fn ends_parens(bytes: &[u8]) -> bool
    ensures { result ≡ ends_parens_of bytes.now }
{
    match bytes {
        [] => true,
        [byte, ..] => *byte == b')',
    }
}

/// Whether nothing is left.
pub fn is_end(bytes: &[u8]) -> bool
    ensures { result ≡ is_end_of bytes.now }
{
    bytes.is_empty()
}

/// Whether the byte ends a run of component values.
fn stops_at(stop: Stop, byte: u8) -> bool
    ensures { result ≡ stop_of stop byte }
{
    match stop {
        Stop::Parenthesis => byte == b')',
        Stop::Value => matches!(byte, b')' | b'<' | b'=' | b'>' | b',' | b':' | b';'),
        Stop::Comma => byte == b',',
    }
}

/// Whether a run of component values ends here.
pub fn ends_run(stop: Stop, bytes: &[u8]) -> bool
    ensures { result ≡ ends_by (stop_of stop) bytes.now }
{
    match bytes {
        [] => true,
        [byte, ..] => stops_at(stop, *byte),
    }
}

/// Reads component values.
#[tactic(auto, unfolding(crate::specs::Words::values), using(crate::proofs::Steps::values_step, crate::proofs::Steps::values_stop))]
pub fn read_values(stop: Stop, bytes: &[u8]) -> ReadBytes<'_>
    ensures { values_of (stop_of stop) bytes.now ≡ (result.quality, result.rest.now) }
{
    let mut quality = Quality::Whole;
    let mut rest = bytes;
    let mut left = bytes.len();
    'values: while left > 0 {
        if ends_run(stop, rest) {
            return ReadBytes { quality, rest };
        }
        let value = read_component_value(rest);
        quality = first_flaw(quality, value.quality);
        rest = value.rest;
        left -= 1;
    }
    ReadBytes { quality, rest }
}
