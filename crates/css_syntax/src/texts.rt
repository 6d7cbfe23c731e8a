//! Readers of tokens over texts, and slices of texts.
ghost use Rattle.std.specs.Prelude.{◌≡◌, ◌<◌, true};
ghost use Rattle.css_text.specs.Reading.{before, Ends};
ghost use Rattle.css_text.specs.Bytes.{past_byte as past_byte_of, past_one as past_one_of, starts_by};
ghost use Rattle.css_text.specs.Bytes.{is_ascii, past};
ghost use Rattle.css_text.specs.Characters.{is_space};
ghost use Rattle.css_syntax.specs.Tokens.{past_gap as past_gap_of, past_word as past_word_of};
ghost use Rattle.css_syntax.specs.Tokens.{past_string_parts as past_string_parts_of};
ghost use Rattle.css_syntax.specs.Tokens.{past_url_parts as past_url_parts_of};
ghost use Rattle.css_syntax.specs.Tokens.{past_comments as past_comments_of};
ghost use Rattle.css_syntax.specs.Tokens.{spells as spells_of, token};
ghost use Rattle.css_syntax.specs.ComponentValues.{component_value, deepest};

use crate::component_values::read_component_value;
use crate::quality::Quality;
use crate::tokens;
use css_text::{readers, scan};

/// A token or a component value that was read.
#[derive(Clone, Copy)]
pub struct ReadValue<'a> {
    /// Its quality.
    pub quality: Quality,
    /// The rest after it.
    pub rest: &'a str,
}

/// Returns the text before the rest.
pub fn front<'a>(text: &'a str, rest: &'a str) -> &'a str
    requires { Ends text.now rest.now }
    ensures { result.now ≡ before text.now rest.now }
{
    &text[..text.len() - rest.len()]
}

/// Returns the rest after space bytes and comments.
pub fn past_gap(text: &str) -> &str
    ensures { result.now ≡ past_gap_of text.now }
{
    let rest = tokens::past_gap(text.as_bytes());
    &text[text.len() - rest.len()..]
}

/// Returns the rest after comments.
pub fn past_comments(text: &str) -> &str
    ensures { result.now ≡ past_comments_of text.now }
{
    let mut rest = text;
    'comments: while scan::opens_comment(rest) {
        rest = read_token(rest).rest;
    }
    rest
}

/// Returns the rest after a word.
pub fn past_word(text: &str) -> &str
    ensures { result.now ≡ past_word_of text.now }
{
    let rest = tokens::past_word(text.as_bytes());
    &text[text.len() - rest.len()..]
}

/// Returns the rest after what is in a string with this quote, from after the quote that opens it:
/// the quote that closes it, a newline, or nothing.
pub fn past_string_parts(text: &str, quote: u8) -> &str
    requires { quote < 128 }
    ensures { result.now ≡ past_string_parts_of quote text.now }
{
    let rest = tokens::past_string_parts(text.as_bytes(), quote);
    &text[text.len() - rest.len()..]
}

/// Returns the rest after space bytes.
pub fn past_spaces(text: &str) -> &str
    ensures { result.now ≡ past is_space text.now }
{
    let rest = tokens::past_spaces(text.as_bytes());
    &text[text.len() - rest.len()..]
}

/// Returns the rest after what is in a url without quotes, from after the blanks after its parenthesis:
/// a blank, the parenthesis that closes it, or what makes it bad.
pub fn past_url_parts(text: &str) -> &str
    ensures { result.now ≡ past_url_parts_of text.now }
{
    let rest = tokens::past_url_parts(text.as_bytes());
    &text[text.len() - rest.len()..]
}

/// Returns the rest after the first byte, which is ASCII.
#[inline(always)]
pub fn past_ascii(text: &str) -> &str
    requires { starts_by is_ascii text.now ≡ true }
    ensures { result.now ≡ past_one_of text.now }
{
    &text[1..]
}

/// Returns the rest after the byte, which is ASCII, if it is next.
#[tactic(auto, using(crate::proofs::PartTexts::starts_past, crate::proofs::PartTexts::starts_not, crate::proofs::PartTexts::starts_ascii))]
pub fn past_byte(text: &str, byte: u8) -> &str
    requires { byte < 128 }
    ensures { result.now ≡ past_byte_of byte text.now }
{
    if readers::starts(text, byte) {
        past_ascii(text)
    } else {
        text
    }
}

/// Whether the word is the keyword, which is in lower case: each of its characters in either case, as
/// it is or as an escape.
pub fn spells(keyword: &str, word: &str) -> bool
    ensures { result ≡ spells_of keyword.now word.now }
{
    tokens::spells(keyword.as_bytes(), word.as_bytes())
}

/// Reads a token that is no opening bracket.
pub fn read_token(text: &str) -> ReadValue<'_>
    ensures { token text.now ≡ (result.quality, result.rest.now) }
{
    let skipped = tokens::read_token(text.as_bytes());
    ReadValue {
        quality: skipped.quality,
        rest: &text[text.len() - skipped.rest.len()..],
    }
}

/// Reads a component value.
pub fn read_value(text: &str) -> ReadValue<'_>
    ensures { component_value deepest text.now ≡ (result.quality, result.rest.now) }
{
    let skipped = read_component_value(text.as_bytes());
    ReadValue {
        quality: skipped.quality,
        rest: &text[text.len() - skipped.rest.len()..],
    }
}
