//! Gaps, names and strings.
ghost use Rattle.std.specs.Prelude.{◌≡◌, ◌<◌};
ghost use Rattle.css_selector_text.specs.reading.Grammar.{gap, name as name_of, ident_sequence, string as string_of, closing as closing_of};
ghost use Rattle.css_selector_text.specs.reading.Readings.{got};
ghost use Rattle.css_syntax.specs.Statements.{begins_cdc as begins_cdc_of};
ghost use Rattle.css_selector_text.specs.reading.Grammar.{begins_word as begins_word_of, begins_name as begins_name_of};
ghost use Rattle.css_selector_text.specs.reading.Grammar.{begins_plain_name as begins_plain_name_of};
ghost use Rattle.css_selector_text.specs.internal.Reads.{reading_of, Reads};
ghost use Rattle.std.specs.Cow.{cow_str_bytes};

use crate::reading::texts::split_ascii;
use crate::refusal::{Refusal, Why};
pub(crate) use css_syntax::texts::past_comments;
use css_syntax::texts::{front, past_string_parts, past_word};
use css_syntax::tokens::begins_escape;
use css_syntax::{decode, decode_string};
use css_text::readers;
use css_text::stream::Stream;
use std::alloc::Global;
use std::borrow::CowStr;

/// Skips space bytes and comments, and returns whether there was a space byte outside the comments.
pub(crate) fn read_gap(text: &str) -> (bool, &str)
    ensures { got result.0 result.1.now ≡ gap text.now }
{
    let mut stream = Stream::new(text);
    match readers::consume_gap(&mut stream) {
        Ok(spaced) => (spaced, stream.slice_tail()),
        Err(_) => (false, ""),
    }
}

/// Whether the byte may begin a name.
fn begins_word(byte: u8) -> bool
    ensures { result ≡ begins_word_of byte }
{
    byte.is_ascii_alphabetic() || byte == b'_' || byte >= 128 || byte == 0
}

/// Whether a name without a hyphen at its start begins here.
fn begins_plain_name(text: &str) -> bool
    ensures { result ≡ begins_plain_name_of text.now }
{
    match text.as_bytes() {
        [] => false,
        [byte, ..] => begins_word(*byte) || begins_escape(text.as_bytes()),
    }
}

/// Whether a name begins here.
pub(crate) fn begins_name(text: &str) -> bool
    ensures { result ≡ begins_name_of text.now }
{
    if begins_plain_name(text) {
        return true;
    }
    match split_ascii(text) {
        Some((b'-', rest)) => begins_plain_name(rest) || readers::starts(rest, b'-'),
        _ => false,
    }
}

/// Whether the text begins with `-->`.
fn begins_cdc(text: &str) -> bool
    ensures { result ≡ begins_cdc_of text.now }
{
    matches!(text.as_bytes(), [b'-', b'-', b'>', ..])
}

/// Reads an ident sequence.
#[tactic(auto, using(css_syntax::proofs::PartTexts::word_ends), unfolding(crate::specs::reading::Grammar::ident_sequence))]
pub(crate) fn read_ident_sequence<'a>(
    alloc: Global,
    text: &'a str,
) -> Result<(CowStr<'a>, &'a str), Refusal<'a>>
    ensures { Reads cow_str_bytes result (ident_sequence text.now) }
{
    if !begins_name(text) {
        return Err(Refusal::new(Why::NoName, text));
    }
    let rest = past_word(text);
    Ok((decode(alloc, front(text, rest))?, rest))
}

/// Reads a name, which `-->` begins none of.
#[tactic(auto, unfolding(crate::specs::reading::Grammar::name))]
pub(crate) fn read_name<'a>(
    alloc: Global,
    text: &'a str,
) -> Result<(CowStr<'a>, &'a str), Refusal<'a>>
    ensures { Reads cow_str_bytes result (name_of text.now) }
{
    if begins_cdc(text) {
        return Err(Refusal::new(Why::NoName, text));
    }
    read_ident_sequence(alloc, text)
}

/// Reads a string, from after its quote, which the end of the text may close. `opened` is the text from
/// the quote on.
#[tactic(auto, using(css_syntax::proofs::Utf8Ends::string_parts_ends), unfolding(crate::specs::reading::Grammar::string))]
pub(crate) fn read_string<'a>(
    alloc: Global,
    opened: &'a str,
    quote: u8,
    text: &'a str,
) -> Result<(CowStr<'a>, &'a str), Refusal<'a>>
    requires { quote < 128 }
    ensures { Reads cow_str_bytes result (string_of opened.now quote text.now) }
{
    let rest = past_string_parts(text, quote);
    match split_ascii(rest) {
        Some((byte, after)) if byte == quote => {
            Ok((decode_string(alloc, front(text, rest))?, after))
        }
        None if rest.is_empty() => Ok((decode_string(alloc, front(text, rest))?, rest)),
        _ => Err(Refusal::new(Why::BrokenString, opened)),
    }
}

/// Consumes the byte that closes a bracket, which the end of the text also does.
pub(crate) fn read_closing(byte: u8, text: &str) -> Result<((), &str), Refusal<'_>>
    requires { byte < 128 }
    ensures { reading_of (λ u. u) result ≡ closing_of byte text.now }
{
    match split_ascii(text) {
        Some((first, rest)) if first == byte => Ok(((), rest)),
        None if text.is_empty() => Ok(((), text)),
        _ => Err(Refusal::new(Why::Unexpected, text)),
    }
}
