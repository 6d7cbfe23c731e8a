//! Component values one after another, up to a byte that ends them outside brackets.
ghost use Rattle.std.specs.Prelude.{◌≡◌, ◌<◌, ◌≤◌, None, MatchOption, length};
ghost use Rattle.css_syntax.specs.Parts.{Stated, stops_at as stops_at_of, ends_at as ends_at_of};
ghost use Rattle.css_syntax.specs.Parts.{part as part_of, parts as parts_of};
ghost use Rattle.css_syntax.specs.Tokens.{past_gap as past_gap_of};
ghost use Rattle.css_syntax.specs.internal.PlainTokens.{Goes};

use crate::component_values::read_component_value;
use crate::plain::past_plain;
use crate::quality::{Quality, first_flaw};
use crate::tokens::past_gap;

/// Which bytes end the parts.
#[derive(Clone, Copy, Debug)]
pub struct Stops {
    /// A semicolon does.
    pub semicolon: bool,
    /// An opening brace does.
    pub open_brace: bool,
    /// A closing brace does.
    pub close_brace: bool,
    /// A comma does.
    pub comma: bool,
    /// An exclamation mark, a closing parenthesis and a closing bracket do.
    pub in_value: bool,
}

/// Parts that were read.
#[derive(Clone, Copy)]
struct ByteParts<'a> {
    /// Their text, without blanks at its end.
    text: &'a [u8],
    /// The first flaw of all.
    quality: Quality,
    /// What follows them and the blanks after them.
    rest: &'a [u8],
}

/// A part: a component value and the blank after it, or several.
#[derive(Clone, Copy)]
struct Part<'a> {
    /// Its quality.
    quality: Quality,
    /// The rest after it.
    end: &'a [u8],
    /// The rest after the blank.
    next: &'a [u8],
}

/// Parts that were read, as texts.
#[derive(Clone, Copy)]
pub struct Parts<'a> {
    /// Their text, without blanks at its end.
    pub text: &'a str,
    /// The first flaw of all.
    pub quality: Quality,
    /// What follows them and the blanks after them.
    pub rest: &'a str,
}

/// Whether the byte ends the parts.
fn stops_at(stops: Stops, byte: u8) -> bool
    ensures { result ≡ stops_at_of stops byte }
{
    match byte {
        b';' => stops.semicolon,
        b'{' => stops.open_brace,
        b'}' => stops.close_brace,
        b',' => stops.comma,
        b'!' | b')' | b']' => stops.in_value,
        _ => false,
    }
}

/// Whether the text ends, or the parts do.
pub fn ends_at(stops: Stops, bytes: &[u8]) -> bool
    ensures { result ≡ ends_at_of stops bytes.now }
{
    match bytes {
        [] => true,
        [byte, ..] => stops_at(stops, *byte),
    }
}

/// Returns the rest after words and signs, which are whole parts, or the same bytes.
fn past_words(stops: Stops, bytes: &[u8]) -> &[u8]
    ensures goes { length result.now < length bytes.now
        → Goes stops bytes.now Quality.Whole result.now (past_gap_of result.now) }
    ensures within { length result.now ≤ length bytes.now }
{
    if stops.comma {
        bytes
    } else {
        past_plain(bytes)
    }
}

/// Returns the next part, unless they end here. Words and signs are one part.
fn take_part(stops: Stops, bytes: &[u8]) -> Option<Part<'_>>
    ensures { MatchOption result (part_of stops bytes.now ≡ None)
        (λ part. Goes stops bytes.now part.quality part.end.now part.next.now) }
{
    if ends_at(stops, bytes) {
        return None;
    }
    let words = past_words(stops, bytes);
    if words.len() < bytes.len() {
        return Some(Part {
            quality: Quality::Whole,
            end: words,
            next: past_gap(words),
        });
    }
    let value = read_component_value(bytes);
    Some(Part {
        quality: value.quality,
        end: value.rest,
        next: past_gap(value.rest),
    })
}

/// Reads the parts at the start.
fn read_byte_parts(stops: Stops, bytes: &[u8]) -> ByteParts<'_>
    ensures { parts_of stops bytes.now
        ≡ (record { text = result.text.now; quality = result.quality }, result.rest.now) }
{
    let mut end = bytes;
    let mut rest = bytes;
    let mut quality = Quality::Whole;
    'parts: while let Some(part) = take_part(stops, rest) {
        quality = first_flaw(quality, part.quality);
        end = part.end;
        rest = part.next;
    }
    ByteParts {
        text: &bytes[..bytes.len() - end.len()],
        quality,
        rest,
    }
}

/// Reads the parts at the start of the text.
pub fn read_parts(stops: Stops, text: &str) -> Parts<'_>
    ensures { parts_of stops text.now
        ≡ (record { text = result.text.now; quality = result.quality }, result.rest.now) }
{
    let parts = read_byte_parts(stops, text.as_bytes());
    let end = text.len() - parts.rest.len();
    Parts {
        text: &text[..parts.text.len()],
        quality: parts.quality,
        rest: &text[end..],
    }
}
