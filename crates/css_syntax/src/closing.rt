//! Closes what the end of a text left open in a value.
ghost use Rattle.std.specs.Prelude.{◌≡◌, ◌++◌, ℕ, List, Some, false, option_map, true, IfOk, IfSome, OnOk};
ghost use Rattle.std.specs.String.{string_bytes};
ghost use Rattle.css_syntax.specs.Printing.{IsClosed, IsWholeValue};

use crate::component_values::{DEEPEST, closer_of, opened_kind};
use crate::declarations::read_value;
use crate::printing::ends_lone;
use crate::quality::is_whole;
use crate::texts::past_gap;
use crate::tokens::{read_token, split};
use std::alloc::{AllocError, Global};

/// What is open at the end of a value.
#[derive(Clone, Copy)]
struct OpenEnd<'a> {
    /// The closing brackets of those that are open, as digits to the base of four, the last opened
    /// one lowest.
    waiting: u128,
    /// How many brackets are open.
    depth: usize,
    /// The token that is open, up to the end, if there is one.
    token: &'a [u8],
}

/// Returns what is open at the end of the bytes, unless more than 64 brackets are.
fn open_end(bytes: &[u8]) -> Option<OpenEnd<'_>> {
    let mut waiting = 0u128;
    let mut depth = 0usize;
    let mut rest = bytes;
    'tokens: while let Some((byte, after)) = split(rest) {
        if depth > 0 && byte == closer_of(waiting % 4) {
            waiting /= 4;
            depth -= 1;
            rest = after;
        } else if let Some(kind) = opened_kind(byte) {
            if depth == DEEPEST {
                return None;
            }
            waiting = 4 * waiting + kind;
            depth += 1;
            rest = after;
        } else {
            let token = read_token(rest);
            if !is_whole(token.quality) {
                break;
            }
            rest = token.rest;
        }
    }
    Some(OpenEnd {
        waiting,
        depth,
        token: rest,
    })
}

/// Returns what closes a token that is open at the end. A lone backslash there escapes the end of
/// the text: in a string nothing, as before a newline, and else U+FFFD.
fn token_end(is_lone: bool, token: &[u8]) -> &'static str {
    match token {
        [] if is_lone => "\u{FFFD}",
        [] => "",
        [b'\'', ..] if is_lone => "\n'",
        [b'\'', ..] => "'",
        [b'"', ..] if is_lone => "\n\"",
        [b'"', ..] => "\"",
        [b'/', ..] => "*/",
        _ if is_lone => "\u{FFFD})",
        _ => ")",
    }
}

/// Appends the closing brackets that wait.
fn push_brackets(out: &mut String, mut waiting: u128, mut depth: usize) -> Result<(), AllocError>
    ensures { OnOk result
        ((more : List ℕ) × (string_bytes out.new ≡ string_bytes out.old ++ more)) }
{
    'brackets: while depth > 0 {
        out.push(char::from(closer_of(waiting % 4)))?;
        waiting /= 4;
        depth -= 1;
    }
    Ok(())
}

/// Whether all of the text is a value of which nothing is open, without blanks at its start.
fn is_whole_value(text: &str) -> bool
    ensures whole { result ≡ true → IsWholeValue true text.now }
    ensures other { result ≡ false → IsWholeValue true text.now → ⊥ }
{
    let parts = read_value(text, true);
    if !is_whole(parts.quality) || !parts.rest.is_empty() {
        return false;
    }
    parts.text == text && past_gap(text) == text
}

/// Returns a value with what closes it where the end of the text did: the end of a string, an
/// url or a comment, and then the brackets that are open. A value of which nothing is open is returned
/// unchanged. What is returned was read again; `None` is returned if that is no whole value, as of a
/// text with a flaw, such as a closing bracket that closes nothing. Fails only if an allocation
/// fails.
pub fn closed_value(alloc: Global, value: &str) -> Result<Option<String>, AllocError>
    ensures closed { IfOk result (λ found. IfSome found (λ out.
        IsClosed value.now (string_bytes out))) }
    ensures unchanged { IsWholeValue true value.now
        → IfOk result (λ found. option_map string_bytes found ≡ Some value.now) }
{
    if is_whole_value(value) {
        let mut same = String::new(alloc);
        same.push_str(value)?;
        return Ok(Some(same));
    }
    let Some(end) = open_end(value.as_bytes()) else {
        return Ok(None);
    };
    let is_lone = ends_lone(value.as_bytes());
    let mut out = String::new(alloc);
    out.push_str(value)?;
    out.push_str(token_end(is_lone, end.token))?;
    push_brackets(&mut out, end.waiting, end.depth)?;
    Ok(if is_whole_value(out.as_str()) {
        Some(out)
    } else {
        None
    })
}
