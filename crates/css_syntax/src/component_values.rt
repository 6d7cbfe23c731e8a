//! Component values (CSS Syntax 3, sections 5.4.7 to 5.4.9): a token, or brackets with component
//! values in them.
ghost use Rattle.std.specs.Prelude.{◌≡◌, ◌<◌, true, false, None, IfSome};
ghost use Rattle.css_syntax.specs.ComponentValues.{is_opener as is_opener_of, mirror, deepest};
ghost use Rattle.css_syntax.specs.ComponentValues.{block_of, past_deep as past_deep_of};
ghost use Rattle.css_syntax.specs.ComponentValues.{component_value};
ghost use Rattle.css_syntax.specs.internal.OpenBrackets.{closer_of as closer_named};

use crate::quality::{Quality, first_flaw};
use crate::tokens::{ReadBytes, is_closer, read_token, split, whole};

/// How many brackets may be open at once: as many as a `u128` has digits to the base of four.
pub(crate) const DEEPEST: usize = 64;

/// The closing bracket of a number from 1 to 3.
pub(crate) fn closer_of(kind: u128) -> u8
    ensures { result ≡ closer_named kind }
{
    match kind {
        1 => b')',
        2 => b']',
        _ => b'}',
    }
}

/// The number of the closing bracket for an opening one, if the byte is one.
pub(crate) fn opened_kind(byte: u8) -> Option<u128>
    ensures none { result ≡ None → is_opener_of byte ≡ false }
    ensures some { IfSome result (λ kind. (is_opener_of byte ≡ true) × (kind < 4)
        × (closer_named kind ≡ mirror byte)) }
{
    match byte {
        b'(' => Some(1),
        b'[' => Some(2),
        b'{' => Some(3),
        _ => None,
    }
}

/// Whether the byte is an opening bracket.
fn is_opener(byte: u8) -> bool
    ensures { result ≡ is_opener_of byte }
{
    matches!(byte, b'(' | b'[' | b'{')
}

/// Returns the rest after what is nested too deep, from after its opening bracket: brackets are only
/// counted, and a closing one of any kind closes the last.
fn past_deep(bytes: &[u8]) -> &[u8]
    ensures { result.now ≡ past_deep_of bytes.now }
{
    let mut depth = 1usize;
    let mut rest = bytes;
    'values: while depth > 0 {
        match split(rest) {
            None => return rest,
            Some((byte, after)) => {
                if is_opener(byte) {
                    depth += 1;
                    rest = after;
                } else if is_closer(byte) {
                    depth -= 1;
                    rest = after;
                } else {
                    rest = read_token(rest).rest;
                }
            }
        }
    }
    rest
}

/// Reads a block after its opening bracket, up to and with the bracket that closes it. `kind` is
/// the number of that bracket.
///
/// The brackets that are open are the digits of `waiting` to the base of four, the last opened one
/// lowest, so nothing is allocated and nothing calls itself. What is nested deeper is skipped.
fn read_block(bytes: &[u8], kind: u128) -> ReadBytes<'_>
    requires { kind < 4 }
    ensures { block_of (component_value 63) (closer_named kind) bytes.now
        ≡ (result.quality, result.rest.now) }
{
    let mut waiting = kind;
    let mut depth = 1usize;
    let mut quality = Quality::Whole;
    let mut rest = bytes;
    'values: while depth > 0 {
        match split(rest) {
            None => {
                return ReadBytes {
                    quality: first_flaw(quality, Quality::Open),
                    rest,
                };
            }
            Some((byte, after)) => {
                if byte == closer_of(waiting % 4) {
                    waiting /= 4;
                    depth -= 1;
                    rest = after;
                } else if let Some(inner) = opened_kind(byte) {
                    if depth == DEEPEST {
                        quality = first_flaw(quality, Quality::TooDeep);
                        rest = past_deep(after);
                    } else {
                        waiting = 4 * waiting + inner;
                        depth += 1;
                        rest = after;
                    }
                } else {
                    let token = read_token(rest);
                    quality = first_flaw(quality, token.quality);
                    rest = token.rest;
                }
            }
        }
    }
    ReadBytes { quality, rest }
}

/// Reads a component value.
pub fn read_component_value(bytes: &[u8]) -> ReadBytes<'_>
    ensures { component_value deepest bytes.now ≡ (result.quality, result.rest.now) }
{
    match split(bytes) {
        None => whole(bytes),
        Some((byte, rest)) => match opened_kind(byte) {
            Some(kind) => read_block(rest, kind),
            None => read_token(bytes),
        },
    }
}
