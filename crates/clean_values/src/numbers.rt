//! Numbers, exactly: so many over so many parts.
ghost use Rattle.std.specs.Prelude.{◌≡◌, ◌≤◌, option_map, IfSome, Some};
ghost use Rattle.css_syntax.specs.TokenLists.{past_sign as past_sign_of};
ghost use Rattle.css_text.specs.Reading.{before};
ghost use Rattle.css_syntax.specs.TokenViews.{token_of};
ghost use Rattle.clean_values.specs.Limits.{digits_from, over as over_of, number as number_of, pixels as pixels_of};
ghost use Rattle.clean_values.specs.Limits.{of_unit as of_unit_of, amount as amount_of, at_most as at_most_of};

use crate::names::{inside, whole};
use css_syntax::tokenizer::{Token, TokenKind};
use css_syntax::tokens::spells;

/// A number, or a length in pixels.
#[derive(Clone, Copy)]
pub(crate) struct Amount {
    /// Whether it is written with a minus sign.
    pub below_zero: bool,
    /// How many
    pub times: u64,
    /// of so many parts.
    pub parts: u64,
}

/// Digits of a number, and what they are over, which is 0 if there is no full stop.
#[derive(Clone, Copy)]
struct Digits {
    /// The digits.
    so_far: u64,
    /// What they are over.
    scale: u64,
}

/// A unit in pixels.
#[derive(Clone, Copy)]
struct Unit {
    /// How many pixels
    times: u64,
    /// so many of it are.
    parts: u64,
}

/// Reads digits, with a full stop or without, up to the end.
fn read_digits(bytes: &[u8]) -> Option<Digits>
    ensures read { digits_from 0 0 bytes.now ≡ option_map (λ it. (it.so_far, it.scale)) result }
    ensures small { IfSome result (λ it. (it.so_far ≤ 1000000000000000) × (it.scale ≤ 1000000000000000)) }
{
    let mut so_far = 0u64;
    let mut scale = 0u64;
    let mut rest = bytes;
    'digits: while let [byte, after @ ..] = rest {
        if matches!(*byte, b'0'..=b'9') {
            if so_far > 99999999999999 || scale > 99999999999999 {
                return None;
            }
            so_far = 10 * so_far + u64::from(*byte - 48);
            scale *= 10;
        } else if *byte == b'.' && scale == 0 {
            scale = 1;
        } else {
            return None;
        }
        rest = after;
    }
    Some(Digits { so_far, scale })
}

/// Returns the rest after a sign, if one is next.
fn past_sign(bytes: &[u8]) -> &[u8]
    ensures { result.now ≡ past_sign_of bytes.now }
{
    match bytes {
        [b'-' | b'+', rest @ ..] => rest,
        _ => bytes,
    }
}

/// Reads a number with a sign or without, and with no exponent.
fn number(bytes: &[u8]) -> Option<Amount>
    ensures read { number_of bytes.now ≡ result }
    ensures small { IfSome result (λ it. (it.times ≤ 1000000000000000) × (it.parts ≤ 1000000000000000)) }
{
    let below_zero = matches!(bytes, [b'-', ..]);
    match read_digits(past_sign(bytes)) {
        Some(digits) => Some(Amount {
            below_zero,
            times: digits.so_far,
            parts: if digits.scale == 0 { 1 } else { digits.scale },
        }),
        None => None,
    }
}

/// Returns how many pixels a unit is.
fn pixels(name: &[u8]) -> Unit
    ensures is { (result.times, result.parts) ≡ pixels_of name.now }
    ensures times { result.times ≤ 4800 }
    ensures parts { result.parts ≤ 127 }
{
    let (times, parts) = if spells(b"in", name) {
        (96, 1)
    } else if spells(b"cm", name) {
        (4800, 127)
    } else if spells(b"mm", name) {
        (480, 127)
    } else if spells(b"q", name) {
        (120, 127)
    } else if spells(b"pt", name) {
        (4, 3)
    } else if spells(b"pc", name) {
        (16, 1)
    } else {
        (1, 1)
    };
    Unit { times, parts }
}

/// Reads a number in a unit.
#[tactic(auto, using(crate::proofs::LimitLemmas::times_fit, crate::proofs::LimitLemmas::parts_fit))]
fn dimension(bytes: &[u8], unit: &[u8]) -> Option<Amount>
    ensures { result ≡ of_unit_of (pixels_of unit.now) (number_of bytes.now) }
{
    let unit = pixels(unit);
    match number(bytes) {
        Some(it) => Some(Amount {
            below_zero: it.below_zero,
            times: it.times * unit.times,
            parts: it.parts * unit.parts,
        }),
        None => None,
    }
}

/// Returns what is of a token before what is in it.
fn front<'a>(token: &Token<'a>) -> &'a [u8]
    ensures { let t = token_of token.now in result.now ≡ before t.from t.inside }
{
    &token.from[..token.from.len().saturating_sub(token.inside.len())]
}

/// Returns the number of a token, in pixels if it is an absolute length.
pub(crate) fn token_amount(token: &Token<'_>) -> Option<Amount>
    ensures { result ≡ amount_of (token_of token.now) }
{
    match token.kind {
        TokenKind::Number => number(whole(token)),
        TokenKind::Percentage => number(front(token)),
        TokenKind::Dimension => dimension(front(token), inside(token)),
        _ => None,
    }
}

/// Whether the first number is at most the second.
#[tactic(auto, using(crate::proofs::LimitLemmas::product_fits))]
pub(crate) fn at_most(one: Amount, other: Amount) -> bool
    ensures { result ≡ at_most_of one other }
{
    let left = u128::from(one.times) * u128::from(other.parts);
    let right = u128::from(other.times) * u128::from(one.parts);
    match (one.below_zero, other.below_zero) {
        (true, true) => right <= left,
        (true, false) => true,
        (false, true) => left == 0 && right == 0,
        (false, false) => left <= right,
    }
}
