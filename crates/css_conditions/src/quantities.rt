//! Numbers, and units of lengths and resolutions.
ghost use Rattle.std.specs.Prelude.{◌≡◌, ◌≤◌, ◌<◌, ◌*◌, ◌^◌, option_map, IfSome, Some, codes, ◌||◌, ◌&&◌, true, if◌then◌else◌};
ghost use Rattle.css_text.specs.Bytes.{starts_by, is_digit as is_digit_of};
ghost use Rattle.css_conditions.specs.Quantities.{digits_from, begins_fraction as begins_fraction_of};
ghost use Rattle.css_conditions.specs.Quantities.{number as number_of, past_sign as past_sign_of};
ghost use Rattle.css_conditions.specs.Quantities.{begins_exponent as begins_exponent_of, with_exponent, raised as raised_of};
ghost use Rattle.css_conditions.specs.Quantities.{length_unit as length_unit_of, view_unit as view_unit_of};
ghost use Rattle.css_conditions.specs.Quantities.{resolution_unit as resolution_unit_of};
ghost use Rattle.css_conditions.specs.Quantities.{in_unit as in_unit_of, with_unit as with_unit_of};
ghost use Rattle.css_conditions.specs.Quantities.{signed as signed_of, dimension as dimension_of};
ghost use Rattle.css_conditions.specs.Quantities.{lesser as lesser_of, greater as greater_of};

use crate::amounts::{Amount, Kind, cross, fitted};
use crate::words::{before, is_end, starts_with};
use css_syntax::tokens::{past_one, past_word, spells};

/// What is seen of a page at a time, in pixels.
#[derive(Clone, Copy)]
pub struct View {
    /// Its width.
    pub width: u32,
    /// Its height.
    pub height: u32,
}

/// A number over a power of ten, and the rest.
#[derive(Clone, Copy)]
pub struct Number<'t> {
    /// Its digits, and zeros after them.
    pub digits: u64,
    /// What it is over.
    pub scale: u64,
    /// The rest.
    pub rest: &'t [u8],
}

/// A number over another.
#[derive(Clone, Copy)]
pub struct Fraction {
    /// So many
    pub num: u128,
    /// of so many parts.
    pub den: u128,
}

/// An amount, and the rest.
#[derive(Clone, Copy)]
pub struct Found<'t> {
    /// The amount.
    pub amount: Amount,
    /// The rest.
    pub rest: &'t [u8],
}

/// A number over another, and the rest.
#[derive(Clone, Copy)]
struct Numeral<'t> {
    /// The number.
    number: Fraction,
    /// The rest.
    rest: &'t [u8],
}

/// Whether the byte is a digit.
fn is_digit(byte: u8) -> bool
    ensures { result ≡ is_digit_of byte }
{
    matches!(byte, b'0'..=b'9')
}

/// Whether a digit is next.
fn starts_digit(bytes: &[u8]) -> bool
    ensures { result ≡ starts_by is_digit_of bytes.now }
{
    match bytes {
        [] => false,
        [byte, ..] => is_digit(*byte),
    }
}

/// Reads digits after a number so far.
fn read_digits(so_far: u64, bytes: &[u8]) -> Option<Number<'_>>
    requires { so_far ≤ 1000000000000000000 }
    ensures read { digits_from so_far 1 bytes.now
        ≡ option_map (λ it. ((it.digits, it.scale), it.rest.now)) result }
    ensures small { IfSome result (λ it. (it.digits ≤ 1000000000000000000)
        × (it.scale ≤ 1000000000000000000)) }
{
    let mut digits = so_far;
    let mut scale = 1u64;
    let mut rest = bytes;
    'digits: while let [byte, after @ ..] = rest {
        if !is_digit(*byte) {
            return Some(Number {
                digits,
                scale,
                rest,
            });
        }
        if digits > 99999999999999999 || scale > 99999999999999999 {
            return None;
        }
        digits = 10 * digits + u64::from(*byte - 48);
        scale *= 10;
        rest = after;
    }
    Some(Number {
        digits,
        scale,
        rest,
    })
}

/// Whether a point and a digit are next.
fn begins_fraction(bytes: &[u8]) -> bool
    ensures { result ≡ begins_fraction_of bytes.now }
{
    starts_with(bytes, b'.') && starts_digit(past_one(bytes))
}

/// Reads a number without a sign or an exponent.
pub fn read_number(bytes: &[u8]) -> Option<Number<'_>>
    ensures read { number_of bytes.now
        ≡ option_map (λ it. ((it.digits, it.scale), it.rest.now)) result }
    ensures small { IfSome result (λ it. (it.digits ≤ 1000000000000000000)
        × (it.scale ≤ 1000000000000000000)) }
{
    if !starts_digit(bytes) && !begins_fraction(bytes) {
        return None;
    }
    match read_digits(0, bytes) {
        None => None,
        Some(whole) => {
            if begins_fraction(whole.rest) {
                read_digits(whole.digits, past_one(whole.rest))
            } else {
                Some(Number {
                    digits: whole.digits,
                    scale: 1,
                    rest: whole.rest,
                })
            }
        }
    }
}

/// Returns the rest after a sign, if one is next.
pub fn past_sign(bytes: &[u8]) -> &[u8]
    ensures { result.now ≡ past_sign_of bytes.now }
{
    if starts_with(bytes, b'-') || starts_with(bytes, b'+') {
        past_one(bytes)
    } else {
        bytes
    }
}

/// Whether an exponent is next.
fn begins_exponent(bytes: &[u8]) -> bool
    ensures { result ≡ begins_exponent_of bytes.now }
{
    (starts_with(bytes, b'e') || starts_with(bytes, b'E'))
        && starts_digit(past_sign(past_one(bytes)))
}

/// Returns a power of ten.
#[tactic(auto, using(crate::proofs::Products::ten_fits, crate::proofs::Products::ten_small))]
fn power_of_ten(exponent: u64) -> u128
    requires { exponent ≤ 18 }
    ensures value { result ≡ 10 ^ exponent }
    ensures small { result ≤ 1000000000000000000 }
{
    10u128.pow(exponent as u32)
}

/// Puts zeros after a number, or takes them away.
#[tactic(auto, using(crate::proofs::Products::zeros_fit))]
fn raised(digits: u64, scale: u64, exponent: u64, negative: bool) -> Fraction
    requires digits { digits ≤ 1000000000000000000 }
    requires scale { scale ≤ 1000000000000000000 }
    requires exponent { exponent ≤ 18 }
    ensures num { result.num ≡ (if negative then digits else digits * 10 ^ exponent) }
    ensures den { result.den ≡ (if negative then scale * 10 ^ exponent else scale) }
{
    let zeros = power_of_ten(exponent);
    if negative {
        Fraction {
            num: u128::from(digits),
            den: u128::from(scale) * zeros,
        }
    } else {
        Fraction {
            num: u128::from(digits) * zeros,
            den: u128::from(scale),
        }
    }
}

/// Reads a number without a sign.
fn read_raised(bytes: &[u8]) -> Option<Numeral<'_>>
    ensures { with_exponent (number_of bytes.now)
        ≡ option_map (λ it. ((it.number.num, it.number.den), it.rest.now)) result }
{
    let Some(number) = read_number(bytes) else {
        return None;
    };
    if !begins_exponent(number.rest) {
        return Some(Numeral {
            number: Fraction {
                num: u128::from(number.digits),
                den: u128::from(number.scale),
            },
            rest: number.rest,
        });
    }
    let sign = past_one(number.rest);
    match read_digits(0, past_sign(sign)) {
        Some(exponent) if exponent.digits <= 18 => Some(Numeral {
            number: raised(
                number.digits,
                number.scale,
                exponent.digits,
                starts_with(sign, b'-'),
            ),
            rest: exponent.rest,
        }),
        _ => None,
    }
}

/// Finds the unit of length of this name.
fn length_unit(name: &[u8]) -> Option<Fraction>
    ensures { length_unit_of name.now ≡ option_map (λ it. (it.num, it.den)) result }
{
    let (num, den) = if spells(b"px", name) {
        (1, 1)
    } else if spells(b"em", name)
        || spells(b"rem", name)
        || spells(b"pc", name)
        || spells(b"ic", name)
    {
        (16, 1)
    } else if spells(b"ex", name) || spells(b"ch", name) {
        (8, 1)
    } else if spells(b"in", name) {
        (96, 1)
    } else if spells(b"cm", name) {
        (4800, 127)
    } else if spells(b"mm", name) {
        (480, 127)
    } else if spells(b"q", name) {
        (120, 127)
    } else if spells(b"pt", name) {
        (4, 3)
    } else {
        return None;
    };
    Some(Fraction { num, den })
}

impl View {
    /// Finds the unit of this name.
    fn unit(self, name: &[u8]) -> Option<Fraction>
        ensures { view_unit_of self name.now ≡ option_map (λ it. (it.num, it.den)) result }
    {
        let pixels = if spells(b"vw", name) || spells(b"vi", name) {
            self.width
        } else if spells(b"vh", name) || spells(b"vb", name) {
            self.height
        } else if spells(b"vmin", name) {
            lesser(self.width, self.height)
        } else if spells(b"vmax", name) {
            greater(self.width, self.height)
        } else {
            return None;
        };
        Some(Fraction {
            num: u128::from(pixels),
            den: 100,
        })
    }
}

/// Returns the lesser one.
fn lesser(one: u32, other: u32) -> u32
    ensures { result ≡ lesser_of one other }
{
    if one <= other { one } else { other }
}

/// Returns the greater one.
fn greater(one: u32, other: u32) -> u32
    ensures { result ≡ greater_of one other }
{
    if one <= other { other } else { one }
}

/// Finds the unit of resolution of this name.
fn resolution_unit(name: &[u8]) -> Option<Fraction>
    ensures { resolution_unit_of name.now ≡ option_map (λ it. (it.num, it.den)) result }
{
    let (num, den) = if spells(b"dppx", name) || spells(b"x", name) {
        (1000, 1)
    } else if spells(b"dpi", name) {
        (125, 12)
    } else if spells(b"dpcm", name) {
        (635, 24)
    } else {
        return None;
    };
    Some(Fraction { num, den })
}

/// Returns a number in a unit.
pub fn in_unit(number: Fraction, kind: Kind, unit: Fraction) -> Option<Amount>
    ensures { result ≡ in_unit_of (number.num, number.den) kind (unit.num, unit.den) }
{
    fitted(
        kind,
        cross(number.num, unit.num, 0, 0),
        Some(0),
        cross(number.den, unit.den, 0, 0),
    )
}

/// Returns a number in the unit of this name, or without one.
fn with_unit(view: View, number: Fraction, name: &[u8]) -> Option<Amount>
    ensures { result ≡ with_unit_of view (number.num, number.den) name.now }
{
    if is_end(name) {
        return in_unit(number, Kind::Number, Fraction { num: 1, den: 1 });
    }
    if let Some(unit) = length_unit(name) {
        return in_unit(number, Kind::Length, unit);
    }
    if let Some(unit) = view.unit(name) {
        return in_unit(number, Kind::Length, unit);
    }
    match resolution_unit(name) {
        None => None,
        Some(unit) => in_unit(number, Kind::Resolution, unit),
    }
}

/// Returns an amount below zero, if that is said.
pub fn signed(negative: bool, amount: Option<Amount>) -> Option<Amount>
    ensures { result ≡ signed_of negative amount }
{
    match amount {
        None => None,
        Some(it) => Some(if negative { it.negated() } else { it }),
    }
}

/// Reads a number, a length or a resolution.
pub fn read_dimension(view: View, bytes: &[u8]) -> Option<Found<'_>>
    ensures { dimension_of view bytes.now ≡ option_map (λ it. (it.amount, it.rest.now)) result }
{
    let Some(read) = read_raised(past_sign(bytes)) else {
        return None;
    };
    let rest = past_word(read.rest);
    let amount = with_unit(view, read.number, before(read.rest, rest));
    match signed(starts_with(bytes, b'-'), amount) {
        None => None,
        Some(amount) => Some(Found { amount, rest }),
    }
}
