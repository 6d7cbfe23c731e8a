//! The values of features that are compared, and how a device compares with them.
ghost use Rattle.std.specs.Prelude.{◌≡◌, option_map, ◌||◌, ◌&&◌, true};
ghost use Rattle.css_conditions.specs.Values.{compares as compares_of, amount_at as amount_at_of, lone as lone_of};
ghost use Rattle.css_conditions.specs.Values.{as_length as as_length_of, as_resolution as as_resolution_of};
ghost use Rattle.css_conditions.specs.Values.{as_number as as_number_of, integer as integer_of, as_whole as as_whole_of};
ghost use Rattle.css_conditions.specs.Values.{as_part, quotient as quotient_of, ratio_from, value_of as value_of_text};
ghost use Rattle.css_conditions.specs.Values.{compared_with as compared_with_of, quantity_says as quantity_says_of};

use crate::amounts::{Amount, Kind, cross, fitted};
use crate::calculations::read_operand;
use crate::quantities::{Found, Fraction, View, in_unit, past_sign, read_number, signed};
use crate::truth::{Comparison, Truth, truth_of};
use crate::words::{begins_function, is_end, starts_with};
use css_syntax::tokens::{past_gap, past_one};

/// What is compared.
#[derive(Clone, Copy)]
pub enum Quantity {
    /// A length in pixels.
    Length,
    /// A resolution in thousandths of a dot for each pixel.
    Resolution,
    /// A number.
    Factor,
    /// An integer.
    Whole,
    /// A ratio.
    Ratio,
}

/// What is measured of a device: a number over another.
#[derive(Clone, Copy)]
pub struct Measured {
    /// What it is.
    pub quantity: Quantity,
    /// How much,
    pub number: u32,
    /// over this.
    pub over: u32,
}

/// Compares two numbers.
fn compares(how: Comparison, mine: u128, other: u128) -> bool
    ensures { result ≡ compares_of how mine other }
{
    match how {
        Comparison::Present => true,
        Comparison::Is => mine == other,
        Comparison::Equal => mine == other,
        Comparison::Less => mine < other,
        Comparison::AtMost => mine <= other,
        Comparison::More => other < mine,
        Comparison::AtLeast => other <= mine,
    }
}

/// Reads an amount, which begins with no parenthesis.
fn read_amount(view: View, bytes: &[u8]) -> Option<Found<'_>>
    ensures { amount_at_of view bytes.now ≡ option_map (λ it. (it.amount, it.rest.now)) result }
{
    if starts_with(bytes, b'(') {
        return None;
    }
    read_operand(view, 64, bytes)
}

/// Reads a value that is one amount.
fn lone(view: View, bytes: &[u8]) -> Option<Amount>
    ensures { result ≡ lone_of view bytes.now }
{
    match read_amount(view, bytes) {
        Some(found) if is_end(past_gap(found.rest)) => Some(found.amount),
        _ => None,
    }
}

/// Returns a length. Zero needs no unit.
fn as_length(amount: Option<Amount>) -> Option<Amount>
    ensures { result ≡ as_length_of amount }
{
    match amount {
        Some(it) if matches!(it.kind, Kind::Length) => Some(it),
        Some(it) if it.kind.is_number() && it.plus == it.minus => Some(it),
        _ => None,
    }
}

/// Returns a resolution, which is below zero only where it is computed.
fn as_resolution(computed: bool, amount: Option<Amount>) -> Option<Amount>
    ensures { result ≡ as_resolution_of computed amount }
{
    match amount {
        Some(it) if matches!(it.kind, Kind::Resolution) => {
            if computed || it.minus <= it.plus {
                Some(it)
            } else {
                None
            }
        }
        _ => None,
    }
}

/// Returns a number.
fn as_number(amount: Option<Amount>) -> Option<Amount>
    ensures { result ≡ as_number_of amount }
{
    match amount {
        Some(it) if it.kind.is_number() => Some(it),
        _ => None,
    }
}

/// Returns the nearest whole number.
fn as_whole(amount: Option<Amount>) -> Option<Amount>
    ensures { result ≡ as_whole_of amount }
{
    match amount {
        None => None,
        Some(it) => it.rounded(),
    }
}

/// Reads an integer: digits, or what is computed, rounded.
pub fn integer(view: View, bytes: &[u8]) -> Option<Amount>
    ensures { result ≡ integer_of view bytes.now }
{
    if begins_function(bytes) {
        return as_whole(as_number(lone(view, bytes)));
    }
    match read_number(past_sign(bytes)) {
        Some(number) if number.scale == 1 && is_end(past_gap(number.rest)) => {
            let digits = Fraction {
                num: u128::from(number.digits),
                den: u128::from(number.scale),
            };
            let amount = in_unit(digits, Kind::Number, Fraction { num: 1, den: 1 });
            signed(starts_with(bytes, b'-'), amount)
        }
        _ => None,
    }
}

/// Reads one of the numbers of a ratio, which is not below zero.
fn read_part(view: View, bytes: &[u8]) -> Option<Found<'_>>
    ensures { as_part (amount_at_of view bytes.now)
        ≡ option_map (λ it. (it.amount, it.rest.now)) result }
{
    match read_amount(view, bytes) {
        Some(it) if it.amount.kind.is_number() && it.amount.minus <= it.amount.plus => Some(it),
        _ => None,
    }
}

/// Divides a number by another. What is over zero is infinite.
fn quotient(top: u128, bottom: u128, one: Amount, other: Amount) -> Option<Amount>
    ensures { result ≡ quotient_of top bottom one other }
{
    if top == 0 && bottom == 0 {
        return Some(Amount {
            kind: Kind::Number,
            plus: 1,
            minus: 0,
            over: 0,
        });
    }
    fitted(
        Kind::Number,
        cross(top, other.over, 0, 0),
        Some(0),
        cross(bottom, one.over, 0, 0),
    )
}

/// Reads a ratio: a number, and another after a slash.
fn ratio(view: View, bytes: &[u8]) -> Option<Amount>
    ensures { result ≡ ratio_from view (as_part (amount_at_of view bytes.now)) }
{
    let Some(first) = read_part(view, bytes) else {
        return None;
    };
    let one = first.amount;
    let rest = past_gap(first.rest);
    if is_end(rest) {
        return Some(one);
    }
    if !starts_with(rest, b'/') {
        return None;
    }
    match read_part(view, past_gap(past_one(rest))) {
        Some(second) if is_end(past_gap(second.rest)) => {
            let other = second.amount;
            quotient(
                one.plus.saturating_sub(one.minus),
                other.plus.saturating_sub(other.minus),
                one,
                other,
            )
        }
        _ => None,
    }
}

impl Quantity {
    /// Reads a value.
    fn value(self, view: View, bytes: &[u8]) -> Option<Amount>
        ensures { result ≡ value_of_text view self bytes.now }
    {
        match self {
            Quantity::Length => as_length(lone(view, bytes)),
            Quantity::Resolution => as_resolution(begins_function(bytes), lone(view, bytes)),
            Quantity::Factor => as_number(lone(view, bytes)),
            Quantity::Whole => integer(view, bytes),
            Quantity::Ratio => ratio(view, bytes),
        }
    }
}

/// Compares what is measured with an amount.
fn compared_with(measured: Measured, how: Comparison, amount: Option<Amount>) -> Truth
    ensures { result ≡ compared_with_of measured how amount }
{
    let Some(it) = amount else {
        return Truth::Unknown;
    };
    let over = u128::from(measured.over);
    let mine = cross(u128::from(measured.number), it.over, over, it.minus);
    match (mine, cross(over, it.plus, 0, 0)) {
        (Some(mine), Some(other)) => truth_of(compares(how, mine, other)),
        _ => Truth::Unknown,
    }
}

/// Compares what is measured with a value.
#[tactic(auto, unfolding(crate::specs::Values::quantity_says))]
pub fn quantity_says(view: View, measured: Measured, how: Comparison, value: &[u8]) -> Truth
    ensures { result ≡ quantity_says_of view measured how value.now }
{
    compared_with(measured, how, measured.quantity.value(view, value))
}
