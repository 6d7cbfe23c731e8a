//! The decimal digits of numbers.
ghost use Rattle.std.specs.Prelude.{◌≡◌, ◌+◌, ◌/◌, ◌%◌, ◌<◌, ◌≤◌, ◌++◌, ◌∷◌, [], OnOk, string_bytes, decimal};

use std::alloc::AllocError;
use std::fmt::Write as _;

/// Adds a digit.
#[inline(always)]
fn push_digit(out: &mut String, digit: usize) -> Result<(), AllocError>
    requires { digit < 10 }
    ensures { OnOk result (string_bytes out.new ≡ string_bytes out.old ++ (48 + digit) ∷ []) }
{
    out.push(char::from(b'0' + digit as u8))
}

/// Adds both digits of a number below 100.
#[inline(always)]
fn push_pair(out: &mut String, number: usize) -> Result<(), AllocError>
    requires { number < 100 }
    ensures { OnOk result (string_bytes out.new
        ≡ string_bytes out.old ++ (48 + number / 10) ∷ (48 + number % 10) ∷ []) }
{
    push_digit(out, number / 10)?;
    push_digit(out, number % 10)
}

/// Adds a number below 100.
#[inline(always)]
fn push_short(out: &mut String, number: usize) -> Result<(), AllocError>
    requires { number < 100 }
    ensures { OnOk result (string_bytes out.new ≡ string_bytes out.old ++ decimal number) }
{
    if number < 10 {
        return push_digit(out, number);
    }
    push_pair(out, number)
}

/// Adds a number below 10,000.
#[inline(always)]
fn push_middle(out: &mut String, number: usize) -> Result<(), AllocError>
    requires { number < 10000 }
    ensures { OnOk result (string_bytes out.new ≡ string_bytes out.old ++ decimal number) }
{
    if number < 100 {
        return push_short(out, number);
    }
    push_short(out, number / 100)?;
    push_pair(out, number % 100)
}

/// Adds a number of more than four digits. Up to eight are written here.
fn push_long(out: &mut String, number: usize) -> Result<(), AllocError>
    requires { 10000 ≤ number }
    ensures { OnOk result (string_bytes out.new ≡ string_bytes out.old ++ decimal number) }
{
    if number >= 100_000_000 {
        write!(out, "{number}")?;
        return Ok(());
    }
    let others = number % 10_000;
    push_middle(out, number / 10_000)?;
    push_pair(out, others / 100)?;
    push_pair(out, others % 100)
}

/// Adds the digits of a number. A formatter would take several times as long.
pub(crate) fn push_number(out: &mut String, number: usize) -> Result<(), AllocError>
    ensures { OnOk result (string_bytes out.new ≡ string_bytes out.old ++ decimal number) }
{
    if number < 10_000 {
        push_middle(out, number)
    } else {
        push_long(out, number)
    }
}
