//! Selectors whose escapes are written anew.
ghost use Rattle.std.specs.Prelude.{◌≡◌, ◌++◌, IfOk, OnOk};
ghost use Rattle.css_clean.specs.Escaping.{hex_digit as hex_digit_of, escape_anew, escaped_anew as escaped_anew_of};

use crate::selectors::is_escapable;
use css_syntax::tokens::is_newline;
use std::alloc::{AllocError, Global};

/// Returns the last hexadecimal digit of a number.
fn hex_digit(number: u8) -> u8
    ensures { result ≡ hex_digit_of number }
{
    let digit = number % 16;
    if digit < 10 { 48 + digit } else { 87 + digit }
}

/// Appends what a backslash and a byte after it are written as: an escape by number, where a selector may not have them.
fn push_escape(out: &mut Vec<u8>, byte: u8) -> Result<(), AllocError>
    ensures { OnOk result (out.new.items ≡ out.old.items ++ escape_anew byte) }
{
    if is_escapable(byte) || is_newline(byte) {
        out.extend_from_slice(&[b'\\', byte])
    } else if byte < 128 {
        out.extend_from_slice(&[b'\\', hex_digit(byte / 16), hex_digit(byte), b' '])
    } else {
        out.extend_from_slice(&[byte])
    }
}

/// Returns a selector with each escape so.
pub(crate) fn escaped_anew(alloc: Global, text: &[u8]) -> Result<Vec<u8>, AllocError>
    ensures { IfOk result (λ out. out.items ≡ escaped_anew_of text.now) }
{
    let mut out = Vec::new(alloc);
    let mut rest = text;
    'bytes: while let [byte, after @ ..] = rest {
        match after {
            [next, more @ ..] if *byte == b'\\' => {
                push_escape(&mut out, *next)?;
                rest = more;
            }
            _ => {
                out.push(*byte)?;
                rest = after;
            }
        }
    }
    Ok(out)
}
