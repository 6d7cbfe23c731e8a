//! Reads `An+B`.
ghost use Rattle.std.specs.Prelude.{◌≡◌, ◌∷◌, true, false, IfNone, IfSome, MatchOption};
ghost use Rattle.css_text.specs.Bytes.{starts_by, past_one, is_digit as is_digit_byte};
ghost use Rattle.css_selector_text.specs.reading.Grammar.{with_digit as with_digit_of, digits as digits_of, sign as sign_of, is_sign as is_sign_byte, is_n as is_n_byte};
ghost use Rattle.css_selector_text.specs.reading.Grammar.{offset_after, with_offset, subtracted, by_tail, n_word, odd_or_even as odd_or_even_of};
ghost use Rattle.css_selector_text.specs.reading.Grammar.{word_progression, numbered, is_lone_plus, progression};
ghost use Rattle.css_selector_text.specs.internal.Reads.{reading_of, Reads};
ghost use Rattle.css_selector_text.specs.Views.{signed_of, progression_of};

use crate::components::{Progression, Signed};
use crate::reading::texts::split_ascii;
use crate::reading::words::{begins_name, past_comments, read_gap, read_ident_sequence, read_name};
use crate::refusal::{Refusal, Why};
use std::alloc::Global;

/// Returns the number with a digit more, up to the greatest number.
fn with_digit(so_far: u32, byte: u8) -> u32
    requires { is_digit_byte byte ≡ true }
    ensures { result ≡ with_digit_of so_far byte }
{
    let more = 10 * u64::from(so_far) + u64::from(byte - b'0');
    more.min(4_294_967_295) as u32
}

/// Returns the digit that is next and the rest after it, if one is.
fn take_digit(text: &str) -> Option<(u8, &str)>
    ensures { MatchOption result (starts_by is_digit_byte text.now ≡ false)
        (λ it. (text.now ≡ it.0 ∷ it.1.now) × (is_digit_byte it.0 ≡ true)) }
{
    match split_ascii(text) {
        Some((byte, rest)) if byte.is_ascii_digit() => Some((byte, rest)),
        _ => None,
    }
}

/// Returns the number of the digits at the start, up to the greatest number, and the rest after them.
fn read_digits(text: &str) -> (u32, &str)
    ensures number { result.0 ≡ (digits_of 0 text.now).0 }
    ensures rest { result.1.now ≡ (digits_of 0 text.now).1 }
{
    let mut rest = text;
    let mut so_far = 0u32;
    'digits: while let Some((byte, after)) = take_digit(rest) {
        so_far = with_digit(so_far, byte);
        rest = after;
    }
    (so_far, rest)
}

/// Whether a digit is next.
fn begins_digits(text: &str) -> bool
    ensures { result ≡ starts_by is_digit_byte text.now }
{
    matches!(text.as_bytes(), [b'0'..=b'9', ..])
}

/// Whether a sign is next.
fn begins_sign(text: &str) -> bool
    ensures { result ≡ starts_by is_sign_byte text.now }
{
    matches!(text.as_bytes(), [b'-' | b'+', ..])
}

/// Returns whether a minus is next, and the rest after the sign that is next.
fn read_sign(text: &str) -> (bool, &str)
    ensures negative { result.0 ≡ (sign_of text.now).0 }
    ensures rest { result.1.now ≡ (sign_of text.now).1 }
{
    match split_ascii(text) {
        Some((b'-', rest)) => (true, rest),
        Some((b'+', rest)) => (false, rest),
        _ => (false, text),
    }
}

/// Returns the rest after an `n`, if one is next.
fn take_n(text: &str) -> Option<&str>
    ensures none { IfNone result (starts_by is_n_byte text.now ≡ false) }
    ensures some { IfSome result (λ rest. (starts_by is_n_byte text.now ≡ true) × (rest.now ≡ past_one text.now)) }
{
    match split_ascii(text) {
        Some((b'n' | b'N', rest)) => Some(rest),
        _ => None,
    }
}

/// Reads the digits of an offset, after its sign.
fn read_offset<'a>(
    step: Signed,
    is_negative: bool,
    text: &'a str,
) -> Result<(Progression, &'a str), Refusal<'a>>
    ensures { reading_of progression_of result ≡ offset_after (signed_of step) is_negative text.now }
{
    if !begins_digits(text) {
        return Err(Refusal::new(Why::NoProgression, text));
    }
    let (size, rest) = read_digits(text);
    if begins_name(rest) {
        return Err(Refusal::new(Why::NoProgression, text));
    }
    let offset = Signed { is_negative, size };
    Ok((Progression { step, offset }, rest))
}

/// Reads what follows an `n`.
#[tactic(auto, unfolding(crate::specs::reading::Grammar::with_offset, crate::specs::reading::Grammar::offset_or_none))]
fn read_after_n<'a>(step: Signed, text: &'a str) -> Result<(Progression, &'a str), Refusal<'a>>
    ensures { reading_of progression_of result ≡ with_offset (signed_of step) text.now }
{
    let (_, rest) = read_gap(text);
    if !begins_sign(rest) {
        let offset = Signed {
            is_negative: false,
            size: 0,
        };
        return Ok((Progression { step, offset }, rest));
    }
    let (is_negative, rest) = read_sign(rest);
    let (_, rest) = read_gap(rest);
    read_offset(step, is_negative, rest)
}

/// Reads the offset that is subtracted, after the hyphen of a word. `start` is the text from `An+B` on.
#[tactic(auto, unfolding(crate::specs::reading::Grammar::subtracted))]
fn read_subtracted<'a>(
    start: &'a str,
    step: Signed,
    number: &str,
    rest: &'a str,
) -> Result<(Progression, &'a str), Refusal<'a>>
    ensures { reading_of progression_of result
        ≡ subtracted start.now (signed_of step) number.now rest.now }
{
    if number.is_empty() {
        let (_, rest) = read_gap(rest);
        return read_offset(step, true, rest);
    }
    let (size, after) = read_digits(number);
    if !(begins_digits(number) && after.is_empty()) {
        return Err(Refusal::new(Why::NoProgression, start));
    }
    let offset = Signed {
        is_negative: true,
        size,
    };
    Ok((Progression { step, offset }, rest))
}

/// Reads what follows the `n` of a word, which `tail` follows in it.
#[tactic(auto, unfolding(crate::specs::reading::Grammar::by_tail))]
fn read_by_tail<'a>(
    start: &'a str,
    step: Signed,
    tail: &str,
    rest: &'a str,
) -> Result<(Progression, &'a str), Refusal<'a>>
    ensures { reading_of progression_of result
        ≡ by_tail start.now (signed_of step) tail.now rest.now }
{
    if tail.is_empty() {
        return read_after_n(step, rest);
    }
    match split_ascii(tail) {
        Some((b'-', number)) => read_subtracted(start, step, number, rest),
        _ => Err(Refusal::new(Why::NoProgression, start)),
    }
}

/// Reads what follows a word that begins with `n`, after its step.
#[tactic(auto, unfolding(crate::specs::reading::Grammar::n_word))]
fn read_n_word<'a>(
    start: &'a str,
    step: Signed,
    word: &str,
    rest: &'a str,
) -> Result<(Progression, &'a str), Refusal<'a>>
    ensures { reading_of progression_of result
        ≡ n_word start.now (signed_of step) word.now rest.now }
{
    match take_n(word) {
        Some(tail) => read_by_tail(start, step, tail, rest),
        None => Err(Refusal::new(Why::NoProgression, start)),
    }
}

/// Returns the progression of `odd` or `even`.
fn odd_or_even<'a>(
    start: &'a str,
    word: &str,
    rest: &'a str,
) -> Result<(Progression, &'a str), Refusal<'a>>
    ensures { reading_of progression_of result ≡ odd_or_even_of start.now word.now rest.now }
{
    let step = Signed {
        is_negative: false,
        size: 2,
    };
    let size = if word.eq_ignore_ascii_case("odd") {
        1
    } else if word.eq_ignore_ascii_case("even") {
        0
    } else {
        return Err(Refusal::new(Why::NoProgression, start));
    };
    let offset = Signed {
        is_negative: false,
        size,
    };
    Ok((Progression { step, offset }, rest))
}

/// Reads what follows a word without digits before it.
fn read_word<'a>(
    start: &'a str,
    word: &str,
    rest: &'a str,
) -> Result<(Progression, &'a str), Refusal<'a>>
    ensures { reading_of progression_of result ≡ word_progression start.now word.now rest.now }
{
    let mut step = Signed {
        is_negative: false,
        size: 1,
    };
    match split_ascii(word) {
        Some((b'-', after)) => {
            step.is_negative = true;
            read_n_word(start, step, after, rest)
        }
        Some((b'n' | b'N', _)) => read_n_word(start, step, word, rest),
        _ => odd_or_even(start, word, rest),
    }
}

/// Reads what follows the digits of a number: it is the step if its unit follows, and else the offset.
fn read_numbered<'a>(
    alloc: Global,
    start: &'a str,
    number: Signed,
    text: &'a str,
) -> Result<(Progression, &'a str), Refusal<'a>>
    ensures { Reads progression_of result
        (numbered start.now number.is_negative number.size text.now) }
{
    if begins_name(text) {
        let (word, rest) = read_ident_sequence(alloc, text)?;
        return read_n_word(start, number, word.as_str(), rest);
    }
    let step = Signed {
        is_negative: false,
        size: 0,
    };
    let progression = Progression {
        step,
        offset: number,
    };
    Ok((progression, text))
}

/// Returns the rest after a plus that no digit follows, if one is next.
fn take_lone_plus(text: &str) -> Option<&str>
    ensures none { IfNone result (is_lone_plus text.now ≡ false) }
    ensures some { IfSome result
        (λ rest. (is_lone_plus text.now ≡ true) × (rest.now ≡ past_one text.now)) }
{
    match split_ascii(text) {
        Some((b'+', rest)) if !begins_digits(rest) => Some(rest),
        _ => None,
    }
}

/// Reads `An+B`, `odd` or `even`.
#[tactic(auto, unfolding(crate::specs::reading::Grammar::progression))]
pub(crate) fn read_progression<'a>(
    alloc: Global,
    text: &'a str,
) -> Result<(Progression, &'a str), Refusal<'a>>
    ensures { Reads progression_of result (progression text.now) }
{
    if let Some(rest) = take_lone_plus(text) {
        let step = Signed {
            is_negative: false,
            size: 1,
        };
        let (word, rest) = read_name(alloc, past_comments(rest))?;
        return read_n_word(text, step, word.as_str(), rest);
    }
    let (is_negative, unsigned) = read_sign(text);
    if begins_digits(unsigned) {
        let (size, rest) = read_digits(unsigned);
        return read_numbered(alloc, text, Signed { is_negative, size }, rest);
    }
    let (word, rest) = read_name(alloc, text)?;
    read_word(text, word.as_str(), rest)
}
