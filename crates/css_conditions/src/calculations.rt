//! Calculations of constants: `calc()`.
ghost use Rattle.std.specs.Prelude.{◌≡◌, option_map, codes, ◌||◌, ◌&&◌, true};
ghost use Rattle.css_text.specs.Bytes.{starts_by};
ghost use Rattle.css_text.specs.Characters.{is_space as is_space_of};
ghost use Rattle.css_conditions.specs.Calculations.{is_parted as is_parted_of, factor_sign as factor_sign_of};
ghost use Rattle.css_conditions.specs.Calculations.{before_factor, before_term as before_term_of, term_sign as term_sign_of};
ghost use Rattle.css_conditions.specs.Calculations.{factors as factors_of, terms as terms_of, operand as operand_of};
ghost use Rattle.css_conditions.specs.Calculations.{opened as opened_of, begins_calculation as begins_of, enclosed as enclosed_of};

use crate::amounts::Step;
use crate::quantities::{Found, View, read_dimension};
use crate::words::{before, begins_function, ends_parens, starts_with};
use css_syntax::tokens::{gap_part, past_gap, past_one, past_word, spells};
use css_text::scan::is_space;

/// A sign between amounts, and the rest.
#[derive(Clone, Copy)]
struct Sign<'t> {
    /// What it says.
    step: Step,
    /// The rest.
    rest: &'t [u8],
}

/// Whether a space is next.
fn starts_space(bytes: &[u8]) -> bool
    ensures { result ≡ starts_by is_space_of bytes.now }
{
    match bytes {
        [] => false,
        [byte, ..] => is_space(*byte),
    }
}

/// Whether a space is next, after any comments.
#[tactic(auto, unfolding(crate::specs::Calculations::is_parted), using(crate::proofs::Steps::parted_here, crate::proofs::Steps::parted_step))]
fn is_parted(bytes: &[u8]) -> bool
    ensures { result ≡ is_parted_of bytes.now }
{
    let mut rest = bytes;
    let mut left = bytes.len();
    'comments: while left > 0 {
        if starts_space(rest) {
            return true;
        }
        match gap_part(rest) {
            None => return false,
            Some(after) => rest = after,
        }
        left -= 1;
    }
    false
}

/// Reads `*` or `/`.
fn factor_sign(bytes: &[u8]) -> Option<Sign<'_>>
    ensures { factor_sign_of bytes.now ≡ option_map (λ sign. (sign.step, sign.rest.now)) result }
{
    match bytes {
        [b'*', rest @ ..] => Some(Sign {
            step: Step::Multiply,
            rest,
        }),
        [b'/', rest @ ..] => Some(Sign {
            step: Step::Divide,
            rest,
        }),
        _ => None,
    }
}

/// Reads `+` or `-` with a space after it.
fn term_sign(bytes: &[u8]) -> Option<Sign<'_>>
    ensures { term_sign_of bytes.now ≡ option_map (λ sign. (sign.step, sign.rest.now)) result }
{
    let (step, rest) = match bytes {
        [b'+', rest @ ..] => (Step::Add, rest),
        [b'-', rest @ ..] => (Step::Subtract, rest),
        _ => return None,
    };
    if is_parted(rest) {
        Some(Sign { step, rest })
    } else {
        None
    }
}

/// Reads a sign between terms, which has spaces on both sides.
fn before_term(bytes: &[u8]) -> Option<Sign<'_>>
    ensures { before_term_of bytes.now ≡ option_map (λ sign. (sign.step, sign.rest.now)) result }
{
    if is_parted(bytes) {
        term_sign(past_gap(bytes))
    } else {
        None
    }
}

/// Whether a calculation begins here.
fn begins_calculation(bytes: &[u8]) -> bool
    ensures { result ≡ begins_of bytes.now }
{
    if !begins_function(bytes) {
        return false;
    }
    let name = before(bytes, past_word(bytes));
    spells(b"calc", name) || spells(b"-webkit-calc", name)
}

/// Reads the parenthesis with which a calculation begins.
fn read_opening(bytes: &[u8]) -> Option<&[u8]>
    ensures { opened_of bytes.now ≡ option_map (λ rest. rest.now) result }
{
    if starts_with(bytes, b'(') {
        return Some(past_one(bytes));
    }
    if begins_calculation(bytes) {
        return Some(past_one(past_word(bytes)));
    }
    None
}

/// Ends parentheses.
fn close(found: Option<Found<'_>>) -> Option<Found<'_>>
    ensures { enclosed_of (option_map (λ it. (it.amount, it.rest.now)) found.entry)
        ≡ option_map (λ it. (it.amount, it.rest.now)) result }
{
    let Some(found) = found else {
        return None;
    };
    let rest = past_gap(found.rest);
    if !ends_parens(rest) {
        return None;
    }
    Some(Found {
        amount: found.amount,
        rest: past_one(rest),
    })
}

/// Reads what is in parentheses, nested at most this deep, or an amount without any.
#[cycle(calculations)]
#[tactic(auto, using(crate::proofs::Steps::operand_deep, crate::proofs::Steps::operand_open, crate::proofs::Steps::operand_bare))]
pub fn read_operand(view: View, depth: usize, bytes: &[u8]) -> Option<Found<'_>>
    ensures { operand_of view depth bytes.now ≡ option_map (λ it. (it.amount, it.rest.now)) result }
{
    if depth == 0 {
        return None;
    }
    let inner = depth - 1;
    match read_opening(bytes) {
        None => read_dimension(view, bytes),
        Some(inside) => close(read_terms(view, inner, past_gap(inside))),
    }
}

/// Reads a product.
#[cycle(calculations)]
#[tactic(auto, unfolding(crate::specs::Calculations::more, crate::specs::Calculations::factors), using(crate::proofs::Steps::amounts_step, crate::proofs::Steps::amounts_stop, crate::proofs::Steps::amounts_unread, crate::proofs::Steps::amounts_lost))]
fn read_factors(view: View, depth: usize, bytes: &[u8]) -> Option<Found<'_>>
    ensures { factors_of (operand_of view depth) bytes.now
        ≡ option_map (λ it. (it.amount, it.rest.now)) result }
{
    let Some(first) = read_operand(view, depth, bytes) else {
        return None;
    };
    let mut found = first;
    let mut left = first.rest.len();
    'factors: while left > 0 {
        let Some(sign) = factor_sign(past_gap(found.rest)) else {
            return Some(found);
        };
        let Some(next) = read_operand(view, depth, past_gap(sign.rest)) else {
            return None;
        };
        let Some(amount) = found.amount.step(sign.step, next.amount) else {
            return None;
        };
        found = Found {
            amount,
            rest: next.rest,
        };
        left -= 1;
    }
    Some(found)
}

/// Reads a sum of products.
#[cycle(calculations)]
#[tactic(auto, unfolding(crate::specs::Calculations::more, crate::specs::Calculations::terms), using(crate::proofs::Steps::amounts_step, crate::proofs::Steps::amounts_stop, crate::proofs::Steps::amounts_unread, crate::proofs::Steps::amounts_lost))]
fn read_terms(view: View, depth: usize, bytes: &[u8]) -> Option<Found<'_>>
    ensures { terms_of (operand_of view depth) bytes.now
        ≡ option_map (λ it. (it.amount, it.rest.now)) result }
{
    let Some(first) = read_factors(view, depth, bytes) else {
        return None;
    };
    let mut found = first;
    let mut left = first.rest.len();
    'terms: while left > 0 {
        let Some(sign) = before_term(found.rest) else {
            return Some(found);
        };
        let Some(next) = read_factors(view, depth, past_gap(sign.rest)) else {
            return None;
        };
        let Some(amount) = found.amount.step(sign.step, next.amount) else {
            return None;
        };
        found = Found {
            amount,
            rest: next.rest,
        };
        left -= 1;
    }
    Some(found)
}
