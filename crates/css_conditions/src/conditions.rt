//! Conditions: what is in parentheses, and `not`, `and` and `or`.
ghost use Rattle.std.specs.Prelude.{◌≡◌, ◌≤◌, true, [], ◌∷◌, MatchResult};
ghost use Rattle.css_conditions.specs.Conditions.{closed, closed_at, function_at as function_of};
ghost use Rattle.css_conditions.specs.Conditions.{in_parens as in_parens_of, inside_by, condition_by};
ghost use Rattle.css_conditions.specs.Conditions.{begins_condition as begins_condition_of};
ghost use Rattle.css_conditions.specs.Conditions.{more as more_of, or_else, with_more};
ghost use Rattle.css_conditions.specs.Conditions.{condition as condition_of, begins_sign as begins_sign_of};
ghost use Rattle.css_conditions.specs.Conditions.{begins_value as begins_value_of};
ghost use Rattle.css_conditions.specs.Choices.{join_of, word_of};

use crate::answers::{Asked, Read, broken, unfit};
use crate::truth::{Join, Outcome, Truth, join_outcomes, reversed, word};
use crate::words::{
    Stop, before, begins_function, begins_parens, ends_parens, read_values, starts_with,
    take_keyword,
};
use css_syntax::component_values::read_component_value;
use css_syntax::quality::is_good;
use css_syntax::tokens::{past_gap, past_one, past_word};
use std::alloc::AllocError;

/// What was read in parentheses that end after it.
fn or_enclosed(enclosed: Truth, outcome: Outcome) -> Outcome
    ensures { result ≡ or_else enclosed outcome }
{
    match outcome {
        Outcome::Found(truth) => Outcome::Found(truth),
        Outcome::Unfit => Outcome::Found(enclosed),
        Outcome::Broken => Outcome::Broken,
    }
}

/// What was read in parentheses with more after it.
fn enclosed_with_more(enclosed: Truth, outcome: Outcome) -> Outcome
    ensures { result ≡ with_more enclosed outcome }
{
    match outcome {
        Outcome::Broken => Outcome::Broken,
        _ => Outcome::Found(enclosed),
    }
}

/// Ends parentheses.
fn close(enclosed: Truth, read: Outcome, bytes: &[u8]) -> Read<'_>
    ensures { closed enclosed (read, bytes.now) ≡ (result.outcome, result.rest.now) }
{
    let rest = past_gap(bytes);
    if ends_parens(rest) {
        return Read {
            outcome: or_enclosed(enclosed, read),
            rest: past_one(rest),
        };
    }
    let skipped = read_values(Stop::Parenthesis, rest);
    let outcome = if is_good(skipped.quality) {
        enclosed_with_more(enclosed, read)
    } else {
        Outcome::Broken
    };
    Read {
        outcome,
        rest: past_one(skipped.rest),
    }
}

/// Reads a function.
fn read_function<'t, A: Asked>(asked: &A, bytes: &'t [u8]) -> Result<Read<'t>, AllocError>
    ensures { MatchResult result
        (λ read. function_of (A.function asked.now) bytes.now ≡ (read.outcome, read.rest.now))
        (λ _. A.may_fail asked.now ≡ true) }
{
    let after = past_word(bytes);
    let inside = past_one(after);
    let arguments = read_values(Stop::Parenthesis, inside);
    let rest = past_one(arguments.rest);
    if !is_good(arguments.quality) {
        return Ok(broken(rest));
    }
    let truth = asked.function(before(bytes, after), before(inside, arguments.rest))?;
    Ok(Read {
        outcome: Outcome::Found(truth),
        rest,
    })
}

/// Whether a condition begins here.
pub fn begins_condition(bytes: &[u8]) -> bool
    ensures { result ≡ begins_condition_of bytes.now }
{
    if begins_parens(bytes) {
        return true;
    }
    match take_keyword(bytes, b"not") {
        None => false,
        Some(rest) => begins_parens(past_gap(rest)),
    }
}

/// Whether a sign of comparison or a slash is next, with which no condition goes on.
fn begins_sign(bytes: &[u8]) -> bool
    ensures { result ≡ begins_sign_of bytes.now }
{
    match bytes {
        [] => false,
        [byte, ..] => matches!(byte, b'<' | b'=' | b'>' | b'/'),
    }
}

/// Whether a function begins here that is a value: a sign follows.
fn begins_value(bytes: &[u8]) -> bool
    ensures { result ≡ begins_value_of bytes.now }
{
    if !begins_function(bytes) {
        return false;
    }
    let arguments = read_values(Stop::Parenthesis, past_one(past_word(bytes)));
    begins_sign(past_gap(past_one(arguments.rest)))
}

/// Reads what is in parentheses, or a function.
#[cycle(conditions)]
#[tactic(auto, unfolding(crate::specs::Conditions::in_parens), using(crate::proofs::Steps::parens_open, crate::proofs::Steps::parens_function, crate::proofs::Steps::parens_unfit, crate::proofs::Steps::parens_deep))]
fn in_parens<'t, A: Asked>(asked: &A, bytes: &'t [u8], depth: usize) -> Result<Read<'t>, AllocError>
    ensures { MatchResult result
        (λ read. in_parens_of (A.enclosed asked.now) (A.function asked.now) (A.leaf asked.now) depth
        bytes.now ≡ (read.outcome, read.rest.now))
        (λ _. A.may_fail asked.now ≡ true) }
{
    if depth == 0 {
        return Ok(broken(read_component_value(bytes).rest));
    }
    if starts_with(bytes, b'(') {
        let read = inside(asked, past_gap(past_one(bytes)), depth - 1)?;
        return Ok(close(asked.enclosed(), read.outcome, read.rest));
    }
    if begins_function(bytes) {
        return read_function(asked, bytes);
    }
    Ok(unfit(bytes))
}

/// Reads what is between parentheses.
#[cycle(conditions)]
fn inside<'t, A: Asked>(asked: &A, bytes: &'t [u8], depth: usize) -> Result<Read<'t>, AllocError>
    ensures { MatchResult result
        (λ read. inside_by (in_parens_of (A.enclosed asked.now) (A.function asked.now)
        (A.leaf asked.now) depth) (A.leaf asked.now) bytes.now ≡ (read.outcome, read.rest.now))
        (λ _. A.may_fail asked.now ≡ true) }
{
    if begins_condition(bytes) && !begins_value(bytes) {
        read_condition(asked, true, bytes, depth)
    } else {
        Ok(asked.leaf(bytes))
    }
}

/// Reads a condition.
#[cycle(conditions)]
fn read_condition<'t, A: Asked>(
    asked: &A,
    with_or: bool,
    bytes: &'t [u8],
    depth: usize,
) -> Result<Read<'t>, AllocError>
    ensures { MatchResult result
        (λ read. condition_by with_or (in_parens_of (A.enclosed asked.now) (A.function asked.now)
        (A.leaf asked.now) depth) bytes.now ≡ (read.outcome, read.rest.now))
        (λ _. A.may_fail asked.now ≡ true) }
{
    match take_keyword(bytes, b"not") {
        Some(after) => {
            let one = in_parens(asked, past_gap(after), depth)?;
            Ok(Read {
                outcome: reversed(one.outcome),
                rest: one.rest,
            })
        }
        None => {
            let first = in_parens(asked, bytes, depth)?;
            if with_or && take_keyword(past_gap(first.rest), b"or").is_some() {
                more(asked, Join::Or, first.outcome, first.rest, depth)
            } else {
                more(asked, Join::And, first.outcome, first.rest, depth)
            }
        }
    }
}

/// Reads what is joined to the first.
#[cycle(conditions)]
#[tactic(auto, unfolding(crate::specs::Conditions::more), using(crate::proofs::Steps::more_step, crate::proofs::Steps::more_stop))]
fn more<'t, A: Asked>(
    asked: &A,
    join: Join,
    first: Outcome,
    bytes: &'t [u8],
    depth: usize,
) -> Result<Read<'t>, AllocError>
    ensures { MatchResult result
        (λ read. more_of (join_of join) (word_of join) (in_parens_of (A.enclosed asked.now)
        (A.function asked.now) (A.leaf asked.now) depth) (first, bytes.now)
        ≡ (read.outcome, read.rest.now))
        (λ _. A.may_fail asked.now ≡ true) }
{
    let mut outcome = first;
    let mut rest = bytes;
    let mut left = bytes.len();
    'parts: while left > 0 {
        match take_keyword(past_gap(rest), word(join)) {
            None => return Ok(Read { outcome, rest }),
            Some(after) => {
                let one = in_parens(asked, past_gap(after), depth)?;
                outcome = join_outcomes(join, outcome, one.outcome);
                rest = one.rest;
            }
        }
        left -= 1;
    }
    Ok(Read { outcome, rest })
}

/// Reads a condition, with brackets at most 64 deep.
pub fn condition<'t, A: Asked>(
    asked: &A,
    with_or: bool,
    bytes: &'t [u8],
) -> Result<Read<'t>, AllocError>
    ensures { MatchResult result
        (λ read. condition_of with_or (A.enclosed asked.now) (A.function asked.now)
        (A.leaf asked.now) bytes.now ≡ (read.outcome, read.rest.now))
        (λ _. A.may_fail asked.now ≡ true) }
{
    read_condition(asked, with_or, bytes, 64)
}
