//! Lists of media queries.
ghost use Rattle.std.specs.Prelude.{◌≡◌, true, false};
ghost use Rattle.css_conditions.specs.Media.{feature as feature_of, no_function, media_condition as media_condition_of};
ghost use Rattle.css_conditions.specs.Media.{begins_type as begins_type_of, type_query as type_query_of, query as query_of};
ghost use Rattle.css_conditions.specs.Media.{is_keyword as is_keyword_of, after_not as after_not_of, whole_query as whole_query_of};
ghost use Rattle.css_conditions.specs.Media.{media as media_of, after_only as after_only_of, or_query as or_query_of};
ghost use Rattle.css_conditions.specs.declared.truth.Truth.TheVariants as truths;

use crate::answers::{Asked, Features, Read, unfit};
use crate::conditions::{begins_condition, condition};
use crate::features::feature;
use crate::truth::{
    Join, Outcome, Truth, either, is_true, join_outcomes, reversed, truth_in, truth_of,
};
use crate::words::{
    Stop, before, begins_function, begins_name, ends_run, is_end, read_values, starts_with,
    take_keyword,
};
use css_syntax::tokens::{past_gap, past_one, past_word};
use std::alloc::AllocError;

/// The grammar of media queries.
#[derive(Drop)]
struct Media<'a, F: Features> {
    /// Who knows the medium.
    features: &'a F,
}

impl<'a, F: Features> Asked for Media<'a, F> {
    ghost enclosed = { λ it. truths.Unknown };

    ghost function = { λ it. no_function };

    ghost leaf = { λ it. feature_of (F.says it.features.now) };

    ghost may_fail = { λ it. false };

    fn enclosed(&self) -> Truth {
        Truth::Unknown
    }

    fn function(&self, _name: &[u8], _arguments: &[u8]) -> Result<Truth, AllocError> {
        Ok(Truth::Unknown)
    }

    fn leaf<'t>(&self, bytes: &'t [u8]) -> Read<'t> {
        feature(self.features, bytes)
    }
}

/// Reads a condition of features.
fn media_condition<'t, F: Features>(features: &F, with_or: bool, bytes: &'t [u8]) -> Read<'t>
    ensures { media_condition_of with_or (F.says features.now) bytes.now
        ≡ (result.outcome, result.rest.now) }
{
    match condition(&Media { features }, with_or, bytes) {
        Ok(read) => read,
        Err(_) => unreachable!(),
    }
}

/// Whether the word is next.
fn is_keyword(bytes: &[u8], word: &[u8]) -> bool
    ensures { result ≡ is_keyword_of word.now bytes.now }
{
    take_keyword(bytes, word).is_some()
}

/// Whether the name of a media type begins here.
fn begins_type(bytes: &[u8]) -> bool
    ensures { result ≡ begins_type_of bytes.now }
{
    if !begins_name(bytes) || begins_function(bytes) {
        return false;
    }
    !(is_keyword(bytes, b"not")
        || is_keyword(bytes, b"only")
        || is_keyword(bytes, b"and")
        || is_keyword(bytes, b"or")
        || is_keyword(bytes, b"layer"))
}

/// Reads a media type and the conditions after it.
fn type_query<'t, F: Features>(features: &F, bytes: &'t [u8]) -> Read<'t>
    ensures { type_query_of (F.type_holds features.now) (F.says features.now) bytes.now
        ≡ (result.outcome, result.rest.now) }
{
    if !begins_type(bytes) {
        return unfit(bytes);
    }
    let after = past_word(bytes);
    let first = Outcome::Found(truth_of(features.type_holds(before(bytes, after))));
    match take_keyword(past_gap(after), b"and") {
        None => Read {
            outcome: first,
            rest: after,
        },
        Some(next) => {
            let more = media_condition(features, false, past_gap(next));
            Read {
                outcome: join_outcomes(Join::And, first, more.outcome),
                rest: more.rest,
            }
        }
    }
}

/// Reads a query that begins with a type, or with `only`.
fn only_query<'t, F: Features>(features: &F, bytes: &'t [u8]) -> Read<'t>
    ensures { after_not_of (F.type_holds features.now) (F.says features.now) bytes.now None
        ≡ (result.outcome, result.rest.now) }
{
    match take_keyword(bytes, b"only") {
        None => type_query(features, bytes),
        Some(after) => type_query(features, past_gap(after)),
    }
}

/// Reads a query.
fn query<'t, F: Features>(features: &F, bytes: &'t [u8]) -> Read<'t>
    ensures { query_of (F.type_holds features.now) (F.says features.now) bytes.now
        ≡ (result.outcome, result.rest.now) }
{
    if begins_condition(bytes) {
        return media_condition(features, true, bytes);
    }
    match take_keyword(bytes, b"not") {
        None => only_query(features, bytes),
        Some(after) => {
            let one = type_query(features, past_gap(after));
            Read {
                outcome: reversed(one.outcome),
                rest: one.rest,
            }
        }
    }
}

/// What a query says, and the rest from the comma after it.
#[derive(Clone, Copy)]
struct Queried<'t> {
    /// What it says.
    truth: Truth,
    /// The rest.
    rest: &'t [u8],
}

/// Reads a query up to a comma.
fn whole_query<'t, F: Features>(features: &F, bytes: &'t [u8]) -> Queried<'t>
    ensures { whole_query_of (F.type_holds features.now) (F.says features.now) bytes.now
        ≡ (result.truth, result.rest.now) }
{
    let read = query(features, past_gap(bytes));
    let rest = past_gap(read.rest);
    if ends_run(Stop::Comma, rest) {
        Queried {
            truth: truth_in(read.outcome),
            rest,
        }
    } else {
        Queried {
            truth: Truth::Unknown,
            rest: read_values(Stop::Comma, rest).rest,
        }
    }
}

/// Reads one more query.
fn or_query<'t, F: Features>(features: &F, truth: Truth, bytes: &'t [u8]) -> Queried<'t>
    ensures { or_query_of truth (whole_query_of (F.type_holds features.now) (F.says features.now)
        bytes.now) ≡ (result.truth, result.rest.now) }
{
    let next = whole_query(features, bytes);
    Queried {
        truth: either(truth, next.truth),
        rest: next.rest,
    }
}

/// Returns what a list of media queries says (Media Queries 4, section 3): it holds if one of them does,
/// or if there is none. What is not known counts as false.
#[tactic(auto, unfolding(crate::specs::Media::media), using(crate::proofs::Steps::queries_step, crate::proofs::Steps::queries_stop))]
pub fn media_says<F: Features>(text: &str, features: &F) -> Truth
    ensures { result ≡ media_of (F.type_holds features.now) (F.says features.now) text.now }
{
    let bytes = text.as_bytes();
    if is_end(past_gap(bytes)) {
        return Truth::True;
    }
    let mut last = whole_query(features, bytes);
    let mut left = bytes.len();
    'queries: while left > 0 {
        if is_true(last.truth) || !starts_with(last.rest, b',') {
            return last.truth;
        }
        last = or_query(features, last.truth, past_one(last.rest));
        left -= 1;
    }
    last.truth
}
