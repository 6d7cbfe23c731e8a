//! What each call answers.

ghost use Rattle.std.specs.Prelude.{◌≡◌, None, Err, MatchResult, option_map};
ghost use Rattle.call_answers.specs.Answers.{IsFaultSet, status_of};
ghost use Rattle.kept_queries.specs.QueryCalls.{AnswersInNumbers, AnswersOfQuery, IsMade};
ghost use Rattle.kept_queries.specs.Queries.{AreTextsAsked, IsNoQuery};
ghost use Rattle.kept_queries.specs.Sources.{source_of};

use crate::arrays::PassedQuery;
use crate::handle::QueryHandle;
use crate::query::KeptQuery;
use crate::read_query::{NumbersAsked, RuleTexts};
use call_answers::answer::{CallError, TreeFault, hand_over, hand_over_numbers};
use std::alloc::Global;

/// The status of a call that is done.
const DONE: u32 = 0;
/// The status of a tree by no grammar, and of a question that is none.
const REFUSED: u32 = 1;
/// The status of a question to a handle that has no query.
const CLOSED: u32 = 8;

/// The query of what is passed, on the heap, or why there is none.
fn keep(alloc: Global, passed: PassedQuery<'_>) -> Result<Box<KeptQuery>, CallError>
    ensures { let source = source_of passed.entry in
        MatchResult result (λ whole. whole.value ≡ source) (IsNoQuery source) }
{
    let query = KeptQuery::new(alloc, passed)?;
    Ok(Box::new(alloc, query)?)
}

/// The status of a call that fails, whose fault of a tree is set, if that is why.
fn failed(failure: CallError, fault: &mut TreeFault) -> u32
    ensures status { result ≡ status_of failure }
    ensures faulty { IsFaultSet (Err failure) fault.old fault.new }
{
    if let CallError::Tree(found) = failure {
        fault.fault = found.number();
        fault.element = found.element();
    }
    failure.status()
}

/// Keeps a copy of what is passed, which is read. What the handle had before is let go.
pub fn query_new(
    alloc: Global,
    passed: Option<PassedQuery<'_>>,
    out: &mut QueryHandle,
    fault: &mut TreeFault,
) -> u32
    ensures { IsMade (option_map source_of passed.entry) result out.new.value fault.old fault.new }
{
    *out = QueryHandle::none(alloc);
    let Some(passed) = passed else {
        return REFUSED;
    };
    match keep(alloc, passed) {
        Ok(whole) => {
            *out = QueryHandle::of(whole);
            DONE
        }
        Err(failure) => failed(failure, fault),
    }
}

/// Hands over the numbers of what is asked.
pub fn query_numbers(
    alloc: Global,
    query: &mut QueryHandle,
    asked: Option<NumbersAsked<'_>>,
    out: &mut [usize],
    len: &mut usize,
) -> u32
    ensures answer { AnswersInNumbers asked.entry query.old.value result out.old out.new len.new }
    ensures kept { query.new.value ≡ query.old.value }
{
    let Some(asked) = asked else {
        *len = 0;
        return REFUSED;
    };
    match query.ask(alloc, asked) {
        Some(outcome) => hand_over_numbers(outcome, out, len),
        None => {
            *len = 0;
            CLOSED
        }
    }
}

/// Hands over the texts of the selectors of the rules, one after another, in at most this number of bytes.
pub fn query_text(
    alloc: Global,
    query: &mut QueryHandle,
    most: usize,
    out: &mut [u8],
    len: &mut usize,
) -> u32
    ensures answer { AnswersOfQuery (AreTextsAsked most) query.old.value result out.old out.new len.new }
    ensures kept { query.new.value ≡ query.old.value }
{
    match query.ask(alloc, RuleTexts { most }) {
        Some(outcome) => hand_over(outcome, out, len),
        None => {
            *len = 0;
            CLOSED
        }
    }
}

/// Lets a query go, where the handle has one.
pub fn query_free(alloc: Global, query: &mut QueryHandle)
    ensures { query.new.value ≡ None }
{
    *query = QueryHandle::none(alloc);
}
