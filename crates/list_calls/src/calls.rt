//! What each call answers.

ghost use Rattle.std.specs.Prelude.{◌≡◌, None, MatchResult};
ghost use Rattle.call_answers.specs.Outcomes.{numbers_outcome, outcome_of};
ghost use Rattle.kept_lists.specs.Lists.{made_of};
ghost use Rattle.list_calls.specs.ListCalls.{failure_of as failure_of_error, IsNotMade, IsMade};
ghost use Rattle.list_calls.specs.ListCalls.{AnswersOfList, AreListNumbers, AreListTexts};

use crate::questions::{ListNumbers, ListTexts};
use call_answers::answer::{CallError, hand_over, hand_over_numbers};
use call_answers::texts::text_of;
use kept_lists::{KeptList, ListError, ListGrammar, ListHandle};
use std::alloc::Global;

/// The status of a call that is done.
const DONE: u32 = 0;
/// The status of a text by no grammar.
const REFUSED: u32 = 1;
/// The status of a question to a handle that has no list.
const CLOSED: u32 = 8;

/// Why a call fails to which there is no list.
pub fn failure_of(error: ListError) -> CallError
    ensures { result ≡ failure_of_error error }
{
    match error {
        ListError::Refused => CallError::Refused,
        ListError::Memory => CallError::Memory,
    }
}

/// The list of a text, on the heap, or why there is none.
fn keep(alloc: Global, grammar: ListGrammar, text: &[u8]) -> Result<Box<KeptList>, CallError>
    ensures { let source = made_of grammar text.now in
        MatchResult result (λ whole. whole.value ≡ source) (IsNotMade source) }
{
    let text = text_of(text)?;
    match KeptList::new(alloc, grammar, text) {
        Ok(list) => Ok(Box::new(alloc, list)?),
        Err(error) => Err(failure_of(error)),
    }
}

/// Keeps a copy of a text and the selectors of the list that it is by a grammar. What the handle had before is let
/// go.
pub fn list_new(
    alloc: Global,
    text: &[u8],
    grammar: Option<ListGrammar>,
    out: &mut ListHandle,
) -> u32
    ensures { IsMade grammar text.now result out.new.value }
{
    *out = ListHandle::none(alloc);
    let Some(grammar) = grammar else {
        return REFUSED;
    };
    match keep(alloc, grammar, text) {
        Ok(whole) => {
            *out = ListHandle::of(whole);
            DONE
        }
        Err(failure) => failure.status(),
    }
}

/// Hands over the numbers of the selectors of a list.
pub fn list_numbers(alloc: Global, list: &mut ListHandle, out: &mut [usize], len: &mut usize) -> u32
    ensures answer { AnswersOfList AreListNumbers list.old.value result out.old out.new len.new }
    ensures kept { list.new.value ≡ list.old.value }
{
    match list.ask(alloc, ListNumbers { alloc }) {
        Some(outcome) => hand_over_numbers(outcome, out, len),
        None => {
            *len = 0;
            CLOSED
        }
    }
}

/// Hands over the printed texts of the selectors of a list, one after another.
pub fn list_text(alloc: Global, list: &mut ListHandle, out: &mut [u8], len: &mut usize) -> u32
    ensures answer { AnswersOfList AreListTexts list.old.value result out.old out.new len.new }
    ensures kept { list.new.value ≡ list.old.value }
{
    match list.ask(alloc, ListTexts { alloc }) {
        Some(outcome) => hand_over(outcome, out, len),
        None => {
            *len = 0;
            CLOSED
        }
    }
}

/// Lets a list go, where the handle has one.
pub fn list_free(alloc: Global, list: &mut ListHandle)
    ensures { list.new.value ≡ None }
{
    *list = ListHandle::none(alloc);
}
