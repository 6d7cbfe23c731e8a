//! Lists of selectors of the port, with commas between them.

ghost use Rattle.std.specs.Prelude.{◌≡◌, None, Some, IfOk, MatchResult, string_bytes};
ghost use Rattle.simplecss.specs.ListRefusals.{fault_of};
ghost use Rattle.simplecss.specs.SelectorLists.{list_of, list_read};
ghost use Rattle.simplecss.specs.ThisEdition.{this_edition};
ghost use Rattle.call_answers.specs.Calls.{FailsFor};
ghost use Rattle.call_answers.specs.Refusals.{fault_text, read_text};

use call_answers::answer::CallError;
use call_answers::refusals::position_text;
use simplecss::{ListRefusal, Selector};
use std::alloc::{AllocError, Global};

/// The selectors of a list, or the refusal.
pub fn selectors_of(alloc: Global, text: &str) -> Result<Vec<Selector<'_>>, CallError>
    ensures { MatchResult result
        (λ selectors. list_of this_edition text.now ≡ Some selectors.items)
        (λ failure. FailsFor (list_of this_edition text.now ≡ None) (λ fault. ⊥) ⊥ failure) }
{
    match Selector::read_list(alloc, text)? {
        Ok(selectors) => Ok(selectors),
        Err(_) => Err(CallError::Refused),
    }
}

/// Returns where a text is no list of selectors, and why.
fn refusal_text(alloc: Global, refusal: ListRefusal<'_>) -> Result<String, AllocError>
    ensures { IfOk result (λ text. string_bytes text ≡ fault_text (fault_of refusal.entry)) }
{
    let reason = format!(in alloc; "{}", refusal.why)?;
    position_text(alloc, refusal.pos, reason.as_str())
}

/// Where a text is no list of selectors, and why, or nothing where it is one.
pub fn refusal(alloc: Global, text: &str) -> Result<String, CallError>
    ensures { MatchResult result
        (λ refusal. string_bytes refusal ≡ read_text (list_read this_edition text.now))
        (λ failure. failure ≡ CallError.Memory) }
{
    match Selector::read_list(alloc, text)? {
        Ok(_) => Ok(String::new(alloc)),
        Err(refusal) => Ok(refusal_text(alloc, refusal)?),
    }
}
