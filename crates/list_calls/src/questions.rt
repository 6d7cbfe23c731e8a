//! Questions on lists of selectors.

ghost use Rattle.std.specs.Prelude.{◌≡◌};
ghost use Rattle.call_answers.specs.Outcomes.{numbers_outcome, outcome_of};
ghost use Rattle.list_calls.specs.ListCalls.{AreNumbersOf, AreTextsOf};

use crate::{modern, port};
use call_answers::answer::CallError;
use kept_lists::{Question, ReadList};
use std::alloc::Global;

/// What numbers the selectors of a list have.
#[derive(Drop)]
pub struct ListNumbers {
    /// Where the numbers lie.
    pub alloc: Global,
}

/// What the printed texts of the selectors of a list are, one after another.
#[derive(Drop)]
pub struct ListTexts {
    /// Where the text lies.
    pub alloc: Global,
}

impl Question for ListNumbers {
    type Answer = Result<Vec<usize>, CallError>;

    ghost is_answer = { λ asked text list answer. AreNumbersOf text list (numbers_outcome answer) };

    fn ask(self, text: &str, list: &ReadList<'_>) -> Result<Vec<usize>, CallError> {
        match list {
            ReadList::Modern(_) => modern::numbers(self.alloc, text),
            ReadList::Port(all) => Ok(port::numbers(self.alloc, all)?),
        }
    }
}

impl Question for ListTexts {
    type Answer = Result<String, CallError>;

    ghost is_answer = { λ asked text list answer. AreTextsOf list (outcome_of answer) };

    fn ask(self, _text: &str, list: &ReadList<'_>) -> Result<String, CallError> {
        match list {
            ReadList::Modern(all) => Ok(modern::texts(self.alloc, all)?),
            ReadList::Port(all) => Ok(port::texts(self.alloc, all)?),
        }
    }
}
