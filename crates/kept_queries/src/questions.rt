//! Questions on queries.

ghost use Rattle.std.specs.Prelude.{◌≡◌};
ghost use Rattle.call_answers.specs.Outcomes.{numbers_outcome, outcome_of};
ghost use Rattle.kept_queries.specs.Queries.{AreNumbersAsked, AreTextsAsked};

use crate::read_query::{NumbersAsked, Question, ReadQuery, RuleTexts};
use call_answers::answer::CallError;
use std::alloc::Global;

impl<'q> Question for NumbersAsked<'q> {
    type Answer = Result<Vec<usize>, CallError>;

    ghost is_answer = { λ asked text answer. AreNumbersAsked asked text (numbers_outcome answer) };

    fn ask<'a>(self, alloc: Global, query: &mut ReadQuery<'a>) -> Result<Vec<usize>, CallError> {
        match self {
            NumbersAsked::Elements(asked) => query.element_numbers(alloc, asked),
            NumbersAsked::Rules => query.rule_numbers(alloc),
        }
    }
}

impl Question for RuleTexts {
    type Answer = Result<String, CallError>;

    ghost is_answer = { λ asked text answer. AreTextsAsked asked.most text (outcome_of answer) };

    fn ask<'a>(self, alloc: Global, query: &mut ReadQuery<'a>) -> Result<String, CallError> {
        query.rule_texts(alloc, self.most)
    }
}
