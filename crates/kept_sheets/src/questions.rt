//! Questions on style sheets.

ghost use Rattle.std.specs.Prelude.{◌≡◌};
ghost use Rattle.call_answers.specs.Outcomes.{numbers_outcome, outcome_of};
ghost use Rattle.kept_sheets.specs.Sheets.{AreNumbersOf, IsTextOf};

use crate::sheet::{KeptSheet, Question};
use call_answers::answer::CallError;
use css_sheet::Layout;
use std::alloc::Global;

/// What is asked of a sheet in numbers.
#[derive(Clone, Copy)]
pub enum SheetNumbers {
    /// Its statements.
    Statements,
    /// What is in its style rules.
    Contents,
}

/// What is asked of a sheet as a text.
#[derive(Clone, Copy)]
pub enum SheetText {
    /// The sheet, printed.
    Printed(Layout),
    /// The lines of its imports that are in force.
    Imports,
}

/// Numbers of a sheet, at most so many.
#[derive(Clone, Copy)]
pub struct NumbersWithin {
    /// What they are of.
    pub asked: SheetNumbers,
    /// How many there may be.
    pub most: usize,
}

impl Question for NumbersWithin {
    type Answer = Result<Vec<usize>, CallError>;

    ghost is_answer = { λ question text answer. AreNumbersOf question.asked question.most text (numbers_outcome answer) };

    fn ask(self, alloc: Global, sheet: &mut KeptSheet) -> Result<Vec<usize>, CallError> {
        let NumbersWithin { asked, most } = self;
        match asked {
            SheetNumbers::Statements => sheet.statements(alloc, most),
            SheetNumbers::Contents => sheet.contents(alloc, most),
        }
    }
}

impl Question for SheetText {
    type Answer = Result<String, CallError>;

    ghost is_answer = { λ asked text answer. IsTextOf asked text (outcome_of answer) };

    fn ask(self, alloc: Global, sheet: &mut KeptSheet) -> Result<String, CallError> {
        match self {
            SheetText::Printed(layout) => sheet.printed(alloc, layout),
            SheetText::Imports => sheet.imports(alloc),
        }
    }
}
