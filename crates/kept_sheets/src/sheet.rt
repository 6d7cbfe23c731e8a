//! Style sheets as objects.

ghost use Rattle.std.specs.Prelude.{◌≡◌, ◌<◌, ◌≤◌, MatchResult, length};
ghost use Rattle.call_answers.specs.Calls.{FailsFor, FailsLonger};
ghost use Rattle.call_answers.specs.Outcomes.{numbers_outcome, outcome_of};
ghost use Rattle.std.specs.Str.{IsUtf8};
ghost use Rattle.kept_sheets.specs.Sheets.{AreNumbersOf, IsTextOf};
ghost use Rattle.kept_sheets.specs.declared.questions.SheetNumbers.TheVariants as numbers;
ghost use Rattle.kept_sheets.specs.declared.questions.SheetText.TheVariants as text;

use call_answers::answer::{CallError, check_count};
use call_answers::texts::text_of;
use css_sheet::{Layout, print_sheet};
use sheet_calls::imports::sheet_imports;
use sheet_calls::sheet_contents::contents_numbers;
use sheet_calls::sheets::sheet_numbers;
use std::alloc::Global;
use std::marker::Model;

/// A style sheet that is kept: in clauses, its text.
#[derive(Drop)]
pub struct KeptSheet {
    text: String,
    /// The numbers of its statements, once they were asked for.
    statements: Option<Vec<usize>>,
    /// Those of what is in its style rules.
    contents: Option<Vec<usize>>,
}

impl Model for KeptSheet {
    ghost use Rattle.std.specs.Prelude.{ℕ, List, string_bytes};
    ghost use Rattle.call_answers.specs.SheetNumbers.{sheet_numbers};
    ghost use Rattle.sheet_calls.specs.ContentNumbers.{contents_numbers};
    ghost use Rattle.kept_sheets.specs.Kept.{AreWritten};

    ghost Value = { List ℕ };

    ghost view = { λ s. string_bytes s.text };

    ghost invariant = { λ s. AreWritten (sheet_numbers (string_bytes s.text)) s.statements
        × AreWritten (contents_numbers (string_bytes s.text)) s.contents };
}

/// A question on a style sheet.
pub trait Question {
    /// The answer to it.
    type Answer;

    ghost use Rattle.std.specs.Prelude.{ℕ, List};

    ghost is_answer: { Self → List ℕ → Self.Answer → Type 0 };

    /// The answer of a sheet, whose text stays.
    fn ask(self, alloc: Global, sheet: &mut KeptSheet) -> Self::Answer
        ensures kept { sheet.new ≡ sheet.old }
        ensures answer { is_answer self sheet.old result };
}

/// A copy of numbers, if they are at most so many.
fn copied(alloc: Global, numbers: &Vec<usize>, most: usize) -> Result<Vec<usize>, CallError>
    ensures { MatchResult result
        (λ out. (out.items ≡ numbers.now.items) × (length out.items ≤ most))
        (FailsLonger (most < length numbers.now.items)) }
{
    check_count(numbers, most)?;
    Ok(Vec::from_slice(alloc, numbers.as_slice())?)
}

impl KeptSheet {
    /// Keeps a copy of a text.
    pub fn new(alloc: Global, text: &[u8]) -> Result<KeptSheet, CallError>
        ensures { MatchResult result (λ sheet. (sheet ≡ text.now) × IsUtf8 text.now)
            (FailsFor ⊥ (λ fault. ⊥) (¬ (IsUtf8 text.now))) }
    {
        let text = text_of(text)?;
        Ok(KeptSheet {
            text: String::from_str(alloc, text)?,
            statements: None,
            contents: None,
        })
    }

    /// The numbers of the statements, at most so many. They are kept.
    pub fn statements(&mut self, alloc: Global, most: usize) -> Result<Vec<usize>, CallError>
        ensures kept { self.new ≡ self.old }
        ensures answer { AreNumbersOf numbers.Statements most self.old (numbers_outcome result) }
    {
        if let Some(numbers) = &self.statements {
            return copied(alloc, numbers, most);
        }
        let numbers = sheet_numbers(alloc, self.text.as_str(), most)?;
        let answer = copied(alloc, &numbers, most);
        self.statements = Some(numbers);
        answer
    }

    /// Those of what is in the style rules.
    pub fn contents(&mut self, alloc: Global, most: usize) -> Result<Vec<usize>, CallError>
        ensures kept { self.new ≡ self.old }
        ensures answer { AreNumbersOf numbers.Contents most self.old (numbers_outcome result) }
    {
        if let Some(numbers) = &self.contents {
            return copied(alloc, numbers, most);
        }
        let numbers = contents_numbers(alloc, self.text.as_str())?;
        let answer = copied(alloc, &numbers, most);
        self.contents = Some(numbers);
        answer
    }

    /// The printed text.
    pub fn printed(&self, alloc: Global, layout: Layout) -> Result<String, CallError>
        ensures { IsTextOf (text.Printed layout) self.now (outcome_of result) }
    {
        Ok(print_sheet(alloc, self.text.as_str(), layout)?)
    }

    /// The lines of the imports that are in force.
    pub fn imports(&self, alloc: Global) -> Result<String, CallError>
        ensures { IsTextOf text.Imports self.now (outcome_of result) }
    {
        Ok(sheet_imports(alloc, self.text.as_str())?)
    }
}
