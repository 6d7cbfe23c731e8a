//! What reading a style sheet skips, and the reporters that receive it.
use css_text::Error;
use std::alloc::AllocError;

/// Why a selector is refused.
#[derive(Clone, Copy, Debug, PartialEq)]
pub enum Refusal<'a> {
    /// It has an error.
    Faulty {
        /// The text that positions in the error count from.
        within: &'a str,
        /// The error.
        error: Error,
    },
    /// It has a pseudo-class with this name, which is not supported.
    UnknownClass(&'a str),
}

/// Why something is skipped.
#[derive(Clone, Copy, Debug, PartialEq)]
pub enum Why<'a> {
    /// A comma precedes the first selector of a rule set.
    LeadingComma,
    /// A selector is refused.
    Selector(Refusal<'a>),
    /// There is text between the last selector of a rule set and the block.
    AfterSelector,
    /// No block follows the last selector of a rule set.
    MissingBlock,
    /// A declaration is broken. The rest of its block is skipped with it.
    Declaration,
    /// A string or a function of a value is not closed. The rest of the text is skipped with it.
    OpenValue,
    /// A closing brace follows a block that is already closed.
    ExtraBrace,
    /// A comment is not closed. The rest of the text is skipped with it.
    Comment,
    /// At-rules are not supported. The name is absent if it is faulty.
    AtRule(Option<&'a str>),
}

/// Something that reading a style sheet skips (CSS 2.1 section 4.2).
#[derive(Clone, Copy, Debug, PartialEq)]
pub struct Skipped<'a> {
    /// The text from the start of what is skipped.
    pub from: &'a str,
    /// The text after what is skipped.
    pub after: &'a str,
    /// Why it is skipped.
    pub why: Why<'a>,
}

/// Receives reports of what reading a style sheet skips.
///
/// Contracts describe a reporter by its `state`: `begun` says what the state is after a text was
/// begun, and `add` what it is after one more report.
pub trait Report<'a> {
    ghost use Rattle.std.specs.Prelude.{◌≡◌, ℕ, List, OnOk};
    ghost use Rattle.simplecss_grammar.specs.Skipped.{Skip};
    ghost use Rattle.simplecss_grammar.specs.SkipViews.{skip_of};

    ghost State: { Type 0 };

    ghost state: { Self → State };

    ghost add: { State → Skip → State };

    ghost begun: { State → List ℕ → State };

    /// Called once before each text that is read into a sheet, with the whole text. Its reports
    /// follow.
    fn begin(&mut self, text: &'a str)
        ensures { state self.new ≡ begun (state self.old) text.now };

    /// Called for each declaration that is read, with the text from its start on and its value.
    /// What is skipped of the value is reported after it.
    fn declared(&mut self, from: &'a str, value: &'a str)
        ensures { state self.new ≡ state self.old };

    /// Receives one report. Fails only if an allocation fails.
    fn report(&mut self, skipped: Skipped<'a>) -> Result<(), AllocError>
        ensures { OnOk result (state self.new ≡ add (state self.old) (skip_of skipped.entry)) };
}

/// A reporter that ignores all reports.
#[derive(Clone, Copy, Debug, Drop)]
pub struct Silent;

impl<'a> Report<'a> for Silent {
    ghost State = { Unit {0} };

    ghost state = { λ _. tt };

    ghost add = { λ _ _. tt };

    ghost begun = { λ _ _. tt };

    #[inline(always)]
    fn begin(&mut self, _text: &'a str) {}

    #[inline(always)]
    fn declared(&mut self, _from: &'a str, _value: &'a str) {}

    #[inline(always)]
    fn report(&mut self, _skipped: Skipped<'a>) -> Result<(), AllocError> {
        Ok(())
    }
}

/// A reporter that keeps all reports.
#[derive(Debug, Drop)]
pub struct Kept<'a> {
    /// The reports, in order.
    pub skips: Vec<Skipped<'a>>,
}

impl<'a> Report<'a> for Kept<'a> {
    ghost use Rattle.std.specs.Prelude.{List, ◌++◌, ◌∷◌, [], map};
    ghost use Rattle.simplecss_grammar.specs.Skipped.{Skip};
    ghost use Rattle.simplecss_grammar.specs.SkipViews.{skip_of};

    ghost State = { List Skip };

    ghost state = { λ k. map skip_of k.skips.items };

    ghost add = { λ skips skip. skips ++ skip ∷ [] };

    ghost begun = { λ skips _. skips };

    fn begin(&mut self, _text: &'a str) {}

    #[inline(always)]
    fn declared(&mut self, _from: &'a str, _value: &'a str) {}

    fn report(&mut self, skipped: Skipped<'a>) -> Result<(), AllocError> {
        self.skips.push(skipped)?;
        Ok(())
    }
}
