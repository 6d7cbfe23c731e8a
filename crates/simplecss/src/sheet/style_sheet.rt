//! Style sheets.
ghost use Rattle.std.specs.Prelude.{◌≡◌, ◌∷◌, ◌++◌, [], ℕ, List, IfOk, OnErr, OnOk, filter, map};
ghost use Rattle.std.specs.Prelude.{◌≢◌, ◌↔◌, ◌<◌, Err, true, false};
ghost use Rattle.std.specs.List.{All, AllPass, flat_map};
ghost use Rattle.css_text.specs.Characters.{first_edition};
ghost use Rattle.simplecss_grammar.specs.Editions.{IsCommon};
ghost use Rattle.simplecss_grammar.specs.Statements.{has_declaration, kept, is_open_comment};
ghost use Rattle.simplecss_grammar.specs.Sheets.{ordered, sheet};
ghost use Rattle.simplecss_grammar.specs.Cutting.{ContinuesReading};
ghost use Rattle.simplecss_grammar.specs.Skipped.{add_each, skipped};
ghost use Rattle.simplecss_grammar.specs.SkipViews.{skip_of};
ghost use Rattle.css_text.specs.ThisEdition.{this_edition};
ghost use Rattle.simplecss_grammar.specs.PrintingLaws.{SelectorsReadBack, has_wide_space, PrintsBack};
ghost use Rattle.simplecss_grammar.specs.PrintingLaws.{PrintsBackAfter};
ghost use Rattle.simplecss.specs.RuleViews.{rules_in};
ghost use Rattle.simplecss.specs.DeclarationCounts.{kept_declarations};
ghost use Rattle.simplecss.specs.Readings.{ReadsInto};

use crate::sheet::{Rule, order, reading};
use css_text::SheetError;
use log::Log;
use simplecss_grammar::report::{Kept, Report, Skipped};
use simplecss_selector::Warnings;
use std::alloc::{AllocError, Global};

/// How texts are read: the options of [`StyleSheet::read`].
#[derive(Drop)]
pub struct Reading<'r, P> {
    /// Receives all that is skipped, in order; before each text, [`Report::begin`] is called with it.
    pub report: &'r mut P,
    /// The most declarations that the rules of all texts together may hold, `usize::MAX` for any
    /// number. A rule set counts its declarations once for each of its selectors, as often as they are
    /// stored: without a limit, rules may take memory quadratic in the length of their text.
    pub most: usize,
}

/// A style sheet: the rules of the texts that were read into it, in the order of their specificity.
///
/// <!-- from crates/example_first/src/main.rt -->
/// ```rust
/// let mut sheet = StyleSheet::new(alloc);
/// sheet.parse_more(
///     &Discard,
///     alloc,
///     "p { color: green } .note { color: red !important }",
/// )?;
/// sheet.rules.retain(|rule| !rule.declarations.is_empty());
/// ```
#[derive(Debug, Drop)]
pub struct StyleSheet<'a> {
    /// The rules, those of smaller specificity first.
    pub rules: Vec<Rule<'a>>,
}

impl<'a> StyleSheet<'a> {
    /// Returns a style sheet without rules. Allocates nothing.
    pub fn new(alloc: Global) -> Self
        ensures none { rules_in result ≡ [] }
        ensures sheet { rules_in result ≡ sheet this_edition [] }
    {
        StyleSheet {
            rules: Vec::new(alloc),
        }
    }

    /// Reads texts into the style sheet, one after another: their rules come after the others of
    /// equal specificity, and all are ordered once, so that many short texts take no more time than a
    /// long one. Also drops rules without declarations that were already in the sheet, unless each
    /// text is spaces, comments and then a comment that is not closed.
    ///
    /// Fails with [`SheetError::TooManyDeclarations`] if the rules of the texts would hold more
    /// declarations than `how` allows, before they are stored, and else only if an allocation fails.
    /// After an error the sheet is unchanged.
    pub fn read<P: Report<'a>>(
        &mut self,
        how: Reading<'_, P>,
        alloc: Global,
        texts: &[&'a str],
    ) -> Result<(), SheetError>
        ensures { ReadsInto P.begun P.add this_edition (rules_in self.old)
            (map (λ text. text.now) texts.now) how.entry.most (P.state how.entry.report.now) result
            (rules_in self.new) (P.state how.exit.0.now) }
    {
        let Reading { report, most } = how;
        match reading::read_all(report, alloc, texts, most)? {
            Some(more) => {
                order::merge(&mut self.rules, more)?;
                Ok(())
            }
            None => Ok(()),
        }
    }

    /// Reads the style sheet of one text. Fails only if an allocation fails; text that CSS 2.1 does
    /// not allow is skipped (section 4.2). Warnings of what is skipped go to `rt`.
    ///
    /// A rule set's declarations are stored once for each of its selectors, so its memory grows as
    /// the product of their numbers.
    pub fn parse<R: Log>(rt: &R, alloc: Global, text: &'a str) -> Result<Self, AllocError>
        ensures sheet { IfOk result (λ s. rules_in s ≡ sheet this_edition (text.now ∷ [])) }
        ensures selectors { IfOk result (λ s. SelectorsReadBack this_edition (rules_in s)) }
        ensures prints_back { has_wide_space text.now ≡ false
            → IfOk result (λ s. PrintsBack this_edition (rules_in s)) }
        // The first edition of the grammar has the same sheet of a text of ASCII bytes without a
        // slash.
        ensures editions { IsCommon text.now
            → IfOk result (λ s. rules_in s ≡ sheet first_edition (text.now ∷ [])) }
    {
        let mut sheet: StyleSheet<'a> = StyleSheet::new(alloc);
        let how = Reading {
            report: &mut Warnings::new(rt),
            most: usize::MAX,
        };
        match sheet.read(how, alloc, &[text]) {
            Ok(()) => Ok(sheet),
            Err(_) => Err(AllocError),
        }
    }

    /// Reads a text into the style sheet: its rules come after the others of equal specificity.
    /// Also drops rules without declarations that were already in the sheet. A text of spaces,
    /// comments and then a comment that is not closed changes nothing. After an error the sheet is
    /// unchanged. Warnings of what is skipped go to `rt`.
    pub fn parse_more<R: Log>(
        &mut self,
        rt: &R,
        alloc: Global,
        text: &'a str,
    ) -> Result<(), AllocError>
        // The old rules that have a declaration and then those of the text, in order.
        ensures ok { OnOk result (is_open_comment text.now ≡ false
            → rules_in self.new
            ≡ ordered (filter has_declaration (rules_in self.old) ++ kept this_edition text.now)) }
        ensures nothing { is_open_comment text.now ≡ true → rules_in self.new ≡ rules_in self.old }
        ensures err { OnErr result (rules_in self.new ≡ rules_in self.old) }
        // If the old rules are the sheet of some texts, the new ones are the sheet of these and this
        // one. Each of them has a declaration.
        ensures sheet { (texts : List (List ℕ)) → rules_in self.old ≡ sheet this_edition texts
            → OnOk result (rules_in self.new ≡ sheet this_edition (texts ++ text.now ∷ [])) }
        ensures filled { (texts : List (List ℕ)) → rules_in self.old ≡ sheet this_edition texts
            → AllPass has_declaration (rules_in self.new) }
        // A text may be read in pieces that are cut where a statement ends.
        ensures pieces { OnOk result
            (ContinuesReading this_edition (rules_in self.old) text.now (rules_in self.new)) }
        // Printed selectors and printed sheets read as what was printed.
        ensures selectors { SelectorsReadBack this_edition (rules_in self.old)
            → SelectorsReadBack this_edition (rules_in self.new) }
        ensures prints_back { OnOk result
            (PrintsBackAfter this_edition (rules_in self.old) text.now (rules_in self.new)) }
    {
        let how = Reading {
            report: &mut Warnings::new(rt),
            most: usize::MAX,
        };
        match self.read(how, alloc, &[text]) {
            Ok(()) => Ok(()),
            Err(_) => Err(AllocError),
        }
    }

    /// Returns a style sheet of equal rules, in memory of the same allocator. Fails only if an
    /// allocation fails.
    pub fn clone(&self) -> Result<Self, AllocError>
        ensures { IfOk result (λ copy. rules_in copy ≡ rules_in self.now) }
    {
        let mut rules = Vec::with_capacity(*self.rules.allocator(), self.rules.len())?;
        for rule in &self.rules {
            rules.push(rule.clone()?)?;
        }
        Ok(StyleSheet { rules })
    }
}

/// Returns all that reading a style sheet's text skips, in order. No rule is kept, so the memory is
/// bounded by the text's length, whatever the rules would take. Fails only if an allocation fails.
pub fn find_skipped<'a>(alloc: Global, text: &'a str) -> Result<Vec<Skipped<'a>>, AllocError>
    ensures { IfOk result (λ skips. map skip_of skips.items ≡ skipped this_edition text.now) }
{
    let mut kept = Kept {
        skips: Vec::new(alloc),
    };
    reading::consume_statements(&mut kept, alloc, text)?;
    let Kept { skips } = kept;
    Ok(skips)
}
