//! The rules of a text.
ghost use Rattle.std.specs.Prelude.{◌≡◌, ◌<◌, ◌≤◌, ◌+◌, ◌++◌, ◌∷◌, [], List, ℕ, IfErr, IfOk, IsOk, IsTrue};
ghost use Rattle.std.specs.Prelude.{IsUtf8, OnOk};
ghost use Rattle.std.specs.Prelude.{MatchBool, MatchOption, None, Some, filter, map, true, false};
ghost use Rattle.std.specs.List.{All, flat_map};
ghost use Rattle.css_text.specs.Comments.{past_blank};
ghost use Rattle.simplecss_grammar.specs.Statements.{has_declaration, kept, statement, next_statement};
ghost use Rattle.simplecss_grammar.specs.Statements.{statements, is_open_comment};
ghost use Rattle.simplecss_grammar.specs.Skipped.{add_each, end_skips, skipped};
ghost use Rattle.css_text.specs.ThisEdition.{this_edition};
ghost use Rattle.css_text.specs.Cursor.{text_of, rest_of};
ghost use Rattle.simplecss.specs.RuleViews.{rule_of, rules_of};
ghost use Rattle.simplecss.specs.DeclarationCounts.{kept_declarations, kept_in_all};
ghost use Rattle.simplecss.specs.Readings.{are_open_comments, reports_of};
ghost use Rattle.css_text.specs.declared.sheet_error.SheetError.TheVariants.{TooManyDeclarations};

use super::order;
use super::rules::Rule;
use super::statements::RuleReader;
use css_text::stream::Stream;
use css_text::{SheetError, readers, scan};
use simplecss_grammar::report::{Report, Skipped, Why};
use std::alloc::{AllocError, Global};

/// Skips a blank, and returns whether a statement follows it.
pub(crate) fn at_statement(s: &mut Stream<'_>) -> bool
    ensures text { text_of s.new ≡ text_of s.old }
    ensures reads { MatchBool result
        (next_statement this_edition (rest_of s.old)
        ≡ Some (statement this_edition (rest_of s.new)))
        (next_statement this_edition (rest_of s.old) ≡ None) }
    ensures rest { IsTrue result → rest_of s.new ≡ past_blank (rest_of s.old) }
{
    readers::skip_blank(s) && !s.at_end()
}

/// Reports an open comment after a blank, if there is one.
pub(crate) fn report_end<'a, P: Report<'a>>(report: &mut P, text: &'a str) -> Result<(), AllocError>
    ensures { OnOk result
        (P.state report.new ≡ add_each P.add (P.state report.old) (end_skips text.now)) }
{
    let gap = scan::find_gap(text);
    if !gap.unclosed {
        return Ok(());
    }
    report.report(Skipped {
        from: &text[gap.len..],
        after: "",
        why: Why::Comment,
    })
}

/// Returns all rules of a text in order, or `None` if the text is a blank and then an open comment.
/// Stops before the rules hold more than `most` declarations, and else takes theirs off it.
pub(crate) fn read_rules<'a, P: Report<'a>>(
    report: &mut P,
    alloc: Global,
    text: &'a str,
    most: &mut usize,
) -> Result<Option<Vec<Rule<'a>>>, SheetError>
    ensures rules { IfOk result (λ read. MatchOption read (is_open_comment text.now ≡ true)
        (λ rules. (is_open_comment text.now ≡ false)
        × (map rule_of rules.items
        ≡ flat_map (λ given. given) (statements this_edition text.now)))) }
    ensures utf8 { IsUtf8 text.now }
    ensures left { OnOk result (most.new + kept_declarations this_edition text.now ≡ most.old) }
    ensures refused { IfErr result (λ error. error ≡ TooManyDeclarations
        → most.old < kept_declarations this_edition text.now) }
    ensures reported { OnOk result (P.state report.new
        ≡ add_each P.add (P.begun (P.state report.old) text.now) (skipped this_edition text.now)) }
{
    report.begin(text);
    let mut s = Stream::new(text);
    if !readers::skip_blank(&mut s) {
        report_end(report, text)?;
        return Ok(None);
    }
    let mut reader = RuleReader::new(alloc);
    let mut left = *most;
    'statements: loop {
        let rest = s.slice_tail();
        if !at_statement(&mut s) {
            report_end(report, rest)?;
            *most = left;
            return Ok(Some(reader.into_rules()));
        }
        reader.consume_statement(report, alloc, &mut s)?;
        left = reader.keep_rules(alloc, left)?;
    }
}

/// Reads the statements of a text, reports what they skip, and keeps no rule.
pub(crate) fn consume_statements<'a, P: Report<'a>>(
    report: &mut P,
    alloc: Global,
    text: &'a str,
) -> Result<(), AllocError>
    ensures { OnOk result (P.state report.new
        ≡ add_each P.add (P.begun (P.state report.old) text.now) (skipped this_edition text.now)) }
{
    report.begin(text);
    let mut s = Stream::new(text);
    let mut reader = RuleReader::new(alloc);
    'statements: loop {
        let rest = s.slice_tail();
        if !at_statement(&mut s) {
            report_end(report, rest)?;
            return Ok(());
        }
        reader.consume_statement(report, alloc, &mut s)?;
    }
}

/// Reads the rules of the texts, one text after another, or `None` if each text is a blank and then
/// an open comment. Stops before the rules hold more than `most` declarations.
pub(crate) fn read_all<'a, P: Report<'a>>(
    report: &mut P,
    alloc: Global,
    texts: &[&'a str],
    most: usize,
) -> Result<Option<Vec<Rule<'a>>>, SheetError>
    ensures rules { IfOk result (λ read. MatchOption read
        (are_open_comments (map (λ text. text.now) texts.now) ≡ true)
        (λ rules. (are_open_comments (map (λ text. text.now) texts.now) ≡ false)
        × (filter has_declaration (rules_of rules.items)
        ≡ flat_map (kept this_edition) (map (λ text. text.now) texts.now)))) }
    ensures utf8 { IsOk result → All (λ text. IsUtf8 text.now) texts.now }
    ensures within { OnOk result
        (kept_in_all this_edition (map (λ text. text.now) texts.now) ≤ most) }
    ensures refused { IfErr result (λ error. error ≡ TooManyDeclarations
        → most < kept_in_all this_edition (map (λ text. text.now) texts.now)) }
    ensures reported { OnOk result (P.state report.new
        ≡ reports_of P.begun P.add this_edition (P.state report.old)
        (map (λ text. text.now) texts.now)) }
{
    let mut rules = Vec::new(alloc);
    let mut open = true;
    let mut left = most;
    for text in texts {
        if let Some(more) = read_rules(report, alloc, text, &mut left)? {
            order::join(&mut rules, more)?;
            open = false;
        }
    }
    if open { Ok(None) } else { Ok(Some(rules)) }
}
