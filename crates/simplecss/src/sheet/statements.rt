//! Rule sets and at-rules.
ghost use Rattle.std.specs.Prelude.{◌≡◌, ◌<◌, ◌≤◌, ◌+◌, ◌-◌, ◌*◌, ◌++◌, ◌∷◌, [], IfErr, IfOk, OnOk};
ghost use Rattle.std.specs.Prelude.{SomeIff, map, option_map, option_to_list};
ghost use Rattle.simplecss_grammar.specs.Statements.{part, parts, rule_set, at_rule_rest, statement};
ghost use Rattle.css_text.specs.Names.{name as name_read};
ghost use Rattle.css_text.specs.AsciiBytes.{comma};
ghost use Rattle.css_text.specs.Bytes.{past_byte};
ghost use Rattle.simplecss_grammar.specs.Skipped.{add_each, why_after, skips_after, comma_skips};
ghost use Rattle.css_text.specs.Bytes.{from_brace};
ghost use Rattle.simplecss_grammar.specs.Skipped.{part_skips, parts_skips, name_of, rule_set_skips};
ghost use Rattle.simplecss_grammar.specs.Skipped.{statement_skips};
ghost use Rattle.css_text.specs.ThisEdition.{this_edition};
ghost use Rattle.css_text.specs.Cursor.{text_of, rest_of};
ghost use Rattle.simplecss_declaration.specs.DeclarationViews.{declaration_of};
ghost use Rattle.simplecss.specs.RuleViews.{rule_of};
ghost use Rattle.simplecss.specs.internal.SharedBlocks.{rules_with, rules_read};
ghost use Rattle.simplecss.specs.DeclarationCounts.{declaration_count};
ghost use Rattle.css_text.specs.declared.sheet_error.SheetError.TheVariants.{TooManyDeclarations};

use super::rules::Rule;
use css_text::stream::Stream;
use css_text::{SheetError, readers};
use simplecss_declaration::{Declaration, consume_next_block, skip_semicolon_or_block};
use simplecss_grammar::report::{Report, Skipped, Why};
use simplecss_selector::Selector;
use std::alloc::{AllocError, Global};

/// Reports what follows a selector that was read, up to the block: nothing where a comma or the block
/// follows.
fn report_left<'a, P: Report<'a>>(report: &mut P, rest: &'a str) -> Result<(), AllocError>
    ensures { OnOk result (P.state report.new
        ≡ add_each P.add (P.state report.old) (skips_after rest.now)) }
{
    if readers::starts(rest, b',') || readers::starts(rest, b'{') {
        return Ok(());
    }
    report_stray(report, rest)
}

/// Reports the text from here up to the next block.
#[cold]
#[inline(never)]
fn report_stray<'a, P: Report<'a>>(report: &mut P, from: &'a str) -> Result<(), AllocError>
    ensures { OnOk result (P.state report.new ≡ add_each P.add (P.state report.old) (record {
      from = from.now;
      after = from_brace from.now;
      why = why_after (from_brace from.now);
    } ∷ [])) }
{
    let after = readers::from_brace(from);
    let why = if after.is_empty() {
        Why::MissingBlock
    } else {
        Why::AfterSelector
    };
    report.report(Skipped { from, after, why })
}

/// Consumes a comma, if one follows, and reports it.
fn consume_comma<'a, P: Report<'a>>(report: &mut P, s: &mut Stream<'a>) -> Result<(), AllocError>
    ensures text { text_of s.new ≡ text_of s.old }
    ensures rest { rest_of s.new ≡ past_byte comma (rest_of s.old) }
    ensures reported { OnOk result (P.state report.new
        ≡ add_each P.add (P.state report.old) (comma_skips (rest_of s.old))) }
{
    let from = s.slice_tail();
    if !readers::skip_byte(s, b',') {
        return Ok(());
    }
    report.report(Skipped {
        from,
        after: s.slice_tail(),
        why: Why::LeadingComma,
    })
}

/// Reads a part of a rule set's head and the space bytes after it, and adds its selector, if it has
/// one. What is skipped is reported.
#[tactic(auto, unfolding(simplecss_grammar::specs::Statements::part))]
pub(crate) fn consume_part<'a, P: Report<'a>>(
    report: &mut P,
    alloc: Global,
    s: &mut Stream<'a>,
    selectors: &mut Vec<Selector<'a>>,
) -> Result<(), AllocError>
    ensures text { text_of s.new ≡ text_of s.old }
    ensures selectors { OnOk result (selectors.new.items
        ≡ selectors.old.items ++ option_to_list (part this_edition (rest_of s.old)).0) }
    ensures rest { OnOk result (rest_of s.new ≡ (part this_edition (rest_of s.old)).1) }
    ensures reported { OnOk result (P.state report.new
        ≡ add_each P.add (P.state report.old) (part_skips this_edition (rest_of s.old))) }
{
    let read = Selector::parse_front(report, alloc, s.slice_tail());
    let (selector, len) = match read {
        Ok(read) => read,
        Err(error) => return Err(error),
    };
    s.advance(len);
    s.skip_spaces();
    match selector {
        Some(selector) => {
            selectors.push(selector)?;
            report_left(report, s.slice_tail())?;
            Ok(())
        }
        None => Ok(()),
    }
}

/// Reads the parts of a rule set's head, with a comma after each but the last. Their selectors
/// replace those that the list held.
fn consume_parts<'a, P: Report<'a>>(
    report: &mut P,
    alloc: Global,
    s: &mut Stream<'a>,
    selectors: &mut Vec<Selector<'a>>,
) -> Result<(), AllocError>
    ensures text { text_of s.new ≡ text_of s.old }
    ensures reads { OnOk result
        (parts this_edition (rest_of s.old) ≡ (selectors.new.items, rest_of s.new)) }
    ensures reported { OnOk result (P.state report.new
        ≡ add_each P.add (P.state report.old) (parts_skips this_edition (rest_of s.old))) }
{
    selectors.clear();
    'parts: loop {
        consume_part(report, alloc, s, selectors)?;
        if !readers::skip_byte(s, b',') {
            return Ok(());
        }
    }
}

/// Adds a rule for each selector, and moves the selectors out of their list. Each rule has its own
/// list of the declarations, with no spare capacity.
fn push_rules<'a>(
    alloc: Global,
    rules: &mut Vec<Rule<'a>>,
    selectors: &mut Vec<Selector<'a>>,
    declarations: &[Declaration<'a>],
) -> Result<(), AllocError>
    ensures { OnOk result (map rule_of rules.new.items ≡ map rule_of rules.old.items
        ++ rules_with (map declaration_of declarations.now) selectors.old.items) }
{
    'selectors: for selector in selectors.drain(..) {
        let declarations = Vec::from_slice(alloc, declarations)?;
        rules.push(Rule {
            selector,
            declarations,
        })?;
    }
    Ok(())
}

/// Consumes an at-rule after its sign, and returns its name, if it has one. A faulty name ends it.
#[tactic(auto, unfolding(simplecss_grammar::specs::Statements::at_rule_rest))]
fn take_at_rule<'a>(s: &mut Stream<'a>) -> Option<&'a str>
    ensures text { text_of s.new ≡ text_of s.old }
    ensures rest { rest_of s.new ≡ at_rule_rest this_edition (rest_of s.old) }
    ensures name { option_map (λ name. name.now) result
        ≡ name_of (name_read this_edition (rest_of s.old)) }
{
    let name = readers::take_name(s)?;
    skip_semicolon_or_block(s);
    Some(name)
}

/// Returns what is left of a limit after `selectors` rules with `declarations` declarations each,
/// or `None` if these are more.
fn left_after(most: usize, selectors: usize, declarations: usize) -> Option<usize>
    ensures { SomeIff result (selectors * declarations ≤ most) (most - selectors * declarations) }
{
    most.checked_sub(selectors.checked_mul(declarations)?)
}

/// Reads statements, and keeps their rules. The lists that a rule set is read into are reused
/// for each.
#[derive(Drop)]
pub struct RuleReader<'a> {
    /// The rules that are kept.
    rules: Vec<Rule<'a>>,
    /// The selectors of the last statement.
    selectors: Vec<Selector<'a>>,
    /// The declarations of its block.
    declarations: Vec<Declaration<'a>>,
}

impl<'a> RuleReader<'a> {
    /// Returns a reader that has read nothing. Allocates nothing.
    pub fn new(alloc: Global) -> Self
        ensures { result.rules.items ≡ [] }
    {
        RuleReader {
            rules: Vec::new(alloc),
            selectors: Vec::new(alloc),
            declarations: Vec::new(alloc),
        }
    }

    /// Returns the rules that are kept.
    pub fn into_rules(self) -> Vec<Rule<'a>>
        ensures { result.items ≡ self.entry.rules.items }
    {
        let RuleReader { rules, .. } = self;
        rules
    }

    /// Reads a rule set. It has a rule for each part with a selector, with all declarations of the
    /// block.
    #[tactic(auto, unfolding(simplecss_grammar::specs::Statements::rule_set))]
    fn consume_rule_set<P: Report<'a>>(
        &mut self,
        report: &mut P,
        alloc: Global,
        s: &mut Stream<'a>,
    ) -> Result<(), AllocError>
        ensures text { text_of s.new ≡ text_of s.old }
        ensures kept { self.new.rules.items ≡ self.old.rules.items }
        ensures rules { OnOk result
            (rules_read self.new ≡ (rule_set this_edition (rest_of s.old)).0) }
        ensures rest { OnOk result (rest_of s.new ≡ (rule_set this_edition (rest_of s.old)).1) }
        ensures reported { OnOk result (P.state report.new
            ≡ add_each P.add (P.state report.old) (rule_set_skips this_edition (rest_of s.old))) }
    {
        consume_comma(report, s)?;
        consume_parts(report, alloc, s, &mut self.selectors)?;
        consume_next_block(report, s, &mut self.declarations)
    }

    /// Reads a statement, and keeps none of its rules yet. An at-rule has none.
    #[tactic(auto, unfolding(simplecss_grammar::specs::Statements::statement), using(css_text::proofs::bytes::ByteLemmas::past_byte_there, css_text::proofs::bytes::ByteLemmas::past_byte_not))]
    pub fn consume_statement<P: Report<'a>>(
        &mut self,
        report: &mut P,
        alloc: Global,
        s: &mut Stream<'a>,
    ) -> Result<(), AllocError>
        ensures text { text_of s.new ≡ text_of s.old }
        ensures kept { self.new.rules.items ≡ self.old.rules.items }
        ensures rules { OnOk result
            (rules_read self.new ≡ (statement this_edition (rest_of s.old)).0) }
        ensures rest { OnOk result (rest_of s.new ≡ (statement this_edition (rest_of s.old)).1) }
        ensures reported { OnOk result (P.state report.new
            ≡ add_each P.add (P.state report.old) (statement_skips this_edition (rest_of s.old))) }
    {
        let text = s.slice_tail();
        if readers::skip_byte(s, b'@') {
            self.selectors.clear();
            let name = take_at_rule(s);
            return report.report(Skipped {
                from: text,
                after: s.slice_tail(),
                why: Why::AtRule(name),
            });
        }
        self.consume_rule_set(report, alloc, s)
    }

    /// Keeps the rules of the statement that was read last, and returns how many declarations may
    /// still be kept. If they hold more than `most`, no declaration is copied.
    pub fn keep_rules(&mut self, alloc: Global, most: usize) -> Result<usize, SheetError>
        ensures rules { OnOk result (map rule_of self.new.rules.items
            ≡ map rule_of self.old.rules.items ++ rules_read self.old) }
        ensures left { IfOk result
            (λ left. left + declaration_count (rules_read self.old) ≡ most) }
        ensures refused { IfErr result (λ error. error ≡ TooManyDeclarations
            → most < declaration_count (rules_read self.old)) }
    {
        let selectors = self.selectors.as_slice();
        let declarations = self.declarations.as_slice();
        let left = match left_after(most, selectors.len(), declarations.len()) {
            Some(left) => left,
            None => return Err(SheetError::TooManyDeclarations),
        };
        push_rules(alloc, &mut self.rules, &mut self.selectors, declarations)?;
        Ok(left)
    }
}
