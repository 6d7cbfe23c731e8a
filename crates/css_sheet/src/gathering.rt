//! Gathers the rules of style rules.
ghost use Rattle.std.specs.Prelude.{◌≡◌, IfErr, map, option_to_list};
ghost use Rattle.css_syntax.specs.Views.{item_of, prelude_of};
ghost use Rattle.css_selector_text.specs.NameViews.{names_of};
ghost use Rattle.css_sheet.specs.ContentViews.{part_of};
ghost use Rattle.css_sheet.specs.internal.PartViews.{placed_last};
ghost use Rattle.css_sheet.specs.ParentViews.{parent_of};
ghost use Rattle.css_sheet.specs.RuleSelectors.{context};
ghost use Rattle.css_sheet.specs.RuleViews.{rule_selector_of};
ghost use Rattle.css_sheet.specs.SheetOrder.{declaration_count, is_declared, rule_with, rules_with};
ghost use Rattle.css_sheet.specs.SheetOrder.{rule_set_rules, part_rules};
ghost use Rattle.css_sheet.specs.SheetRuleViews.{run_of, Gathers};
ghost use Rattle.css_sheet.specs.declared.sheet_error.SheetError.TheVariants.{TooManyLayers};

use crate::parents::{Parent, StyleRule};
use crate::parts::{Part, SheetParts};
use crate::selectors::{RuleSelector, read_selectors};
use crate::sheet_error::SheetError;
use crate::sheet_rules::SheetRule;
use css_cascade::Origin;
use css_syntax::{Declarations, Item};
use std::alloc::Global;

/// Rules, as they stand in a sheet.
#[derive(Drop)]
pub(crate) struct Gathered<'a> {
    /// The rules.
    pub(crate) rules: Vec<SheetRule<'a>>,
    /// How many declarations further ones may have.
    pub(crate) left: usize,
}

/// The contents of the block of a style rule, or a part of them that rules are between.
#[derive(Clone, Copy)]
pub(crate) struct Run<'a> {
    /// The number of the layer that it is in.
    pub(crate) layer: usize,
    /// The number of the sheet.
    pub(crate) sheet: usize,
    /// The offset there.
    pub(crate) start: usize,
    /// The text.
    pub(crate) text: &'a str,
}

/// Whether an item of a list is a declaration.
fn is_declaration(item: &Item<'_>) -> bool
    ensures { result ≡ is_declared (item_of item.now) }
{
    matches!(item, Item::Declaration(_))
}

/// Returns how many declarations the contents of a block have.
#[tactic(auto, unfolding(crate::specs::SheetOrder::declaration_count))]
fn count_declarations(block: &str) -> usize
    ensures { result ≡ declaration_count block.now }
{
    let mut declarations = Declarations::of_block(block);
    let mut count = 0;
    'items: while let Some(part) = declarations.next() {
        if is_declaration(&part.item) {
            count += 1;
        }
    }
    count
}

impl<'a> Gathered<'a> {
    /// Appends the rule of a selector with this block, if it is supported. It has `count` declarations.
    fn push_rule(
        &mut self,
        one: RuleSelector<'a>,
        run: Run<'a>,
        count: usize,
    ) -> Result<(), SheetError>
        requires { count ≡ declaration_count run.text.now }
        ensures no_layers { IfErr result (λ error. error ≡ TooManyLayers → ⊥) }
        ensures gathers { Gathers self.old result self.new
            (option_to_list (rule_with (run_of run.entry) (rule_selector_of one.entry))) }
    {
        let RuleSelector {
            text,
            selector,
            pseudo_element,
        } = one;
        let Some(selector) = selector else {
            return Ok(());
        };
        if count > self.left {
            return Err(SheetError::TooManyDeclarations);
        }
        self.rules.push(SheetRule {
            origin: Origin::Author,
            layer: run.layer,
            sheet: run.sheet,
            start: run.start,
            text,
            selector,
            pseudo_element,
            block: run.text,
        })?;
        self.left -= count;
        Ok(())
    }

    /// Appends the rules of selectors with this block, which has `count` declarations.
    fn push_rules(
        &mut self,
        selectors: Vec<RuleSelector<'a>>,
        run: Run<'a>,
        count: usize,
    ) -> Result<(), SheetError>
        requires { count ≡ declaration_count run.text.now }
        ensures no_layers { IfErr result (λ error. error ≡ TooManyLayers → ⊥) }
        ensures gathers { Gathers self.old result self.new
            (rules_with (run_of run.entry) (map rule_selector_of selectors.entry.items)) }
    {
        'selectors: for one in selectors {
            self.push_rule(one, run, count)?;
        }
        Ok(())
    }

    /// Appends the rules of declarations of a style rule.
    fn push_stated(
        &mut self,
        alloc: Global,
        rule: &StyleRule<'_, 'a>,
        run: Run<'a>,
    ) -> Result<(), SheetError>
        ensures no_layers { IfErr result (λ error. error ≡ TooManyLayers → ⊥) }
        ensures gathers { Gathers self.old result self.new
            (rule_set_rules (prelude_of rule.now.prelude)
            (context rule.now.under (names_of rule.now.names.now)) (run_of run.entry)) }
    {
        let count = count_declarations(run.text);
        if count == 0 {
            return Ok(());
        }
        match read_selectors(alloc, rule.names, rule.under, &rule.prelude) {
            Ok(Ok(selectors)) => self.push_rules(selectors, run, count),
            Ok(Err(_)) => Ok(()),
            Err(_) => Err(SheetError::Memory),
        }
    }

    /// Appends the rules of the part of a sheet that was read last, in this layer and this style rule.
    pub(crate) fn push_part(
        &mut self,
        alloc: Global,
        part: &Part<'a>,
        layer: usize,
        parent: &Parent<'_, 'a>,
        reader: &SheetParts<'_, 'a>,
    ) -> Result<(), SheetError>
        ensures no_layers { IfErr result (λ error. error ≡ TooManyLayers → ⊥) }
        ensures gathers { Gathers self.old result self.new
            (part_rules layer (parent_of parent.now) (placed_last reader.now (part_of part.now))) }
    {
        match part {
            Part::States(text) if reader.applies() => match parent {
                Parent::Style(rule) => {
                    let run = Run {
                        layer,
                        sheet: reader.sheet,
                        start: reader.end().saturating_sub(text.len()),
                        text: *text,
                    };
                    self.push_stated(alloc, rule, run)
                }
                _ => Ok(()),
            },
            _ => Ok(()),
        }
    }
}
