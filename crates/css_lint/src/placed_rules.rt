//! The rules of a sheet that have declarations, and these declarations, with their places.
ghost use Rattle.std.specs.Prelude.{◌≡◌, ◌++◌, IfOk, OnOk, map};
ghost use Rattle.std.specs.Option.{option_map};
ghost use Rattle.css_syntax.specs.Views.{block_of, item_of, prelude_of, statement_of};
ghost use Rattle.css_lint.specs.PlacedRules.{inner_rule, inner_rules as inner_rules_of};
ghost use Rattle.css_lint.specs.PlacedRules.{is_keyframes as is_keyframes_of, is_scope as is_scope_of};
ghost use Rattle.css_lint.specs.PlacedRules.{keyframes as keyframes_of, rules_if};
ghost use Rattle.css_lint.specs.PlacedRules.{set_of_item, sets_in as sets_in_of, style_rules as style_rules_of};
ghost use Rattle.css_lint.specs.PlacedViews.{rule_at, set_of};

use crate::at_rules::is_one_of;
use css_syntax::declarations::read_part;
use css_syntax::statements::read_next;
use css_syntax::{Block, Item, Prelude, Statement};
use std::alloc::{AllocError, Global};

/// The at-rules with keyframes.
const KEYFRAMES: [&str; 5] = [
    "keyframes",
    "-webkit-keyframes",
    "-moz-keyframes",
    "-o-keyframes",
    "-ms-keyframes",
];
/// The at-rules with style rules that are no group rules.
const SCOPES: [&str; 2] = ["scope", "starting-style"];

/// A declaration.
#[derive(Clone, Copy)]
pub(crate) struct Setting<'t> {
    /// The name of its property.
    pub(crate) name: &'t str,
    /// Whether it is important.
    pub(crate) important: bool,
    /// The offset of its first byte.
    pub(crate) start: usize,
    /// How many bytes it has.
    pub(crate) size: usize,
}

/// A rule with declarations.
#[derive(Clone, Copy)]
pub(crate) struct DeclaringRule<'t> {
    /// Its selectors.
    pub(crate) prelude: Prelude<'t>,
    /// The offset at which they begin.
    pub(crate) start: usize,
    /// What is in its block.
    pub(crate) text: &'t str,
    /// The offset at which that ends.
    pub(crate) end: usize,
}

/// Appends an item, which begins at this offset and has as many bytes, if it is a declaration.
fn push_set<'t>(
    sets: &mut Vec<Setting<'t>>,
    item: &Item<'t>,
    start: usize,
    size: usize,
) -> Result<(), AllocError>
    ensures { OnOk result (map set_of sets.new.items
        ≡ map set_of sets.old.items ++ set_of_item start size (item_of item.now)) }
{
    if let Item::Declaration(one) = item {
        sets.push(Setting {
            name: one.name,
            important: one.important,
            start,
            size,
        })?;
    }
    Ok(())
}

/// Returns the declarations of a style attribute, or of the contents of a block, which ends at this offset.
pub(crate) fn sets_in<'t>(
    alloc: Global,
    text: &'t str,
    in_block: bool,
    end: usize,
) -> Result<Vec<Setting<'t>>, AllocError>
    ensures { IfOk result (λ sets. map set_of sets.items ≡ sets_in_of in_block end text.now) }
{
    let mut sets = Vec::new(alloc);
    let mut rest = text;
    'items: while let Some(found) = read_part(rest, in_block) {
        let start = end.saturating_sub(found.from.len());
        push_set(&mut sets, &found.part.item, start, found.part.text.len())?;
        rest = found.rest;
    }
    Ok(sets)
}

/// Appends a statement that begins at this offset, if it is a rule set. The contents of its block begin at
/// the other one.
fn push_inner<'t>(
    rules: &mut Vec<DeclaringRule<'t>>,
    statement: &Statement<'t>,
    start: usize,
    inside: usize,
) -> Result<(), AllocError>
    ensures { OnOk result (map rule_at rules.new.items ≡ map rule_at rules.old.items
        ++ inner_rule start inside (statement_of statement.now)) }
{
    if let Statement::RuleSet(rule) = statement {
        rules.push(DeclaringRule {
            prelude: rule.prelude,
            start,
            text: rule.block.text,
            end: inside.saturating_add(rule.block.text.len()),
        })?;
    }
    Ok(())
}

/// Returns the rule sets directly in a block, whose contents end at this offset.
fn inner_rules<'t>(
    alloc: Global,
    text: &'t str,
    end: usize,
) -> Result<Vec<DeclaringRule<'t>>, AllocError>
    ensures { IfOk result (λ rules. map rule_at rules.items ≡ inner_rules_of end text.now) }
{
    let mut rules = Vec::new(alloc);
    let mut rest = text;
    'statements: while let Some(found) = read_next(rest, true) {
        let start = end.saturating_sub(found.from.len());
        let inside = end.saturating_sub(found.inside.len());
        push_inner(&mut rules, &found.part.statement, start, inside)?;
        rest = found.rest;
    }
    Ok(rules)
}

/// Returns the rule sets directly in the block of an at-rule, if that is asked for.
fn rules_in<'t>(
    alloc: Global,
    asked: bool,
    block: Option<&Block<'t>>,
    end: usize,
) -> Result<Vec<DeclaringRule<'t>>, AllocError>
    ensures { IfOk result (λ rules. map rule_at rules.items
        ≡ rules_if asked end (option_map (λ found. block_of found.now) block.entry)) }
{
    match block {
        Some(found) if asked => inner_rules(alloc, found.text, end),
        _ => Ok(Vec::new(alloc)),
    }
}

/// Whether an at-rule of this name has keyframes.
fn is_keyframes(name: &str) -> bool
    ensures { result ≡ is_keyframes_of name.now }
{
    is_one_of(&KEYFRAMES, name)
}

/// Whether an at-rule of this name has style rules, and is no group rule.
fn is_scope(name: &str) -> bool
    ensures { result ≡ is_scope_of name.now }
{
    is_one_of(&SCOPES, name)
}

/// Returns the style rules that a statement is or has. Its prelude begins at an offset, and the contents of
/// its block end at the other one.
pub(crate) fn style_rules<'t>(
    alloc: Global,
    statement: &Statement<'t>,
    start: usize,
    end: usize,
) -> Result<Vec<DeclaringRule<'t>>, AllocError>
    ensures { IfOk result (λ rules. map rule_at rules.items
        ≡ style_rules_of start end (statement_of statement.now)) }
{
    match statement {
        Statement::RuleSet(rule) => {
            let mut rules = Vec::new(alloc);
            rules.push(DeclaringRule {
                prelude: rule.prelude,
                start,
                text: rule.block.text,
                end,
            })?;
            Ok(rules)
        }
        Statement::AtRule(rule) => rules_in(alloc, is_scope(rule.name), rule.block.as_ref(), end),
        Statement::Skipped(_) => Ok(Vec::new(alloc)),
    }
}

/// Returns the keyframes that a statement has. The contents of its block end at this offset.
pub(crate) fn keyframes<'t>(
    alloc: Global,
    statement: &Statement<'t>,
    end: usize,
) -> Result<Vec<DeclaringRule<'t>>, AllocError>
    ensures { IfOk result (λ rules. map rule_at rules.items
        ≡ keyframes_of end (statement_of statement.now)) }
{
    match statement {
        Statement::AtRule(rule) => {
            rules_in(alloc, is_keyframes(rule.name), rule.block.as_ref(), end)
        }
        Statement::RuleSet(_) | Statement::Skipped(_) => Ok(Vec::new(alloc)),
    }
}
