//! The `@import` rules at the front of a sheet.
ghost use Rattle.std.specs.Prelude.{◌≡◌, List, IfOk, None, map};
ghost use Rattle.css_syntax.specs.Views.{prelude_of, statement_of};
ghost use Rattle.css_selector_text.specs.NameViews.{names_of};
ghost use Rattle.css_sheet.specs.Imports.{is_block_rule as is_block_rule_of};
ghost use Rattle.css_sheet.specs.Imports.{is_font_rule as is_font_rule_of, is_outer_rule as is_outer_rule_of};
ghost use Rattle.css_sheet.specs.Imports.{is_animation_rule as is_animation_rule_of};
ghost use Rattle.css_sheet.specs.Imports.{is_definition_rule as is_definition_rule_of};
ghost use Rattle.css_sheet.specs.Imports.{other_if};
ghost use Rattle.css_sheet.specs.Imports.{statement_rule as statement_rule_of, block_rule as block_rule_of};
ghost use Rattle.css_sheet.specs.Imports.{rule_in_front, sheet_imports, FrontRule as FrontRuleText};
ghost use Rattle.css_sheet.specs.ImportViews.{import_of};
ghost use Rattle.css_sheet.specs.internal.FrontViews.{front_rule_of, TakesRule};
ghost use Rattle.css_sheet.specs.RuleSelectors.{context, is_listed, listed_under};

use crate::import_rules::{Import, read_import, read_url};
use crate::namespace_rules::{FoundNamespace, read_namespace};
use crate::open_layers::is_layer;
use crate::selectors::read_listed;
use css_cascade::{is_block_name, read_layer_names};
use css_selector_text::{NO_NAMES, Names};
use css_syntax::statements::read_next;
use css_syntax::texts::spells;
use css_syntax::{AtRule, Prelude, Statement};
use std::alloc::{AllocError, Global};

/// What a statement is to the imports and the namespace rules after it.
#[derive(Clone, Copy)]
pub(crate) enum FrontRule<'a> {
    /// An import.
    Import(Import<'a>),
    /// A namespace rule, which no import may follow.
    Namespace(FoundNamespace<'a>),
    /// Names of layers, which may be before the first import or namespace rule.
    LayerList,
    /// Another rule, which none of these may follow.
    OtherRule,
    /// Nothing, since it is invalid or unknown.
    NoRule,
}

/// Returns another rule, if it is valid.
fn other_rule<'a>(is_valid: bool) -> FrontRule<'a>
    ensures { front_rule_of result ≡ other_if is_valid }
{
    if is_valid {
        FrontRule::OtherRule
    } else {
        FrontRule::NoRule
    }
}

/// Whether an at-rule of this name is about fonts.
#[tactic(auto, unfolding(crate::specs::Imports::is_font_rule))]
fn is_font_rule(name: &str) -> bool
    ensures { result ≡ is_font_rule_of name.now }
{
    spells("font-face", name)
        || spells("font-feature-values", name)
        || spells("font-palette-values", name)
}

/// Whether rules are in an at-rule of this name, which is not `layer`.
#[tactic(auto, unfolding(crate::specs::Imports::is_outer_rule))]
fn is_outer_rule(name: &str) -> bool
    ensures { result ≡ is_outer_rule_of name.now }
{
    spells("media", name)
        || spells("supports", name)
        || spells("container", name)
        || spells("scope", name)
        || spells("starting-style", name)
}

/// Whether an at-rule of this name is about what moves.
#[tactic(auto, unfolding(crate::specs::Imports::is_animation_rule))]
fn is_animation_rule(name: &str) -> bool
    ensures { result ≡ is_animation_rule_of name.now }
{
    spells("keyframes", name)
        || spells("-webkit-keyframes", name)
        || spells("view-transition", name)
}

/// Whether an at-rule of this name is another one with a block.
#[tactic(auto, unfolding(crate::specs::Imports::is_definition_rule))]
fn is_definition_rule(name: &str) -> bool
    ensures { result ≡ is_definition_rule_of name.now }
{
    spells("page", name)
        || spells("property", name)
        || spells("counter-style", name)
        || spells("position-try", name)
        || spells("function", name)
}

/// Whether an at-rule of this name, which is not `layer`, has a block.
fn is_block_rule(name: &str) -> bool
    ensures { result ≡ is_block_rule_of name.now }
{
    is_outer_rule(name) || is_font_rule(name) || is_animation_rule(name) || is_definition_rule(name)
}

/// Returns what an at-rule without a block is.
#[tactic(auto, unfolding(crate::specs::Imports::statement_rule))]
fn statement_rule<'a>(
    alloc: Global,
    start: usize,
    size: usize,
    rule: &AtRule<'a>,
) -> Result<FrontRule<'a>, AllocError>
    ensures { IfOk result (λ found. front_rule_of found
        ≡ statement_rule_of start size rule.now.name.now rule.now.prelude.text.now) }
{
    let prelude = rule.prelude.text;
    if spells("import", rule.name) {
        return match read_url(prelude) {
            Some(url) => Ok(FrontRule::Import(read_import(start, size, url))),
            None => Ok(FrontRule::NoRule),
        };
    }
    if is_layer(rule.name) {
        return match read_layer_names(alloc, prelude)? {
            Some(_) => Ok(FrontRule::LayerList),
            None => Ok(FrontRule::NoRule),
        };
    }
    if !spells("namespace", rule.name) {
        return Ok(FrontRule::NoRule);
    }
    match read_namespace(prelude) {
        Some(found) => Ok(FrontRule::Namespace(found)),
        None => Ok(FrontRule::NoRule),
    }
}

/// Returns what an at-rule with a block is.
#[tactic(auto, unfolding(crate::specs::Imports::block_rule))]
fn block_rule<'a>(rule: &AtRule<'_>) -> FrontRule<'a>
    ensures { front_rule_of result ≡ block_rule_of rule.now.name.now rule.now.prelude.text.now }
{
    if is_layer(rule.name) {
        other_rule(is_block_name(rule.prelude.text))
    } else {
        other_rule(is_block_rule(rule.name))
    }
}

/// Returns what a rule set with this prelude is, where these names are declared.
fn rule_set<'a>(
    alloc: Global,
    names: &Names<'_>,
    prelude: &Prelude<'_>,
) -> Result<FrontRule<'a>, AllocError>
    ensures { IfOk result (λ found. front_rule_of found
        ≡ other_if (is_listed (listed_under (context None (names_of names.now))
        (prelude_of prelude.now)))) }
{
    match read_listed(alloc, names, None, prelude)? {
        Ok(_) => Ok(FrontRule::OtherRule),
        Err(_) => Ok(FrontRule::NoRule),
    }
}

/// Returns what a statement is that begins at this offset and has as many bytes, where these names are
/// declared.
pub(crate) fn front_rule<'a>(
    alloc: Global,
    names: &Names<'_>,
    start: usize,
    size: usize,
    statement: &Statement<'a>,
) -> Result<FrontRule<'a>, AllocError>
    ensures { IfOk result (λ found. front_rule_of found
        ≡ rule_in_front (names_of names.now) start size (statement_of statement.now)) }
{
    match statement {
        Statement::RuleSet(rule) => rule_set(alloc, names, &rule.prelude),
        Statement::AtRule(rule) if rule.block.is_some() => Ok(block_rule(rule)),
        Statement::AtRule(rule) => statement_rule(alloc, start, size, rule),
        Statement::Skipped(_) => Ok(FrontRule::NoRule),
    }
}

/// Adds an import. Returns whether others may follow this rule.
fn push_rule<'a>(imports: &mut Vec<Import<'a>>, rule: FrontRule<'a>) -> Result<bool, AllocError>
    ensures { IfOk result (λ others_may. (rules : List FrontRuleText)
        → TakesRule others_may imports.old.items (front_rule_of rule.entry) rules imports.new.items) }
{
    match rule {
        FrontRule::Import(import) => {
            imports.push(import)?;
            Ok(true)
        }
        FrontRule::LayerList => Ok(imports.is_empty()),
        FrontRule::Namespace(_) => Ok(false),
        FrontRule::OtherRule => Ok(false),
        FrontRule::NoRule => Ok(true),
    }
}

/// Reads the `@import` rules of a sheet that are in force, in order.
///
/// No valid rule may be before them, but for `@layer` with names only, and that only before the
/// first of them. An import without a url is invalid, and so is one with a block. `layer(..)` with
/// what is no name of a layer begins the media queries. Time and memory are linear in the length of
/// the sheet. Fails only if an allocation fails.
pub fn read_imports<'a>(alloc: Global, text: &'a str) -> Result<Vec<Import<'a>>, AllocError>
    ensures { IfOk result (λ imports. map import_of imports.items ≡ sheet_imports text.now) }
{
    let mut imports = Vec::new(alloc);
    let mut rest = text;
    'statements: while let Some(found) = read_next(rest, false) {
        let start = text.len() - found.from.len();
        let size = found.part.text.len();
        let rule = front_rule(alloc, &NO_NAMES, start, size, &found.part.statement)?;
        if !push_rule(&mut imports, rule)? {
            return Ok(imports);
        }
        rest = found.rest;
    }
    Ok(imports)
}
