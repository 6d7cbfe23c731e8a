//! The rules of a sheet that are too late to count.
ghost use Rattle.std.specs.Prelude.{◌≡◌, ◌++◌, ◌||◌, ℕ, IfOk, OnOk, map};
ghost use Rattle.std.specs.BTreeSet.{contains};
ghost use Rattle.std.specs.Ordering.{nat_cmp};
ghost use Rattle.css_syntax.specs.Views.{at_rule_of, statement_of};
ghost use Rattle.css_sheet.specs.ImportViews.{import_of};
ghost use Rattle.css_sheet.specs.ReaderViews.{condition_at, level_of};
ghost use Rattle.css_lint.specs.Late.{ends_front as ends_front_of, is_block_rule as is_block_rule_of};
ghost use Rattle.css_lint.specs.Late.{is_in_force, is_some_around, is_statement as is_statement_of};
ghost use Rattle.css_lint.specs.Late.{late_in, late_kind as late_kind_of, place_if};
ghost use Rattle.css_lint.specs.Places.{place_of};

use crate::at_rules::is_one_of;
use crate::findings::Finding;
use crate::kinds::Kind;
use css_sheet::{Import, Level};
use css_syntax::texts::spells;
use css_syntax::{AtRule, Statement};
use std::alloc::{AllocError, Global};
use std::collections::BTreeSet;

/// The at-rules whose blocks browsers know, but those with statements in them.
const BLOCK_RULES: [&str; 13] = [
    "counter-style",
    "font-face",
    "font-feature-values",
    "font-palette-values",
    "function",
    "keyframes",
    "-webkit-keyframes",
    "page",
    "position-try",
    "property",
    "scope",
    "starting-style",
    "view-transition",
];

/// Whether browsers know the block of an at-rule with this name.
fn is_block_rule(name: &str) -> bool
    ensures { result ≡ is_block_rule_of name.now }
{
    is_one_of(&BLOCK_RULES, name)
}

/// Whether a statement is a rule that no `@namespace` may follow.
fn ends_front(statement: &Statement<'_>) -> bool
    ensures { result ≡ ends_front_of (statement_of statement.now) }
{
    match statement {
        Statement::RuleSet(_) => true,
        Statement::AtRule(rule) => match &rule.block {
            Some(_) => is_block_rule(rule.name),
            None => false,
        },
        Statement::Skipped(_) => false,
    }
}

/// Whether an at-rule has this name and no block.
fn is_statement(keyword: &str, rule: &AtRule<'_>) -> bool
    ensures { result ≡ is_statement_of keyword.now (at_rule_of rule.now) }
{
    match &rule.block {
        Some(_) => false,
        None => spells(keyword, rule.name),
    }
}

/// Returns what is too late of an at-rule that begins at an offset, which an import in force does or does
/// not, and which follows a rule or does not.
fn late_kind(in_force: bool, follows: bool, rule: &AtRule<'_>, start: usize) -> Option<Kind>
    ensures { result ≡ late_kind_of in_force follows (at_rule_of rule.now) start }
{
    if is_statement("namespace", rule) {
        if follows {
            Some(Kind::LateNamespace)
        } else {
            None
        }
    } else if start == 0 {
        None
    } else if is_statement("charset", rule) {
        Some(Kind::LateCharset)
    } else if is_statement("import", rule) && !in_force {
        Some(Kind::LateImport)
    } else {
        None
    }
}

/// Appends a statement that begins at an offset and has as many bytes, if it is too late.
pub(crate) fn push_late(
    found: &mut Vec<Finding>,
    in_force: bool,
    follows: bool,
    statement: &Statement<'_>,
    start: usize,
    size: usize,
) -> Result<(), AllocError>
    ensures { OnOk result (map place_of found.new.items ≡ map place_of found.old.items
        ++ place_if start size (late_in in_force follows (statement_of statement.now) start)) }
{
    if let Statement::AtRule(rule) = statement {
        if let Some(kind) = late_kind(in_force, follows, rule, start) {
            found.push(Finding::sized(kind, start, size))?;
        }
    }
    Ok(())
}

/// Whether an item follows a rule, if it is not in group rules, which are rules.
pub(crate) fn follows_at(follows: bool, levels: &[Level<'_>]) -> bool
    ensures { result ≡ (follows
        || is_some_around (map (λ level. condition_at (level_of level)) levels.now)) }
{
    follows || !levels.is_empty()
}

/// Whether what is after a statement follows a rule, where the statement does or does not.
pub(crate) fn follows_after(follows: bool, statement: &Statement<'_>) -> bool
    ensures { result ≡ (follows || ends_front_of (statement_of statement.now)) }
{
    follows || ends_front(statement)
}

/// Returns the offsets at which imports begin.
pub(crate) fn starts_of(
    alloc: Global,
    imports: &[Import<'_>],
) -> Result<BTreeSet<usize>, AllocError>
    ensures { (start : ℕ) → IfOk result (λ starts. contains nat_cmp starts start
        ≡ is_in_force (map import_of imports.now) start) }
{
    let mut starts = BTreeSet::new(alloc);
    let mut left = imports;
    'imports: while let [import, others @ ..] = left {
        starts.insert(import.start)?;
        left = others;
    }
    Ok(starts)
}
