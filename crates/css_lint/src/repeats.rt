//! What a sheet says again.
ghost use Rattle.std.specs.Prelude.{◌≡◌, ◌++◌, IfOk, OnOk, map};
ghost use Rattle.std.specs.Option.{option_map};
ghost use Rattle.css_syntax.specs.Views.{prelude_of, statement_of};
ghost use Rattle.css_sheet.specs.ImportViews.{import_of, layer_of};
ghost use Rattle.css_sheet.specs.ReaderViews.{condition_at, level_of};
ghost use Rattle.css_lint.specs.Keys.{keyed_of, repeated, spaced};
ghost use Rattle.css_lint.specs.Places.{place_of};
ghost use Rattle.css_lint.specs.Repeats.{condition_key, import_key as import_key_of, innermost_start as innermost_start_of};
ghost use Rattle.css_lint.specs.Repeats.{keyed_import, keyed_statement, layer_key, rule_key as rule_key_of};

use crate::findings::Finding;
use crate::keys::{Keyed, push_bytes, push_spaced, repeated_places};
use crate::kinds::Kind;
use css_sheet::{Import, ImportLayer, ImportUrl, Level};
use css_syntax::{Prelude, Statement};
use std::alloc::{AllocError, Global};

/// A number that no byte is, between two texts.
const BETWEEN: usize = 256;
/// A layer without a name.
const ANONYMOUS: usize = 257;
/// A layer with a name, which follows.
const NAMED: usize = 258;

/// Appends which layer an import is in.
fn push_layer(out: &mut Vec<usize>, layer: ImportLayer<'_>) -> Result<(), AllocError>
    ensures { OnOk result (out.new.items ≡ out.old.items ++ layer_key (layer_of layer.entry)) }
{
    match layer {
        ImportLayer::Unlayered => Ok(()),
        ImportLayer::Anonymous => Ok(out.push(ANONYMOUS)?),
        ImportLayer::Named(name) => {
            out.push(NAMED)?;
            push_spaced(out, name)
        }
    }
}

/// Appends a condition, if there is one.
fn push_condition(out: &mut Vec<usize>, condition: Option<&str>) -> Result<(), AllocError>
    ensures { OnOk result (out.new.items ≡ out.old.items
        ++ condition_key (option_map (λ text. text.now) condition.entry)) }
{
    match condition {
        None => Ok(()),
        Some(text) => push_spaced(out, text),
    }
}

/// Returns what an import says.
fn import_key(alloc: Global, import: &Import<'_>) -> Result<Vec<usize>, AllocError>
    ensures { IfOk result (λ key. key.items ≡ import_key_of (import_of import.now)) }
{
    let mut key = Vec::new(alloc);
    match import.url {
        ImportUrl::Quoted(text) => push_bytes(&mut key, text)?,
        ImportUrl::Bare(text) => push_bytes(&mut key, text)?,
    }
    key.push(BETWEEN)?;
    push_layer(&mut key, import.layer)?;
    key.push(BETWEEN)?;
    push_condition(&mut key, import.supports)?;
    key.push(BETWEEN)?;
    push_spaced(&mut key, import.media)?;
    Ok(key)
}

/// Returns the imports that say the same as one before.
pub(crate) fn repeated_imports(
    alloc: Global,
    imports: &[Import<'_>],
) -> Result<Vec<Finding>, AllocError>
    ensures { IfOk result (λ found. map place_of found.items
        ≡ repeated (map keyed_import (map import_of imports.now))) }
{
    let mut all = Vec::new(alloc);
    let mut left = imports;
    'imports: while let [import, others @ ..] = left {
        all.push(Keyed {
            key: import_key(alloc, import)?,
            found: Finding::sized(Kind::RepeatedImport, import.start, import.size),
        })?;
        left = others;
    }
    repeated_places(alloc, &all)
}

/// Returns where the innermost of group rules begins.
fn innermost_start(levels: &[Level<'_>]) -> usize
    ensures { result ≡ innermost_start_of (map (λ level. condition_at (level_of level)) levels.now) }
{
    match levels.last() {
        None => 0,
        Some(level) => level.places.start,
    }
}

/// Returns what a rule set in group rules says.
fn rule_key(
    alloc: Global,
    levels: &[Level<'_>],
    prelude: &Prelude<'_>,
) -> Result<Vec<usize>, AllocError>
    ensures { IfOk result (λ key. key.items
        ≡ rule_key_of (map (λ level. condition_at (level_of level)) levels.now) (prelude_of prelude.now)) }
{
    let mut key = Vec::with_capacity(alloc, prelude.text.len().saturating_add(2))?;
    key.push(levels.len())?;
    key.push(innermost_start(levels))?;
    push_spaced(&mut key, prelude.text)?;
    Ok(key)
}

/// Appends a statement in group rules, if it is a rule set. Its prelude begins at this offset.
pub(crate) fn push_rule(
    all: &mut Vec<Keyed>,
    alloc: Global,
    levels: &[Level<'_>],
    statement: &Statement<'_>,
    start: usize,
) -> Result<(), AllocError>
    ensures { OnOk result (map keyed_of all.new.items ≡ map keyed_of all.old.items
        ++ keyed_statement (map (λ level. condition_at (level_of level)) levels.now) start
        (statement_of statement.now)) }
{
    if let Statement::RuleSet(rule) = statement {
        all.push(Keyed {
            key: rule_key(alloc, levels, &rule.prelude)?,
            found: Finding::sized(Kind::RepeatedRule, start, rule.prelude.text.len()),
        })?;
    }
    Ok(())
}
