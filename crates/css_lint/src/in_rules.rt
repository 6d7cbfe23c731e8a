//! What is wrong within the rules of a sheet.
ghost use Rattle.std.specs.Prelude.{◌≡◌, ◌++◌, IfOk, OnOk, length, map};
ghost use Rattle.std.specs.List.{flat_map};
ghost use Rattle.css_syntax.specs.Views.{prelude_of, statement_of};
ghost use Rattle.css_selector_text.specs.NameViews.{names_of};
ghost use Rattle.css_selector_text.specs.reading.ReadViews.{placed_of};
ghost use Rattle.css_sheet.specs.Places.{places_of};
ghost use Rattle.css_sheet.specs.RuleSelectors.{text_between};
ghost use Rattle.css_lint.specs.InRules.{has_comma as has_comma_of, keyed_selector};
ghost use Rattle.css_lint.specs.InRules.{repeated_selectors as repeated_selectors_of, statement_places, style_rule_places};
ghost use Rattle.css_lint.specs.Keys.{keyed_of, spaced};
ghost use Rattle.css_lint.specs.Places.{place_of};
ghost use Rattle.css_lint.specs.PlacedViews.{rule_at};

use crate::findings::Finding;
use crate::in_blocks::{push_keyframes, repeated_in_block};
use crate::keys::{Keyed, push_spaced, repeated_places};
use crate::kinds::Kind;
use crate::placed_rules::{DeclaringRule, keyframes, style_rules};
use css_selector_text::{Listed, Names};
use css_sheet::{Places, read_listed};
use css_syntax::{Prelude, Statement};
use std::alloc::{AllocError, Global};

/// Returns the text of a selector of a list.
fn listed_text<'t>(listed: &Listed<'t>) -> &'t str
    ensures { result.now ≡ text_between listed.now.from.now listed.now.to.now }
{
    let count = listed.from.len().saturating_sub(listed.to.len());
    if listed.from.is_char_boundary(count) {
        &listed.from[..count]
    } else {
        ""
    }
}

/// Returns a text with one space for each run of white space, as a key.
fn spaced_key(alloc: Global, text: &str) -> Result<Vec<usize>, AllocError>
    ensures { IfOk result (λ key. key.items ≡ spaced text.now) }
{
    let mut key = Vec::with_capacity(alloc, text.len())?;
    push_spaced(&mut key, text)?;
    Ok(key)
}

/// Returns the selectors of a list that ends at this offset, with what they say.
fn keyed_selectors(
    alloc: Global,
    selectors: &[Listed<'_>],
    end: usize,
) -> Result<Vec<Keyed>, AllocError>
    ensures { IfOk result (λ all. map keyed_of all.items
        ≡ map (keyed_selector end) (map placed_of selectors.now)) }
{
    let mut all = Vec::new(alloc);
    let mut left = selectors;
    'selectors: while let [one, others @ ..] = left {
        let start = end.saturating_sub(one.from.len());
        let size = one.from.len().saturating_sub(one.to.len());
        all.push(Keyed {
            key: spaced_key(alloc, listed_text(one))?,
            found: Finding::sized(Kind::RepeatedSelector, start, size),
        })?;
        left = others;
    }
    Ok(all)
}

/// Whether a comma is in a text.
fn has_comma(text: &str) -> bool
    ensures { result ≡ has_comma_of text.now }
{
    text.as_bytes().contains(&b',')
}

/// Returns the selectors of a rule that are in its list again, where a sheet declares these names. They
/// begin at this offset.
fn repeated_selectors(
    alloc: Global,
    names: &Names<'_>,
    prelude: &Prelude<'_>,
    start: usize,
) -> Result<Vec<Finding>, AllocError>
    ensures { IfOk result (λ found. map place_of found.items
        ≡ repeated_selectors_of (names_of names.now) start (prelude_of prelude.now)) }
{
    if !has_comma(prelude.text) {
        return Ok(Vec::new(alloc));
    }
    let end = start.saturating_add(prelude.text.len());
    match read_listed(alloc, names, None, prelude)? {
        Ok(selectors) => repeated_places(alloc, &keyed_selectors(alloc, &selectors, end)?),
        Err(_) => Ok(Vec::new(alloc)),
    }
}

/// Appends what is wrong within a style rule, where a sheet declares these names.
fn push_style_rule(
    found: &mut Vec<Finding>,
    alloc: Global,
    names: &Names<'_>,
    rule: &DeclaringRule<'_>,
) -> Result<(), AllocError>
    ensures { OnOk result (map place_of found.new.items
        ≡ map place_of found.old.items ++ style_rule_places (names_of names.now) (rule_at rule.now)) }
{
    let selectors = repeated_selectors(alloc, names, &rule.prelude, rule.start)?;
    found.extend_from_slice(&selectors)?;
    found.extend_from_slice(&repeated_in_block(alloc, rule.text, rule.end)?)?;
    Ok(())
}

/// Appends what is wrong within style rules.
fn push_style_rules(
    found: &mut Vec<Finding>,
    alloc: Global,
    names: &Names<'_>,
    rules: &[DeclaringRule<'_>],
) -> Result<(), AllocError>
    ensures { OnOk result (map place_of found.new.items ≡ map place_of found.old.items
        ++ flat_map (style_rule_places (names_of names.now)) (map rule_at rules.now)) }
{
    let mut left = rules;
    'rules: while let [rule, others @ ..] = left {
        push_style_rule(found, alloc, names, rule)?;
        left = others;
    }
    Ok(())
}

/// Appends what is wrong within the rules that a statement is or has, where a sheet declares these names.
pub(crate) fn push_statement(
    found: &mut Vec<Finding>,
    alloc: Global,
    names: &Names<'_>,
    statement: &Statement<'_>,
    places: Places,
) -> Result<(), AllocError>
    ensures { OnOk result (map place_of found.new.items ≡ map place_of found.old.items
        ++ statement_places (names_of names.now) (places_of places) (statement_of statement.now)) }
{
    let rules = style_rules(alloc, statement, places.prelude, places.block_end)?;
    push_style_rules(found, alloc, names, &rules)?;
    push_keyframes(
        found,
        alloc,
        &keyframes(alloc, statement, places.block_end)?,
    )
}
