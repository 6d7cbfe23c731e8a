//! The declarations of a property, the strongest first, each with why it loses to the one before it.
ghost use Rattle.std.specs.Prelude.{◌≡◌, IfOk, None, OnOk, map, option_map};
ghost use Rattle.css_text.specs.AsciiBytes.{hyphen};
ghost use Rattle.css_text.specs.Bytes.{starts_two};
ghost use Rattle.css_cascade.specs.Cascade.{cascade_cmp as cascade_cmp_of};
ghost use Rattle.css_cascade.specs.WeightViews.{weighed};
ghost use Rattle.css_sheet.specs.SheetRuleViews.{sheet_rule_of};
ghost use Rattle.css_styles.specs.Contenders.{is_named as is_named_of, is_property as is_property_of};
ghost use Rattle.css_styles.specs.Contenders.{of_names};
ghost use Rattle.css_styles.specs.StyleViews.{own_of};
ghost use Rattle.css_explain.specs.Explanations.{explanation, losing, lost_by as lost_by_of, strongest_first};
ghost use Rattle.css_explain.specs.ExplainViews.{explained_of};
ghost use Rattle.css_explain.specs.internal.Parts.{contender_of};

use crate::contenders::Contender;
use crate::criterion::{Criterion, criterion_between};
use crate::gathering::gather;
use css_cascade::{Weight, cascade_cmp};
use css_sheet::SheetRule;
use css_styles::{Own, Winner};
use std::alloc::{AllocError, Global};
use std::cmp::Ordering;

/// A declaration that applies to an element, and why it loses.
#[derive(Clone, Copy, Debug, PartialEq)]
pub struct Explained<'a> {
    /// What the cascade sees of it.
    pub weight: Weight,
    /// The declaration, and where it is.
    pub winner: Winner<'a>,
    /// The criterion by which it loses to the one before it. The first, which is the strongest, has none.
    pub lost_by: Option<Criterion>,
}

/// Whether the name is that of a custom property.
fn is_custom(name: &str) -> bool
    ensures { result ≡ starts_two hyphen hyphen name.now }
{
    matches!(name.as_bytes(), [b'-', b'-', ..])
}

/// Whether the name is that of the property.
fn is_property(property: &str, name: &str) -> bool
    ensures { result ≡ is_property_of property.now name.now }
{
    if is_custom(property) {
        name == property
    } else {
        name.eq_ignore_ascii_case(property)
    }
}

/// Whether the name is that of one of the properties.
fn is_named(properties: &[&str], name: &str) -> bool
    ensures { result ≡ is_named_of (map (λ property. property.now) properties.now) name.now }
{
    let mut rest = properties;
    'properties: while let [property, more @ ..] = rest {
        if is_property(*property, name) {
            return true;
        }
        rest = more;
    }
    false
}

/// Leaves the declarations that have one of these names.
fn pick(names: &[&str], found: &mut Vec<Contender<'_>>)
    ensures { map contender_of found.new.items
        ≡ of_names (map (λ name. name.now) names.now) (map contender_of found.old.items) }
{
    found.retain(
        |one: &Contender<'_>| -> bool
            ensures { result ≡ is_named_of (map (λ name. name.now) names.entry.now)
                one.now.winner.declaration.name.now }
        { is_named(names, one.winner.declaration.name) },
    );
}

/// Puts these in the order of the cascade, the strongest first.
fn put_in_order(found: &mut Vec<Contender<'_>>) -> Result<(), AllocError>
    ensures { OnOk result (map contender_of found.new.items
        ≡ strongest_first (map contender_of found.old.items)) }
{
    found.sort_by(
        |one: &Contender<'_>, other: &Contender<'_>| -> Ordering
            ensures { result ≡ cascade_cmp_of (weighed one.now.weight) (weighed other.now.weight) }
        { cascade_cmp(&one.weight, &other.weight) },
    )?;
    found.reverse();
    Ok(())
}

/// Returns the criterion by which a declaration loses to the one before it, if there is one.
fn lost_by(before: &Option<Weight>, one: &Weight) -> Option<Criterion>
    ensures { result ≡ lost_by_of (option_map weighed before.now) (weighed one.now) }
{
    match before {
        Some(stronger) => Some(criterion_between(stronger, one)),
        None => None,
    }
}

/// Returns each of these with the criterion by which it loses to the one before it.
fn compare<'a>(alloc: Global, found: &[Contender<'a>]) -> Result<Vec<Explained<'a>>, AllocError>
    ensures { IfOk result (λ all. map explained_of all.items ≡ losing None (map contender_of found.now)) }
{
    let mut all = Vec::with_capacity(alloc, found.len())?;
    let mut before: Option<Weight> = None;
    let mut left = found;
    'found: while let [one, more @ ..] = left {
        all.push(Explained {
            weight: one.weight,
            winner: one.winner,
            lost_by: lost_by(&before, &one.weight),
        })?;
        before = Some(one.weight);
        left = more;
    }
    Ok(all)
}

/// Returns all declarations of the property of these names that apply to an element, the strongest first, each
/// with the criterion by which it loses to the one before it. The rules at these indices, of rules in the order of
/// the cascade, match the element, and it has these declarations of its own. Fails only if an allocation fails.
///
/// A property has one name or several, as a longhand and the shorthands that set it. Of those that are as
/// strong the one that is gathered last is first. If the first is `revert` or `revert-layer`, it is rolled back:
/// what wins is the first that is of an earlier origin or layer. Rules with a pseudo-element do not apply to
/// the element, and neither do indices past the last rule. The time grows as n log n of the declarations of these
/// rules and of the element, and as these times the names.
pub fn explain<'a>(
    alloc: Global,
    rules: &[SheetRule<'a>],
    indices: &[usize],
    own: Own<'a>,
    names: &[&str],
) -> Result<Vec<Explained<'a>>, AllocError>
    ensures { IfOk result (λ all. map explained_of all.items
        ≡ explanation (map sheet_rule_of rules.now) indices.now (own_of own.entry)
        (map (λ name. name.now) names.now)) }
{
    let mut found = gather(alloc, rules, indices, own)?;
    pick(names, &mut found);
    put_in_order(&mut found)?;
    compare(alloc, &found)
}
