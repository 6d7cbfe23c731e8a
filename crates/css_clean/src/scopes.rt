//! Selectors under a scope, as `css_selector_text` reads them.
ghost use Rattle.std.specs.Prelude.{◌≡◌, IfOk, map};
ghost use Rattle.css_selector_text.specs.Names.{no_names};
ghost use Rattle.css_selector_text.specs.reading.Grammar.{placed_list};
ghost use Rattle.css_selector_text.specs.reading.ReadViews.{placed_of};
ghost use Rattle.css_selector_text.specs.Views.{condition_of, part_of, simple_of};
ghost use Rattle.css_clean.specs.Scopes.{is_same_simple as is_same_simple_of, is_same as is_same_of, are_same as are_same_of};
ghost use Rattle.css_clean.specs.Scopes.{leads_within as leads_within_by, may_follow as may_follow_of, begins_with as begins_with_of};
ghost use Rattle.css_clean.specs.Scopes.{is_under_scope as is_under_scope_of, are_under_scope as are_under_scope_of};
ghost use Rattle.css_clean.specs.Scopes.{is_read_under, is_compound as is_compound_of, if_compound as if_compound_of, compound_read};

use css_selector_text::{Combinator, Condition, Listed, Part, Selector, Simple, Why};
use std::alloc::{AllocError, Global};

/// Whether both are the same type selector, the same id or the same class.
fn is_same_simple(scope: &Simple<'_>, simple: &Simple<'_>) -> bool
    ensures { result ≡ is_same_simple_of (simple_of scope.now) (simple_of simple.now) }
{
    match scope {
        Simple::TypeName(name) => match simple {
            Simple::TypeName(other) => name.as_str() == other.as_str(),
            _ => false,
        },
        Simple::Id(name) => match simple {
            Simple::Id(other) => name.as_str() == other.as_str(),
            _ => false,
        },
        Simple::Class(name) => match simple {
            Simple::Class(other) => name.as_str() == other.as_str(),
            _ => false,
        },
        _ => false,
    }
}

/// Whether both conditions are the same of these.
fn is_same(scope: &Condition<'_>, condition: &Condition<'_>) -> bool
    ensures { result ≡ is_same_of (condition_of scope.now) (condition_of condition.now) }
{
    match scope {
        Condition::Simple(one) => match condition {
            Condition::Simple(other) => is_same_simple(one, other),
            _ => false,
        },
        _ => false,
    }
}

/// Whether both compounds have the same of these, in the same order, and nothing else.
fn are_same(scope: &[Condition<'_>], conditions: &[Condition<'_>]) -> bool
    ensures { result ≡ are_same_of (map condition_of scope.now) (map condition_of conditions.now) }
{
    let mut left = scope;
    let mut rest = conditions;
    'conditions: while let [one, more @ ..] = left {
        match rest {
            [other, others @ ..] if is_same(one, other) => rest = others,
            _ => return false,
        }
        left = more;
    }
    rest.is_empty()
}

/// Whether a compound that is joined so is on a descendant.
fn leads_within(combinator: Combinator) -> bool
    ensures { result ≡ leads_within_by combinator }
{
    match combinator {
        Combinator::Descendant | Combinator::Child => true,
        Combinator::Adjacent | Combinator::Sibling => false,
    }
}

/// Whether these compounds may follow the scope: a descendant or a child of it, or none, if the scope
/// itself may be meant.
fn may_follow(itself: bool, parts: &[Part<'_>]) -> bool
    ensures { result ≡ may_follow_of itself (map part_of parts.now) }
{
    match parts {
        [] => itself,
        [part, ..] => leads_within(part.combinator),
    }
}

/// Whether a selector begins with the compound of the scope, and what follows it is within.
fn begins_with(itself: bool, scope: &Part<'_>, parts: &[Part<'_>]) -> bool
    ensures { result ≡ begins_with_of itself (part_of scope.now) (map part_of parts.now) }
{
    match parts {
        [] => false,
        [part, more @ ..] => {
            are_same(scope.conditions.as_slice(), part.conditions.as_slice())
                && may_follow(itself, more)
        }
    }
}

/// Whether a selector begins with the one compound of the scope, and what follows it is within.
fn is_under_scope(itself: bool, scope: &[Part<'_>], parts: &[Part<'_>]) -> bool
    ensures { result ≡ is_under_scope_of itself (map part_of scope.now) (map part_of parts.now) }
{
    match scope {
        [part] => begins_with(itself, part, parts),
        _ => false,
    }
}

/// Whether each selector of a list does.
fn are_under_scope(itself: bool, scope: &[Part<'_>], all: &[Listed<'_>]) -> bool
    ensures { result ≡ are_under_scope_of itself (map part_of scope.now) (map placed_of all.now) }
{
    let mut rest = all;
    'selectors: while let [one, more @ ..] = rest {
        if !is_under_scope(itself, scope, one.selector.parts()) {
            return false;
        }
        rest = more;
    }
    true
}

/// Whether a text is a list of selectors each of which does.
pub(crate) fn is_read_under_scope(
    alloc: Global,
    itself: bool,
    scope: &Selector<'_>,
    text: &str,
) -> Result<bool, AllocError>
    ensures { IfOk result (λ holds. holds
        ≡ is_read_under itself scope.now.parts (placed_list no_names text.now)) }
{
    match Selector::read_list(alloc, text) {
        Ok(all) => Ok(are_under_scope(itself, scope.parts(), all.as_slice())),
        Err(refusal) if refusal.why == Why::Memory => Err(AllocError),
        Err(_) => Ok(false),
    }
}

/// Whether a selector is one compound of names, ids and classes.
fn is_compound(selector: &Selector<'_>) -> bool
    ensures { result ≡ is_compound_of selector.now }
{
    selector.pseudo_element().is_none() && is_under_scope(true, selector.parts(), selector.parts())
}

/// Returns the selector, if it is such a compound.
fn if_compound(selector: Selector<'_>) -> Option<Selector<'_>>
    ensures { result ≡ if_compound_of selector.entry }
{
    if is_compound(&selector) {
        Some(selector)
    } else {
        None
    }
}

/// Reads a text that is such a compound.
pub(crate) fn read_compound<'a>(
    alloc: Global,
    text: &'a str,
) -> Result<Option<Selector<'a>>, AllocError>
    ensures { IfOk result (λ selector. selector ≡ compound_read text.now) }
{
    match Selector::parse(alloc, text) {
        Ok(selector) => Ok(if_compound(selector)),
        Err(refusal) if refusal.why == Why::Memory => Err(AllocError),
        Err(_) => Ok(None),
    }
}
