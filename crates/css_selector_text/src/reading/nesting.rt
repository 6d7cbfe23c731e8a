//! `&` in selectors: whether there is one, and which list it denotes.
ghost use Rattle.std.specs.Prelude.{◌≡◌, ◌∷◌, [], IfOk, map, option_map};
ghost use Rattle.css_selector_text.specs.reading.Nested.{absolute_by, has_ampersand as has_ampersand_of, has_nesting as has_nesting_of, selector_under};
ghost use Rattle.css_selector_text.specs.reading.Nested.{simple_under as simple_under_of, nesting_in as nesting_in_of};
ghost use Rattle.css_selector_text.specs.NameViews.{names_of};
ghost use Rattle.css_selector_text.specs.reading.ReadViews.{placed_of};
ghost use Rattle.css_selector_text.specs.Simples.{condition_with, part_with, pseudo_element_with};
ghost use Rattle.css_selector_text.specs.Views.{simple_of, complex_of, condition_of, part_of, pseudo_element_of};

use crate::components::{Complex, Condition, Nesting, Part, PseudoElement, Simple};
use crate::names::Names;
use crate::reading::defaults::implied_in;
use crate::reading::joins::take_sign;
use crate::{Listed, Selector};
use css_matching::Combinator;
use css_syntax::texts::read_token;
use css_text::readers::starts;
use std::alloc::{AllocError, Global};

/// Whether one of the tokens of a text is an `&`, up to where `left` is left of it.
fn has_ampersand(text: &str, left: &str) -> bool
    ensures { result ≡ has_ampersand_of text.now left.now }
{
    let mut rest = text;
    'tokens: while rest.len() > left.len() {
        if starts(rest, b'&') {
            return true;
        }
        rest = read_token(rest).rest;
    }
    false
}

/// Whether there is an `&` in a selector of a list, or one was read before the combinator at its start.
pub(crate) fn has_nesting(listed: &Listed<'_>) -> bool
    ensures { result ≡ has_nesting_of (placed_of listed.now) }
{
    match take_sign(listed.from) {
        Some(_) => true,
        None => has_ampersand(listed.from, listed.to),
    }
}

/// Returns the simple selector in which `&` denotes the list.
fn simple_under<'a>(list: Nesting, simple: Simple<'a>) -> Simple<'a>
    ensures { simple_of result ≡ simple_under_of list (simple_of simple.entry) }
{
    match simple {
        Simple::Nesting(_) => Simple::Nesting(list),
        other => other,
    }
}

/// Returns the selectors of a list in which `&` denotes another.
#[cycle(nesting)]
fn selectors_under<'a>(
    alloc: Global,
    list: Nesting,
    selectors: Vec<Complex<'a>>,
) -> Result<Vec<Complex<'a>>, AllocError>
    ensures { IfOk result (λ under. map complex_of under.items
        ≡ map (map (part_with (simple_under_of list))) (map complex_of selectors.entry.items)) }
{
    let mut under = Vec::with_capacity(alloc, selectors.len())?;
    for selector in selectors {
        let parts = parts_under(alloc, list, selector.parts)?;
        under.push(Complex { parts })?;
    }
    Ok(under)
}

/// Returns the condition in which `&` denotes the list.
#[cycle(nesting)]
fn condition_under<'a>(
    alloc: Global,
    list: Nesting,
    condition: Condition<'a>,
) -> Result<Condition<'a>, AllocError>
    ensures { IfOk result (λ under. condition_of under
        ≡ condition_with (simple_under_of list) (condition_of condition.entry)) }
{
    match condition {
        Condition::Simple(simple) => Ok(Condition::Simple(simple_under(list, simple))),
        Condition::Not(all) => Ok(Condition::Not(selectors_under(alloc, list, all)?)),
        Condition::Is(all) => Ok(Condition::Is(selectors_under(alloc, list, all)?)),
        Condition::Where(all) => Ok(Condition::Where(selectors_under(alloc, list, all)?)),
        Condition::Tested(test, all) => {
            Ok(Condition::Tested(test, selectors_under(alloc, list, all)?))
        }
    }
}

/// Returns the conditions in which `&` denotes the list.
#[cycle(nesting)]
fn conditions_under<'a>(
    alloc: Global,
    list: Nesting,
    conditions: Vec<Condition<'a>>,
) -> Result<Vec<Condition<'a>>, AllocError>
    ensures { IfOk result (λ under. map condition_of under.items
        ≡ map (condition_with (simple_under_of list)) (map condition_of conditions.entry.items)) }
{
    let mut under = Vec::with_capacity(alloc, conditions.len())?;
    for condition in conditions {
        under.push(condition_under(alloc, list, condition)?)?;
    }
    Ok(under)
}

/// Returns the parts in which `&` denotes the list.
#[cycle(nesting)]
fn parts_under<'a>(
    alloc: Global,
    list: Nesting,
    parts: Vec<Part<'a>>,
) -> Result<Vec<Part<'a>>, AllocError>
    ensures { IfOk result (λ under. map part_of under.items
        ≡ map (part_with (simple_under_of list)) (map part_of parts.entry.items)) }
{
    let mut under = Vec::with_capacity(alloc, parts.len())?;
    for part in parts {
        let conditions = conditions_under(alloc, list, part.conditions)?;
        under.push(Part {
            combinator: part.combinator,
            conditions,
        })?;
    }
    Ok(under)
}

/// Returns the pseudo-element in which `&` denotes the list, if there is one.
fn element_under<'a>(
    alloc: Global,
    list: Nesting,
    element: Option<PseudoElement<'a>>,
) -> Result<Option<PseudoElement<'a>>, AllocError>
    ensures { IfOk result (λ under. option_map pseudo_element_of under
        ≡ option_map (pseudo_element_with (simple_under_of list))
        (option_map pseudo_element_of element.entry)) }
{
    let Some(PseudoElement { element, after }) = element else {
        return Ok(None);
    };
    let after = conditions_under(alloc, list, after)?;
    Ok(Some(PseudoElement { element, after }))
}

/// Returns `&` as a compound selector at the start, where a default namespace may be declared.
fn nesting_in<'a>(alloc: Global, names: &Names<'_>, list: Nesting) -> Result<Part<'a>, AllocError>
    ensures { IfOk result (λ part. part_of part ∷ [] ≡ nesting_in_of (names_of names.now) list) }
{
    let mut conditions = Vec::new(alloc);
    if let Some(number) = names.default_namespace {
        conditions.push(implied_in(number))?;
    }
    conditions.push(Condition::Simple(Simple::Nesting(list)))?;
    Ok(Part {
        combinator: Combinator::Descendant,
        conditions,
    })
}

/// Returns the selector of a nested rule that this relative selector is under a rule with this list, where it is
/// known whether there is an `&` in it.
pub(crate) fn nested<'a>(
    alloc: Global,
    names: &Names<'_>,
    list: Nesting,
    has_one: bool,
    selector: Selector<'a>,
) -> Result<Selector<'a>, AllocError>
    ensures { IfOk result (λ under. under
        ≡ selector_under list (absolute_by has_one (names_of names.now) selector.entry)) }
{
    let Selector {
        parts,
        pseudo_element,
    } = selector;
    let mut parts = parts_under(alloc, list, parts)?;
    if !has_one {
        parts.insert(0, nesting_in(alloc, names, list)?)?;
    }
    let pseudo_element = element_under(alloc, list, pseudo_element)?;
    Ok(Selector::new(parts, pseudo_element))
}
