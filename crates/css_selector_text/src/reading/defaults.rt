//! Selectors in the default namespace.
ghost use Rattle.std.specs.Prelude.{◌≡◌, ◌<◌, ◌||◌, IfOk, length, map};
ghost use Rattle.css_selector_text.specs.Components.Namespace.{default};
ghost use Rattle.css_selector_text.specs.Components.Simple.{namespaced};
ghost use Rattle.css_selector_text.specs.reading.Defaults.{type_in as type_in_of, is_local_type as is_local_type_of, is_type as is_type_of, is_type_condition as is_type_condition_of, is_typed as is_typed_of};
ghost use Rattle.css_selector_text.specs.reading.Defaults.{is_exempting as is_exempting_of, condition_in as condition_in_of, row_in, part_in, parts_in as parts_in_of, in_default as in_default_of};
ghost use Rattle.css_selector_text.specs.reading.Defaults.{implied_in as implied_in_of};
ghost use Rattle.css_selector_text.specs.Views.{local_of, simple_of, list_test_of, complex_of, condition_of, part_of};

use crate::components::{Complex, Condition, ListTest, Local, Namespace, Namespaced, Part, Simple};
use std::alloc::{AllocError, Global};

/// Returns what is in the default namespace, of this number.
fn in_number<'a>(number: usize, local: Local<'a>) -> Simple<'a>
    ensures { simple_of result ≡ namespaced (default number) (local_of local.entry) }
{
    Simple::Namespaced(Namespaced {
        namespace: Namespace::Default(number),
        local,
    })
}

/// Returns a type selector without a namespace as it is in this one, and any other as it is.
fn type_in<'a>(number: usize, simple: Simple<'a>) -> Simple<'a>
    ensures { simple_of result ≡ type_in_of number (simple_of simple.entry) }
{
    match simple {
        Simple::Universal => in_number(number, Local::Universal),
        Simple::TypeName(name) => in_number(number, Local::TypeName(name)),
        other => other,
    }
}

/// Returns what is not written of a compound selector without a type selector.
pub(crate) fn implied_in<'a>(number: usize) -> Condition<'a>
    ensures { condition_of result ≡ implied_in_of number }
{
    Condition::Simple(in_number(number, Local::Implied))
}

/// Whether this is in a type selector.
fn is_local_type(local: &Local<'_>) -> bool
    ensures { result ≡ is_local_type_of (local_of local.now) }
{
    match local {
        Local::Universal | Local::TypeName(_) | Local::Implied => true,
        Local::HasAttribute(_) | Local::Attribute(_) => false,
    }
}

/// Whether this is a type selector, with a namespace or without one.
fn is_type(simple: &Simple<'_>) -> bool
    ensures { result ≡ is_type_of (simple_of simple.now) }
{
    match simple {
        Simple::Universal | Simple::TypeName(_) => true,
        Simple::Namespaced(namespaced) => is_local_type(&namespaced.local),
        _ => false,
    }
}

/// Whether the condition is a type selector.
fn is_type_condition(condition: &Condition<'_>) -> bool
    ensures { result ≡ is_type_condition_of (condition_of condition.now) }
{
    match condition {
        Condition::Simple(simple) => is_type(simple),
        Condition::Not(_) | Condition::Is(_) | Condition::Where(_) | Condition::Tested(_, _) =>
            false,
    }
}

/// Whether a compound selector begins with a type selector.
fn is_typed(conditions: &[Condition<'_>]) -> bool
    ensures { result ≡ is_typed_of (map condition_of conditions.now) }
{
    match conditions {
        [first, ..] => is_type_condition(first),
        [] => false,
    }
}

/// Whether the subjects of the selectors of a list that is asked this are exempt.
fn is_exempting(test: ListTest) -> bool
    ensures { result ≡ is_exempting_of (list_test_of test) }
{
    match test {
        ListTest::Has => true,
        ListTest::NthChild(_) | ListTest::NthLastChild(_) => false,
    }
}

/// Whether subjects are exempt within a list that is asked this, which may be within an exempting one.
fn is_exempting_within(exempting: bool, test: ListTest) -> bool
    ensures { result ≡ (exempting || is_exempting_of (list_test_of test)) }
{
    exempting || is_exempting(test)
}

/// Returns the selectors of a list in the default namespace. Their subjects may be exempt.
#[cycle(defaults)]
fn selectors_in<'a>(
    alloc: Global,
    number: usize,
    exempting: bool,
    selectors: Vec<Complex<'a>>,
) -> Result<Vec<Complex<'a>>, AllocError>
    ensures { IfOk result (λ all. map complex_of all.items
        ≡ map (parts_in_of number exempting) (map complex_of selectors.entry.items)) }
{
    let mut all = Vec::with_capacity(alloc, selectors.len())?;
    for selector in selectors {
        let parts = parts_in(alloc, number, exempting, selector.parts)?;
        all.push(Complex { parts })?;
    }
    Ok(all)
}

/// Returns the condition in the default namespace. It may be within a list whose subjects are exempt.
#[cycle(defaults)]
fn condition_in<'a>(
    alloc: Global,
    number: usize,
    exempting: bool,
    condition: Condition<'a>,
) -> Result<Condition<'a>, AllocError>
    ensures { IfOk result (λ within. condition_of within
        ≡ condition_in_of number exempting (condition_of condition.entry)) }
{
    match condition {
        Condition::Simple(simple) => Ok(Condition::Simple(type_in(number, simple))),
        Condition::Not(all) => Ok(Condition::Not(selectors_in(alloc, number, true, all)?)),
        Condition::Is(all) => Ok(Condition::Is(selectors_in(alloc, number, true, all)?)),
        Condition::Where(all) => Ok(Condition::Where(selectors_in(alloc, number, true, all)?)),
        Condition::Tested(test, all) => {
            let all = selectors_in(alloc, number, is_exempting_within(exempting, test), all)?;
            Ok(Condition::Tested(test, all))
        }
    }
}

/// Returns the compound selector in the default namespace. It may be exempt, if it is the last.
#[cycle(defaults)]
fn conditions_in<'a>(
    alloc: Global,
    number: usize,
    exempting: bool,
    is_last: bool,
    conditions: Vec<Condition<'a>>,
) -> Result<Vec<Condition<'a>>, AllocError>
    ensures { IfOk result (λ all. map condition_of all.items
        ≡ row_in number exempting is_last (map condition_of conditions.entry.items)) }
{
    let mut all = Vec::with_capacity(alloc, conditions.len())?;
    if !(is_typed(conditions.as_slice()) || exempting && is_last) {
        all.push(implied_in(number))?;
    }
    for condition in conditions {
        all.push(condition_in(alloc, number, exempting, condition)?)?;
    }
    Ok(all)
}

/// Returns the compound selectors in the default namespace. The last may be exempt.
#[cycle(defaults)]
fn parts_in<'a>(
    alloc: Global,
    number: usize,
    exempting: bool,
    parts: Vec<Part<'a>>,
) -> Result<Vec<Part<'a>>, AllocError>
    ensures { IfOk result (λ all. map part_of all.items
        ≡ parts_in_of number exempting (map part_of parts.entry.items)) }
{
    let mut left = parts.len();
    let mut all = Vec::with_capacity(alloc, left)?;
    for part in parts {
        left -= 1;
        let conditions = conditions_in(alloc, number, exempting, left == 0, part.conditions)?;
        all.push(Part {
            combinator: part.combinator,
            conditions,
        })?;
    }
    Ok(all)
}

/// Returns the compound selectors of a selector, where a default namespace may be declared.
pub(crate) fn in_default<'a>(
    alloc: Global,
    number: Option<usize>,
    parts: Vec<Part<'a>>,
) -> Result<Vec<Part<'a>>, AllocError>
    ensures all { IfOk result (λ all. map part_of all.items
        ≡ in_default_of number (map part_of parts.entry.items)) }
    ensures some { IfOk result (λ all. 0 < length parts.entry.items → 0 < length all.items) }
{
    match number {
        Some(number) => parts_in(alloc, number, false, parts),
        None => Ok(parts),
    }
}
