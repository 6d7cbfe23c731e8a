//! What a selector requires of an element's ancestors, and selectors that require nothing but one of
//! their keys.
ghost use Rattle.std.specs.Prelude.{◌≡◌, ◌++◌, IsTrue, OnOk, List, map};
ghost use Rattle.std.specs.List.{list_any, list_all, Contains};
ghost use Rattle.css_selectors.specs.AncestorKeys.{keys_among, alone, step_keys, ancestor_keys};
ghost use Rattle.css_selectors.specs.AncestorKeys.{parent_step_keys, parent_keys, ParentHas, is_only_keys as is_only_keys_of};
ghost use Rattle.css_selectors.specs.AncestorKeys.{SomeAncestorHas, is_exact_condition, are_exact};
ghost use Rattle.css_selectors.specs.AncestorKeys.{is_one_id_or_class as is_one_id_or_class_compound};
ghost use Rattle.css_selectors.specs.AncestorKeys.{is_lone_id_or_class as is_lone_id_or_class_selector};
ghost use Rattle.css_selectors.specs.AncestorKeys.{is_exact_key};
ghost use Rattle.css_selectors.specs.AncestorKeys.{is_only_key as is_only_condition};
ghost use Rattle.css_selector_text.specs.Components.{Selector, conditions_from, parts_from, selectors_from};
ghost use Rattle.css_selectors.specs.Keys.{Key as KeyOf, has_key, keys_of};
ghost use Rattle.css_selectors.specs.KeyViews.{key_of};
ghost use Rattle.css_selectors.specs.Meanings.{Matches};
ghost use Rattle.css_selector_text.specs.Views.{complex_of, condition_of};

use crate::key::{best_condition, push_best};
use crate::{Combinator, Complex, Condition, Element, Key, Selector, Simple};
use std::alloc::AllocError;

/// Appends the key of conditions, if it is one alone.
fn push_alone<'s>(
    conditions: &'s [Condition<'_>],
    keys: &mut Vec<Key<'s>>,
) -> Result<(), AllocError>
    ensures { OnOk result (map key_of keys.new.items ≡ map key_of keys.old.items
        ++ alone (keys_among (map condition_of conditions.now))) }
{
    let count = keys.len();
    push_best(best_condition(conditions), keys)?;
    if keys.len() - count != 1 {
        keys.truncate(count);
    }
    Ok(())
}

/// Appends the key of conditions, if it is one alone and the combinator after them leads to an
/// ancestor.
fn push_step<'s>(
    combinator: Combinator,
    conditions: &'s [Condition<'_>],
    keys: &mut Vec<Key<'s>>,
) -> Result<(), AllocError>
    ensures { OnOk result (map key_of keys.new.items ≡ map key_of keys.old.items
        ++ step_keys combinator (map condition_of conditions.now)) }
{
    match combinator {
        Combinator::Descendant | Combinator::Child => push_alone(conditions, keys),
        Combinator::Adjacent | Combinator::Sibling => Ok(()),
    }
}

/// Appends the key of conditions, if it is one alone and the combinator after them leads to the
/// parent.
fn push_parent_step<'s>(
    combinator: Combinator,
    conditions: &'s [Condition<'_>],
    keys: &mut Vec<Key<'s>>,
) -> Result<(), AllocError>
    ensures { OnOk result (map key_of keys.new.items ≡ map key_of keys.old.items
        ++ parent_step_keys combinator (map condition_of conditions.now)) }
{
    match combinator {
        Combinator::Child => push_alone(conditions, keys),
        Combinator::Descendant | Combinator::Adjacent | Combinator::Sibling => Ok(()),
    }
}

/// Whether it is an id or a class.
pub(crate) fn is_id_or_class(condition: &Condition<'_>) -> bool
    ensures { result ≡ is_exact_condition (condition_of condition.now) }
{
    matches!(
        condition,
        Condition::Simple(Simple::Id(_) | Simple::Class(_))
    )
}

/// Whether it is one id or one class.
fn is_one_id_or_class(conditions: &[Condition<'_>]) -> bool
    ensures { result
        ≡ is_one_id_or_class_compound (conditions_from (map condition_of conditions.now)) }
{
    let [condition] = conditions else {
        return false;
    };
    is_id_or_class(condition)
}

/// Whether it is a lone compound selector, of one id or one class.
fn is_lone_id_or_class(selector: &Complex<'_>) -> bool
    ensures { result ≡ is_lone_id_or_class_selector (parts_from (complex_of selector.now)) }
{
    let [part] = selector.parts.as_slice() else {
        return false;
    };
    is_one_id_or_class(part.conditions.as_slice())
}

/// Whether each is one id or one class.
fn are_ids_or_classes(selectors: &[Complex<'_>]) -> bool
    ensures { result ≡ are_exact (selectors_from (map complex_of selectors.now)) }
{
    let mut rest = selectors;
    'selectors: while let [selector, after @ ..] = rest {
        if !is_lone_id_or_class(selector) {
            return false;
        }
        rest = after;
    }
    true
}

/// Whether it is an id, a class, `*`, or a list of ids and classes.
fn is_only_key(condition: &Condition<'_>) -> bool
    ensures { result ≡ is_only_condition (condition_of condition.now) }
{
    match condition {
        Condition::Simple(simple) => {
            matches!(simple, Simple::Universal | Simple::Id(_) | Simple::Class(_))
        }
        Condition::Not(_) | Condition::Tested(..) => false,
        Condition::Is(selectors) | Condition::Where(selectors) => {
            are_ids_or_classes(selectors.as_slice())
        }
    }
}

/// Appends the keys that ancestors of an element must have for the selector to match it: of each
/// compound selector to which a child or a descendant combinator leads back, the key if it has
/// one alone. So `:is(.a, .b) p` has none.
pub fn push_ancestor_keys<'s>(
    selector: &'s Selector<'_>,
    keys: &mut Vec<Key<'s>>,
) -> Result<(), AllocError>
    ensures { OnOk result (map key_of keys.new.items
        ≡ map key_of keys.old.items ++ ancestor_keys selector.now) }
{
    let parts = selector.parts();
    for index in 0..parts.len() - 1 {
        push_step(
            parts[index + 1].combinator,
            parts[index].conditions.as_slice(),
            keys,
        )?;
    }
    Ok(())
}

/// Appends the keys that the parent of an element must have for the selector to match it: if a
/// child combinator leads back from the last compound selector, the key of the one before, if
/// that has one alone.
pub fn push_parent_keys<'s>(
    selector: &'s Selector<'_>,
    keys: &mut Vec<Key<'s>>,
) -> Result<(), AllocError>
    ensures { OnOk result (map key_of keys.new.items
        ≡ map key_of keys.old.items ++ parent_keys selector.now) }
{
    let parts = selector.parts();
    let count = parts.len();
    if count < 2 {
        return Ok(());
    }
    push_parent_step(
        parts[count - 1].combinator,
        parts[count - 2].conditions.as_slice(),
        keys,
    )
}

/// Whether the selector requires nothing but one of its keys: it is an id or a class, a list of
/// such, or `*`, as `.a` and `:is(.a, #b)`.
pub fn is_only_keys(selector: &Selector<'_>) -> bool
    ensures { result ≡ is_only_keys_of selector.now }
{
    if selector.pseudo_element().is_some() {
        return false;
    }
    let [part] = selector.parts() else {
        return false;
    };
    let [condition] = part.conditions.as_slice() else {
        return false;
    };
    is_only_key(condition)
}

/// An element that a selector matches has ancestors with the keys that the selector requires of
/// them, and a parent with those that it requires of the parent.
pub fn ancestor_key_law<E: Element>()
    ensures ancestors { (s : Selector) (n : E.Node) → Matches E.document s n
        → (key : KeyOf) → Contains (ancestor_keys s) key → SomeAncestorHas E.document n key }
    ensures parent { (s : Selector) (n : E.Node) → Matches E.document s n
        → (key : KeyOf) → Contains (parent_keys s) key → ParentHas E.document n key }
{}

/// A selector that requires nothing but one of its keys matches each element that has one, and each
/// of them is an id, a class or no condition.
pub fn only_keys_law<E: Element>()
    ensures matches { (s : Selector) (n : E.Node) → IsTrue (is_only_keys_of s)
        → IsTrue (list_any (has_key E.document n) (keys_of s)) → Matches E.document s n }
    ensures exact { (s : Selector) → IsTrue (is_only_keys_of s)
        → IsTrue (list_all is_exact_key (keys_of s)) }
{}
