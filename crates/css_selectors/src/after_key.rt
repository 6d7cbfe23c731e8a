//! Selectors that begin with their key.
ghost use Rattle.std.specs.Prelude.{◌≡◌, ◌+◌, ◌<◌, ◌≤◌, ◌↔◌, IsTrue, is_none, is_some, true, List, length, map};
ghost use Rattle.std.specs.List.{list_any};
ghost use Rattle.css_selectors.specs.AfterKeys.{have_no_greater, begin_with_key, begins_with_key as begins_with_key_by};
ghost use Rattle.css_selectors.specs.AfterKeys.{after_first as all_but_first, MatchesAfterKey};
ghost use Rattle.css_selector_text.specs.Components.{Selector, parts_from};
ghost use Rattle.css_selectors.specs.Costs.{most_tests};
ghost use Rattle.css_selectors.specs.Keys.{has_key, keys_of};
ghost use Rattle.css_selectors.specs.Meanings.{Matches};
ghost use Rattle.css_selector_text.specs.Views.{condition_of};

use crate::ancestor_keys::is_id_or_class;
use crate::key::{last_conditions, rank_of_condition};
use crate::meeting::are_met;
use crate::{Condition, Element, Selector};
use css_matching::Tests;

/// Whether no condition has keys of a greater rank.
fn has_no_greater(rank: u8, conditions: &[Condition<'_>]) -> bool
    ensures { result ≡ have_no_greater rank (map condition_of conditions.now) }
{
    let mut rest = conditions;
    'conditions: while let [condition, after @ ..] = rest {
        if rank < rank_of_condition(condition) {
            return false;
        }
        rest = after;
    }
    true
}

/// Whether the first condition is an id or a class, and no other has keys of a greater rank.
fn is_key_first(conditions: &[Condition<'_>]) -> bool
    ensures { result ≡ begin_with_key (map condition_of conditions.now) }
{
    let [first, others @ ..] = conditions else {
        return false;
    };
    is_id_or_class(first) && has_no_greater(rank_of_condition(first), others)
}

/// Returns all conditions but the first.
fn after_first<'s, 'a>(conditions: &'s [Condition<'a>]) -> &'s [Condition<'a>]
    ensures { map condition_of result.now ≡ all_but_first (map condition_of conditions.now) }
{
    match conditions {
        [] => conditions,
        [_, others @ ..] => others,
    }
}

/// Whether the selector is one compound selector that begins with an id or a class, which is its
/// key, as `.a:hover`.
pub fn begins_with_key(selector: &Selector<'_>) -> bool
    ensures { result ≡ begins_with_key_by selector.now }
{
    let [part] = selector.parts() else {
        return false;
    };
    is_key_first(part.conditions.as_slice())
}

/// Whether the selector, which begins with its key, matches an element that has this key, as
/// `matches_counted` says. The key is not tested again.
pub fn matches_after_key<E: Element>(
    selector: &Selector<'_>,
    element: &E,
    tests: &mut Tests,
) -> bool
    requires { begins_with_key_by selector.now ≡ true }
    ensures answer { IsTrue (list_any (has_key E.document (E.node element.now)) (keys_of selector.now))
        → (IsTrue result ↔ Matches E.document selector.now (E.node element.now)) }
    ensures rest { IsTrue result ↔ MatchesAfterKey E.document selector.now (E.node element.now) }
    ensures at_most { tests.new
        ≤ tests.old + most_tests E.document (parts_from selector.now.parts) (E.node element.now) }
    ensures untested { IsTrue (is_some selector.now.pseudo_element) → tests.new ≡ tests.old }
    ensures at_least_one { IsTrue (is_none selector.now.pseudo_element) → tests.old < tests.new }
    ensures all_when_true { IsTrue result → tests.old + length selector.now.parts ≤ tests.new }
{
    if selector.pseudo_element().is_some() {
        return false;
    }
    tests.tick();
    are_met(after_first(last_conditions(selector)), element, tests)
}

/// A selector that begins with its key matches an element that has this key exactly if the element
/// satisfies the other conditions.
pub fn after_key_law<E: Element>()
    ensures same { (s : Selector) (n : E.Node) → begins_with_key_by s ≡ true
        → IsTrue (list_any (has_key E.document n) (keys_of s))
        → (MatchesAfterKey E.document s n ↔ Matches E.document s n) }
    ensures weaker { (s : Selector) (n : E.Node) → begins_with_key_by s ≡ true
        → Matches E.document s n → MatchesAfterKey E.document s n }
{}
