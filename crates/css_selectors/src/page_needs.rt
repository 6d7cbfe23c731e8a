//! Whether a selector asks more than one element answers.
ghost use Rattle.std.specs.Prelude.{◌≡◌, ◌||◌, false, map};
ghost use Rattle.std.specs.List.{list_any};
ghost use Rattle.css_selector_text.specs.Components.{conditions_from, parts_from, selectors_from};
ghost use Rattle.css_selector_text.specs.Views.{complex_of, condition_of, part_of, simple_of};
ghost use Rattle.css_selectors.specs.PageNeeds.{asks_list as asks_list_of, asks_page as asks_page_of, compound_asks_page as compound_asks_page_of};
ghost use Rattle.css_selectors.specs.PageNeeds.{needs_page as needs_page_of, parts_ask_page as parts_ask_page_of, some_ask_page as some_ask_page_of};

use crate::{Complex, Condition, Part, Selector, Simple};
use css_selector_text::HasSelector;

/// Whether one of the two holds.
fn either(one: bool, other: bool) -> bool
    ensures { result ≡ one || other }
{
    one || other
}

/// Whether it is an `&` that denotes a list of selectors, or stands for a pseudo-class with a list.
fn asks_list(simple: &Simple<'_>) -> bool
    ensures { result ≡ asks_list_of (simple_of simple.now) }
{
    match simple {
        Simple::Nesting(list) => list.number != 0,
        Simple::Universal
        | Simple::TypeName(_)
        | Simple::Id(_)
        | Simple::Class(_)
        | Simple::HasAttribute(_)
        | Simple::Attribute(_)
        | Simple::Structure(_)
        | Simple::Language(_)
        | Simple::State(_)
        | Simple::Function(_)
        | Simple::Element(_)
        | Simple::Namespaced(_) => false,
    }
}

/// Whether the condition asks about a page.
#[cycle(asking)]
fn asks_page(condition: &Condition<'_>) -> bool
    ensures { result ≡ asks_page_of (condition_of condition.now) }
{
    match condition {
        Condition::Simple(simple) => asks_list(simple),
        Condition::Not(selectors) | Condition::Is(selectors) | Condition::Where(selectors) => {
            some_ask_page(selectors.as_slice())
        }
        Condition::Tested(..) => true,
    }
}

/// Whether this holds, or one of the conditions asks about a page.
#[cycle(asking)]
fn compound_asks_page(so_far: bool, conditions: &[Condition<'_>]) -> bool
    ensures { result
        ≡ compound_asks_page_of so_far (conditions_from (map condition_of conditions.now)) }
{
    let mut asks = so_far;
    for condition in conditions {
        asks = either(asks, asks_page(condition));
    }
    asks
}

/// Whether this holds, or one of the compound selectors asks about a page.
#[cycle(asking)]
fn parts_ask_page(so_far: bool, parts: &[Part<'_>]) -> bool
    ensures { result ≡ parts_ask_page_of so_far (parts_from (map part_of parts.now)) }
{
    let mut asks = so_far;
    for part in parts {
        asks = compound_asks_page(asks, part.conditions.as_slice());
    }
    asks
}

/// Whether one of the selectors of a list asks about a page.
#[cycle(asking)]
fn some_ask_page(selectors: &[Complex<'_>]) -> bool
    ensures { result ≡ some_ask_page_of false (selectors_from (map complex_of selectors.now)) }
{
    let mut asks = false;
    for selector in selectors {
        asks = parts_ask_page(asks, selector.parts.as_slice());
    }
    asks
}

/// Whether the selector asks more than one element answers: `:has()`, a list after `An+B`, or an `&` that denotes a list
/// of selectors. A page answers these that is marked with the lists.
pub fn needs_page(selector: &Selector<'_>) -> bool
    ensures { result ≡ needs_page_of selector.now }
{
    parts_ask_page(false, selector.parts())
}

/// Whether one of the selectors of rules [needs a page](needs_page).
pub fn some_needs_page<'a, T: HasSelector<'a>>(rules: &[T]) -> bool
    ensures { result ≡ list_any needs_page_of (map T.selector_in rules.now) }
{
    let mut rest = rules;
    'rules: while let [rule, after @ ..] = rest {
        if needs_page(rule.selector()) {
            return true;
        }
        rest = after;
    }
    false
}
