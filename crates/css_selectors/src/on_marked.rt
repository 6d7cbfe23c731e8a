//! Questions to an element of a page that is marked with all lists that selectors ask by numbers.
//!
//! They serve what marks such pages and what walks along them. To any other element `:has()`, lists after `An+B` and
//! `&` are wrong here without a sign: ask it by [`Matching::matches`](crate::Matching::matches), which returns `None`
//! where it does not answer.
ghost use Rattle.std.specs.Prelude.{◌≡◌, ◌+◌, ◌<◌, ◌≤◌, ◌↔◌, IsTrue, is_none, is_some, length};
ghost use Rattle.css_selector_text.specs.Components.{parts_from};
ghost use Rattle.css_selectors.specs.Costs.{most_tests};
ghost use Rattle.css_selectors.specs.Meanings.{Matches};

pub use crate::after_key::matches_after_key;
use crate::meeting::is_placed;
pub use crate::meeting::{matches_any, meets};
use crate::{Element, Selector};
use css_matching::Tests;

/// Whether the selector matches the element, which says in which lists it is that the selector asks by numbers. One
/// with a pseudo-element matches none. The tests made are counted: each is one of a compound selector on an
/// element, those within lists, too.
pub fn matches_counted<E: Element>(selector: &Selector<'_>, element: &E, tests: &mut Tests) -> bool
    ensures answer { IsTrue result ↔ Matches E.document selector.now (E.node element.now) }
    ensures at_most { tests.new
        ≤ tests.old + most_tests E.document (parts_from selector.now.parts) (E.node element.now) }
    ensures untested { IsTrue (is_some selector.now.pseudo_element) → tests.new ≡ tests.old }
    ensures at_least_one { IsTrue (is_none selector.now.pseudo_element) → tests.old < tests.new }
    ensures all_when_true { IsTrue result → tests.old + length selector.now.parts ≤ tests.new }
{
    if selector.pseudo_element().is_some() {
        return false;
    }
    is_placed(selector.parts(), element, tests)
}
