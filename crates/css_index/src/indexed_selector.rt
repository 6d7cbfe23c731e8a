//! What an index keeps of a selector.
ghost use Rattle.std.specs.Prelude.{◌≡◌, ◌⊎◌, ◌+◌, ◌≤◌, ◌↔◌, ◌<◌, Some, IsTrue, is_none, is_some};
ghost use Rattle.css_selectors.specs.AncestorKeys.{is_only_keys as requires_only_keys};
ghost use Rattle.css_selectors.specs.AfterKeys.{MatchesFoundBy, begins_with_key as begins_with_key_by};
ghost use Rattle.css_selector_text.specs.Components.{parts_from};
ghost use Rattle.css_selectors.specs.Costs.{most_tests};
ghost use Rattle.css_index.specs.Tested.{least_of, most_of};

use crate::Keyed;
use css_selectors::on_marked::{matches_after_key, matches_counted};
use css_selectors::{Selector, Tests, begins_with_key, is_only_keys};

/// A selector, and whether it has to be tested.
#[derive(Clone, Copy)]
pub(crate) struct IndexedSelector<'s, 'a> {
    /// The selector.
    pub(crate) selector: &'s Selector<'a>,
    /// Whether it requires nothing but one of its keys.
    pub(crate) is_only_keys: bool,
    /// Whether it begins with its key, which is not tested again.
    pub(crate) begins_with_key: bool,
    ghost known: { is_only_keys ≡ requires_only_keys selector.now },
    ghost led: { begins_with_key ≡ begins_with_key_by selector.now },
}

impl<'s, 'a> IndexedSelector<'s, 'a> {
    /// Returns what is kept of a selector.
    #[inline(always)]
    pub(crate) fn new(selector: &'s Selector<'a>) -> IndexedSelector<'s, 'a>
        ensures { result.selector.now ≡ selector.now }
    {
        IndexedSelector {
            selector,
            is_only_keys: is_only_keys(selector),
            begins_with_key: begins_with_key(selector),
        }
    }

    /// Whether the selector matches the element, if it has one of its keys.
    #[inline(always)]
    fn matches_found<E: Keyed>(&self, element: &E, tests: &mut Tests) -> bool
        ensures answer { IsTrue result ↔ MatchesFoundBy (begins_with_key_by self.now.selector.now)
            E.document self.now.selector.now (E.node element.now) }
        ensures at_most { tests.new ≤ tests.old + most_tests E.document
            (parts_from self.now.selector.now.parts) (E.node element.now) }
        ensures untested { IsTrue (is_some self.now.selector.now.pseudo_element)
            → tests.new ≡ tests.old }
        ensures at_least_one { IsTrue (is_none self.now.selector.now.pseudo_element)
            → tests.old < tests.new }
    {
        if self.begins_with_key {
            matches_after_key(self.selector, element, tests)
        } else {
            matches_counted(self.selector, element, tests)
        }
    }

    /// Whether the selector requires nothing but its keys, or matches the element if it has one of them. It
    /// is tested only if it requires more.
    #[inline(always)]
    pub(crate) fn passes<E: Keyed>(&self, element: &E, tests: &mut Tests) -> bool
        ensures answer { IsTrue result ↔ (IsTrue (requires_only_keys self.now.selector.now)
            ⊎ MatchesFoundBy (begins_with_key_by self.now.selector.now) E.document self.now.selector.now
            (E.node element.now)) }
        ensures at_least { tests.old + least_of (Some self.now.selector.now) ≤ tests.new }
        ensures at_most { tests.new
            ≤ tests.old + most_of E.document (E.node element.now) (Some self.now.selector.now) }
    {
        self.is_only_keys || self.matches_found(element, tests)
    }
}
