//! Matching.
use crate::on_marked::matches_counted;
use crate::{Element, Selector, needs_page};
use css_matching::Tests;

/// What elements are matched against: selectors.
pub trait Matching {
    /// Whether the element is matched, if one element answers that.
    fn matches<E: Element>(&self, element: &E) -> Option<bool>;
}

impl<'a> Matching for Selector<'a> {
    ghost use Rattle.std.specs.Prelude.{◌≡◌, ◌↔◌, IfSome, IsTrue, is_none};
    ghost use Rattle.css_selectors.specs.Meanings.{Matches};
    ghost use Rattle.css_selectors.specs.PageNeeds.{needs_page as needs_page_of};

    /// Whether the selector matches the element. One with a pseudo-element matches none. Returns `None` if it
    /// [needs a page](needs_page).
    fn matches<E: Element>(&self, element: &E) -> Option<bool>
        ensures answer { IfSome result (λ matches. IsTrue matches
            ↔ Matches E.document self.now (E.node element.now)) }
        ensures none { is_none result ≡ needs_page_of self.now }
    {
        if needs_page(self) {
            return None;
        }
        Some(matches_counted(self, element, &mut Tests::new()))
    }
}
