//! Laws of `&`.
ghost use Rattle.std.specs.Prelude.{◌≡◌, ◌↔◌, IsTrue};
ghost use Rattle.css_selector_text.specs.Components.{Selector, Selectors};
ghost use Rattle.css_selector_text.specs.declared.components.Nesting.{Nesting as NestingOf};
ghost use Rattle.css_selectors.specs.Meanings.{Matches, MatchesAny};
ghost use Rattle.css_selector_text.specs.reading.Nested.{selector_under};
ghost use Rattle.css_selector_text.specs.Specificities.{greatest, nothing, specificity};
ghost use Rattle.css_selector_text.specs.SpecificityViews.{counts_of};
ghost use Rattle.css_selectors.specs.SpelledOut.{spelled_selector};

use crate::Element;

/// `&` matches what `:is()` of its list does in its place, and counts as much. For that the document
/// answers of the list's number as its selectors match, and the list counts as the greatest of them.
pub fn nesting_law<E: Element>()
    ensures matches { (list : NestingOf) (all : Selectors)
        → ((n : E.Node) → IsTrue (E.document.is_in_list n list.number) ↔ MatchesAny E.document all n)
        → (s : Selector) (n : E.Node)
        → Matches E.document (selector_under list s) n ↔ Matches E.document (spelled_selector all s) n }
    ensures specificity { (list : NestingOf) (all : Selectors)
        → counts_of list.specificity ≡ greatest nothing all → (s : Selector)
        → specificity (selector_under list s) ≡ specificity (spelled_selector all s) }
{}
