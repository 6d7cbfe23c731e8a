//! Laws of matching.
ghost use Rattle.std.specs.Prelude.{ℕ, ◌≡◌, ◌+◌, ◌*◌, ◌<◌, ◌≤◌, ◌↔◌, List, None, length, true};
ghost use Rattle.std.specs.List.{Contains};
ghost use Rattle.css_selector_text.specs.Components.{Part, Parts, Selector, parts_from, selectors_from};
ghost use Rattle.css_selectors.specs.LoneSelectors.{of_parts, of_condition};
ghost use Rattle.css_selector_text.specs.Components.Condition.{negation, any_of, where_any};
ghost use Rattle.css_selectors.specs.Costs.{HasPlainParts, most_questions, most_tests};
ghost use Rattle.css_selectors.specs.NestedTests.{PartsJoinWithin, parts_size, searches, nested_tests};
ghost use Rattle.css_selector_text.specs.reading.Supported.{deepest_joined, is_supported_selector};
ghost use Rattle.css_selectors.specs.Meanings.{Matches};
ghost use Rattle.css_selectors.specs.PlacementLists.{HasPlacementList};
ghost use Rattle.css_selectors.specs.TestBounds.{HasNoSibling, longest_stretch, earlier_siblings};

use crate::Element;

/// Without `~` a search makes at most its longest stretch times (ancestors plus one) tests. A stretch
/// is parts joined by `>` and `+`, and none is longer than the selector. With `~` each earlier sibling
/// of the element and of its ancestors is tested, too, at most as often as the selector has parts,
/// squared. Lists without combinators make no tests of their own; of others see `nested_law`.
pub fn bound_law<E: Element>()
    ensures by_stretches { (s : Selector) (n : E.Node) → 0 < length s.parts → HasNoSibling s.parts
        → most_questions E.document (parts_from s.parts) n ≡ longest_stretch s.parts * (E.document.depth n + 1) }
    ensures within { (parts : List Part) → longest_stretch parts ≤ length parts }
    ensures by_parts { (s : Selector) (n : E.Node) → 0 < length s.parts → HasNoSibling s.parts
        → most_questions E.document (parts_from s.parts) n ≤ length s.parts * (E.document.depth n + 1) }
    ensures always { (s : Selector) (n : E.Node) → 0 < length s.parts
        → most_questions E.document (parts_from s.parts) n ≤ length s.parts
        * (E.document.depth n + 1 + length s.parts * earlier_siblings E.document n) }
    ensures alone { (parts : Parts) (n : E.Node) → HasPlainParts parts
        → most_tests E.document parts n ≡ most_questions E.document parts n }
{}

/// A selector matches exactly if some list of elements is its placement. The list has one element
/// for each part, which meets the part and is related to the element before as the part's combinator
/// says. The last is the element that is matched. A selector with a pseudo-element matches none.
pub fn placement_law<E: Element>()
    ensures { (s : Selector) (n : E.Node) → 0 < length s.parts → Matches E.document s n
        ↔ ((s.pseudo_element ≡ None) × HasPlacementList E.document s.parts n) }
{}

/// `:is()` and `:where()` match what one of their selectors matches, `:not()` exactly the rest.
pub fn list_law<E: Element>()
    ensures is_some { (all : List (List Part)) (n : E.Node)
        → Matches E.document (of_condition (any_of (selectors_from all))) n
        ↔ ((parts : List Part) × Contains all parts × Matches E.document (of_parts parts) n) }
    ensures where_is { (all : List (List Part)) (n : E.Node)
        → Matches E.document (of_condition (where_any (selectors_from all))) n
        ↔ Matches E.document (of_condition (any_of (selectors_from all))) n }
    ensures not_is { (all : List (List Part)) (n : E.Node)
        → Matches E.document (of_condition (negation (selectors_from all))) n
        ↔ (Matches E.document (of_condition (any_of (selectors_from all))) n → ⊥) }
{}

/// Each test of a search may make another, as deep as selectors with combinators are nested in lists.
/// So `searches` is the most of one search for all compound selectors, those in lists included, and
/// the tests are at most `searches`, times (those of the lists, plus one). In a supported selector no
/// selector with combinators is in a list of another that is in a list.
pub fn nested_law<E: Element>()
    ensures within { (k : ℕ) (s : Selector) (n : E.Node) → 0 < length s.parts
        → PartsJoinWithin k (parts_from s.parts)
        → most_tests E.document (parts_from s.parts) n
        ≤ nested_tests (k + 1) (searches (parts_size (parts_from s.parts)) (E.document.depth n + 1)
        (earlier_siblings E.document n)) }
    ensures supported { (s : Selector) → is_supported_selector s ≡ true
        → PartsJoinWithin deepest_joined (parts_from s.parts) }
{}
