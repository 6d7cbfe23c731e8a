//! Laws of lists that have a number.
ghost use Rattle.std.specs.Prelude.{◌≡◌, ◌↔◌, ◌<◌, ℕ, suc, All, List, [], IsTrue, None, length, map, slice_index_or};
ghost use Rattle.css_matching.specs.ListTrees.{spot};
ghost use Rattle.css_selector_text.specs.Components.{ListTest, Selector, Selectors, selectors_from};
ghost use Rattle.css_selector_text.specs.Components.Condition.{simple};
ghost use Rattle.css_selector_text.specs.Components.Simple.{nesting};
ghost use Rattle.css_selector_text.specs.declared.components.Nesting.{Nesting};
ghost use Rattle.css_selectors.specs.MarkedLists.{ListText};
ghost use Rattle.css_selectors.specs.MarkedLists.ListText.{matched, tested};
ghost use Rattle.css_selectors.specs.Meanings.{IsMet, Matches};
ghost use Rattle.css_selector_text.specs.reading.Nested.{selector_under};
ghost use Rattle.css_selectors.specs.SpelledOut.{spelled_selector};
ghost use Rattle.css_tree.specs.Asked.{AskBefore, AskEarlier, SelectorAsksBelow};
ghost use Rattle.css_tree.specs.Marks.{AreMarked, IsMarkedBy, IsMarkedInside, IsTested, with_marks};
ghost use Rattle.css_tree.specs.Pages.{Page, is_in_list, page_document};
ghost use Rattle.css_tree.specs.SpelledLists.{spelled_out};

/// A numbered list has exactly the elements that it says: those that its selectors match, or those of
/// which the pseudo-class with this list holds. Inside `:has()`, where there are other marks, it has the
/// same, but each `:has()` is false. This holds on a marked tree where each list asks only of those
/// before it.
pub fn marking_law()
    ensures own { (lists : List ListText) (page : Page) → (are : AreMarked lists page)
        → AskBefore lists → (list i : ℕ) → list < length lists → i < length page.rows
        → IsTrue (is_in_list page i (suc list))
        ↔ IsMarkedBy (slice_index_or lists list (matched [])) page (with_marks page are.inside) i }
    ensures inside { (lists : List ListText) (page : Page) → (are : AreMarked lists page)
        → AskBefore lists → (list i : ℕ) → list < length lists → i < length page.rows
        → IsTrue (is_in_list (with_marks page are.inside) i (suc list))
        ↔ IsMarkedInside (slice_index_or lists list (matched [])) (with_marks page are.inside) i }
{}

/// On a marked tree a number that is in the place of `:has()`, or of `:nth-child()` or `:nth-last-child()`
/// with a list, holds of exactly the elements of which that pseudo-class does. This holds where each list
/// asks only of those before it.
pub fn tested_law()
    ensures { (lists : List ListText) (page : Page) → (are : AreMarked lists page)
        → AskBefore lists → (list : Nesting) (k : ℕ) → list.number ≡ suc k → k < length lists
        → (test : ListTest) (selectors : Selectors)
        → slice_index_or lists k (matched []) ≡ tested test selectors → (i : ℕ)
        → i < length page.rows
        → IsMet page_document (simple (nesting list)) (spot page i)
        ↔ IsTested test selectors page (with_marks page are.inside) i }
{}

/// On a marked tree `&` is `:is()` of its list, and inside `:has()` of its list as it is there. This holds
/// where each list asks only of those before it, and no selector of that list has a pseudo-element.
pub fn ampersand_law()
    ensures own { (lists : List ListText) (page : Page) → AreMarked lists page
        → AskBefore lists → (list : Nesting) (k : ℕ) → list.number ≡ suc k → k < length lists
        → (selectors : List Selector) → slice_index_or lists k (matched []) ≡ matched selectors
        → All (λ s. s.pseudo_element ≡ None) selectors → (s : Selector) (i : ℕ)
        → i < length page.rows
        → Matches page_document (selector_under list s) (spot page i)
        ↔ Matches page_document (spelled_selector
        (selectors_from (map (λ l. l.parts) selectors)) s) (spot page i) }
    ensures inside { (lists : List ListText) (page : Page) → (are : AreMarked lists page)
        → AskBefore lists → (list : Nesting) (k : ℕ) → list.number ≡ suc k → k < length lists
        → (selectors : List Selector) → slice_index_or lists k (matched []) ≡ matched selectors
        → All (λ s. s.pseudo_element ≡ None) selectors → (s : Selector) (i : ℕ)
        → i < length page.rows
        → Matches page_document (selector_under list s) (spot (with_marks page are.inside) i)
        ↔ Matches page_document (spelled_selector
        (selectors_from (map (λ l. l.parts) selectors)) s) (spot (with_marks page are.inside) i) }
{}

/// A selector of a nested rule matches on a marked tree what it matches, spelled out, on the tree
/// without marks. Spelled out it has `:is()` of its list in place of each `&`, and so has that
/// list, from the outermost rule inwards. This holds where all lists are those of `&`, each asks only of
/// those before it, and no selector of a list has a pseudo-element.
pub fn chain_law()
    ensures { (lists : List (List Selector)) (page : Page) → AreMarked (map matched lists) page
        → AskEarlier lists
        → ((k : ℕ) → k < length lists
        → All (λ s. s.pseudo_element ≡ None) (slice_index_or lists k []))
        → (s : Selector) (i : ℕ) → SelectorAsksBelow (suc (length lists)) s → i < length page.rows
        → Matches page_document s (spot page i)
        ↔ Matches page_document (spelled_out lists s) (spot (with_marks page []) i) }
{}
