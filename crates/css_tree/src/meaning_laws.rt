//! The law of what selectors mean.
ghost use Rattle.std.specs.Prelude.{◌≡◌, ◌<◌, ◌↔◌, All, ℕ, suc, List, Some, length};
ghost use Rattle.std.specs.List.{slice_get};
ghost use Rattle.css_matching.specs.ListTrees.{spot};
ghost use Rattle.css_selector_text.specs.Components.{Selector};
ghost use Rattle.css_selectors.specs.Meanings.{Matches};
ghost use Rattle.css_selectors.specs.Numberings.{no_lists, numbered_selectors, with_each_list};
ghost use Rattle.css_tree.specs.Asked.{AskBefore, AskEarlier, SelectorAsksBelow};
ghost use Rattle.css_tree.specs.Marks.{AreMarked};
ghost use Rattle.css_tree.specs.PageMeanings.{Selects};
ghost use Rattle.css_tree.specs.Pages.{Page, page_document};

/// On a page that is marked with the lists of selectors, a selector with numbers matches exactly the elements that
/// it means as it was read, `&`, `:has()` and lists after `An+B` included. This holds where each list asks only of
/// those before it, and the selectors only of these.
pub fn meaning_law()
    ensures { (page : Page) (nested : List (List Selector)) (read : List Selector) → AskEarlier nested
        → All (SelectorAsksBelow (suc (length nested))) read
        → let numbered = numbered_selectors (with_each_list no_lists nested) read in
        AskBefore numbered.1.lists → AreMarked numbered.1.lists page
        → (k i : ℕ) (s t : Selector) → slice_get numbered.0 k ≡ Some s → slice_get read k ≡ Some t
        → i < length page.rows → Matches page_document s (spot page i) ↔ Selects page nested t i }
{}
