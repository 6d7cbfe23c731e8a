//! The lists of selectors that `&` stands for in nested rules.
ghost use Rattle.std.specs.Prelude.{ℕ, ◌≡◌, ◌<◌, suc, All, Bool, List, [], length, None, slice_index_or};
ghost use Rattle.css_tree.specs.Asked.{AskEarlier, SelectorAsksBelow};
ghost use Rattle.css_sheet.specs.SheetOrder.{cascade_rules, nested_lists};
ghost use Rattle.css_sheet.specs.Sheets.{SheetText};

/// Each list of selectors that `read_sheets` returns asks only of those before it. None of its selectors has a
/// pseudo-element, and the selectors of the rules ask only of these lists. So `chain_law` of `css_tree` holds of
/// what is read.
pub fn nested_lists_law()
    ensures lists { (holds : List ℕ → List ℕ → Bool) (sheets : List SheetText)
        → AskEarlier (nested_lists holds sheets) }
    ensures elements { (holds : List ℕ → List ℕ → Bool) (sheets : List SheetText) (k : ℕ)
        → k < length (nested_lists holds sheets)
        → All (λ s. s.pseudo_element ≡ None) (slice_index_or (nested_lists holds sheets) k []) }
    ensures rules { (holds : List ℕ → List ℕ → Bool) (sheets : List SheetText)
        → All (λ rule. SelectorAsksBelow (suc (length (nested_lists holds sheets))) rule.selector)
        (cascade_rules holds sheets) }
{}
