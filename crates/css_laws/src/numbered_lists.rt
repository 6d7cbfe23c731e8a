//! The lists that selectors ask by numbers.
ghost use Rattle.std.specs.Prelude.{ℕ, ◌≡◌, suc, All, Bool, List, length};
ghost use Rattle.css_selector_text.specs.Components.{Selector};
ghost use Rattle.css_selector_text.specs.Names.{Names};
ghost use Rattle.css_selectors.specs.Numberings.{no_lists, numbered_selectors};
ghost use Rattle.css_selector_text.specs.reading.Readings.{got};
ghost use Rattle.css_selector_text.specs.reading.Supported.{supported_list};
ghost use Rattle.css_tree.specs.Asked.{AskBefore, SelectorAsksBelow};
ghost use Rattle.css_sheet.specs.SheetOrder.{cascade_rules, nested_lists};
ghost use Rattle.css_sheet.specs.Sheets.{SheetText};
ghost use Rattle.css_styles.specs.NumberedRules.{numbered_sheets};

/// Lists that have numbers ask only of those before them. Selectors ask only of these lists: those of the
/// rules of `css_styles::StyleRules`, and those of a list that is read and numbered. So `marking_law`,
/// `tested_law` and `ampersand_law` of `css_tree` hold of what is read.
pub fn numbered_lists_law()
    ensures sheet_lists { (holds : List ℕ → List ℕ → Bool) (sheets : List SheetText)
        → AskBefore (numbered_sheets (nested_lists holds sheets) (cascade_rules holds sheets)).1.lists }
    ensures sheet_rules { (holds : List ℕ → List ℕ → Bool) (sheets : List SheetText)
        → let read = numbered_sheets (nested_lists holds sheets) (cascade_rules holds sheets) in
        All (λ rule. SelectorAsksBelow (suc (length read.1.lists)) rule.selector) read.0 }
    ensures lists { (names : Names) (text rest : List ℕ) (all : List Selector)
        → supported_list names text ≡ got all rest
        → AskBefore (numbered_selectors no_lists all).1.lists }
    ensures selectors { (names : Names) (text rest : List ℕ) (all : List Selector)
        → supported_list names text ≡ got all rest
        → let read = numbered_selectors no_lists all in
        All (SelectorAsksBelow (suc (length read.1.lists))) read.0 }
{}
