//! What the selectors of rules mean.
ghost use Rattle.std.specs.Prelude.{◌≡◌, ◌<◌, ◌↔◌, ℕ, Bool, List, Some, length};
ghost use Rattle.std.specs.List.{slice_get};
ghost use Rattle.css_matching.specs.ListTrees.{spot};
ghost use Rattle.css_selectors.specs.Meanings.{Matches};
ghost use Rattle.css_sheet.specs.SheetOrder.{SheetRuleText, cascade_rules, nested_lists};
ghost use Rattle.css_sheet.specs.Sheets.{SheetText};
ghost use Rattle.css_styles.specs.NumberedRules.{numbered_sheets};
ghost use Rattle.css_tree.specs.Marks.{AreMarked};
ghost use Rattle.css_tree.specs.PageMeanings.{Selects};
ghost use Rattle.css_tree.specs.Pages.{Page, page_document};

/// On a page that is marked with the lists of `css_styles::StyleRules`, the selector of a rule matches exactly the
/// elements that it means as it was read (Selectors 4, CSS Nesting 1), `&`, `:has()` and lists after `An+B`
/// included: `made` is the rule at an index with numbers in its selector, and `rule` the one that was read.
pub fn sheet_meaning_law()
    ensures { (holds : List ℕ → List ℕ → Bool) (sheets : List SheetText) (page : Page)
        → let nested = nested_lists holds sheets in
        let read = cascade_rules holds sheets in
        let numbered = numbered_sheets nested read in
        AreMarked numbered.1.lists page → (k i : ℕ) (rule made : SheetRuleText)
        → slice_get read k ≡ Some rule → slice_get numbered.0 k ≡ Some made → i < length page.rows
        → Matches page_document made.selector (spot page i) ↔ Selects page nested rule.selector i }
{}
