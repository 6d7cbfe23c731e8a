//! Which declarations win, from the texts of sheets to the numbers that a call writes.
ghost use Rattle.std.specs.Prelude.{◌≡◌, ◌<◌, ◌↔◌, ℕ, Bool, List, None, length, map};
ghost use Rattle.std.specs.List.{All, Contains};
ghost use Rattle.std.specs.declared.cmp.Ordering.TheVariants.{Equal};
ghost use Rattle.css_cascade.specs.Cascade.{cascade_cmp};
ghost use Rattle.css_cascade.specs.declared.weights.Origin.TheVariants.{Hint};
ghost use Rattle.css_index.specs.Found.{AreMatches};
ghost use Rattle.css_matching.specs.ListTrees.{spot};
ghost use Rattle.css_selectors.specs.MarkedLists.{ListText};
ghost use Rattle.css_sheet.specs.SheetOrder.{SheetRuleText, cascade_rules, nested_lists};
ghost use Rattle.css_sheet.specs.Sheets.{SheetText};
ghost use Rattle.css_styles.specs.Contenders.{Contender, OwnText};
ghost use Rattle.css_styles.specs.NumberedRules.{numbered_sheets};
ghost use Rattle.css_styles.specs.Winners.{WinnerText, winners};
ghost use Rattle.css_tree.specs.Marks.{AreMarked};
ghost use Rattle.css_tree.specs.Pages.{Page, page_document};
ghost use Rattle.page_calls.specs.MarkedPages.{IsMarkedPage, list_as};
ghost use Rattle.page_calls.specs.Readings.{selector_as};
ghost use Rattle.page_calls.specs.declared.modern.document_kind.DocumentKind.{DocumentKind};
ghost use Rattle.simplecss_calls.specs.WinnerNumbers.{AreRules, AreSheets, IsWon, PassedSheets, is_held, selectors_read, winners_numbers};
ghost use Rattle.css_laws.specs.Headline.{Applies, AreTheWinners};

/// The numbers that `simplecss_query_numbers` writes of an element are those of the declarations that win on it: each is
/// one that applies, by a rule of the sheets that are passed whose selector matches the element, or by the element's
/// own texts; no other that counts beats it; and for each property there is one if one counts, and none if none does.
/// The premises are what the call ensures: the rules are those of the sheets, and the page is marked with their lists.
pub fn winners_law()
    ensures { (passed : PassedSheets) (limit : ℕ) (rules : List SheetRuleText) (lists : List ListText)
        (kind : DocumentKind) (before page : Page) (own : OwnText) (index : ℕ) (numbers : List ℕ)
        → AreRules passed limit rules lists → IsMarkedPage kind lists before page → index < length page.rows
        → IsWon None own (selector_as kind) rules page index numbers
        → (sheets : List SheetText) × (groups : List (List ℕ)) × AreSheets passed sheets groups
        × (found : List WinnerText) × (numbers ≡ winners_numbers (length rules) found)
        × AreTheWinners (is_held groups) sheets kind page index own found }
{}

/// What `css_styles::Styles::winners` finds on an element are the declarations that win on it, whatever says which
/// group rules hold: the rules are those of `css_styles::StyleRules`, the page is marked with their lists, and no sheet
/// is of the origin of presentational hints. The indices are of the rules that match, as the call ensures.
pub fn styles_law()
    ensures { (holds : List ℕ → List ℕ → Bool) (sheets : List SheetText) (kind : DocumentKind) (page : Page)
        (own : OwnText) (index : ℕ) (indices : List ℕ)
        → let read = numbered_sheets (nested_lists holds sheets) (cascade_rules holds sheets) in
        All (λ (sheet : SheetText). sheet.origin ≡ Hint → ⊥) sheets
        → AreMarked (map (list_as kind) read.1.lists) page → index < length page.rows
        → AreMatches page_document (spot page index) (selectors_read (selector_as kind) read.0) indices
        → AreTheWinners holds sheets kind page index own (winners read.0 indices own) }
{}

/// The sheets, the page and the element's own texts decide what wins on it: two answers name the same declarations. Of
/// those that apply, two that nothing tells apart in the order of the cascade are one.
pub fn answer_law()
    ensures once { (holds : List ℕ → List ℕ → Bool) (sheets : List SheetText) (kind : DocumentKind) (page : Page)
        (index : ℕ) (own : OwnText) (found : List WinnerText) → AreTheWinners holds sheets kind page index own found
        → (one other : Contender) → Applies holds sheets kind page index own one
        → Applies holds sheets kind page index own other
        → cascade_cmp one.weight other.weight ≡ Equal → one ≡ other }
    ensures same { (holds : List ℕ → List ℕ → Bool) (sheets : List SheetText) (kind : DocumentKind) (page : Page)
        (index : ℕ) (own : OwnText) (found others : List WinnerText)
        → AreTheWinners holds sheets kind page index own found
        → AreTheWinners holds sheets kind page index own others
        → (winner : WinnerText) → Contains found winner ↔ Contains others winner }
{}
