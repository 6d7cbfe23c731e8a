//! The order of the rules of sheets, and that of the texts.
ghost use Rattle.std.specs.Prelude.{◌≡◌, ◌<◌, ℕ, Bool, List, length, slice_index_or};
ghost use Rattle.std.specs.List.Sorted.{IsPermutation, IsSortedBy, IsStableBy};
ghost use Rattle.css_text.specs.Ranks.{rank_by};
ghost use Rattle.css_sheet.specs.SheetOrder.{SheetRuleText, cascade_rules, is_before, rule_key, source_rules};
ghost use Rattle.css_sheet.specs.Sheets.{SheetText};

/// The rules of sheets are those of the texts, each at its rank. None is before one of an earlier origin or layer, or
/// of a smaller specificity; and of two that agree in these the one that is earlier in the texts is earlier.
pub fn source_order_law()
    ensures keeps { (holds : List ℕ → List ℕ → Bool) (sheets : List SheetText)
        → IsPermutation (source_rules holds sheets) (cascade_rules holds sheets) }
    ensures rises { (holds : List ℕ → List ℕ → Bool) (sheets : List SheetText)
        → IsSortedBy is_before (cascade_rules holds sheets) }
    ensures stays { (holds : List ℕ → List ℕ → Bool) (sheets : List SheetText)
        → IsStableBy is_before (source_rules holds sheets) (cascade_rules holds sheets) }
    ensures ranks { (holds : List ℕ → List ℕ → Bool) (sheets : List SheetText) (i : ℕ) (r : SheetRuleText)
        → let source = source_rules holds sheets in i < length source → slice_index_or source i r ≡ r
        → slice_index_or (cascade_rules holds sheets) (rank_by is_before source i r) r ≡ r }
    ensures earlier { (holds : List ℕ → List ℕ → Bool) (sheets : List SheetText) (i j : ℕ) (r s : SheetRuleText)
        → let source = source_rules holds sheets in i < j → j < length source → slice_index_or source i r ≡ r
        → rule_key r ≡ rule_key s → rank_by is_before source i r < rank_by is_before source j s }
{}
