//! Sheets that stand one after another, such as the pieces of a sheet and those that it imports between them.
ghost use Rattle.std.specs.Prelude.{◌≡◌, ◌<◌, ◌++◌, ℕ, Bool, List, length, replicate};
ghost use Rattle.std.specs.List.Sorted.{IsNonDecreasingBy};
ghost use Rattle.css_text.specs.AsciiBytes.{space};
ghost use Rattle.css_cascade.specs.Layers.{place_of};
ghost use Rattle.css_sheet.specs.SheetLayers.{sheet_layers};
ghost use Rattle.css_sheet.specs.SheetOrder.{SheetRuleText, source_rules};
ghost use Rattle.css_sheet.specs.SheetParts.{OpenText, Source, nesting_of, outside, parts_in};
ghost use Rattle.css_sheet.specs.Sheets.{SheetText};

/// Sheets have their rules and layers where they stand. In the order of the texts the rules of a sheet are after those
/// of all sheets before it; and of two layers of sheets the same is first, whatever sheets follow. So what a sheet has
/// before its imports, the sheets that it imports, and the rest of it may be read as sheets one after another. The rest
/// has the parts that it has in its sheet, if in front of it are as many space bytes as there is text before it.
pub fn pieces_law()
    ensures rules { (holds : List ℕ → List ℕ → Bool) (sheets : List SheetText)
        → IsNonDecreasingBy (λ (rule : SheetRuleText). rule.sheet) (source_rules holds sheets) }
    ensures layers { (holds : List ℕ → List ℕ → Bool) (earlier later : List SheetText) (m n : ℕ)
        → let known = sheet_layers holds earlier in let all = sheet_layers holds (earlier ++ later) in
        place_of m known < place_of n known → place_of n known < length known
        → place_of m all < place_of n all }
    ensures rest { (holds : List ℕ → List ℕ → Bool) (source : Source) (around : List OpenText) (n : ℕ)
        (rest : List ℕ) → nesting_of around ≡ outside
        → parts_in holds source around (replicate n space ++ rest) ≡ parts_in holds source around rest }
{}
