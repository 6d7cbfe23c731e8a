//! A sheet that is cut where one of its at-rules begins.
ghost use Rattle.std.specs.Prelude.{◌≡◌, ◌++◌, ℕ, Bool, List, map};
ghost use Rattle.css_cascade.specs.Layers.{LayerText};
ghost use Rattle.css_sheet.specs.OpenParents.{ParentsText, after_parts};
ghost use Rattle.css_sheet.specs.SheetLayers.{with_parts};
ghost use Rattle.css_sheet.specs.SheetOrder.{rules_of_parts};
ghost use Rattle.css_sheet.specs.SheetParts.{OpenText, Source, parts_in};
ghost use Rattle.sheet_laws.specs.Cutting.{IsCut, before_rest, front_of};

/// A sheet has the layers and rules of its front and then those of its rest, wherever one of its at-rules begins. Each is
/// read alone, the rest where the front leaves the layers and the lists that `&` stands for. So an imported sheet stands
/// where its `@import` does, between what is in front of that and the rest.
pub fn cutting_law()
    ensures parts { (holds : List ℕ → List ℕ → Bool) (source : Source) (around : List OpenText) (front rest : List ℕ)
        → IsCut holds source around front rest
        → parts_in holds source around (front ++ rest)
        ≡ map (before_rest rest) (parts_in holds (front_of source rest) around front)
        ++ parts_in holds source around rest }
    ensures layers { (holds : List ℕ → List ℕ → Bool) (source : Source) (around : List OpenText)
        (front rest : List ℕ) (outermost : ℕ → ℕ) (known : List LayerText) (parents : ParentsText)
        → IsCut holds source around front rest
        → let first = parts_in holds (front_of source rest) around front in
        with_parts outermost known parents (parts_in holds source around (front ++ rest))
        ≡ with_parts outermost (with_parts outermost known parents first) (after_parts parents first)
        (parts_in holds source around rest) }
    ensures rules { (holds : List ℕ → List ℕ → Bool) (source : Source) (around : List OpenText)
        (front rest : List ℕ) (outermost : ℕ → ℕ) (known : List LayerText) (parents : ParentsText)
        → IsCut holds source around front rest
        → let first = parts_in holds (front_of source rest) around front in
        rules_of_parts outermost known parents (parts_in holds source around (front ++ rest))
        ≡ rules_of_parts outermost known parents first
        ++ rules_of_parts outermost known (after_parts parents first) (parts_in holds source around rest) }
{}
