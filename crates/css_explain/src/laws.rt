//! What an explanation says.
ghost use Rattle.std.specs.Prelude.{◌≡◌, ◌+◌, ℕ, List, Some, map, true};
ghost use Rattle.std.specs.List.{AllPairs, slice_get};
ghost use Rattle.std.specs.List.Sorted.{IsPermutation, IsStrictlyIncreasing};
ghost use Rattle.css_cascade.specs.Cascade.{Weighed, beats, cascade_cmp};
ghost use Rattle.css_sheet.specs.SheetOrder.{SheetRuleText};
ghost use Rattle.css_styles.specs.Contenders.{Contender, OwnText};
ghost use Rattle.css_styles.specs.Winners.{HaveNoHints};
ghost use Rattle.css_explain.specs.Explanations.{ExplainedText, criterion, explained, explanation, order_by};

/// An explanation has each declaration that applies to the element once, and no other. Each beats all after it in
/// the order of the cascade, where the indices are those of rules in order, each once, and no rule is of the origin
/// of presentational hints. Each but the first has the criterion between it and the one before; and what a criterion
/// between two says of them alone is what the cascade says.
pub fn explain_law()
    ensures complete { (found : List Contender)
        → IsPermutation found (map (λ (one : ExplainedText). one.contender) (explained found)) }
    ensures beats { (rules : List SheetRuleText) (indices : List ℕ) (own : OwnText) (names : List (List ℕ))
        → HaveNoHints rules → IsStrictlyIncreasing indices
        → AllPairs (λ (one other : Contender). beats one.weight other.weight ≡ true)
        (map (λ (one : ExplainedText). one.contender) (explanation rules indices own names)) }
    ensures criteria { (found : List Contender) (k : ℕ) (one other : ExplainedText)
        → slice_get (explained found) k ≡ Some one → slice_get (explained found) (k + 1) ≡ Some other
        → other.lost_by ≡ Some (criterion one.contender.weight other.contender.weight) }
    ensures decides { (one other : Weighed) → order_by (criterion one other) one other ≡ cascade_cmp one other }
{}
