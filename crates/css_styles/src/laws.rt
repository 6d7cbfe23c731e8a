//! What values that roll the cascade back change, and that of each property one declaration wins.
ghost use Rattle.std.specs.Prelude.{◌≡◌, ℕ, Bool, List, count_by, false, length, min};
ghost use Rattle.std.specs.List.{All, Contains};
ghost use Rattle.std.specs.List.Sorted.{IsStrictlyIncreasing};
ghost use Rattle.css_cascade.specs.Cascade.{Wins};
ghost use Rattle.css_cascade.specs.Rollbacks.{rolls_back};
ghost use Rattle.css_sheet.specs.SheetOrder.{SheetRuleText};
ghost use Rattle.css_styles.specs.Contenders.{Contender, OwnText, contenders, is_property, of_property};
ghost use Rattle.css_styles.specs.Winners.{AreDistinct, HaveNoHints, WinnerText, as_winner, counted, winners};
ghost use Rattle.css_styles.specs.Winners.{counting, counting_each, unbeaten};

/// Where no declaration is one that is rolled back if it wins, all of them count, so that those win
/// that no other of their property beats. And what wins is never one that is rolled back, where no two
/// are alike in the order of the cascade. [`one_law`] says that of the declarations of an element none are.
pub fn rollback_law()
    ensures all_count { (found : List Contender)
        → All (λ c. rolls_back c.weight ≡ false) found → counting found ≡ found }
    ensures each_counts { (found : List Contender)
        → All (λ c. rolls_back c.weight ≡ false) found → counting_each found ≡ found }
    ensures never_wins { (found : List Contender) (one : Contender) → AreDistinct found
        → Wins (λ (c : Contender). c.weight) (counting found) one → rolls_back one.weight ≡ false }
    ensures none_wins { (found : List Contender) → AreDistinct found
        → All (λ c. rolls_back c.weight ≡ false) (unbeaten (counting_each found)) }
{}

/// On an element, for each property exactly one declaration wins if one counts, and none if none does. Each that
/// wins counts, and no other of its property that does beats it. For no two declarations that apply are alike in the
/// order of the cascade. The indices are those of the rules that match the element, in order, each once, and no rule is
/// of the origin of presentational hints.
pub fn one_law()
    ensures one { (rules : List SheetRuleText) (indices : List ℕ) (own : OwnText) → HaveNoHints rules
        → IsStrictlyIncreasing indices → (property : List ℕ)
        → count_by (λ (w : WinnerText). is_property property w.declaration.name) (winners rules indices own)
        ≡ min 1 (length (of_property property (counted rules indices own))) }
    ensures best { (rules : List SheetRuleText) (indices : List ℕ) (own : OwnText) (w : WinnerText)
        → Contains (winners rules indices own) w
        → (one : Contender) × (as_winner one ≡ w)
        × Wins (λ (c : Contender). c.weight) (of_property one.declaration.name (counted rules indices own)) one }
    ensures distinct { (rules : List SheetRuleText) (indices : List ℕ) (own : OwnText) → HaveNoHints rules
        → IsStrictlyIncreasing indices → AreDistinct (contenders rules indices own) }
{}
