//! Values that roll back where nothing is before them.
ghost use Rattle.std.specs.Prelude.{◌≡◌, ◌||◌, false, map, option_map};
ghost use Rattle.std.specs.List.{All, list_any};
ghost use Rattle.std.specs.Ordering.{is_lt};
ghost use Rattle.css_cascade.specs.Cascade.{Weighed};
ghost use Rattle.css_cascade.specs.Rollbacks.{is_left as is_left_of, level_cmp};
ghost use Rattle.css_cascade.specs.WeightViews.{weighed};
ghost use Rattle.css_cascade.specs.declared.rollback.Rollback.TheVariants.{Nowhere};
ghost use Rattle.css_styles.specs.Winners.{settled};
ghost use Rattle.css_styles.specs.internal.Numbered.{is_reached, named_of, numbered_of, settled_by, weight_of};

use crate::contest::Numbered;
use css_cascade::{Rollback, Weight, is_left};

/// Whether the value of one of these rolls back.
fn some_rolls_back(contenders: &[Numbered<'_>]) -> bool
    ensures { result ≡ false → All (λ n. n.contender.weight.rollback ≡ Nowhere) contenders.now }
{
    for one in contenders {
        if one.contender.weight.rollback != Rollback::Nowhere {
            return true;
        }
    }
    false
}

/// Whether the first declaration is in an earlier origin or layer than the second, and so counts still where
/// the layer of that is rolled back.
fn is_before(one: &Weight, other: &Weight) -> bool
    ensures { result ≡ is_lt (level_cmp (weighed one.now) (weighed other.now)) }
{
    let rolled_back = Weight {
        rollback: Rollback::ToLayer,
        ..*other
    };
    is_left(one, &rolled_back)
}

/// Returns the one of two declarations that is in the earlier origin or layer.
fn earlier_of(first: Option<Weight>, one: &Weight) -> Weight
    ensures { (winner : Weighed) → is_left_of (weighed result) winner
        ≡ (is_reached (option_map weighed first) winner || is_left_of (weighed one.now) winner) }
{
    match first {
        None => *one,
        Some(before) => {
            if is_before(one, &before) {
                *one
            } else {
                before
            }
        }
    }
}

/// Returns the one that is in the earliest origin and layer.
fn earliest(contenders: &[Numbered<'_>]) -> Option<Weight>
    ensures { (winner : Weighed) → is_reached (option_map weighed result) winner
        ≡ list_any (λ n. is_left_of (weight_of n) winner) contenders.now }
{
    let mut first: Option<Weight> = None;
    for one in contenders {
        first = Some(earlier_of(first, &one.contender.weight));
    }
    first
}

/// Returns what the cascade sees of a declaration, where this one is in the earliest origin and layer.
fn settled_weight(weight: Weight, first: &Option<Weight>) -> Weight
    ensures { weighed result ≡ settled_by (option_map weighed first.now) (weighed weight) }
{
    match first {
        Some(before) if is_left(before, &weight) => weight,
        _ => Weight {
            rollback: Rollback::Nowhere,
            ..weight
        },
    }
}

/// Takes the value of each declaration that nothing is before for one that does not roll back, where this one is
/// in the earliest origin and layer.
fn settle_by(contenders: &mut Vec<Numbered<'_>>, first: &Option<Weight>)
    requires { (winner : Weighed) → is_reached (option_map weighed first.now) winner
        ≡ list_any (λ n. is_left_of (weight_of n) winner) contenders.old.items }
    ensures settled { map numbered_of contenders.new.items ≡ settled (map numbered_of contenders.old.items) }
    ensures named { map named_of contenders.new.items ≡ map named_of contenders.old.items }
{
    'contenders: for one in contenders.iter_mut() {
        one.contender.weight = settled_weight(one.contender.weight, first);
    }
}

/// Takes the value of each declaration that nothing is before for one that does not roll back.
pub(crate) fn settle(contenders: &mut Vec<Numbered<'_>>)
    ensures settled { map numbered_of contenders.new.items ≡ settled (map numbered_of contenders.old.items) }
    ensures named { map named_of contenders.new.items ≡ map named_of contenders.old.items }
{
    if !some_rolls_back(contenders) {
        return;
    }
    let first = earliest(contenders);
    settle_by(contenders, &first);
}
