//! The best of the declarations of each property that count.
ghost use Rattle.std.specs.Prelude.{◌≡◌, ◌++◌, ◌∷◌, ◌<◌, ◌≤◌, [], if◌then◌else◌, true, false};
ghost use Rattle.std.specs.Prelude.{Bool, List, ℕ, None, Some, IfOk, OnErr, OnOk};
ghost use Rattle.std.specs.Prelude.{filter, not, map, length, slice_get, vec_len};
ghost use Rattle.std.specs.List.{All};
ghost use Rattle.std.specs.Option.{option_map};
ghost use Rattle.css_cascade.specs.WeightViews.{weighed};
ghost use Rattle.css_cascade.specs.Cascade.{better, cascade_cmp as cascade_cmp_of};
ghost use Rattle.css_styles.specs.StyleViews.{winner_of};
ghost use Rattle.css_styles.specs.Winners.{applied, as_winner, counting_each, in_order, unbeaten};
ghost use Rattle.css_styles.specs.internal.Floors.{is_over as is_over_of, ranked_of};
ghost use Rattle.css_styles.specs.internal.Numbered.{IsNoted, IsNumbered, is_best_by, is_kept as is_kept_of};
ghost use Rattle.css_styles.specs.internal.Numbered.{numbered_of, weight_of};

use crate::Winner;
use crate::contenders::Contender;
use crate::floors::{Ranked, Standing, find_standings, rank};
use crate::settling::settle;
use css_cascade::{Weight, beats, cascade_cmp, is_left};
use std::alloc::{AllocError, Global};
use std::cmp::Ordering;

/// A declaration that applies to an element, with the number of its property.
#[derive(Clone, Copy)]
pub(crate) struct Numbered<'a> {
    /// The declaration, with what the cascade sees of it.
    pub(crate) contender: Contender<'a>,
    /// The number of its property.
    pub(crate) property: usize,
}

/// Forgets what is noted of the properties of these declarations.
fn forget(contenders: &[Numbered<'_>], best: &mut [Option<Weight>])
    requires { All (λ n. n.property < length best.old) contenders.now }
    ensures len { length best.new ≡ length best.old }
    ensures none { All (λ n. slice_get best.new n.property ≡ Some None) contenders.now }
{
    for one in contenders {
        best[one.property] = None;
    }
}

/// Returns the weight of the later of two declarations, unless the earlier beats it.
fn better_of(earlier: Option<Weight>, later: Weight) -> Weight
    ensures { weighed result ≡ better (λ w. w) (option_map weighed earlier) (weighed later) }
{
    match earlier {
        Some(first) if beats(&first, &later) => first,
        _ => later,
    }
}

/// Notes the best of each property. Nothing is noted of theirs before.
fn note(contenders: &[Numbered<'_>], best: &mut [Option<Weight>])
    requires within { All (λ n. n.property < length best.old) contenders.now }
    requires none { All (λ n. slice_get best.old n.property ≡ Some None) contenders.now }
    ensures len { length best.new ≡ length best.old }
    ensures noted { All (IsNoted contenders.now best.new) contenders.now }
{
    for one in contenders {
        best[one.property] = Some(better_of(best[one.property], one.contender.weight));
    }
}

/// Notes the best of each property.
fn note_anew(contenders: &[Numbered<'_>], best: &mut [Option<Weight>])
    requires { All (λ n. n.property < length best.old) contenders.now }
    ensures len { length best.new ≡ length best.old }
    ensures noted { All (IsNoted contenders.now best.new) contenders.now }
{
    forget(contenders, best);
    note(contenders, best);
}

/// Whether a declaration counts still where the best of its property wins.
fn is_kept(one: &Numbered<'_>, best: &[Option<Weight>]) -> bool
    ensures { result ≡ is_kept_of best.now one.now }
{
    match best.get(one.property) {
        Some(Some(weight)) => is_left(&one.contender.weight, weight),
        _ => true,
    }
}

/// Whether all of these count still.
fn are_kept(contenders: &[Numbered<'_>], best: &[Option<Weight>]) -> bool
    ensures { result ≡ true → All (λ n. is_kept_of best.now n ≡ true) contenders.now }
{
    for one in contenders {
        if !is_kept(one, best) {
            return false;
        }
    }
    true
}

/// Returns what the cascade sees of these declarations.
fn weights_of(alloc: Global, contenders: &[Numbered<'_>]) -> Result<Vec<Ranked>, AllocError>
    ensures { IfOk result (λ ranked. ranked.items ≡ map ranked_of contenders.now) }
{
    let mut ranked: Vec<Ranked> = Vec::with_capacity(alloc, contenders.len())?;
    for one in contenders {
        ranked.push(Ranked {
            property: one.property,
            weight: one.contender.weight,
        })?;
    }
    Ok(ranked)
}

/// Whether a declaration counts in the end.
fn is_over(one: &Numbered<'_>, standings: &[Standing]) -> bool
    ensures { result ≡ is_over_of (slice_get standings.now one.now.property) (weight_of one.now) }
{
    match standings.get(one.property) {
        Some(standing) => standing.leaves(&one.contender.weight),
        None => true,
    }
}

/// Leaves those that count in the end.
fn keep(contenders: &mut Vec<Numbered<'_>>, standings: &[Standing])
    ensures { contenders.new.items ≡ filter
        (λ n. is_over_of (slice_get standings.now n.property) (weight_of n)) contenders.old.items }
{
    contenders.retain(
        |one: &Numbered<'_>| -> bool
            ensures { result
                ≡ is_over_of (slice_get standings.entry.now one.now.property) (weight_of one.now) }
        { is_over(one, standings) },
    );
}

/// Leaves those that count in the end, where what wins of some property may be rolled back. Each
/// property is gone through once, from the best of its declarations on.
fn take_out(
    alloc: Global,
    contenders: &mut Vec<Numbered<'_>>,
    standings: &mut [Standing],
) -> Result<(), AllocError>
    requires { (properties : List (List ℕ)) × (length properties ≤ length standings.old)
        × All (IsNumbered properties) contenders.old.items }
    ensures counting { OnOk result (map numbered_of contenders.new.items
        ≡ counting_each (map numbered_of contenders.old.items)) }
    ensures numbered { OnOk result ((properties : List (List ℕ))
        → All (IsNumbered properties) contenders.old.items
        → All (IsNumbered properties) contenders.new.items) }
{
    let mut ranked = weights_of(alloc, contenders)?;
    rank(&mut ranked)?;
    find_standings(&ranked, standings);
    keep(contenders, standings);
    Ok(())
}

/// Leaves those that count in the end, and notes the best of each property.
fn roll_back(
    alloc: Global,
    contenders: &mut Vec<Numbered<'_>>,
    best: &mut [Option<Weight>],
    standings: &mut [Standing],
) -> Result<(), AllocError>
    requires { (properties : List (List ℕ)) × (length properties ≤ length best.old)
        × (length properties ≤ length standings.old)
        × All (IsNumbered properties) contenders.old.items }
    ensures len { length best.new ≡ length best.old }
    ensures counting { OnOk result (map numbered_of contenders.new.items
        ≡ counting_each (map numbered_of contenders.old.items)) }
    ensures numbered { OnOk result ((properties : List (List ℕ))
        → All (IsNumbered properties) contenders.old.items
        → All (IsNumbered properties) contenders.new.items) }
    ensures noted { OnOk result (All (IsNoted contenders.new.items best.new) contenders.new.items) }
{
    note_anew(contenders, best);
    if are_kept(contenders, best) {
        return Ok(());
    }
    take_out(alloc, contenders, standings)?;
    note_anew(contenders, best);
    Ok(())
}

/// Whether no other declaration of its property beats this one, by what is noted of the property.
fn is_unbeaten(one: &Numbered<'_>, best: &[Option<Weight>]) -> bool
    ensures { result ≡ is_best_by (slice_get best.now one.now.property) (weight_of one.now) }
{
    match best.get(one.property) {
        Some(Some(weight)) => !beats(weight, &one.contender.weight),
        _ => true,
    }
}

/// Leaves those that no other of the same property beats.
fn keep_unbeaten(contenders: &mut Vec<Numbered<'_>>, best: &[Option<Weight>])
    requires numbered { (properties : List (List ℕ)) × All (IsNumbered properties) contenders.old.items }
    requires noted { All (IsNoted contenders.old.items best.now) contenders.old.items }
    ensures { map numbered_of contenders.new.items ≡ unbeaten (map numbered_of contenders.old.items) }
{
    contenders.retain(
        |one: &Numbered<'_>| -> bool
            ensures { result ≡ is_best_by (slice_get best.entry.now one.now.property) (weight_of one.now) }
        { is_unbeaten(one, best) },
    );
}

/// Puts these in the order of the cascade.
fn put_in_order(contenders: &mut Vec<Numbered<'_>>) -> Result<(), AllocError>
    ensures { OnOk result (map numbered_of contenders.new.items ≡ in_order (map numbered_of contenders.old.items)) }
{
    contenders.sort_by(
        |one: &Numbered<'_>, other: &Numbered<'_>| -> Ordering
            ensures { result ≡ cascade_cmp_of (weight_of one.now) (weight_of other.now) }
        { cascade_cmp(&one.contender.weight, &other.contender.weight) },
    )?;
    Ok(())
}

/// Appends the declarations.
fn push_winners<'a>(
    contenders: &[Numbered<'a>],
    found: &mut Vec<Winner<'a>>,
) -> Result<(), AllocError>
    ensures { OnOk result (map winner_of found.new.items ≡ map winner_of found.old.items
        ++ map as_winner (map numbered_of contenders.now)) }
{
    for one in contenders {
        found.push(one.contender.winner)?;
    }
    Ok(())
}

/// Makes room for what is noted of so many properties.
pub(crate) fn make_room(
    best: &mut Vec<Option<Weight>>,
    standings: &mut Vec<Standing>,
    count: usize,
) -> Result<(), AllocError>
    ensures best { OnOk result (count ≤ vec_len best.new) }
    ensures standings { OnOk result (count ≤ vec_len standings.new) }
{
    if best.len() < count {
        best.resize(count, None)?;
    }
    if standings.len() < count {
        standings.resize(count, Standing::new())?;
    }
    Ok(())
}

/// Leaves those that are applied to the element, in order.
fn find_applied(
    alloc: Global,
    contenders: &mut Vec<Numbered<'_>>,
    best: &mut [Option<Weight>],
    standings: &mut [Standing],
) -> Result<(), AllocError>
    requires { (properties : List (List ℕ)) × (length properties ≤ length best.old)
        × (length properties ≤ length standings.old)
        × All (IsNumbered properties) contenders.old.items }
    ensures { OnOk result (map numbered_of contenders.new.items
        ≡ applied (map numbered_of contenders.old.items)) }
{
    settle(contenders);
    roll_back(alloc, contenders, best, standings)?;
    keep_unbeaten(contenders, best);
    put_in_order(contenders)
}

/// Finds what is applied to an element of the declarations that apply, which replaces the items of `found`. Only
/// these are left of the declarations. After an error none are found.
pub(crate) fn find_winners<'a>(
    alloc: Global,
    contenders: &mut Vec<Numbered<'a>>,
    best: &mut [Option<Weight>],
    standings: &mut [Standing],
    found: &mut Vec<Winner<'a>>,
) -> Result<(), AllocError>
    requires { (properties : List (List ℕ)) × (length properties ≤ length best.old)
        × (length properties ≤ length standings.old)
        × All (IsNumbered properties) contenders.old.items }
    ensures applied { OnOk result (map winner_of found.new.items
        ≡ map as_winner (applied (map numbered_of contenders.old.items))) }
    ensures err { OnErr result (found.new.items ≡ []) }
{
    found.clear();
    find_applied(alloc, contenders, best, standings)?;
    let pushed = push_winners(contenders, found);
    if pushed.is_err() {
        found.clear();
    }
    pushed
}
