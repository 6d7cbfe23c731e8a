//! The declaration that wins of those that contend for one property.
ghost use Rattle.std.specs.Prelude.{◌≡◌, None, IfOk, OnOk, filter, map, option_map};
ghost use Rattle.css_cascade.specs.Cascade.{winner_from};
ghost use Rattle.css_cascade.specs.Rollbacks.{is_left_under};
ghost use Rattle.css_cascade.specs.WeightViews.{weighed};
ghost use Rattle.css_styles.specs.Winners.{counting};
ghost use Rattle.css_styles.specs.internal.Floors.{floor_of, ranked_alone};
ghost use Rattle.css_styles.specs.internal.Stepping.{contender_of, decided, seen};

use crate::contenders::{Contender, better_of};
use crate::floors::{Ranked, Standing, find_standings, rank};
use css_cascade::rolls_back;
use std::alloc::{AllocError, Global};

/// Returns the best of these.
fn best_of<'a>(rivals: &[Contender<'a>]) -> Option<Contender<'a>>
    ensures { option_map contender_of result ≡ winner_from seen None (map contender_of rivals.now) }
{
    let mut best = None;
    for one in rivals {
        best = Some(better_of(best, *one));
    }
    best
}

/// Returns what the cascade sees of these.
fn weights_of(alloc: Global, rivals: &[Contender<'_>]) -> Result<Vec<Ranked>, AllocError>
    ensures { IfOk result (λ ranked. ranked.items ≡ map ranked_alone rivals.now) }
{
    let mut ranked: Vec<Ranked> = Vec::with_capacity(alloc, rivals.len())?;
    for one in rivals {
        let weight = one.weight;
        ranked.push(Ranked {
            property: 0,
            weight,
        })?;
    }
    Ok(ranked)
}

/// Leaves those that count where this is known of their property.
fn keep(rivals: &mut Vec<Contender<'_>>, standing: &Standing)
    ensures { rivals.new.items ≡ filter
        (λ one. is_left_under (floor_of standing.now) (weighed one.weight)) rivals.old.items }
{
    rivals.retain(
        |one: &Contender<'_>| -> bool
            ensures { result
                ≡ is_left_under (floor_of standing.entry.now) (weighed one.now.weight) }
        { standing.leaves(&one.weight) },
    );
}

/// Leaves those that count in the end. They are gone through once, from the best on.
fn take_out(alloc: Global, rivals: &mut Vec<Contender<'_>>) -> Result<(), AllocError>
    ensures { OnOk result
        (map contender_of rivals.new.items ≡ counting (map contender_of rivals.old.items)) }
{
    let mut ranked = weights_of(alloc, rivals)?;
    rank(&mut ranked)?;
    let mut standings = [Standing::new()];
    find_standings(&ranked, &mut standings);
    keep(rivals, &standings[0]);
    Ok(())
}

/// Returns the one that wins of those that count. Only these are left.
pub(crate) fn decide<'a>(
    alloc: Global,
    rivals: &mut Vec<Contender<'a>>,
) -> Result<Option<Contender<'a>>, AllocError>
    ensures { IfOk result (λ best.
        option_map contender_of best ≡ decided (map contender_of rivals.old.items)) }
{
    let Some(best) = best_of(rivals) else {
        return Ok(None);
    };
    if !rolls_back(&best.weight) {
        return Ok(Some(best));
    }
    take_out(alloc, rivals)?;
    Ok(best_of(rivals))
}
