//! Which declarations of some properties win on an element.
ghost use Rattle.std.specs.Prelude.{◌≡◌, ◌++◌, ◌∷◌, [], OnErr, OnOk, map, option_map};
ghost use Rattle.css_styles.specs.Contenders.{of_names};
ghost use Rattle.css_styles.specs.StyleViews.{names_of, winner_of};
ghost use Rattle.css_styles.specs.internal.Numbered.{numbered_of};
ghost use Rattle.css_styles.specs.internal.Stepping.{best_named as best_named_of, contender_of};

use crate::Winner;
use crate::contenders::{Contender, won};
use crate::contest::Numbered;
use crate::decide::decide;
use crate::properties::is_named;
use std::alloc::{AllocError, Global};

/// Appends the declaration, if it has one of these names.
fn push_if_named<'a>(
    names: &[&str],
    one: Contender<'a>,
    rivals: &mut Vec<Contender<'a>>,
) -> Result<(), AllocError>
    ensures { OnOk result (map contender_of rivals.new.items ≡ map contender_of rivals.old.items
        ++ of_names (map (λ name. name.now) names.now) (contender_of one.entry ∷ [])) }
{
    if is_named(names, one.winner.declaration.name) {
        rivals.push(one)?;
    }
    Ok(())
}

/// Finds the declarations that have one of these names, which replace the items of `rivals`.
fn pick<'a>(
    names: &[&str],
    contenders: &[Numbered<'a>],
    rivals: &mut Vec<Contender<'a>>,
) -> Result<(), AllocError>
    ensures { OnOk result (map contender_of rivals.new.items
        ≡ of_names (map (λ name. name.now) names.now) (map numbered_of contenders.now)) }
{
    rivals.clear();
    for one in contenders {
        push_if_named(names, one.contender, rivals)?;
    }
    Ok(())
}

/// Finds for the property of these names the declaration that wins, if one does.
fn find_named<'a>(
    alloc: Global,
    names: &[&str],
    contenders: &[Numbered<'a>],
    rivals: &mut Vec<Contender<'a>>,
    found: &mut Vec<Option<Winner<'a>>>,
) -> Result<(), AllocError>
    ensures { OnOk result (map (option_map winner_of) found.new.items
        ≡ map (option_map winner_of) found.old.items
        ++ best_named_of (map numbered_of contenders.now) (map (λ name. name.now) names.now) ∷ []) }
{
    pick(names, contenders, rivals)?;
    let best = decide(alloc, rivals)?;
    found.push(won(best))?;
    Ok(())
}

/// Finds for each of these properties, which may have several names, the declaration that wins: these
/// replace the items of `found`. After an error none are left.
pub(crate) fn find_asked<'a>(
    alloc: Global,
    asked: &[&[&str]],
    contenders: &[Numbered<'a>],
    rivals: &mut Vec<Contender<'a>>,
    found: &mut Vec<Option<Winner<'a>>>,
) -> Result<(), AllocError>
    ensures winners { OnOk result (map (option_map winner_of) found.new.items
        ≡ map (best_named_of (map numbered_of contenders.now)) (names_of asked.now)) }
    ensures err { OnErr result (found.new.items ≡ []) }
{
    found.clear();
    for names in asked {
        if let Err(error) = find_named(alloc, *names, contenders, rivals, found) {
            found.clear();
            return Err(error);
        }
    }
    Ok(())
}
