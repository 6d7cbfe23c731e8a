//! Properties that lead to one another by references.
ghost use Rattle.std.specs.Prelude.{◌≡◌, ℕ, List, IfOk, OnOk, ◌∷◌, ◌<◌, option_map, Some, true};
ghost use Rattle.css_values.specs.Resolution.{Property};
ghost use Rattle.css_values.specs.declared.table.Slot.{Slot};
ghost use Rattle.css_values.specs.internal.Paths.{Absorbs, AreBoth, HasLast, IsMerging, IsPath, circle_of, circles_of};
ghost use Rattle.css_values.specs.internal.Paths.{place_of, slot_at, weights, with_last};

use crate::readings::Reading;
use std::alloc::{AllocError, Global};

/// Properties whose values are being read.
#[derive(Drop)]
pub(crate) struct Circle<'a> {
    /// How many others were begun before the first of them.
    pub start: usize,
    /// Whether each of them leads to each. If not, there is only one.
    pub closed: bool,
    /// The one that is read.
    pub current: Reading<'a>,
    /// Others that are not read to their ends.
    pub others: Vec<Reading<'a>>,
    /// Those that are.
    pub ended: Vec<usize>,
}

/// Takes the last circle of a path, if there is one.
pub(crate) fn take_last<'a>(path: &mut Vec<Circle<'a>>) -> Option<Circle<'a>>
    ensures parts { circles_of path.old.items
        ≡ with_last (option_map circle_of result) (circles_of path.new.items) }
    ensures ends { HasLast (circles_of path.new.items) (option_map circle_of result) }
{
    path.pop()
}

/// Puts a circle at the end of a path.
pub(crate) fn push_last<'a>(path: &mut Vec<Circle<'a>>, last: Circle<'a>) -> Result<(), AllocError>
    ensures { OnOk result (circles_of path.new.items ≡ circle_of last.entry ∷ circles_of path.old.items) }
{
    path.push(last)?;
    Ok(())
}

/// Returns all of both, in the order that moves fewer.
fn joined<T: Drop>(mut one: Vec<T>, mut two: Vec<T>) -> Result<Vec<T>, AllocError>
    ensures { IfOk result (λ all. AreBoth one.items two.items all.items) }
{
    if one.len() < two.len() {
        two.append(&mut one)?;
        Ok(two)
    } else {
        one.append(&mut two)?;
        Ok(one)
    }
}

/// Returns the circle of the properties of both, which goes on with the one that is read of the upper.
fn absorbed<'a>(upper: Circle<'a>, lower: Circle<'a>) -> Result<Circle<'a>, AllocError>
    ensures { IfOk result (λ merged. Absorbs (circle_of upper.entry) (circle_of lower.entry) (circle_of merged)) }
{
    let mut others = joined(upper.others, lower.others)?;
    others.push(lower.current)?;
    let ended = joined(upper.ended, lower.ended)?;
    Ok(Circle {
        start: lower.start,
        closed: true,
        current: upper.current,
        others,
        ended,
    })
}

/// Closes the last circle, for the property that it reads waits for one that was begun at this place:
/// the circles of the path from that one's on become part of it.
pub(crate) fn merged<'a>(
    path: &mut Vec<Circle<'a>>,
    last: Circle<'a>,
    place: usize,
) -> Result<Circle<'a>, AllocError>
    ensures { (limit : ℕ) (properties : List Property) (all : List Slot) (begun other most : ℕ)
        → place_of (slot_at all other) ≡ place
        → IsMerging limit properties all begun other most (record {
          start = last.entry.start;
          closed = true;
          current = (circle_of last.entry).current;
          others = (circle_of last.entry).others;
          ended = last.entry.ended.items;
        }) (circles_of path.old.items)
        → IfOk result (λ top. IsPath limit properties all begun (circle_of top ∷ circles_of path.new.items)
        × (weights (circle_of top ∷ circles_of path.new.items) < most)) }
{
    let mut top = last;
    top.closed = true;
    'circles: while top.start > place {
        match take_last(path) {
            None => return Ok(top),
            Some(lower) => top = absorbed(top, lower)?,
        }
    }
    Ok(top)
}
