//! Ways from one element of a tree to another.
ghost use Rattle.std.specs.Prelude.{◌≡◌, ◌<◌, ◌≤◌, [], None, Some, IfOk, IfSome, MatchOption};
ghost use Rattle.std.specs.Prelude.{length, reverse, nat_eq};
ghost use Rattle.std.specs.Option.{option_eq};
ghost use Rattle.css_matching.specs.ListTrees.{parent_by};
ghost use Rattle.css_elements.specs.TreeNodes.{named_parent};
ghost use Rattle.css_elements.specs.Ways.{LeadsTo, IsAbove};

use crate::Tree;
use std::alloc::AllocError;

/// Returns the index, if it comes after the place.
fn if_after(index: Option<usize>, place: Option<usize>) -> Option<usize>
    ensures { MatchOption result
        (MatchOption place (index ≡ None) (λ last. IfSome index (λ i. i ≤ last)))
        (λ next. index ≡ Some next) }
{
    match (index, place) {
        (Some(next), Some(last)) if next <= last => None,
        _ => index,
    }
}

/// Whether both are one element, or none.
fn are_same(one: Option<usize>, other: Option<usize>) -> bool
    ensures { result ≡ option_eq nat_eq one other }
{
    one == other
}

/// Returns the parent of the element, if there is an element and it has a parent.
fn parent_of(tree: &Tree<'_>, element: Option<usize>) -> Option<usize>
    requires { IfSome element (λ index. index < length tree.now) }
    ensures value { MatchOption element (result ≡ None)
        (λ index. result ≡ parent_by (named_parent tree.now) index) }
    ensures before { IfSome element (λ index. IfSome result (λ parent. parent < index)) }
{
    match element {
        Some(index) => tree.parent(index),
        None => None,
    }
}

/// Returns the nearest element that is or contains both elements, if there is one, and appends the
/// indices of the elements from `to` up to that one, without it: the last first. Where `from` is
/// none, it is above all elements. Fails only if an allocation fails.
pub fn find_way(
    tree: &Tree<'_>,
    from: Option<usize>,
    to: Option<usize>,
    between: &mut Vec<usize>,
) -> Result<Option<usize>, AllocError>
    requires from { IfSome from (λ index. index < length tree.now) }
    requires to { IfSome to (λ index. index < length tree.now) }
    requires none { between.old.items ≡ [] }
    ensures above { IfOk result (λ meet. IsAbove tree.now meet from) }
    ensures between { IfOk result (λ meet. LeadsTo tree.now meet (reverse between.new.items) to) }
{
    let mut place = from;
    let mut above = to;
    'climb: while !are_same(place, above) {
        match if_after(above, place) {
            Some(index) => {
                between.push(index)?;
                above = tree.parent(index);
            }
            None => place = parent_of(tree, place),
        }
    }
    Ok(place)
}
