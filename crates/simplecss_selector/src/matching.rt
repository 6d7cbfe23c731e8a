//! Matching: a search that places each stretch of child and adjacent combinators once.
ghost use Rattle.std.specs.Prelude.{◌≡◌, ◌+◌, ◌*◌, ◌<◌, ◌≤◌, ◌↔◌, ◌∷◌, IsTrue, length, slice_index};
ghost use Rattle.std.specs.Option.{option_map};
ghost use Rattle.simplecss_selector.specs.internal.CombinatorViews.{combinator_of};
ghost use Rattle.simplecss_selector.specs.internal.StretchFits.{Finds, TestsPlaced};
ghost use Rattle.simplecss_selector.specs.Placements.{Meets, HasPlacement, longest_stretch};
ghost use Rattle.simplecss_selector.specs.internal.Stretches.{IsStretch};
ghost use Rattle.simplecss_selector.specs.internal.PlacementSearch.{step_from as node_before};
ghost use Rattle.simplecss_selector.specs.Shapes.{component_at};

use crate::Element;
use crate::selector::{Combinator, Selector};
use css_matching::Tests;

/// The result of trying a stretch at one node.
#[derive(Drop)]
enum Fit<E> {
    /// A component does not match, or has no node.
    Mismatch,
    /// All components match, components remain, and no node is left for them.
    NoNodeLeft,
    /// All components match, and none remains.
    Complete,
    /// All components match, and those before the stretch remain, to be placed at or above the
    /// node.
    Continues(E),
}

/// A stretch: components joined by child and adjacent combinators, by the indices of its first and
/// its last component.
#[derive(Clone, Copy)]
struct Stretch {
    /// The index of the first component.
    first: usize,
    /// The index of the last component.
    last: usize,
}

/// Returns the index of the first component after `count` stretches, from the ends of the stretches.
#[inline(always)]
fn begin_after(ends: &[usize], count: usize) -> usize
    requires { count ≤ length ends.now }
    ensures { result ≡ slice_index (0 ∷ ends.now) count }
{
    if count == 0 { 0 } else { ends[count - 1] }
}

/// Returns stretch `number`, counted from 0, from the ends of the stretches.
#[inline(always)]
fn stretch_at(ends: &[usize], number: usize) -> Stretch
    requires within { number < length ends.now }
    requires some { 0 < slice_index ends.now number }
    ensures first { result.first ≡ slice_index (0 ∷ ends.now) number }
    ensures last { result.last + 1 ≡ slice_index ends.now number }
{
    Stretch {
        first: begin_after(ends, number),
        last: ends[number] - 1,
    }
}

/// Returns the node to which a child or adjacent combinator leads back.
#[inline(always)]
fn step_from<E: Element>(combinator: Combinator, node: &E) -> Option<E>
    ensures { option_map E.node result
        ≡ node_before E.tree (combinator_of combinator) (E.node node.now) }
{
    match combinator {
        Combinator::Child => node.parent_element(),
        Combinator::Adjacent => node.prev_sibling_element(),
        Combinator::None | Combinator::Descendant => None,
    }
}

/// Whether the element matches the compound of the component at this index. This is one test.
#[inline(always)]
pub(crate) fn is_met_at<E: Element>(
    selector: &Selector<'_>,
    index: usize,
    element: &E,
    tests: &mut Tests,
) -> bool
    requires { index < length selector.now }
    ensures answer { IsTrue result
        ↔ Meets E.tree (E.node element.now) (component_at selector.now index).compound }
    ensures counted { tests.new ≡ tests.old + 1 }
{
    tests.tick();
    let (flat, subselectors) = selector.component(index);
    if let Some(name) = flat.name {
        if !element.has_local_name(name) {
            return false;
        }
    }
    for subselector in subselectors {
        if !subselector.holds(element) {
            return false;
        }
    }
    true
}

/// Follows the stretch back from `lowest`, which matches its last component.
#[inline(always)]
fn climb<E: Element>(
    selector: &Selector<'_>,
    stretch: Stretch,
    lowest: &E,
    tests: &mut Tests,
) -> Fit<E>
    requires stretch { IsStretch selector.now stretch.first stretch.last }
    requires met { Meets E.tree (E.node lowest.now) (component_at selector.now stretch.last).compound }
    ensures finds { Finds E.tree E.node selector.now stretch.first stretch.last (E.node lowest.now) result }
    ensures placed { TestsPlaced stretch.first stretch.last tests.old (tests.new + 1) result }
    ensures tested { tests.old ≤ tests.new }
    ensures bounded { tests.new + 1 ≤ tests.old + longest_stretch selector.now }
{
    let mut index = stretch.last;
    let mut top: Option<E> = None;
    'steps: while index > stretch.first {
        let node = top.as_ref().unwrap_or(lowest);
        let Some(before) = step_from(selector.combinator(index), node) else {
            return Fit::Mismatch;
        };
        index -= 1;
        if !is_met_at(selector, index, &before, tests) {
            return Fit::Mismatch;
        }
        top = Some(before);
    }
    if stretch.first == 0 {
        return Fit::Complete;
    }
    let node = top.as_ref().unwrap_or(lowest);
    match node.parent_element() {
        Some(above) => Fit::Continues(above),
        None => Fit::NoNodeLeft,
    }
}

/// Tries the stretch with its last component on `lowest`.
#[inline(always)]
fn place_stretch<E: Element>(
    selector: &Selector<'_>,
    stretch: Stretch,
    lowest: &E,
    tests: &mut Tests,
) -> Fit<E>
    requires { IsStretch selector.now stretch.first stretch.last }
    ensures finds { Finds E.tree E.node selector.now stretch.first stretch.last (E.node lowest.now) result }
    ensures placed { TestsPlaced stretch.first stretch.last tests.old tests.new result }
    ensures tested { tests.old < tests.new }
    ensures bounded { tests.new ≤ tests.old + longest_stretch selector.now }
{
    if !is_met_at(selector, stretch.last, lowest, tests) {
        return Fit::Mismatch;
    }
    climb(selector, stretch, lowest, tests)
}

/// Continues from the element, which matches the last component, through the stretches. Not
/// inlined, since most elements do not match the last component.
#[inline(never)]
pub(crate) fn continues<E: Element>(
    selector: &Selector<'_>,
    last: usize,
    element: &E,
    tests: &mut Tests,
) -> bool
    requires last { last + 1 ≡ length selector.now }
    requires met { Meets E.tree (E.node element.now) (component_at selector.now last).compound }
    ensures answer { IsTrue result ↔ HasPlacement E.tree selector.now (E.node element.now) }
    ensures tested { tests.old ≤ tests.new }
    ensures all_when_true { IsTrue result → tests.old + last ≤ tests.new }
    ensures bounded { tests.new + 1
        ≤ tests.old + longest_stretch selector.now * (E.tree.depth (E.node element.now) + 1) }
{
    let ends = selector.stretch_ends.as_slice();
    let mut number = ends.len();
    let first = begin_after(ends, number);
    let mut candidate = match climb(selector, Stretch { first, last }, element, tests) {
        Fit::Mismatch | Fit::NoNodeLeft => return false,
        Fit::Complete => return true,
        Fit::Continues(above) => above,
    };
    number -= 1;
    let mut stretch = stretch_at(ends, number);
    loop {
        match place_stretch(selector, stretch, &candidate, tests) {
            Fit::NoNodeLeft => return false,
            Fit::Complete => return true,
            Fit::Mismatch => match candidate.parent_element() {
                None => return false,
                Some(parent) => candidate = parent,
            },
            Fit::Continues(above) => {
                candidate = above;
                number -= 1;
                stretch = stretch_at(ends, number);
            }
        }
    }
}
