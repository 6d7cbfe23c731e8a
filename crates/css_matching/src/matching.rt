//! Matching: a search with one candidate at a time, along siblings and up the ancestors.
ghost use Rattle.std.specs.Prelude.{◌≡◌, ◌+◌, ◌*◌, ◌<◌, ◌≤◌, ◌↔◌, IsTrue};
ghost use Rattle.css_matching.specs.Placements.{HasPlacement};
ghost use Rattle.css_matching.specs.Bounds.{run_length, longest_free, longest_fixed, fixed_length, level_count, most_levels, width};
ghost use Rattle.css_matching.specs.Charges.{IsSpent, IsTested, IsCharged, IsPartTest};
ghost use Rattle.css_matching.specs.internal.Search.{FindsRun, FindsLevel, FindsStretch, HasTested, HasTestedLevel, HasTestedAll};

use crate::{Candidate, Combinator, Parts, Tests};

/// The result of trying parts that are joined by steps to one node, with the last of them on a node.
#[derive(Drop)]
enum Fit<E> {
    /// They do not fit on this node.
    Mismatch,
    /// They fit neither on this node nor on one further on.
    NoNode,
    /// They fit, from this part on.
    Complete(usize),
    /// They fit. The parts up to this one remain, to be placed on this node or further on.
    Continues(usize, E),
}

/// Whether the element meets the part. This is one test.
#[inline(always)]
fn is_met_at<P: Parts, E: Candidate<P>, F: Fn(usize, &E, &mut Tests) -> bool>(
    parts: &P,
    index: usize,
    element: &E,
    meets: &F,
    tests: &mut Tests,
    total: &mut Tests,
) -> bool
    requires within { index < P.count parts.now }
    requires test { IsPartTest (F.pre meets.now) (F.post meets.now) (P.count parts.now)
        (E.Meets parts.now) E.node (E.cost parts.now) }
    ensures answer { IsTrue result ↔ E.Meets parts.now index (E.node element.now) }
    ensures counted { tests.new ≡ tests.old + 1 }
    ensures inner { IsTested (E.cost parts.now (E.node element.now)) total.old total.new }
{
    tests.tick();
    total.tick();
    meets(index, element, total)
}

/// Places a run: parts joined by `+`, the last of them on `lowest`.
#[inline(always)]
fn run_at<P: Parts, E: Candidate<P>, F: Fn(usize, &E, &mut Tests) -> bool>(
    parts: &P,
    last: usize,
    lowest: &E,
    meets: &F,
    tests: &mut Tests,
    total: &mut Tests,
) -> Fit<E>
    requires within { last < P.count parts.now }
    requires test { IsPartTest (F.pre meets.now) (F.post meets.now) (P.count parts.now)
        (E.Meets parts.now) E.node (E.cost parts.now) }
    ensures finds { FindsRun E.tree (P.combinator_at parts.now) (E.Meets parts.now) E.node last
        (E.node lowest.now) result }
    ensures bounded { tests.new ≤ tests.old + run_length (P.combinator_at parts.now) last }
    ensures tested { HasTested tests.old tests.new last result }
    ensures inner { IsCharged (E.cost parts.now (E.node lowest.now)) tests.old total.old tests.new
        total.new }
{
    let mut index = last;
    let mut top: Option<E> = None;
    'steps: loop {
        let node = top.as_ref().unwrap_or(lowest);
        if !is_met_at(parts, index, node, meets, tests, total) {
            return Fit::Mismatch;
        }
        if index == 0 {
            return Fit::Complete(0);
        }
        let combinator = parts.combinator(index);
        match combinator {
            Combinator::Descendant | Combinator::Child => return Fit::Complete(index),
            Combinator::Adjacent => match node.prev_sibling_element() {
                None => return Fit::NoNode,
                Some(before) => {
                    index -= 1;
                    top = Some(before);
                }
            },
            Combinator::Sibling => match node.prev_sibling_element() {
                None => return Fit::NoNode,
                Some(before) => return Fit::Continues(index - 1, before),
            },
        }
    }
}

/// Places a level: runs joined by `~`, the last part on `lowest`. Returns the first part of it.
fn level_at<P: Parts, E: Candidate<P>, F: Fn(usize, &E, &mut Tests) -> bool>(
    parts: &P,
    last: usize,
    lowest: &E,
    meets: &F,
    tests: &mut Tests,
    total: &mut Tests,
) -> Option<usize>
    requires within { last < P.count parts.now }
    requires test { IsPartTest (F.pre meets.now) (F.post meets.now) (P.count parts.now)
        (E.Meets parts.now) E.node (E.cost parts.now) }
    ensures finds { FindsLevel E.tree (P.combinator_at parts.now) (E.Meets parts.now) last
        (E.node lowest.now) result }
    ensures bounded { tests.new ≤ tests.old + run_length (P.combinator_at parts.now) last
        + longest_free (P.combinator_at parts.now) last * E.tree.earlier (E.node lowest.now) }
    ensures tested { HasTestedLevel tests.old tests.new last result }
    ensures inner { IsCharged (E.cost parts.now (E.node lowest.now)) tests.old total.old tests.new
        total.new }
{
    let (mut low, mut candidate) = match run_at(parts, last, lowest, meets, tests, total) {
        Fit::Mismatch | Fit::NoNode => return None,
        Fit::Complete(first) => return Some(first),
        Fit::Continues(rest, sibling) => (rest, sibling),
    };
    loop {
        match run_at(parts, low, &candidate, meets, tests, total) {
            Fit::NoNode => return None,
            Fit::Complete(first) => return Some(first),
            Fit::Mismatch => match candidate.prev_sibling_element() {
                None => return None,
                Some(sibling) => candidate = sibling,
            },
            Fit::Continues(rest, sibling) => {
                low = rest;
                candidate = sibling;
            }
        }
    }
}

/// Places a stretch: levels joined by `>`, the last part on `lowest`.
fn stretch_at<P: Parts, E: Candidate<P>, F: Fn(usize, &E, &mut Tests) -> bool>(
    parts: &P,
    last: usize,
    lowest: &E,
    meets: &F,
    tests: &mut Tests,
    total: &mut Tests,
) -> Fit<E>
    requires within { last < P.count parts.now }
    requires test { IsPartTest (F.pre meets.now) (F.post meets.now) (P.count parts.now)
        (E.Meets parts.now) E.node (E.cost parts.now) }
    ensures finds { FindsStretch E.tree (P.combinator_at parts.now) (E.Meets parts.now) E.node last
        (E.node lowest.now) result }
    ensures bounded { tests.new ≤ tests.old + fixed_length (P.combinator_at parts.now) last
        + longest_free (P.combinator_at parts.now) last
        * width E.tree (level_count (P.combinator_at parts.now) last) (E.node lowest.now) }
    ensures tested { HasTestedAll tests.old tests.new last result }
    ensures inner { IsCharged (E.cost parts.now (E.node lowest.now)) tests.old total.old tests.new
        total.new }
{
    let mut index = last;
    let mut top: Option<E> = None;
    'steps: loop {
        let node = top.as_ref().unwrap_or(lowest);
        let Some(first) = level_at(parts, index, node, meets, tests, total) else {
            return Fit::Mismatch;
        };
        if first == 0 {
            return Fit::Complete(0);
        }
        let combinator = parts.combinator(first);
        let Some(above) = node.parent_element() else {
            return Fit::NoNode;
        };
        match combinator {
            Combinator::Child => {
                index = first - 1;
                top = Some(above);
            }
            Combinator::Descendant | Combinator::Adjacent | Combinator::Sibling => {
                return Fit::Continues(first - 1, above);
            }
        }
    }
}

/// Whether the parts up to `last` match the element. The tests that it makes itself are counted apart.
fn search<P: Parts, E: Candidate<P>, F: Fn(usize, &E, &mut Tests) -> bool>(
    parts: &P,
    last: usize,
    element: &E,
    meets: &F,
    tests: &mut Tests,
    total: &mut Tests,
) -> bool
    requires is_last { last + 1 ≡ P.count parts.now }
    requires test { IsPartTest (F.pre meets.now) (F.post meets.now) (P.count parts.now)
        (E.Meets parts.now) E.node (E.cost parts.now) }
    ensures answer { IsTrue result ↔ HasPlacement E.tree (P.combinator_at parts.now)
        (E.Meets parts.now) last (E.node element.now) }
    ensures bounded { tests.new ≤ tests.old + longest_fixed (P.combinator_at parts.now) last
        * (E.tree.depth (E.node element.now) + 1)
        + longest_free (P.combinator_at parts.now) last * (most_levels (P.combinator_at parts.now) last
        * width E.tree (E.tree.depth (E.node element.now) + 1) (E.node element.now)) }
    ensures at_least_one { tests.old < tests.new }
    ensures all_when_true { IsTrue result → tests.old + last < tests.new }
    ensures inner { IsCharged (E.cost parts.now (E.node element.now)) tests.old total.old tests.new
        total.new }
{
    let (mut low, mut candidate) = match stretch_at(parts, last, element, meets, tests, total) {
        Fit::Mismatch | Fit::NoNode => return false,
        Fit::Complete(_) => return true,
        Fit::Continues(rest, above) => (rest, above),
    };
    loop {
        match stretch_at(parts, low, &candidate, meets, tests, total) {
            Fit::NoNode => return false,
            Fit::Complete(_) => return true,
            Fit::Mismatch => match candidate.parent_element() {
                None => return false,
                Some(above) => candidate = above,
            },
            Fit::Continues(rest, above) => {
                low = rest;
                candidate = above;
            }
        }
    }
}

/// Whether the parts up to `last` match the element. `meets` tests an element for a part; its own tests
/// are counted, too.
pub fn matches<P: Parts, E: Candidate<P>, F: Fn(usize, &E, &mut Tests) -> bool>(
    parts: &P,
    last: usize,
    element: &E,
    meets: &F,
    tests: &mut Tests,
) -> bool
    requires is_last { last + 1 ≡ P.count parts.now }
    requires asks { (i : _) (e : _) (t : _) → i < P.count parts.now → F.pre meets.now i e t }
    requires answers { (i : _) (e : _) (t : _) (r : _) (u : _) → i < P.count parts.now
        → F.post meets.now i e t r u → IsTrue r ↔ E.Meets parts.now i (E.node e.now) }
    requires costs { (i : _) (e : _) (t : _) (r : _) (u : _) → i < P.count parts.now
        → F.post meets.now i e t r u → IsSpent (E.cost parts.now (E.node e.now)) t.now u.now }
    ensures answer { IsTrue result ↔ HasPlacement E.tree (P.combinator_at parts.now)
        (E.Meets parts.now) last (E.node element.now) }
    ensures bounded { tests.new ≤ tests.old + (longest_fixed (P.combinator_at parts.now) last
        * (E.tree.depth (E.node element.now) + 1)
        + longest_free (P.combinator_at parts.now) last * (most_levels (P.combinator_at parts.now) last
        * width E.tree (E.tree.depth (E.node element.now) + 1) (E.node element.now)))
        * (E.cost parts.now (E.node element.now) + 1) }
    ensures at_least_one { tests.old < tests.new }
    ensures all_when_true { IsTrue result → tests.old + last < tests.new }
{
    let mut own = Tests::new();
    search(parts, last, element, meets, &mut own, tests)
}
