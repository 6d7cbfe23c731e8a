//! Walks over the elements of a tree, by which an index finds the rules that match each.
ghost use Rattle.std.specs.Prelude.{◌≡◌, ◌+◌, ◌<◌, ◌≤◌, [], IfOk, OnOk, OnErr, IfSome};
ghost use Rattle.std.specs.Prelude.{List, length, map, reverse, nat_eq};
ghost use Rattle.std.specs.List.{sum_by};
ghost use Rattle.std.specs.Option.{option_eq};
ghost use Rattle.simplecss.specs.Buckets.{Near, IsNear};
ghost use Rattle.simplecss.specs.ListTrees.{spot, parent_by};
ghost use Rattle.simplecss.specs.Matching.{AreMatches, most_tests};
ghost use Rattle.simplecss.specs.OpenPaths.{tested_open};
ghost use Rattle.css_elements.specs.Rows.{Row};
ghost use Rattle.css_elements.specs.TreeNodes.{named_parent};
ghost use Rattle.simplecss_tree.specs.TreeNodes.{element_tree, reported_at};
ghost use Rattle.simplecss_tree.specs.Walks.{IsOpenAt, IsAlong};
ghost use Rattle.css_elements.specs.Ways.{LeadsTo, IsAbove};

use crate::{Nodes, Tree};
use css_elements::find_way;
use simplecss::{HasSelector, OpenPath, RuleIndex, Tests};
use std::alloc::{AllocError, Global};
use std::marker::Model;

/// The elements that are open, and where the walk is.
#[derive(Drop)]
pub(crate) struct Opened<'a> {
    /// The open elements.
    pub(crate) path: OpenPath<'a>,
    /// The index of the element that was opened last, if one is open.
    pub(crate) place: Option<usize>,
}

impl<'a> Opened<'a> {
    /// Whether the element that was opened last is this one, or none is open and this is none.
    fn is_at(&self, element: Option<usize>) -> bool
        ensures { result ≡ option_eq nat_eq self.now.place element }
    {
        self.place == element
    }

    /// Closes the element that was opened last, if one is open.
    fn close(&mut self, tree: &Tree<'_>)
        requires { IsOpenAt tree.now self.old.path self.old.place }
        ensures opened { IsOpenAt tree.now self.new.path self.new.place }
        ensures selectors { self.new.path.selectors ≡ self.old.path.selectors }
        ensures place { IfSome self.old.place (λ last.
            self.new.place ≡ parent_by (named_parent tree.now) last) }
        ensures above { IfSome self.old.place (λ last. IfSome self.new.place (λ parent. parent < last)) }
    {
        if let Some(last) = self.place {
            self.path.leave();
            self.place = tree.parent(last);
        }
    }

    /// Closes elements until the one at a place above was opened last, or none is open.
    fn close_to(&mut self, tree: &Tree<'_>, above: Option<usize>)
        requires opened { IsOpenAt tree.now self.old.path self.old.place }
        requires above { IsAbove tree.now above self.old.place }
        ensures opened { IsOpenAt tree.now self.new.path self.new.place }
        ensures selectors { self.new.path.selectors ≡ self.old.path.selectors }
        ensures place { self.new.place ≡ above }
    {
        'closes: while !self.is_at(above) {
            self.close(tree);
        }
    }

    /// Opens elements, the last first.
    fn open_all(
        &mut self,
        index: &RuleIndex<'_>,
        tree: &Tree<'_>,
        element: Option<usize>,
        between: &mut Vec<usize>,
    ) -> Result<(), AllocError>
        requires index { self.old.path.selectors ≡ index.now }
        requires opened { IsOpenAt tree.now self.old.path self.old.place }
        requires between { LeadsTo tree.now self.old.place (reverse between.old.items) element }
        ensures opened { OnOk result (IsOpenAt tree.now self.new.path element) }
        ensures selectors { OnOk result (self.new.path.selectors ≡ self.old.path.selectors) }
        ensures place { OnOk result (self.new.place ≡ element) }
    {
        'opens: while let Some(next) = between.pop() {
            let node = tree.node(next).unwrap();
            self.path.enter(index, &node)?;
            self.place = Some(next);
        }
        Ok(())
    }
}

/// A walk over the elements of a tree: the rules that match each, found by the elements that are open,
/// which are its ancestors.
///
/// Elements may come in any order. Where each comes after the last one, it opens each element at
/// most once, and only those with children.
///
/// ```text
/// let mut walk = RuleWalk::new(alloc, &sheet.rules)?;
/// for element in 0..tree.len() {
///     walk.matching(&sheet.rules, &tree, element, &mut indices, &mut Tests::new())?;
/// }
/// ```
#[derive(Drop)]
pub struct RuleWalk<'a> {
    /// The index of the rules.
    index: RuleIndex<'a>,
    /// What is open.
    opened: Opened<'a>,
    /// The indices of elements that are opened next. The list is reused.
    between: Vec<usize>,
}

impl<'a> Model for RuleWalk<'a> {
    ghost use Rattle.simplecss_tree.specs.Walks.{Walk};

    ghost Value = { Walk };

    ghost view = { λ walk. record {
      selectors = walk.index;
      path = walk.opened.path;
      place = walk.opened.place;
    } };
}

impl<'a> RuleWalk<'a> {
    /// Returns a walk with an index of these rules. No element is open. Fails only if an allocation
    /// fails.
    pub fn new<T: HasSelector<'a>>(alloc: Global, rules: &[T]) -> Result<RuleWalk<'a>, AllocError>
        ensures selectors { IfOk result (λ walk. walk.selectors ≡ map T.selector_in rules.now) }
        ensures along { IfOk result (λ walk. (rows : List Row) → IsAlong rows walk) }
    {
        let index = RuleIndex::new(alloc, rules)?;
        let path = OpenPath::new(alloc, &index)?;
        Ok(RuleWalk {
            index,
            opened: Opened { path, place: None },
            between: Vec::new(alloc),
        })
    }

    /// Finds the indices of the rules that match the element at an index, in order. The rules are those
    /// that this was made of, and a walk is along one tree alone. The previous items of `indices` are
    /// dropped. The rules that are tested are those whose key is reported, of which open elements report
    /// each key that they need of ancestors, and which require more than their key. Fails only if an
    /// allocation fails; then the walk is of no use.
    pub fn matching<T: HasSelector<'a>>(
        &mut self,
        rules: &[T],
        tree: &Tree<'_>,
        element: usize,
        indices: &mut Vec<usize>,
        tests: &mut Tests,
    ) -> Result<(), AllocError>
        requires rules { self.old.selectors ≡ map T.selector_in rules.now }
        requires element { element < length tree.now }
        requires along { IsAlong tree.now self.old }
        ensures matches { OnOk result (AreMatches element_tree (spot tree.now element)
            self.old.selectors indices.new.items) }
        ensures tests { OnOk result ((near : Near)
            × IsNear element_tree (λ node. node) reported_at (spot tree.now element) near
            × (tests.old + length (tested_open near self.new.path) ≤ tests.new)
            × (tests.new ≤ tests.old + sum_by (most_tests element_tree (spot tree.now element))
            (tested_open near self.new.path))) }
        ensures along { OnOk result (IsAlong tree.now self.new) }
        ensures selectors { self.new.selectors ≡ self.old.selectors }
        ensures err { OnErr result (indices.new.items ≡ []) }
    {
        indices.clear();
        self.between.clear();
        let parent = tree.parent(element);
        let above = find_way(tree, self.opened.place, parent, &mut self.between)?;
        self.opened.close_to(tree, above);
        self.opened
            .open_all(&self.index, tree, parent, &mut self.between)?;
        let node = tree.node(element).unwrap();
        self.index
            .matching_exact(rules, &node, &self.opened.path, indices, tests)
    }
}
