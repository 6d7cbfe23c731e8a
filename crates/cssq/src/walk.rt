//! A walk over the elements of a page, in the order of their lines.
ghost use Rattle.std.specs.Prelude.{◌≡◌, ◌<◌, ◌≤◌, List, None, OnOk, IfOk, IfSome, length, map};
ghost use Rattle.std.specs.Prelude.{MatchOption, true, false};
ghost use Rattle.simplecss.specs.Matching.{AreMatches};
ghost use Rattle.cssq_tree.specs.TreeText.{Row};
ghost use Rattle.cssq_tree.specs.PageNodes.{spot, page_tree};
ghost use Rattle.cssq_tree.specs.ParentsAndSiblings.{depths_of, parent_index};
ghost use Rattle.cssq.specs.internal.Walks.{IsAtOrAbove, IsWalkOf, place_before};

use cssq_tree::tree::Page;
use simplecss::{OpenPath, Rule, RuleIndex, Tests};
use std::alloc::{AllocError, Global};

/// Whether an element comes after another, or there is no other.
fn is_after(element: usize, other: Option<usize>) -> bool
    ensures yes { result ≡ true → IfSome other (λ index. index < element) }
    ensures no { result ≡ false → MatchOption other ⊥ (λ index. element ≤ index) }
{
    match other {
        Some(index) => index < element,
        None => true,
    }
}

/// The open elements of a page whose elements are matched in the order of their lines.
#[derive(Drop)]
pub(crate) struct Walk<'a> {
    /// The open elements.
    pub(crate) path: OpenPath<'a>,
    /// The index of the element that was opened last, if one is open.
    place: Option<usize>,
}

impl<'a> Walk<'a> {
    /// No element is open. Fails only if an allocation fails.
    pub(crate) fn new(alloc: Global, index: &RuleIndex<'a>) -> Result<Walk<'a>, AllocError>
        ensures walk { IfOk result (λ walk. (rows : List Row) → IsWalkOf rows walk) }
        ensures index { IfOk result (λ walk. walk.path.selectors ≡ index.now) }
        ensures place { IfOk result (λ walk. walk.place ≡ None) }
    {
        Ok(Walk {
            path: OpenPath::new(alloc, index)?,
            place: None,
        })
    }

    /// Closes the elements after the parent of the element, and returns the parent.
    fn close_for(&mut self, page: &Page<'_>, element: usize) -> Option<usize>
        requires element { element < length page.now }
        requires walk { IsWalkOf page.now self.old }
        requires before { self.old.place ≡ place_before (depths_of page.now) element }
        ensures parent { result ≡ parent_index (depths_of page.now) element }
        ensures within { IfSome result (λ parent. parent < length page.now) }
        ensures walk { IsWalkOf page.now self.new }
        ensures index { self.new.path.selectors ≡ self.old.path.selectors }
        ensures place { IsAtOrAbove (depths_of page.now) result self.new.place }
    {
        let parent = page.parent(element);
        'close: while let Some(open) = self.place {
            if !is_after(open, parent) {
                return parent;
            }
            self.path.leave();
            self.place = page.parent(open);
        }
        parent
    }

    /// Closes and opens elements until those are open that are ancestors of the element, which comes
    /// after the last one. That is at most one to open: the last one.
    fn move_to(
        &mut self,
        index: &RuleIndex<'_>,
        page: &Page<'_>,
        element: usize,
    ) -> Result<(), AllocError>
        requires index { self.old.path.selectors ≡ index.now }
        requires element { element < length page.now }
        requires walk { IsWalkOf page.now self.old }
        requires before { self.old.place ≡ place_before (depths_of page.now) element }
        ensures walk { OnOk result (IsWalkOf page.now self.new) }
        ensures index { OnOk result (self.new.path.selectors ≡ self.old.path.selectors) }
        ensures at { OnOk result (self.new.place ≡ parent_index (depths_of page.now) element) }
    {
        let Some(parent) = self.close_for(page, element) else {
            return Ok(());
        };
        if self.place == Some(parent) {
            return Ok(());
        }
        let node = page.node(parent).unwrap();
        self.path.enter(index, &node)?;
        self.place = Some(parent);
        Ok(())
    }

    /// Finds the indices of the rules that match the element after the last one, as
    /// `RuleIndex::matching` does, by the elements that are then open: its ancestors.
    pub(crate) fn matching(
        &mut self,
        index: &RuleIndex<'a>,
        rules: &[Rule<'a>],
        page: &Page<'_>,
        element: usize,
        indices: &mut Vec<usize>,
    ) -> Result<(), AllocError>
        requires index { index.now ≡ map (λ rule. rule.selector) rules.now }
        requires path { self.old.path.selectors ≡ index.now }
        requires element { element < length page.now }
        requires walk { IsWalkOf page.now self.old }
        requires before { self.old.place ≡ place_before (depths_of page.now) element }
        ensures matches { OnOk result
            (AreMatches page_tree (spot page.now element) index.now indices.new.items) }
        ensures walk { OnOk result (IsWalkOf page.now self.new) }
        ensures index { OnOk result (self.new.path.selectors ≡ self.old.path.selectors) }
        ensures at { OnOk result (self.new.place ≡ parent_index (depths_of page.now) element) }
    {
        self.move_to(index, page, element)?;
        let node = page.node(element).unwrap();
        index.matching_exact(rules, &node, &self.path, indices, &mut Tests::new())
    }
}
