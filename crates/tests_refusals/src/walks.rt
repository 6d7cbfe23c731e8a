//! What walks along a tree find.
ghost use Rattle.std.specs.Prelude.{◌≡◌, []};

use css_selectors::{Selector as ModernSelector, Tests as ModernTests, some_needs_page};
use css_tree::{NumberedTree, TreeWalk};
use simplecss::{Rule, Tests};
use simplecss_tree::{RuleWalk, Tree};
use std::alloc::{AllocError, Global};

/// Returns the sum of the numbers of these indices, from 1 on.
pub(crate) fn sum_of(indices: &[usize]) -> usize {
    let mut sum = 0_usize;
    for index in indices {
        sum = sum.saturating_add(*index).saturating_add(1);
    }
    sum
}

/// Returns the sum of the numbers of the rules that a walk finds for each element of the tree.
pub(crate) fn found_rules(
    alloc: Global,
    rules: &[Rule<'_>],
    tree: &Tree<'_>,
) -> Result<usize, AllocError> {
    let mut walk = RuleWalk::new(alloc, rules)?;
    let mut indices = Vec::new(alloc);
    let mut sum = 0_usize;
    for element in 0..tree.len() {
        walk.matching(rules, tree, element, &mut indices, &mut Tests::new())?;
        sum = sum.saturating_add(sum_of(indices.as_slice()));
    }
    Ok(sum)
}

/// Returns the sum of the numbers of the selectors that a walk finds for each element of the page, or 0 if one needs
/// marks.
pub(crate) fn found_selectors(
    alloc: Global,
    selectors: &[ModernSelector<'_>],
    page: &NumberedTree<'_, '_>,
) -> Result<usize, AllocError>
    requires { page.now.marks ≡ [] }
{
    if some_needs_page(selectors) {
        return Ok(0);
    }
    let mut walk = TreeWalk::new(alloc, selectors, page)?;
    let mut indices = Vec::new(alloc);
    let mut sum = 0_usize;
    for element in 0..walk.element_count() {
        walk.matching(element, &mut indices, &mut ModernTests::new())?;
        sum = sum.saturating_add(sum_of(indices.as_slice()));
    }
    Ok(sum)
}
