//! What selectors need above an element, and what open elements have.
ghost use Rattle.std.specs.Prelude.{◌↔◌, IsTrue};
ghost use Rattle.std.specs.List.{All};
ghost use Rattle.css_open_elements.specs.Opened.{IsOpen, IsOfLast};

use crate::keeping::Keeping;
use crate::need::Need;
use css_open_elements::OpenElements;

/// What each selector needs above an element, and what open elements have.
#[derive(Clone, Copy)]
pub(crate) struct Above<'w> {
    /// For each selector, the numbers of the keys that it needs.
    pub(crate) needs: &'w [Need],
    /// The numbers that open elements have.
    pub(crate) path: &'w OpenElements,
}

/// Whether open elements have all of the numbers.
fn are_open(numbers: &[usize], path: &OpenElements) -> bool
    ensures { IsTrue result ↔ All (IsOpen path.now.opened) numbers.now }
{
    for number in numbers {
        if !path.is_open(*number) {
            return false;
        }
    }
    true
}

/// Whether open elements have all numbers of ancestors. Mostly the first one decides.
#[inline(always)]
fn are_needed_open(need: &Need, path: &OpenElements) -> bool
    ensures { IsTrue result ↔ All (IsOpen path.now.opened) need.now.ancestors.items }
{
    match need.first {
        Some(first) => path.is_open(first) && are_open(&need.ancestors, path),
        None => true,
    }
}

/// Whether the element that was opened last has all of the numbers.
fn are_of_last(numbers: &[usize], path: &OpenElements) -> bool
    ensures { IsTrue result ↔ All (IsOfLast path.now.opened) numbers.now }
{
    for number in numbers {
        if !path.is_of_last(*number) {
            return false;
        }
    }
    true
}

/// Keeps those selectors of which open elements have all that they need.
impl<'w> Keeping for Above<'w> {
    ghost use Rattle.css_index.specs.Walks.{IsKeptAt};
    ghost use Rattle.css_index.specs.internal.Walking.{walk_above};

    ghost Keeps = { λ above index. IsKeptAt (walk_above above) index };

    #[inline(always)]
    fn keeps(&self, index: usize) -> bool {
        match self.needs.get(index) {
            Some(need) => {
                are_needed_open(need, self.path) && are_of_last(&need.parent, self.path)
            }
            None => false,
        }
    }
}
