//! Which elements a pseudo-class with `An+B` and a list holds of, found for all elements of a tree at
//! once.
ghost use Rattle.std.specs.Prelude.{◌≡◌, ◌<◌, ◌+◌, ◌^◌, ◌↔◌, ℕ, IfOk, IsTrue, length, map, slice_index_or, slice_set};
ghost use Rattle.css_matching.specs.ListTrees.{spot};
ghost use Rattle.css_selector_text.specs.Components.{selectors_from};
ghost use Rattle.css_selectors.specs.Meanings.{MatchesAny};
ghost use Rattle.css_selector_text.specs.reading.Numbers.{is_numbered};
ghost use Rattle.css_selector_text.specs.Views.{complex_of, progression_of};
ghost use Rattle.css_tree.specs.Marks.{IsNumberedMatch};
ghost use Rattle.css_tree.specs.Pages.{family, page_document};
ghost use Rattle.css_tree.specs.Steps.{is_set};
ghost use Rattle.css_tree.specs.Visits.{visited as visited_after, is_numbered_at};

use crate::NumberedTree;
use crate::numbered_tree::no_marks;
use css_selectors::on_marked::matches_any;
use css_selectors::{Complex, Progression, Tests};
use std::alloc::{AllocError, Global};

/// From which end siblings are numbered.
#[derive(Clone, Copy)]
pub(crate) enum End {
    /// From the first.
    First,
    /// From the last.
    Last,
}

/// Returns the one of `all` elements that is visited after `before` others.
fn visited(end: End, all: usize, before: usize) -> usize
    requires { before < all }
    ensures value { result ≡ visited_after end all before }
    ensures within { result < all }
{
    match end {
        End::First => before,
        End::Last => all - 1 - before,
    }
}

/// Counts an element of a family, and returns whether its number is one of `An+B`.
fn is_next_numbered(progression: Progression, family: usize, counts: &mut [u32]) -> bool
    requires within { family < length counts.old }
    requires few { slice_index_or counts.old family 0 + 1 < 2 ^ 32 }
    ensures counts { counts.new
        ≡ slice_set counts.old family (slice_index_or counts.old family 0 + 1) }
    ensures answer { result
        ≡ is_numbered (progression_of progression) (slice_index_or counts.old family 0 + 1) }
{
    let number = counts[family] + 1;
    counts[family] = number;
    progression.contains(u64::from(number))
}

impl<'p, 't> NumberedTree<'p, 't> {
    /// Returns which elements one of the complex selectors matches.
    fn matching(&self, alloc: Global, list: &[Complex<'_>]) -> Result<Vec<bool>, AllocError>
        ensures all { IfOk result (λ found. length found.items ≡ length self.now.rows) }
        ensures each { IfOk result (λ found. (i : ℕ) → i < length self.now.rows
            → IsTrue (is_set found.items i) ↔ MatchesAny page_document
            (selectors_from (map complex_of list.now)) (spot self.now i)) }
    {
        let mut found = Vec::with_capacity(alloc, self.len())?;
        for index in 0..self.len() {
            let node = self.node(index).unwrap();
            found.push(matches_any(list, &node, &mut Tests::new()))?;
        }
        Ok(found)
    }

    /// Returns which marked elements have a number among their marked siblings that is one of `An+B`, by
    /// one pass that counts in each family.
    fn numbered(
        &self,
        alloc: Global,
        end: End,
        progression: Progression,
        marks: &[bool],
    ) -> Result<Vec<bool>, AllocError>
        requires { length marks.now ≡ length self.now.rows }
        ensures all { IfOk result (λ found. length found.items ≡ length self.now.rows) }
        ensures each { IfOk result (λ found. (k : ℕ) → k < length self.now.rows
            → is_set found.items (visited_after end (length self.now.rows) k)
            ≡ is_numbered_at end (progression_of progression) self.now.rows marks.now k) }
    {
        let mut counts = vec![in alloc; 0; self.len()]?;
        let mut found = no_marks(alloc, self.len())?;
        for before in 0..self.len() {
            let index = visited(end, self.len(), before);
            if marks[index] {
                let family = self.family(index);
                found[index] = is_next_numbered(progression, family, counts.as_mut_slice());
            }
        }
        Ok(found)
    }

    /// Returns which elements are matched by one of the complex selectors, where their number among the
    /// siblings that are, from the first or from the last on, is one of `An+B`. The list is asked once for
    /// each element.
    pub(crate) fn nth_marks(
        &self,
        alloc: Global,
        end: End,
        progression: Progression,
        list: &[Complex<'_>],
    ) -> Result<Vec<bool>, AllocError>
        ensures all { IfOk result (λ found. length found.items ≡ length self.now.rows) }
        ensures each { IfOk result (λ found. (i : ℕ) → i < length self.now.rows
            → IsTrue (is_set found.items i) ↔ IsNumberedMatch end (progression_of progression)
            (selectors_from (map complex_of list.now)) self.now i) }
    {
        let marks = self.matching(alloc, list)?;
        let found = self.numbered(alloc, end, progression, marks.as_slice())?;
        Ok(found)
    }
}
