//! Which elements `:has()` holds of, found for all elements of a tree at once.
ghost use Rattle.std.specs.Prelude.{◌≡◌, ◌<◌, ◌↔◌, ◌||◌, ◌&&◌, ℕ, IfOk, IfSome, IsTrue, length, map};
ghost use Rattle.css_matching.specs.ListTrees.{spot};
ghost use Rattle.css_selector_text.specs.Components.{conditions_from, parts_from, selectors_from};
ghost use Rattle.css_selectors.specs.Meanings.{AreMet};
ghost use Rattle.css_selector_text.specs.Views.{part_of, complex_of};
ghost use Rattle.css_tree.specs.HasSelectors.{HasAny};
ghost use Rattle.css_tree.specs.Pages.{page_document};
ghost use Rattle.css_tree.specs.Steps.{step as step_back, is_repeated as is_repeated_by, is_set, Precedes, Leads};

use crate::NumberedTree;
use crate::numbered_tree::no_marks;
use css_selectors::on_marked::meets;
use css_selectors::{Combinator, Complex, Part, Tests};
use std::alloc::{AllocError, Global};

/// Whether more steps than one relate elements by the combinator, too.
fn is_repeated(combinator: Combinator) -> bool
    ensures { result ≡ is_repeated_by combinator }
{
    match combinator {
        Combinator::Descendant | Combinator::Sibling => true,
        Combinator::Child | Combinator::Adjacent => false,
    }
}

/// Whether an element hands a mark back: a marked one does, and if steps are repeated so does one to
/// which a mark was handed.
fn hands_back(is_marked: bool, repeated: bool, has_mark: bool) -> bool
    ensures { result ≡ (is_marked || (repeated && has_mark)) }
{
    is_marked || (repeated && has_mark)
}

/// Marks the elements that have one of two marks.
fn add_marks(all: &mut [bool], more: &[bool])
    requires { length more.now ≡ length all.old }
    ensures { (i : ℕ) → i < length all.old
        → is_set all.new i ≡ (is_set all.old i || is_set more.now i) }
{
    for index in 0..all.len() {
        if more[index] {
            all[index] = true;
        }
    }
}

impl<'p, 't> NumberedTree<'p, 't> {
    /// Returns the element to which one step leads back: the parent or the previous sibling.
    fn step(&self, combinator: Combinator, index: usize) -> Option<usize>
        requires { index < length self.now.rows }
        ensures value { result ≡ step_back self.now.rows combinator index }
        ensures before { IfSome result (λ before. before < index) }
    {
        match combinator {
            Combinator::Descendant | Combinator::Child => self.parent(index),
            Combinator::Adjacent | Combinator::Sibling => self.before(index).last,
        }
    }

    /// Keeps the marks of those elements that satisfy the conditions of the part.
    fn keep_met(&self, part: &Part<'_>, marks: &mut [bool])
        requires { length marks.old ≡ length self.now.rows }
        ensures { (i : ℕ) → i < length self.now.rows
            → IsTrue (is_set marks.new i) ↔ (IsTrue (is_set marks.old i)
            × AreMet page_document (conditions_from (part_of part.now).conditions) (spot self.now i)) }
    {
        for index in 0..self.len() {
            if marks[index] {
                let node = self.node(index).unwrap();
                marks[index] = meets(part, &node, &mut Tests::new());
            }
        }
    }

    /// Returns which elements the combinator relates to a marked one, by one pass from the last element
    /// to the first.
    fn preceding(
        &self,
        alloc: Global,
        combinator: Combinator,
        marks: &[bool],
    ) -> Result<Vec<bool>, AllocError>
        requires { length marks.now ≡ length self.now.rows }
        ensures all { IfOk result (λ found. length found.items ≡ length self.now.rows) }
        ensures each { IfOk result (λ found. (i : ℕ) → IsTrue (is_set found.items i)
            ↔ Precedes self.now combinator (λ j. IsTrue (is_set marks.now j)) i) }
    {
        let repeated = is_repeated(combinator);
        let mut found = no_marks(alloc, self.len())?;
        for index in (0..self.len()).rev() {
            if hands_back(marks[index], repeated, found[index]) {
                if let Some(before) = self.step(combinator, index) {
                    found[before] = true;
                }
            }
        }
        Ok(found)
    }

    /// Returns after which elements there are others for all parts of a relative selector, from the last
    /// part to the first.
    fn leading(&self, alloc: Global, parts: &[Part<'_>]) -> Result<Vec<bool>, AllocError>
        ensures all { IfOk result (λ found. length found.items ≡ length self.now.rows) }
        ensures each { IfOk result (λ found. (i : ℕ) → i < length self.now.rows
            → IsTrue (is_set found.items i)
            ↔ Leads self.now (parts_from (map part_of parts.now)) i) }
    {
        let mut marks = vec![in alloc; true; self.len()]?;
        for index in (0..parts.len()).rev() {
            let part = &parts[index];
            self.keep_met(part, marks.as_mut_slice());
            marks = self.preceding(alloc, part.combinator, marks.as_slice())?;
        }
        Ok(marks)
    }

    /// Returns which elements `:has()` with this list holds of, in time that is linear in the elements
    /// for each part of the list.
    pub(crate) fn has_marks(
        &self,
        alloc: Global,
        list: &[Complex<'_>],
    ) -> Result<Vec<bool>, AllocError>
        ensures all { IfOk result (λ found. length found.items ≡ length self.now.rows) }
        ensures each { IfOk result (λ found. (i : ℕ) → i < length self.now.rows
            → IsTrue (is_set found.items i)
            ↔ HasAny self.now (selectors_from (map complex_of list.now)) i) }
    {
        let mut all = no_marks(alloc, self.len())?;
        for selector in list {
            let parts = selector.parts.as_slice();
            if !parts.is_empty() {
                let found = self.leading(alloc, parts)?;
                add_marks(all.as_mut_slice(), found.as_slice());
            }
        }
        Ok(all)
    }
}
