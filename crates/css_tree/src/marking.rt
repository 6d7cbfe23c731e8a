//! Lists that have a number, each answered once for each element.
ghost use Rattle.std.specs.Prelude.{◌≡◌, ◌<◌, ◌*◌, ◌↔◌, ◌++◌, ◌∷◌, ℕ, [], Err, IfOk, IsTrue, OnErr, OnOk, false, length, map, slice_index_or};
ghost use Rattle.std.specs.List.{Any};
ghost use Rattle.css_selectors.specs.MarkedLists.{list_of};
ghost use Rattle.css_selectors.specs.Meanings.{Matches};
ghost use Rattle.css_tree.specs.Pages.{page_document};
ghost use Rattle.css_tree.specs.Marks.{AreMarked, IsMarkedBy, IsMarkedInside, MatchesOne, is_of_has as is_of_has_list, with_marks};
ghost use Rattle.css_tree.specs.declared.marking.MarkingError.TheVariants.{TooManyAnswers};

use crate::nth_marks::End;
use crate::numbered_tree::no_marks;
use crate::{NumberedNode, NumberedTree};
use css_selectors::on_marked::matches_counted;
use css_selectors::{ListTest, MarkedList, Selector, Tests};
use std::alloc::{AllocError, Global};
use std::mem;

/// Why lists have no numbers.
#[derive(Clone, Copy, Debug, PartialEq)]
pub enum MarkingError {
    /// There are more answers than were allowed: one for each list and each element.
    TooManyAnswers,
    /// An allocation failed.
    Memory,
}

/// Whether one of the selectors matches the element.
fn is_matched(list: &[Selector<'_>], node: &NumberedNode<'_, '_, '_>) -> bool
    ensures { IsTrue result ↔ Any (λ s. Matches page_document s node.now) list.now }
{
    for selector in list {
        if matches_counted(selector, node, &mut Tests::new()) {
            return true;
        }
    }
    false
}

/// Whether the list is that of `:has()`.
fn is_of_has(list: &MarkedList<'_>) -> bool
    ensures { result ≡ is_of_has_list (list_of list.now) }
{
    matches!(list, MarkedList::Tested(ListTest::Has, _))
}

/// Whether more than `most` answers are needed, one for each list and each element.
fn are_too_many(lists: usize, elements: usize, most: usize) -> bool
    ensures { IsTrue result ↔ (most < lists * elements) }
{
    match lists.checked_mul(elements) {
        Some(answers) => most < answers,
        None => true,
    }
}

impl<'p, 't> NumberedTree<'p, 't> {
    /// Returns for each element whether one of the selectors matches it.
    fn matched(&self, alloc: Global, list: &[Selector<'_>]) -> Result<Vec<bool>, AllocError>
        ensures all { IfOk result (λ answers. length answers.items ≡ length self.now.rows) }
        ensures each { IfOk result (λ answers. (i : ℕ) → i < length self.now.rows
            → IsTrue (slice_index_or answers.items i false) ↔ MatchesOne list.now self.now i) }
    {
        let mut answers = Vec::with_capacity(alloc, self.len())?;
        for index in 0..self.len() {
            let node = self.node(index).unwrap();
            answers.push(is_matched(list, &node))?;
        }
        Ok(answers)
    }

    /// Returns for each element whether it is one of those of the list.
    fn answers(&self, alloc: Global, list: &MarkedList<'_>) -> Result<Vec<bool>, AllocError>
        ensures all { IfOk result (λ answers. length answers.items ≡ length self.now.rows) }
        ensures each { IfOk result (λ answers. (i : ℕ) → i < length self.now.rows
            → IsTrue (slice_index_or answers.items i false)
            ↔ IsMarkedBy (list_of list.now) self.now self.now i) }
    {
        match list {
            MarkedList::Matched(selectors) => self.matched(alloc, selectors.as_slice()),
            MarkedList::Tested(ListTest::Has, list) => self.has_marks(alloc, list.as_slice()),
            MarkedList::Tested(ListTest::NthChild(progression), list) => {
                self.nth_marks(alloc, End::First, *progression, list.as_slice())
            }
            MarkedList::Tested(ListTest::NthLastChild(progression), list) => {
                self.nth_marks(alloc, End::Last, *progression, list.as_slice())
            }
        }
    }

    /// Returns for each element whether it is one of those of the list on the page with these marks.
    fn answers_by(
        &mut self,
        alloc: Global,
        marks: &mut Vec<Vec<bool>>,
        list: &MarkedList<'_>,
    ) -> Result<Vec<bool>, AllocError>
        ensures page { self.new ≡ self.old }
        ensures marks { marks.new.items ≡ marks.old.items }
        ensures all { IfOk result (λ answers. length answers.items ≡ length self.old.rows) }
        ensures each { IfOk result (λ answers. (i : ℕ) → i < length self.old.rows
            → let page = with_marks self.old (map (λ answers. answers.items) marks.old.items) in
            IsTrue (slice_index_or answers.items i false)
            ↔ IsMarkedBy (list_of list.now) page page i) }
    {
        mem::swap(&mut self.marks, marks);
        let answers = self.answers(alloc, list);
        mem::swap(&mut self.marks, marks);
        answers
    }

    /// Returns for each element whether it is one of those of the list, and whether it is inside `:has()`,
    /// where these are the marks. They differ from those of the page, or are known to be the same.
    fn both_answers(
        &mut self,
        alloc: Global,
        inside: &mut Vec<Vec<bool>>,
        differ: bool,
        list: &MarkedList<'_>,
    ) -> Result<(Vec<bool>, Vec<bool>), AllocError>
        requires { differ ≡ false → map (λ answers. answers.items) inside.old.items ≡ self.old.marks }
        ensures page { self.new ≡ self.old }
        ensures marks { inside.new.items ≡ inside.old.items }
        ensures all { IfOk result (λ both. length both.0.items ≡ length self.old.rows) }
        ensures each { IfOk result (λ both. (i : ℕ) → i < length self.old.rows
            → IsTrue (slice_index_or both.0.items i false) ↔ IsMarkedBy (list_of list.now) self.old
            (with_marks self.old (map (λ answers. answers.items) inside.old.items)) i) }
        ensures all_inside { IfOk result (λ both. length both.1.items ≡ length self.old.rows) }
        ensures each_inside { IfOk result (λ both. (i : ℕ) → i < length self.old.rows
            → IsTrue (slice_index_or both.1.items i false) ↔ IsMarkedInside (list_of list.now)
            (with_marks self.old (map (λ answers. answers.items) inside.old.items)) i) }
        ensures alike { differ ≡ false → is_of_has_list (list_of list.now) ≡ false
            → IfOk result (λ both. both.0.items ≡ both.1.items) }
    {
        let inner = self.answers_by(alloc, inside, list)?;
        if is_of_has(list) {
            return Ok((inner, no_marks(alloc, self.len())?));
        }
        let own = if differ {
            self.answers(alloc, list)?
        } else {
            Vec::from_slice(alloc, &inner)?
        };
        Ok((own, inner))
    }

    /// Gives a list with these answers the next number.
    fn push_answers(&mut self, answers: Vec<bool>) -> Result<(), AllocError>
        ensures rows { self.new.rows ≡ self.old.rows }
        ensures given { self.new.given ≡ self.old.given }
        ensures html { self.new.is_html ≡ self.old.is_html }
        ensures marks { OnOk result (self.new.marks ≡ self.old.marks ++ answers.items ∷ []) }
    {
        self.marks.push(answers)?;
        Ok(())
    }

    /// Answers lists, one after another, also inside `:has()`, where no list has a number yet.
    fn mark_each(&mut self, alloc: Global, lists: &[MarkedList<'_>]) -> Result<(), AllocError>
        requires { self.old.marks ≡ [] }
        ensures rows { self.new.rows ≡ self.old.rows }
        ensures given { self.new.given ≡ self.old.given }
        ensures html { self.new.is_html ≡ self.old.is_html }
        ensures marks { OnOk result (AreMarked (map list_of lists.now) self.new) }
    {
        let mut inside = Vec::new(alloc);
        let mut differ = false;
        for list in lists {
            let (own, inner) = self.both_answers(alloc, &mut inside, differ, list)?;
            self.push_answers(own)?;
            inside.push(inner)?;
            differ = differ || is_of_has(list);
        }
        Ok(())
    }

    /// Numbers lists, from 1 on: each is answered for all elements at once, where a number in it, as that
    /// of an `&`, is of a list before it. For a list of `:has()`, `:nth-child()` or `:nth-last-child()` that
    /// takes time that is linear in the elements for each part of the list. Inside `:has()` each `:has()` is
    /// false that an `&` reaches, so from the first one on lists are answered twice. Lists that had numbers
    /// lose them. The answers hold for the tree as it is: after [`set_text`](NumberedTree::set_text),
    /// [`set_scope`](NumberedTree::set_scope), [`set_states`](NumberedTree::set_states),
    /// [`set_namespaces`](NumberedTree::set_namespaces),
    /// [`set_namespaced_attributes`](NumberedTree::set_namespaced_attributes) and
    /// [`set_html`](NumberedTree::set_html) mark again.
    ///
    /// Fails with [`MarkingError::TooManyAnswers`] if there are more than `most` answers, and else only
    /// if an allocation fails; then no list has a number.
    pub fn mark(
        &mut self,
        alloc: Global,
        lists: &[MarkedList<'_>],
        most: usize,
    ) -> Result<(), MarkingError>
        ensures rows { self.new.rows ≡ self.old.rows }
        ensures given { self.new.given ≡ self.old.given }
        ensures html { self.new.is_html ≡ self.old.is_html }
        ensures marks { OnOk result (AreMarked (map list_of lists.now) self.new) }
        ensures too_many { (result ≡ Err TooManyAnswers)
            ↔ (most < length lists.now * length self.old.rows) }
        ensures err { OnErr result (self.new.marks ≡ []) }
    {
        self.marks.clear();
        if are_too_many(lists.len(), self.len(), most) {
            return Err(MarkingError::TooManyAnswers);
        }
        if self.mark_each(alloc, lists).is_err() {
            self.marks.clear();
            return Err(MarkingError::Memory);
        }
        Ok(())
    }
}
