//! An index of rules by the keys of their selectors.
ghost use Rattle.std.specs.Prelude.{◌≡◌, ◌+◌, ◌≤◌, ◌↔◌, ◌++◌, ◌∷◌, ℕ, List, [], Contains, IsTrue, IfOk, IfSome, OnOk, OnErr, is_none, map};
ghost use Rattle.std.specs.List.{list_any};
ghost use Rattle.css_selectors.specs.PageNeeds.{needs_page};
ghost use Rattle.css_index.specs.Found.{AreMatches};
ghost use Rattle.css_index.specs.Tested.{IsKeyedAt, least_tests, most_tests_at};
ghost use Rattle.css_index.specs.internal.Candidates.{PassesAt};

use crate::indexed_selector::IndexedSelector;
use crate::keeping::{Everything, Keeping};
use crate::table::{Table, filed};
use crate::{HasSelector, Keyed};
use css_matching::sort_once;
use css_selectors::{Selector, Tests, some_needs_page};
use std::alloc::{AllocError, Global};
use std::marker::Model;

/// An index of selectors by their keys. It borrows the selectors; a change of them needs a new index.
#[derive(Drop)]
pub struct SelectorIndex<'s, 'a> {
    /// The selectors.
    rules: Vec<IndexedSelector<'s, 'a>>,
    /// The keys of the selectors.
    table: Table<'s>,
}

impl<'s, 'a> Model for SelectorIndex<'s, 'a> {
    ghost use Rattle.std.specs.Prelude.{◌≡◌, List, map};
    ghost use Rattle.std.specs.Coded.{Coded, codes};
    ghost use Rattle.css_selector_text.specs.Codes.{condition_code};
    ghost use Rattle.css_selector_text.specs.Components.{Simple, Selector};
    ghost use Rattle.css_index.specs.internal.Filed.{entries_of};

    ghost Value = { List Selector };

    ghost coded = { let simples : Coded Simple = Prim.hlevel codes in
        Prim.hlevel (codes, condition_code simples) };

    ghost view = { λ index. map (λ rule. rule.selector.now) index.rules.items };

    ghost invariant = { λ index. index.table
        ≡ entries_of (map (λ rule. rule.selector.now) index.rules.items) };
}

/// Appends the selector of a rule.
#[inline(always)]
fn push_selector<'s, 'a, T: HasSelector<'a>>(
    selectors: &mut Vec<&'s Selector<'a>>,
    rule: &'s T,
) -> Result<(), AllocError>
    ensures { OnOk result (map (λ s. s.now) selectors.new.items
        ≡ map (λ s. s.now) selectors.old.items ++ T.selector_in rule.now ∷ []) }
{
    selectors.push(rule.selector())?;
    Ok(())
}

/// Returns the selectors of rules.
pub(crate) fn selectors_of<'s, 'a, T: HasSelector<'a>>(
    alloc: Global,
    rules: &'s [T],
) -> Result<Vec<&'s Selector<'a>>, AllocError>
    ensures { IfOk result (λ selectors. map (λ s. s.now) selectors.items
        ≡ map T.selector_in rules.now) }
{
    let mut selectors: Vec<&'s Selector<'a>> = Vec::with_capacity(alloc, rules.len())?;
    for rule in rules {
        push_selector(&mut selectors, rule)?;
    }
    Ok(selectors)
}

/// Returns what an index keeps of selectors.
fn kept_of<'s, 'a>(
    alloc: Global,
    selectors: &[&'s Selector<'a>],
) -> Result<Vec<IndexedSelector<'s, 'a>>, AllocError>
    ensures { IfOk result (λ rules. map (λ rule. rule.selector.now) rules.items
        ≡ map (λ s. s.now) selectors.now) }
{
    let mut rules: Vec<IndexedSelector<'s, 'a>> = Vec::with_capacity(alloc, selectors.len())?;
    for selector in selectors {
        rules.push(IndexedSelector::new(selector))?;
    }
    Ok(rules)
}

impl<'s, 'a> SelectorIndex<'s, 'a> {
    /// Returns an index of the selectors of rules, which it borrows, for any elements, or `None` if one of the
    /// selectors [needs a page](css_selectors::needs_page). It holds an entry for each key of each selector. Fails
    /// only if an allocation fails.
    pub fn new<T: HasSelector<'a>>(
        alloc: Global,
        rules: &'s [T],
    ) -> Result<Option<SelectorIndex<'s, 'a>>, AllocError>
        ensures none { IfOk result (λ found. is_none found ≡ list_any needs_page (map T.selector_in rules.now)) }
        ensures selectors { IfOk result (λ found. IfSome found (λ index. index ≡ map T.selector_in rules.now)) }
    {
        if some_needs_page(rules) {
            return Ok(None);
        }
        Ok(Some(SelectorIndex::on_marked(alloc, rules)?))
    }

    /// Returns an index for elements of pages that are marked with all lists that the selectors ask by numbers. Of other
    /// elements it finds what is wrong without a sign.
    pub fn on_marked<T: HasSelector<'a>>(
        alloc: Global,
        rules: &'s [T],
    ) -> Result<SelectorIndex<'s, 'a>, AllocError>
        ensures { IfOk result (λ index. index ≡ map T.selector_in rules.now) }
    {
        let selectors = selectors_of(alloc, rules)?;
        SelectorIndex::from_selectors(alloc, selectors)
    }

    /// Returns an index of the selectors, as [`SelectorIndex::on_marked`] does.
    pub(crate) fn from_selectors(
        alloc: Global,
        selectors: Vec<&'s Selector<'a>>,
    ) -> Result<SelectorIndex<'s, 'a>, AllocError>
        ensures { IfOk result (λ index. index ≡ map (λ s. s.now) selectors.entry.items) }
    {
        let rules = kept_of(alloc, selectors.as_slice())?;
        let table = filed(alloc, selectors.as_slice())?;
        Ok(SelectorIndex { rules, table })
    }

    /// Whether there is a rule at the index, and it requires nothing but its keys or matches the
    /// element. It is tested only if it requires more than its keys.
    pub(crate) fn passes_at<E: Keyed>(&self, index: usize, element: &E, tests: &mut Tests) -> bool
        ensures answer { IsTrue result ↔ PassesAt E.document (E.node element.now) self.now index }
        ensures at_least { tests.old + least_tests self.now index ≤ tests.new }
        ensures at_most { tests.new
            ≤ tests.old + most_tests_at E.document (E.node element.now) self.now index }
    {
        match self.rules.get(index) {
            Some(rule) => rule.passes(element, tests),
            None => false,
        }
    }

    /// Finds the indices of the rules of which the element reports a key that are kept. The previous items
    /// of `indices` are dropped, and none is left after an `Err`.
    pub(crate) fn gather<E: Keyed, K: Keeping>(
        &self,
        element: &E,
        kept: &K,
        indices: &mut Vec<usize>,
    ) -> Result<(), AllocError>
        ensures found { OnOk result ((index : ℕ) → Contains indices.new.items index
            ↔ (IsKeyedAt E.document (E.node element.now) (E.reported element.now) self.now index
            × K.Keeps kept.now index)) }
        ensures err { OnErr result (indices.new.items ≡ []) }
    {
        indices.clear();
        if self.rules.is_empty() {
            return Ok(());
        }
        if let Err(error) = self.table.push_keyed(element, kept, indices) {
            indices.clear();
            return Err(error);
        }
        Ok(())
    }

    /// Finds the indices of the rules that match the element, in order: those that testing each
    /// rule would find. One with a pseudo-element matches none.
    ///
    /// It costs a look-up for the name, the id, each different class and each attribute of the
    /// element, a comparison of numbers for each entry at the places of these keys, and a test for each
    /// rule of which a key is found, which requires more than its keys. [`SelectorWalk`](crate::SelectorWalk)
    /// leaves out rules that need an ancestor or a parent which the element lacks.
    ///
    /// The previous items of `indices` are dropped. Only its growth and a list of the classes allocate:
    /// room for the entries of the index that are found, and for the words of the class. It fails only
    /// if an allocation fails; then no items are left.
    pub fn matching<E: Keyed>(
        &self,
        element: &E,
        indices: &mut Vec<usize>,
    ) -> Result<(), AllocError>
        ensures matches { OnOk result
            (AreMatches E.document (E.node element.now) self.now indices.new.items) }
        ensures err { OnErr result (indices.new.items ≡ []) }
    {
        self.gather(element, &Everything, indices)?;
        sort_once(indices);
        indices.retain(|index| self.passes_at(*index, element, &mut Tests::new()));
        Ok(())
    }
}
