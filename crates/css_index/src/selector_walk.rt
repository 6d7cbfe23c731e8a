//! A walk along a page.
ghost use Rattle.std.specs.Prelude.{◌≡◌, ◌+◌, ◌≤◌, ◌↔◌, ◌++◌, ◌∷◌, if◌then◌else◌, ℕ, List, [], Some, Contains, IsTrue, IfOk, IfSome, OnOk, OnErr, is_none, map};
ghost use Rattle.std.specs.List.{list_any, sum_by};
ghost use Rattle.std.specs.List.Sorted.{IsStrictlyIncreasing};
ghost use Rattle.css_open_elements.specs.Opened.{all_but_last};
ghost use Rattle.css_selectors.specs.AncestorKeys.{ancestor_keys, parent_keys};
ghost use Rattle.css_selectors.specs.PageNeeds.{needs_page};
ghost use Rattle.css_index.specs.Found.{AreAll, AreMatches};
ghost use Rattle.css_index.specs.Walks.{AreNumbered, AreNumbersOf, AreNeeds, IsMore};
ghost use Rattle.css_index.specs.Walks.{IsOpenTo};
ghost use Rattle.css_index.specs.internal.Candidates.{PassesAt};
ghost use Rattle.css_index.specs.Tested.{IsTriedAt, AreTried, least_tests, most_tests_at};
ghost use Rattle.css_index.specs.internal.Walking.{need_of as need_view};

use crate::above::Above;
use crate::keeping::Everything;
use crate::need::Need;
use crate::selector_index::{SelectorIndex, selectors_of};
use crate::table::Table;
use crate::{HasSelector, Keyed};
use css_matching::sort_once;
use css_open_elements::OpenElements;
use css_selectors::{Key, Selector, Tests, push_ancestor_keys, push_parent_keys, some_needs_page};
use std::alloc::{AllocError, Global};
use std::marker::Model;

/// Returns the numbers of what a selector needs. What was in `keys` and `found` is dropped.
fn need_of<'s>(
    alloc: Global,
    selector: &'s Selector<'_>,
    needed: &mut Table<'s>,
    keys: &mut Vec<Key<'s>>,
    found: &mut Vec<usize>,
) -> Result<Need, AllocError>
    requires { AreNumbered needed.old }
    ensures numbered { OnOk result (AreNumbered needed.new) }
    ensures more { OnOk result (IsMore needed.old needed.new) }
    ensures ancestors { IfOk result (λ need.
        AreNumbersOf needed.new (ancestor_keys selector.now) need.ancestors.items) }
    ensures parent { IfOk result (λ need.
        AreNumbersOf needed.new (parent_keys selector.now) need.parent.items) }
{
    keys.clear();
    push_ancestor_keys(selector, keys)?;
    let mut ancestors = Vec::new(alloc);
    needed.push_numbers(keys.as_slice(), found, &mut ancestors)?;
    keys.clear();
    push_parent_keys(selector, keys)?;
    let mut parent = Vec::new(alloc);
    needed.push_numbers(keys.as_slice(), found, &mut parent)?;
    Ok(Need {
        first: ancestors.first().copied(),
        ancestors,
        parent,
    })
}

/// Returns the keys that selectors need above an element, and the numbers of what each needs.
fn needs_of<'s>(
    alloc: Global,
    selectors: &[&'s Selector<'_>],
) -> Result<(Table<'s>, Vec<Need>), AllocError>
    ensures numbered { IfOk result (λ it. AreNumbered it.0) }
    ensures needs { IfOk result (λ it. AreNeeds it.0 (map (λ s. s.now) selectors.now)
        (map need_view it.1.items)) }
{
    let mut needed: Table<'s> = Table::empty(alloc, selectors.len().saturating_mul(2).max(1))?;
    let mut needs: Vec<Need> = Vec::new(alloc);
    let mut keys = Vec::new(alloc);
    let mut found = Vec::new(alloc);
    for selector in selectors {
        let need = need_of(alloc, *selector, &mut needed, &mut keys, &mut found)?;
        needs.push(need)?;
    }
    Ok((needed, needs))
}

/// Appends the index, if it is wanted.
#[inline(always)]
fn push_if(indices: &mut Vec<usize>, index: usize, is_wanted: bool) -> Result<(), AllocError>
    ensures { OnOk result (indices.new.items
        ≡ indices.old.items ++ (if is_wanted then index ∷ [] else [])) }
{
    if is_wanted {
        indices.push(index)?;
    }
    Ok(())
}

/// An index of selectors, and the elements that are open while a page is walked in order: those of
/// which a descendant is matched next.
///
/// ```text
/// walk.matching(&element, &mut tried, &mut indices, &mut Tests::new())?;
/// walk.enter(&element)?;
/// for child in children { .. }
/// walk.leave();
/// ```
#[derive(Drop)]
pub struct SelectorWalk<'s, 'a> {
    /// The index.
    index: SelectorIndex<'s, 'a>,
    /// The keys that selectors need above an element, each with a number.
    needed: Table<'s>,
    /// For each selector, the numbers of those that it needs.
    needs: Vec<Need>,
    /// The numbers that open elements have.
    path: OpenElements,
    /// Those of the element that is entered. The list is reused.
    found: Vec<usize>,
}

impl<'s, 'a> Model for SelectorWalk<'s, 'a> {
    ghost use Rattle.std.specs.Prelude.{map};
    ghost use Rattle.std.specs.Coded.{Coded, codes};
    ghost use Rattle.css_selector_text.specs.Codes.{condition_code};
    ghost use Rattle.css_selector_text.specs.Components.{Simple};
    ghost use Rattle.css_index.specs.Walks.{Walk};
    ghost use Rattle.css_index.specs.internal.Walking.{need_of, IsWalk};

    ghost Value = { Walk };

    ghost coded = { let simples : Coded Simple = Prim.hlevel codes in
        Prim.hlevel (codes, condition_code simples) };

    ghost view = { λ walk. record {
      selectors = walk.index;
      needed = walk.needed;
      needs = map need_of walk.needs.items;
      opened = walk.path.opened;
    } };

    ghost invariant = { λ walk. IsWalk walk.index walk.needed (map need_of walk.needs.items)
        walk.path.size };
}

impl<'s, 'a> SelectorWalk<'s, 'a> {
    /// Returns an index of the selectors of rules for a walk along any elements, with none open, or `None` if one of
    /// the selectors [needs a page](css_selectors::needs_page). Fails only if an allocation fails.
    pub fn new<T: HasSelector<'a>>(
        alloc: Global,
        rules: &'s [T],
    ) -> Result<Option<SelectorWalk<'s, 'a>>, AllocError>
        ensures none { IfOk result (λ found. is_none found ≡ list_any needs_page (map T.selector_in rules.now)) }
        ensures selectors { IfOk result (λ found. IfSome found (λ walk.
            walk.selectors ≡ map T.selector_in rules.now)) }
        ensures opened { IfOk result (λ found. IfSome found (λ walk. walk.opened ≡ [])) }
    {
        if some_needs_page(rules) {
            return Ok(None);
        }
        Ok(Some(SelectorWalk::on_marked(alloc, rules)?))
    }

    /// Returns an index for a walk along a page that is marked with all lists that the selectors ask by numbers, with no
    /// element open. Along other elements it finds what is wrong without a sign.
    pub fn on_marked<T: HasSelector<'a>>(
        alloc: Global,
        rules: &'s [T],
    ) -> Result<SelectorWalk<'s, 'a>, AllocError>
        ensures selectors { IfOk result (λ walk. walk.selectors ≡ map T.selector_in rules.now) }
        ensures none { IfOk result (λ walk. walk.opened ≡ []) }
    {
        let selectors = selectors_of(alloc, rules)?;
        let (needed, needs) = needs_of(alloc, selectors.as_slice())?;
        let path = OpenElements::new(alloc, needed.len())?;
        let index = SelectorIndex::from_selectors(alloc, selectors)?;
        Ok(SelectorWalk {
            index,
            needed,
            needs,
            path,
            found: Vec::new(alloc),
        })
    }

    /// Opens an element, whose parent is the one that was opened last. After an error the walk is as
    /// before.
    pub fn enter<E: Keyed>(&mut self, element: &E) -> Result<(), AllocError>
        ensures selectors { self.new.selectors ≡ self.old.selectors }
        ensures opened { OnOk result
            (IsOpenTo E.document E.node E.reported self.old
            (E.document.parent (E.node element.now))
            → IsOpenTo E.document E.node E.reported self.new (Some (E.node element.now))) }
        ensures err { OnErr result (self.new ≡ self.old) }
    {
        self.found.clear();
        if self.needed.len() == 0 {
            return self.path.enter(&[]);
        }
        self.needed
            .push_keyed(element, &Everything, &mut self.found)?;
        self.path.enter(&self.found)?;
        Ok(())
    }

    /// Closes the element that was opened last, if one is open.
    pub fn leave(&mut self)
        ensures selectors { self.new.selectors ≡ self.old.selectors }
        ensures needed { self.new.needed ≡ self.old.needed }
        ensures needs { self.new.needs ≡ self.old.needs }
        ensures opened { self.new.opened ≡ all_but_last self.old.opened }
    {
        self.path.leave();
    }

    /// Returns what selectors need above an element, and what open elements have.
    #[inline(always)]
    fn above(&self) -> Above<'_>
        ensures needs { map need_view result.needs.now ≡ self.now.needs }
        ensures opened { result.path.now.opened ≡ self.now.opened }
    {
        Above {
            needs: self.needs.as_slice(),
            path: &self.path,
        }
    }

    /// Appends the indices of those selectors that require nothing but their keys or match. Of the others
    /// each is tested.
    fn push_passing<E: Keyed>(
        &self,
        element: &E,
        tried: &[usize],
        indices: &mut Vec<usize>,
        tests: &mut Tests,
    ) -> Result<(), AllocError>
        requires none { indices.old.items ≡ [] }
        requires ascending { IsStrictlyIncreasing tried.now }
        ensures ascending { OnOk result (IsStrictlyIncreasing indices.new.items) }
        ensures exactly { OnOk result ((index : ℕ) → Contains indices.new.items index
            ↔ (Contains tried.now index
            × PassesAt E.document (E.node element.now) self.now.selectors index)) }
        ensures at_least { OnOk result
            (tests.old + sum_by (least_tests self.now.selectors) tried.now ≤ tests.new) }
        ensures at_most { OnOk result (tests.new ≤ tests.old
            + sum_by (most_tests_at E.document (E.node element.now) self.now.selectors) tried.now) }
    {
        for index in tried {
            let passes = self.index.passes_at(*index, element, tests);
            push_if(indices, *index, passes)?;
        }
        Ok(())
    }

    /// Returns how many selectors there are, and says that their numbers are known.
    fn count(&self) -> usize
        ensures needs { AreNeeds self.now.needed self.now.selectors self.now.needs }
    {
        self.needs.len()
    }

    /// Finds the indices of the selectors that are tried, in order: those of which the element reports
    /// a key, and of which open elements report all that they need above an element.
    fn tried<E: Keyed>(&self, element: &E, indices: &mut Vec<usize>) -> Result<(), AllocError>
        ensures tried { OnOk result (AreAll (IsTriedAt E.document (E.node element.now)
            (E.reported element.now) self.now) indices.new.items) }
        ensures err { OnErr result (indices.new.items ≡ []) }
    {
        self.index.gather(element, &self.above(), indices)?;
        sort_once(indices);
        Ok(())
    }

    /// Does what [`SelectorIndex::matching`] does for an element whose ancestors are the open
    /// elements, and counts the tests. It leaves in `tried` the indices of the selectors that are tried:
    /// those of which the element reports a key, and of which open elements report all keys that they need
    /// of ancestors and of the parent. Of these each is tested that requires more than its keys, and no
    /// other.
    pub fn matching<E: Keyed>(
        &self,
        element: &E,
        tried: &mut Vec<usize>,
        indices: &mut Vec<usize>,
        tests: &mut Tests,
    ) -> Result<(), AllocError>
        requires { IsOpenTo E.document E.node E.reported self.now
            (E.document.parent (E.node element.now)) }
        ensures matches { OnOk result
            (AreMatches E.document (E.node element.now) self.now.selectors indices.new.items) }
        ensures tried { OnOk result (AreTried E.document (E.node element.now) (E.reported element.now)
            self.now tried.new.items tests.old tests.new) }
        ensures err { OnErr result (indices.new.items ≡ []) }
    {
        let _count = self.count();
        indices.clear();
        self.tried(element, tried)?;
        if let Err(error) = self.push_passing(element, tried.as_slice(), indices, tests) {
            indices.clear();
            return Err(error);
        }
        Ok(())
    }
}
