//! An index of rules by the keys of their selectors.
ghost use Rattle.std.specs.Prelude.{◌≡◌, ℕ, ◌+◌, ◌<◌, ◌≤◌, ◌∷◌, ◌++◌, [], IfOk, OnOk};
ghost use Rattle.std.specs.Prelude.{◌↔◌, All, Contains, IsTrue, false, OnErr, length, map};
ghost use Rattle.std.specs.List.{sum_by};
ghost use Rattle.std.specs.Option.{option_map};
ghost use Rattle.simplecss_selector.specs.Exact.{ReportsOnlyKeys};
ghost use Rattle.simplecss_selector.specs.Buckets.{Near, IsNear};
ghost use Rattle.simplecss.specs.internal.Chains.{selectors_of, IsLastBefore, AreChained};
ghost use Rattle.simplecss.specs.internal.NeededKeys.{AreNeeded, AreOnly};
ghost use Rattle.simplecss.specs.OnlyKeys.{requires_only_key};
ghost use Rattle.simplecss.specs.OpenPaths.{needed_keys, are_open, tested_open, IsOpenTo};
ghost use Rattle.simplecss.specs.internal.Kept.{is_kept};
ghost use Rattle.simplecss.specs.SelectorIndices.{key_at, selector_at};
ghost use Rattle.simplecss.specs.Matching.{AreMatches, most_tests, tested_for};

use super::find::{candidates, candidates_open};
use super::keep::drop_others;
use super::last_by_bucket::LastByBucket;
use super::link::Link;
use super::needed_keys::NeededKeys;
use super::open_path::OpenPath;
use super::recent::Recent;
use crate::HasSelector;
use simplecss_selector::{Exact, Keyed, Tests};
use std::alloc::{AllocError, Global};
use std::marker::Model;

/// Appends the links of the rules, in order: each index is stored under the key of its selector,
/// with a link to the last earlier index with that key, and with the numbers of the keys that its
/// selector needs of ancestors.
#[inline(always)]
fn push_links<'a, T: HasSelector<'a>>(
    alloc: Global,
    lasts: &mut LastByBucket<'a>,
    needed: &mut NeededKeys<'a>,
    links: &mut Vec<Link<'a>>,
    rules: &[T],
) -> Result<(), AllocError>
    requires chained { AreChained lasts.old links.old.items }
    requires needed { AreNeeded needed.old links.old.items }
    requires only { AreOnly links.old.items }
    ensures chained { OnOk result (AreChained lasts.new links.new.items) }
    ensures needed { OnOk result (AreNeeded needed.new links.new.items) }
    ensures only { OnOk result (AreOnly links.new.items) }
    ensures selectors { OnOk result (selectors_of links.new.items
        ≡ selectors_of links.old.items ++ map T.selector_in rules.now) }
{
    let mut keys = Vec::new(alloc);
    for rule in rules {
        let selector = rule.selector();
        keys.clear();
        selector.push_ancestor_keys(&mut keys)?;
        let numbers = needed.numbers_of(alloc, &keys)?;
        let bucket = selector.bucket();
        let earlier = lasts.replace(bucket, links.len())?;
        links.push(Link::new(earlier, numbers, selector, bucket))?;
    }
    Ok(())
}

/// Whether all of the numbers are open.
#[inline(always)]
fn are_open(numbers: &[usize], path: &OpenPath<'_>) -> bool
    ensures { IsTrue result ↔ All (Contains path.now.listed) numbers.now }
{
    for number in numbers {
        if !path.is_open(*number) {
            return false;
        }
    }
    true
}

/// An index of rules by the keys of their selectors: it finds the rules that match an element, and
/// tests only those whose key is reported.
///
/// It keeps the indices of the rules and does not borrow them, so one struct may hold it and its
/// sheet. It is of the rules as they were when it was made: after an edit of their selectors, or of
/// their number or order, make another.
///
/// ```rust
/// let index = RuleIndex::new(alloc, &sheet.rules)?;
/// let mut indices = Vec::new(alloc);
/// index.matching(&sheet.rules, &element, &mut indices)?;
/// for i in &indices {
///     // sheet.rules[*i]
/// }
/// ```
///
/// The element is of a type that implements `Keyed`. The indices are those that testing each rule
/// finds (`laws::answers_law`).
#[derive(Drop)]
pub struct RuleIndex<'a> {
    /// The last index of each key.
    pub(crate) lasts: LastByBucket<'a>,
    /// For each rule, in order, how it is chained to the earlier ones.
    links: Vec<Link<'a>>,
    /// The keys that rules need of ancestors.
    pub(crate) needed: NeededKeys<'a>,
}

impl<'a> Model for RuleIndex<'a> {
    ghost use Rattle.std.specs.Prelude.{List, map};
    ghost use Rattle.simplecss_grammar.specs.Components.{Component};

    ghost Value = { List (List Component) };

    ghost use Rattle.simplecss.specs.internal.Chains.{selectors_of};
    ghost use Rattle.simplecss.specs.internal.NeededKeys.{AreIndexed};

    ghost view = { λ index. selectors_of index.links.items };

    ghost invariant = { λ index. AreIndexed index.lasts index.needed index.links.items };
}

impl<'a> RuleIndex<'a> {
    /// The index of these rules. The error is that a growth was refused.
    pub fn new<T: HasSelector<'a>>(alloc: Global, rules: &[T]) -> Result<Self, AllocError>
        ensures { IfOk result (λ index. index ≡ map T.selector_in rules.now) }
    {
        let mut links: Vec<Link<'a>> = Vec::with_capacity(alloc, rules.len())?;
        let mut lasts: LastByBucket<'a> = LastByBucket::new(alloc);
        let mut needed: NeededKeys<'a> = NeededKeys::new(alloc);
        push_links(alloc, &mut lasts, &mut needed, &mut links, rules)?;
        Ok(RuleIndex {
            lasts,
            links,
            needed,
        })
    }

    /// The last earlier index with the key of this one, if there is one.
    #[inline(always)]
    pub(crate) fn earlier(&self, index: usize) -> Option<usize>
        requires { index < length self.now }
        ensures { IsLastBefore self.now index (key_at self.now index) result }
    {
        self.links[index].earlier
    }

    /// Whether open elements report each key that the rule at this index needs of an element's
    /// ancestors.
    #[inline(always)]
    pub(crate) fn is_open(&self, index: usize, path: &OpenPath<'_>) -> bool
        ensures { result
            ≡ are_open (needed_keys self.now) path.now.listed (selector_at self.now index) }
    {
        match self.links.get(index) {
            Some(link) => are_open(&link.needed, path),
            None => true,
        }
    }

    /// Whether the rule at this index requires nothing but its key.
    #[inline(always)]
    pub(crate) fn is_only_key(&self, index: usize) -> bool
        ensures { result ≡ requires_only_key (selector_at self.now index) }
    {
        match self.links.get(index) {
            Some(link) => link.is_only_key,
            None => false,
        }
    }

    /// Whether a path, if there is one, keeps the rule at this index: open elements report each key
    /// that it needs of an element's ancestors.
    #[inline(always)]
    pub(crate) fn is_kept(&self, index: usize, path: Option<&OpenPath<'_>>) -> bool
        ensures { result ≡ is_kept self.now (option_map (λ p. p.now) path.entry)
            (selector_at self.now index) }
    {
        match path {
            Some(open) => self.is_open(index, open),
            None => true,
        }
    }

    /// Finds the indices of the rules that match the element, in order: those that testing each
    /// rule would find. The rules are those that the index was made of.
    ///
    /// The previous items of `indices` are dropped. Only its growth allocates: it never holds more
    /// indices than the greater of the number of rules and a few more than the number of words in
    /// the classes of the element, its parent and its previous sibling and of attributes that are
    /// keys. Once it has grown, further calls allocate nothing. Fails only if an allocation fails.
    pub fn matching<T: HasSelector<'a>, E: Keyed>(
        &self,
        rules: &[T],
        element: &E,
        indices: &mut Vec<usize>,
    ) -> Result<(), AllocError>
        requires { self.now ≡ map T.selector_in rules.now }
        ensures matches { OnOk result
            (AreMatches E.tree (E.node element.now) self.now indices.new.items) }
        ensures err { OnErr result (indices.new.items ≡ []) }
    {
        self.matching_counted(rules, element, indices, &mut Tests::new())
    }

    /// Does what [`RuleIndex::matching`] does, and counts the tests. A rule is tested only if the key of
    /// its bucket is reported (`Selector::bucket`): by the element, its parent or its previous sibling.
    pub fn matching_counted<T: HasSelector<'a>, E: Keyed>(
        &self,
        rules: &[T],
        element: &E,
        indices: &mut Vec<usize>,
        tests: &mut Tests,
    ) -> Result<(), AllocError>
        requires { self.now ≡ map T.selector_in rules.now }
        ensures matches { OnOk result
            (AreMatches E.tree (E.node element.now) self.now indices.new.items) }
        ensures tests { OnOk result ((near : Near)
            × IsNear E.tree E.node E.reported element.now near
            × (tests.old + length (tested_for near self.now) ≤ tests.new)
            × (tests.new ≤ tests.old + sum_by (most_tests E.tree (E.node element.now))
            (tested_for near self.now))) }
        ensures err { OnErr result (indices.new.items ≡ []) }
        ensures untested { OnErr result (tests.new ≡ tests.old) }
    {
        let mut recent = Recent::none(*indices.allocator(), self);
        self.matching_recent(rules, element, indices, &mut recent, tests)
    }

    /// Does what [`RuleIndex::matching_counted`] does for an element that reports no more than it
    /// matches, and whose ancestors are the open elements of a path. The rules that are tested are
    /// those whose key is reported, of which open elements report each key that they need of ancestors,
    /// and which require more than their key.
    pub fn matching_exact<T: HasSelector<'a>, E: Exact>(
        &self,
        rules: &[T],
        element: &E,
        path: &OpenPath<'_>,
        indices: &mut Vec<usize>,
        tests: &mut Tests,
    ) -> Result<(), AllocError>
        requires index { self.now ≡ map T.selector_in rules.now }
        requires path { path.now.selectors ≡ self.now }
        requires open { IsOpenTo E.tree E.node E.reported path.now
            (E.tree.parent (E.node element.now)) }
        ensures matches { OnOk result
            (AreMatches E.tree (E.node element.now) self.now indices.new.items) }
        ensures tests { OnOk result ((near : Near)
            × IsNear E.tree E.node E.reported element.now near
            × (tests.old + length (tested_open near path.now) ≤ tests.new)
            × (tests.new ≤ tests.old + sum_by (most_tests E.tree (E.node element.now))
            (tested_open near path.now))) }
        ensures err { OnErr result (indices.new.items ≡ []) }
        ensures untested { OnErr result (tests.new ≡ tests.old) }
    {
        if let Err(error) = candidates_open(self, element, path, indices) {
            indices.clear();
            return Err(error);
        }
        drop_others(rules, element, self, true, indices, tests);
        Ok(())
    }

    /// Does what [`RuleIndex::matching_counted`] does. It looks up in `recent`, and keeps there, what is
    /// found by the element's name and classes.
    #[inline(always)]
    pub(crate) fn matching_recent<T: HasSelector<'a>, E: Keyed>(
        &self,
        rules: &[T],
        element: &E,
        indices: &mut Vec<usize>,
        recent: &mut Recent<'a>,
        tests: &mut Tests,
    ) -> Result<(), AllocError>
        requires index { self.now ≡ map T.selector_in rules.now }
        requires recent { recent.old ≡ self.now }
        ensures matches { OnOk result
            (AreMatches E.tree (E.node element.now) self.now indices.new.items) }
        ensures tests { OnOk result ((near : Near)
            × IsNear E.tree E.node E.reported element.now near
            × (tests.old + length (tested_for near self.now) ≤ tests.new)
            × (tests.new ≤ tests.old + sum_by (most_tests E.tree (E.node element.now))
            (tested_for near self.now))) }
        ensures err { OnErr result (indices.new.items ≡ []) }
        ensures untested { OnErr result (tests.new ≡ tests.old) }
        ensures recent { recent.new ≡ recent.old }
    {
        if let Err(error) = candidates(self, element, indices, recent) {
            indices.clear();
            return Err(error);
        }
        drop_others(rules, element, self, false, indices, tests);
        Ok(())
    }
}
