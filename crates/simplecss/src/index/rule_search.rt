//! Searches of an index that keep what they found.
ghost use Rattle.std.specs.Prelude.{◌≡◌, ◌+◌, ◌≤◌, [], IfOk, OnOk, OnErr, length, map};
ghost use Rattle.std.specs.List.{sum_by};
ghost use Rattle.simplecss_selector.specs.Buckets.{Near, IsNear};
ghost use Rattle.simplecss.specs.Matching.{AreMatches, most_tests, tested_for};

use super::recent::Recent;
use super::rule_index::RuleIndex;
use crate::HasSelector;
use simplecss_selector::{Keyed, Tests};
use std::alloc::{AllocError, Global};
use std::marker::Model;

/// Finds the rules that match an element as [`RuleIndex`] does, and keeps what it found by names and
/// classes: for a later element with the same name and the same class value that is not looked up
/// again. What is kept takes at most 60 kilobytes.
#[derive(Drop)]
pub struct RuleSearch<'a> {
    /// The index of the rules.
    index: RuleIndex<'a>,
    /// What the index found for earlier elements.
    recent: Recent<'a>,
}

impl<'a> Model for RuleSearch<'a> {
    ghost use Rattle.std.specs.Prelude.{◌≡◌, List};
    ghost use Rattle.simplecss_grammar.specs.Components.{Component};

    ghost Value = { List (List Component) };

    ghost view = { λ search. search.index };

    ghost invariant = { λ search. search.recent ≡ search.index };
}

impl<'a> RuleSearch<'a> {
    /// Makes an index of these rules, and room for what it finds. Fails only if an allocation fails.
    pub fn new<T: HasSelector<'a>>(alloc: Global, rules: &[T]) -> Result<Self, AllocError>
        ensures { IfOk result (λ search. search ≡ map T.selector_in rules.now) }
    {
        let index = RuleIndex::new(alloc, rules)?;
        let recent = Recent::new(alloc, &index)?;
        Ok(RuleSearch { index, recent })
    }

    /// Finds the indices of the rules that match the element, in order, as [`RuleIndex::matching`]
    /// does. The rules are those that this was made of. Fails only if an allocation fails.
    pub fn matching<T: HasSelector<'a>, E: Keyed>(
        &mut self,
        rules: &[T],
        element: &E,
        indices: &mut Vec<usize>,
    ) -> Result<(), AllocError>
        requires { self.old ≡ map T.selector_in rules.now }
        ensures matches { OnOk result
            (AreMatches E.tree (E.node element.now) self.old indices.new.items) }
        ensures err { OnErr result (indices.new.items ≡ []) }
        ensures same { self.new ≡ self.old }
    {
        self.matching_counted(rules, element, indices, &mut Tests::new())
    }

    /// Does what [`RuleSearch::matching`] does, and counts the tests.
    #[inline(always)]
    pub fn matching_counted<T: HasSelector<'a>, E: Keyed>(
        &mut self,
        rules: &[T],
        element: &E,
        indices: &mut Vec<usize>,
        tests: &mut Tests,
    ) -> Result<(), AllocError>
        requires { self.old ≡ map T.selector_in rules.now }
        ensures matches { OnOk result
            (AreMatches E.tree (E.node element.now) self.old indices.new.items) }
        ensures tests { OnOk result ((near : Near)
            × IsNear E.tree E.node E.reported element.now near
            × (tests.old + length (tested_for near self.old) ≤ tests.new)
            × (tests.new ≤ tests.old + sum_by (most_tests E.tree (E.node element.now))
            (tested_for near self.old))) }
        ensures err { OnErr result (indices.new.items ≡ []) }
        ensures untested { OnErr result (tests.new ≡ tests.old) }
        ensures same { self.new ≡ self.old }
    {
        self.index
            .matching_recent(rules, element, indices, &mut self.recent, tests)
    }
}
