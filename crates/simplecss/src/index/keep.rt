//! Which of the indices have a rule that matches.
ghost use Rattle.std.specs.Prelude.{◌≡◌, ◌+◌, ◌<◌, ◌≤◌, ◌↔◌, ℕ, map, take, length, All, Contains, IsTrue, if◌then◌else◌};
ghost use Rattle.std.specs.List.{sum_by};
ghost use Rattle.std.specs.List.Sorted.{IsStrictlyIncreasing};
ghost use Rattle.simplecss_selector.specs.Placements.{HasPlacement};
ghost use Rattle.simplecss.specs.Matching.{most_tests};
ghost use Rattle.simplecss.specs.internal.OnlyKeys.{needs_no_test, unless_needless};
ghost use Rattle.simplecss.specs.SelectorIndices.{selector_at};

use super::rule_index::RuleIndex;
use crate::HasSelector;
use simplecss_selector::{Element, Tests};

/// Whether the search is exact, and the rule at this index requires nothing but its key.
#[inline(always)]
fn is_known(rule_index: &RuleIndex<'_>, is_exact: bool, index: usize) -> bool
    ensures { result ≡ needs_no_test is_exact (selector_at rule_index.now index) }
{
    is_exact && rule_index.is_only_key(index)
}

/// Whether the rule matches the element. It is not tested if it is known to match.
#[inline(always)]
fn is_match<'a, T: HasSelector<'a>, E: Element>(
    rule: &T,
    element: &E,
    is_known: bool,
    tests: &mut Tests,
) -> bool
    requires { IsTrue is_known
        → HasPlacement E.tree (T.selector_in rule.now) (E.node element.now) }
    ensures answer { IsTrue result
        ↔ HasPlacement E.tree (T.selector_in rule.now) (E.node element.now) }
    ensures at_least { tests.old + (if is_known then 0 else 1) ≤ tests.new }
    ensures at_most { tests.new ≤ tests.old
        + (if is_known then 0 else most_tests E.tree (E.node element.now) (T.selector_in rule.now)) }
{
    is_known || rule.selector().matches_counted(element, tests)
}

/// Keeps the indices of the rules that match, in order, at the front, and returns how many they are.
/// An exact search does not test the rules that require nothing but their key, and each other one is
/// tested.
fn keep_matching<'a, T: HasSelector<'a>, E: Element>(
    rules: &[T],
    element: &E,
    rule_index: &RuleIndex<'_>,
    is_exact: bool,
    indices: &mut [usize],
    tests: &mut Tests,
) -> usize
    requires index { rule_index.now ≡ map T.selector_in rules.now }
    requires ascending { IsStrictlyIncreasing indices.old }
    requires within { All (λ index. index < length rules.now) indices.old }
    requires known { (index : ℕ) → Contains indices.old index
        → IsTrue (needs_no_test is_exact (selector_at (map T.selector_in rules.now) index))
        → HasPlacement E.tree (selector_at (map T.selector_in rules.now) index)
        (E.node element.now) }
    ensures within { result ≤ length indices.new }
    ensures ascending { IsStrictlyIncreasing (take result indices.new) }
    ensures exactly { (index : ℕ) → Contains (take result indices.new) index
        ↔ (Contains indices.old index × HasPlacement E.tree
        (selector_at (map T.selector_in rules.now) index) (E.node element.now)) }
    ensures counted { tests.new ≤ tests.old + sum_by
        (λ index. unless_needless is_exact (most_tests E.tree (E.node element.now))
        (selector_at (map T.selector_in rules.now) index)) indices.old }
    ensures tested { tests.old + sum_by (λ index. unless_needless is_exact (λ selector. 1)
        (selector_at (map T.selector_in rules.now) index)) indices.old ≤ tests.new }
{
    let mut kept = 0;
    'indices: for i in 0..indices.len() {
        let index = indices[i];
        if is_match(
            &rules[index],
            element,
            is_known(rule_index, is_exact, index),
            tests,
        ) {
            indices[kept] = index;
            kept += 1;
        }
    }
    kept
}

/// Drops the indices of the rules that do not match, as `keep_matching` says.
#[inline(always)]
pub(crate) fn drop_others<'a, T: HasSelector<'a>, E: Element>(
    rules: &[T],
    element: &E,
    rule_index: &RuleIndex<'_>,
    is_exact: bool,
    indices: &mut Vec<usize>,
    tests: &mut Tests,
)
    requires index { rule_index.now ≡ map T.selector_in rules.now }
    requires ascending { IsStrictlyIncreasing indices.old.items }
    requires within { All (λ index. index < length rule_index.now) indices.old.items }
    requires known { (index : ℕ) → Contains indices.old.items index
        → IsTrue (needs_no_test is_exact (selector_at rule_index.now index))
        → HasPlacement E.tree (selector_at rule_index.now index) (E.node element.now) }
    ensures ascending { IsStrictlyIncreasing indices.new.items }
    ensures exactly { (index : ℕ) → Contains indices.new.items index
        ↔ (Contains indices.old.items index
        × HasPlacement E.tree (selector_at rule_index.now index) (E.node element.now)) }
    ensures counted { tests.new ≤ tests.old + sum_by (λ index. unless_needless is_exact
        (most_tests E.tree (E.node element.now)) (selector_at rule_index.now index))
        indices.old.items }
    ensures tested { tests.old + sum_by (λ index. unless_needless is_exact (λ selector. 1)
        (selector_at rule_index.now index)) indices.old.items ≤ tests.new }
{
    let kept = keep_matching(rules, element, rule_index, is_exact, indices, tests);
    indices.truncate(kept);
}
