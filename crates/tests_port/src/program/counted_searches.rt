//! How often elements are tested while rules and winners are sought.

use crate::counted::{CallCounts, Counted};
use crate::same::same;
use cssq::cascade::{Cascade, winners, winning};
use cssq::tree::Page;
use log::sink::Discard;
use simplecss::{Keyed, Rule, RuleIndex, RuleSearch, StyleSheet, Tests};
use std::alloc::{AllocError, Global};
use std::test::Fail;

/// Returns how often the name of the one element of a tree is tested while the winner for the name
/// `c` is sought, and while all are.
fn calls_for_winners(alloc: Global, sheet: &str) -> Result<(u64, u64), Fail> {
    let sheet = StyleSheet::parse(&Discard, alloc, sheet)?;
    let page = Page::read(alloc, "0\ta")?;
    let calls = CallCounts::new();
    let element = Counted {
        node: page.node(0).ok_or("no element")?,
        calls: &calls,
    };
    let _ = winning(&sheet, &element, "c");
    let for_one = calls.names.get();
    let _ = winners(alloc, &sheet, &element)?;
    let for_both = calls.names.get();
    Ok((for_one, for_both.saturating_sub(for_one)))
}

/// A sheet, and how often an element is tested for one name and for all.
const TESTED_RULES: &[(&str, (u64, u64))] = &[
    ("a{d:x} a{e:x}", (0, 2)),
    ("a{c:x} a{c:y}", (1, 2)),
    ("a{c:x} a{c:y} a{d:z}", (1, 3)),
    ("a{c:x;c:y;c:z}", (1, 1)),
    ("b{c:x} b{c:y} b{c:z}", (3, 3)),
    ("a{c:x !important} a{c:y} a{c:z}", (2, 3)),
    ("a{c:x !important} a{c:y !important} a{c:z}", (2, 3)),
    ("a{c:x !important} b{c:y} b{c:z}", (3, 3)),
];

#[test]
fn tests_few_rules_for_winners(rt: HostRuntime) -> Result<(), Fail> {
    for &(sheet, times) in TESTED_RULES {
        let calls = calls_for_winners(rt.alloc(), sheet)?;
        same(&rt, calls, times, sheet);
    }
    Ok(())
}

/// A tree for the rules below, which are tested on its last element.
const INDEXED: &str = "0\tbody\tclass=n\n1\tb\tclass=s\n1\tp\tclass=a\tq=1\n";

/// A call that finds the rules that match an element, or their declarations.
#[derive(Clone, Copy, Debug)]
enum Search {
    Matching,
    Counted,
    Recent,
    Stated,
    Winners,
}

const SEARCHES: [Search; 5] = [
    Search::Matching,
    Search::Counted,
    Search::Recent,
    Search::Stated,
    Search::Winners,
];

/// Finds the rules twice, the second time by what was kept the first time.
fn search_recent<E: Keyed>(
    alloc: Global,
    rules: &[Rule<'_>],
    element: &E,
) -> Result<(), AllocError> {
    let mut search = RuleSearch::new(alloc, rules)?;
    let mut indices = Vec::new(alloc);
    search.matching(rules, element, &mut indices)?;
    search.matching(rules, element, &mut indices)
}

/// Finds the rules twice, and counts the tests if `is_counted`.
fn search_rules<E: Keyed>(
    alloc: Global,
    rules: &[Rule<'_>],
    element: &E,
    is_counted: bool,
) -> Result<(), AllocError> {
    let index = RuleIndex::new(alloc, rules)?;
    let mut indices = Vec::new(alloc);
    for _ in 0..2 {
        if is_counted {
            index.matching_counted(rules, element, &mut indices, &mut Tests::new())?;
        } else {
            index.matching(rules, element, &mut indices)?;
        }
    }
    Ok(())
}

/// Finds the declarations of an element twice: all, or those that win.
fn search_declarations<E: Keyed>(
    alloc: Global,
    rules: &[Rule<'_>],
    element: &E,
    is_all: bool,
) -> Result<(), AllocError> {
    let mut cascade = Cascade::new(alloc, rules)?;
    if is_all {
        cascade.stated(element)?;
        cascade.stated(element)?;
    } else {
        cascade.winners(element)?;
        cascade.winners(element)?;
    }
    Ok(())
}

/// Makes the call twice for an element.
fn search_twice<E: Keyed>(
    alloc: Global,
    search: Search,
    rules: &[Rule<'_>],
    element: &E,
) -> Result<(), AllocError> {
    match search {
        Search::Matching => search_rules(alloc, rules, element, false),
        Search::Counted => search_rules(alloc, rules, element, true),
        Search::Recent => search_recent(alloc, rules, element),
        Search::Stated => search_declarations(alloc, rules, element, true),
        Search::Winners => search_declarations(alloc, rules, element, false),
    }
}

/// Returns how often the names and the attributes of the last element of the tree and of those near
/// it are tested in two searches.
fn calls_of_two(alloc: Global, sheet: &str, search: Search) -> Result<(u64, u64), Fail> {
    let sheet = StyleSheet::parse(&Discard, alloc, sheet)?;
    let page = Page::read(alloc, INDEXED)?;
    let calls = CallCounts::new();
    let element = Counted {
        node: page.node(2).ok_or("no element")?,
        calls: &calls,
    };
    search_twice(alloc, search, &sheet.rules, &element)?;
    Ok((calls.names.get(), calls.attributes.get()))
}

/// Rules, and how often a search by an index tests names and attributes for them.
const INDEXED_RULES: &[(&str, (u64, u64))] = &[
    // A rule is tested if the element has its id, its class, its name or its attribute.
    (".a{x:y} .b{x:y} #i{x:y} p{x:y} i{x:y}", (1, 1)),
    ("[q]{x:y} [r]{x:y} [q='2']{x:y}", (0, 2)),
    // A rule `x > *` or `x + *` is tested if the parent or the previous sibling has the key of `x`.
    (".n > *{x:y} .m > *{x:y} .s + *{x:y} .n + *{x:y}", (0, 2)),
    // A rule without a key is tested for each element.
    ("*{x:y} :hover{x:y} .n *{x:y}", (0, 1)),
];

#[test]
fn an_index_tests_few_rules(rt: HostRuntime) -> Result<(), Fail> {
    for &(sheet, (names, attributes)) in INDEXED_RULES {
        let wanted = (names.saturating_mul(2), attributes.saturating_mul(2));
        for search in SEARCHES {
            let calls = calls_of_two(rt.alloc(), sheet, search)?;
            assert_eq!(rt; calls, wanted, "of {search:?} and {sheet}");
        }
    }
    Ok(())
}
