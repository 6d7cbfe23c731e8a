//! The answers of a user's own tree.

use crate::same::same;
use example_library::own_tree::{Entry, Spot};
use log::sink::Discard;
use simplecss::{Keyed, RuleIndex, Selector, StyleSheet};
use std::test::Fail;

/// Returns an entry with this parent and this previous sibling, and its id and class.
fn entry(
    name: &'static str,
    (parent, previous): (Option<usize>, Option<usize>),
    id: Option<&'static str>,
    class: Option<&'static str>,
) -> Entry<'static> {
    Entry {
        name,
        id,
        class,
        parent,
        previous,
    }
}

/// Returns a list of entries.
fn entries() -> [Entry<'static>; 6] {
    [
        entry("a", (None, None), None, Some("x y")),
        entry("b", (Some(0), None), Some("i"), None),
        entry("c", (Some(0), Some(1)), None, Some("y")),
        entry("b", (Some(2), None), None, Some("z")),
        // An index that is greater, or of an element with another parent, is not used.
        entry("d", (Some(5), Some(5)), Some("j"), None),
        entry("d", (Some(0), Some(3)), None, None),
    ]
}

/// Selectors, and the indices of the entries that they match.
const MATCHED: &[(&str, &[usize])] = &[
    ("b", &[1, 3]),
    ("a > b", &[1]),
    ("a b", &[1, 3]),
    ("a > b + c", &[2]),
    (".y", &[0, 2]),
    ("[class='x y']", &[0]),
    ("[class]", &[0, 2, 3]),
    ("#i", &[1]),
    ("b#i + .y", &[2]),
    ("[id]", &[1, 4]),
    ("[href]", &[]),
    ("b:first-child", &[1, 3]),
    ("c:first-child", &[]),
    ("a:link", &[]),
    ("a > d", &[5]),
    ("* + d", &[]),
];

#[test]
fn matches_in_an_own_tree(rt: HostRuntime) -> Result<(), Fail> {
    let entries = entries();
    for &(text, wanted) in MATCHED {
        let selector = Selector::parse(&Discard, rt.alloc(), text)?.ok_or("refused")?;
        for index in 0..entries.len() {
            let spot = Spot {
                entries: &entries,
                index,
            };
            let found = (index, selector.matches(&spot));
            same(&rt, found, (index, wanted.contains(&index)), text);
        }
    }
    Ok(())
}

/// A style sheet, and for each entry the indices of the rules that match it.
const SHEET: &str = "b { k:v } .y { k:v } [class] { k:v } #i { k:v } #j + d { k:v }";

const RULES: &[&[usize]] = &[&[1, 2], &[0, 3], &[1, 2], &[0, 2], &[], &[]];

#[test]
fn is_found_by_an_index(rt: HostRuntime) -> Result<(), Fail> {
    let entries = entries();
    let sheet = StyleSheet::parse(&Discard, rt.alloc(), SHEET)?;
    let index = RuleIndex::new(rt.alloc(), &sheet.rules)?;
    let mut indices = Vec::new(rt.alloc());
    for (entry, wanted) in RULES.iter().enumerate() {
        if entry < entries.len() {
            let spot = Spot {
                entries: &entries,
                index: entry,
            };
            index.matching(&sheet.rules, &spot, &mut indices)?;
            same(&rt, indices.as_slice(), *wanted, spot.local_name());
        }
    }
    Ok(())
}
