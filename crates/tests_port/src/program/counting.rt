//! How often elements are tested while a selector is matched.

use crate::counted::{CallCounts, Counted};
use crate::same::same;
use cssq::tree::Page;
use log::sink::Discard;
use simplecss::{Selector, Tests};
use std::alloc::Global;
use std::test::Fail;

/// An answer, and how often names, attributes and classes were tested.
type Run = (bool, [u64; 3]);

/// Runs a selector on the last element of a tree, by `matches_counted` or by `matches`.
fn calls_on_last(alloc: Global, selector: &str, tree: &str, is_counted: bool) -> Result<Run, Fail> {
    let page = Page::read(alloc, tree)?;
    let selector = Selector::parse(&Discard, alloc, selector)?.ok_or("refused")?;
    let calls = CallCounts::new();
    let last = page.len().checked_sub(1).ok_or("empty")?;
    let element = Counted {
        node: page.node(last).ok_or("no element")?,
        calls: &calls,
    };
    let answer = if is_counted {
        selector.matches_counted(&element, &mut Tests::new())
    } else {
        selector.matches(&element)
    };
    let counts = [
        calls.names.get(),
        calls.attributes.get(),
        calls.classes.get(),
    ];
    Ok((answer, counts))
}

/// Returns a tree of elements that have their names as their classes: each word is the child of the
/// one before, or its sibling after a `+`.
fn tree_of(alloc: Global, words: &str) -> Result<String, Fail> {
    use std::fmt::Write;
    let mut text = String::new(alloc);
    let mut depth = 0usize;
    for word in words.split(' ') {
        if word == "+" {
            depth = depth.saturating_sub(1);
        } else {
            write!(text, "{depth}\t{word}\tclass={word}\n")?;
            depth = depth.saturating_add(1);
        }
    }
    Ok(text)
}

/// A selector, the words of a tree, the answer, and the numbers of tests.
const COUNTS: &[(&str, &str, Run)] = &[
    ("a > b c", "a b x b c", (true, [6, 0, 0])),
    (".a > .b .c", "a b x b c", (true, [0, 6, 0])),
    ("a b + c", "a x b + c", (true, [4, 0, 0])),
    (".a .b + .c", "a x b + c", (true, [0, 4, 0])),
    ("b + c", "b + x + c", (false, [2, 0, 0])),
    (".b + .c", "b + x + c", (false, [0, 2, 0])),
    ("y a a c", "a a a a a a a a a a c", (false, [11, 0, 0])),
    (".y .a .a .c", "a a a a a a a a a a c", (false, [0, 11, 0])),
    ("a > b > c d", "a b c x b c d", (true, [9, 0, 0])),
    (".a > .b > .c .d", "a b c x b c d", (true, [0, 9, 0])),
    ("y a > a b", "a a b", (false, [3, 0, 0])),
    (".y .a > .a .b", "a a b", (false, [0, 3, 0])),
    (":first-child > :first-child", "a b c", (true, [0, 0, 2])),
];

#[test]
fn counts_tests(rt: HostRuntime) -> Result<(), Fail> {
    // The counter that a contract names takes no memory.
    same(&rt, std::mem::size_of::<Tests>(), 0, "Tests");
    for &(selector, tree, wanted) in COUNTS {
        let tree = tree_of(rt.alloc(), tree)?;
        for is_counted in [true, false] {
            let found = calls_on_last(rt.alloc(), selector, tree.as_str(), is_counted)?;
            same(&rt, found, wanted, selector);
        }
    }
    Ok(())
}

const MANY: usize = 20_000;

#[test]
fn counts_in_a_deep_tree(rt: HostRuntime) -> Result<(), Fail> {
    use std::fmt::Write;
    let mut tree = String::new(rt.alloc());
    let mut selector = String::from_str(rt.alloc(), "a")?;
    for depth in 0..MANY {
        write!(tree, "{depth}\ta\n")?;
        if depth > 0 {
            selector.push_str(" a")?;
        }
    }
    for is_counted in [true, false] {
        for (text, answer) in [(selector.as_str(), true), ("x a", false)] {
            let got = calls_on_last(rt.alloc(), text, tree.as_str(), is_counted)?;
            same(&rt, got, (answer, [20_000, 0, 0]), "a long selector");
        }
    }
    Ok(())
}
