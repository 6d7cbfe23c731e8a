//! Selectors that are read from the start of a text and printed, and what is reported of them.

use crate::same::same;
use log::sink::{Discard, Lines, Memory};
use simplecss::{Selector, Silent};
use std::alloc::{AllocError, Global};
use std::test::Fail;

/// Returns the printed selector, or `refused`, and the offset where reading ended.
fn read(alloc: Global, text: &str) -> Result<(String, usize), AllocError> {
    let (selector, offset) = Selector::parse_front(&mut Silent, alloc, text)?;
    let printed = match selector {
        Some(selector) => format!(in alloc; "{selector}")?,
        None => String::from_str(alloc, "refused")?,
    };
    Ok((printed, offset))
}

/// Returns the selector of a text that has one.
fn parsed<'a>(alloc: Global, text: &'a str) -> Result<Selector<'a>, Fail> {
    Ok(Selector::parse(&Discard, alloc, text)?.ok_or("refused")?)
}

/// Texts, and the lines that the logger gets: one if the selector is refused, and else none.
const REPORTED: &[(&str, &[&str])] = &[
    (
        "> {}",
        &[
            "[WARN  simplecss_selector::warnings] Selector parsing failed cause unexpected combinator.",
        ],
    ),
    (
        "a\nb <",
        &[
            "[WARN  simplecss_selector::warnings] Selector parsing failed cause invalid ident at 2:3.",
        ],
    ),
    (
        ":le {}",
        &["[WARN  simplecss_selector::warnings] ':le' is not supported. Selector skipped."],
    ),
    ("a > .b:link", &[]),
];

/// Returns the lines that the logger gets, and whether the selector is refused.
fn reported(alloc: Global, text: &str) -> Result<(Lines, bool), AllocError> {
    let sink = Memory::new(alloc);
    let selector = Selector::parse(&sink, alloc, text)?;
    Ok((sink.into_lines(), selector.is_none()))
}

#[test]
fn warns_why_it_refuses(rt: HostRuntime) -> Result<(), AllocError> {
    for &(text, want) in REPORTED {
        let (lines, is_refused) = reported(rt.alloc(), text)?;
        same(
            &rt,
            (lines.len(), is_refused),
            (want.len(), !want.is_empty()),
            text,
        );
        for (line, wanted) in lines.as_slice().iter().zip(want) {
            same(&rt, line.as_str(), *wanted, text);
        }
    }
    Ok(())
}

/// Returns the first text, the second `count` times, and the third.
fn repeated(
    alloc: Global,
    first: &str,
    unit: &str,
    count: usize,
    last: &str,
) -> Result<String, AllocError> {
    let middle = unit.repeat(alloc, count)?;
    format!(in alloc; "{first}{middle}{last}")
}

/// The start of a text, what follows it a hundred thousand times, the end, the printed selector,
/// and the offset after it.
const LONG_GAPS: &[(&str, &str, &str, &str, usize)] = &[
    ("", "/**/", "a", "a", 400_001),
    ("a", "/**/", ".b", "a[class~='b']", 400_003),
    ("a ", "/**/", "b", "a b", 400_003),
    ("", " ", "a", "a", 100_001),
    ("a", "\n", "b", "a b", 100_002),
    ("a/* ", "x", "*/ > b", "a > b", 100_010),
    ("a[b='", "\\'", "]", "refused", 200_006),
    ("a", "/", "b", "a", 1),
];

#[test]
fn reads_long_gaps(rt: HostRuntime) -> Result<(), Fail> {
    for &(first, unit, last, want, offset) in LONG_GAPS {
        let text = repeated(rt.alloc(), first, unit, 100_000, last)?;
        let (printed, end) = read(rt.alloc(), text.as_str())?;
        same(&rt, (printed.as_str(), end), (want, offset), first);
    }
    Ok(())
}

/// The start of a selector, what follows it so often, and the specificity. It prints itself.
const LONG: &[(&str, &str, usize, [u8; 3])] = &[
    ("a", " a", 99_999, [0, 0, 255]),
    ("a", "[x='y']", 300, [0, 255, 1]),
];

#[test]
fn reads_long_selectors(rt: HostRuntime) -> Result<(), Fail> {
    for &(first, unit, count, weight) in LONG {
        let text = repeated(rt.alloc(), first, unit, count, "")?;
        let (printed, end) = read(rt.alloc(), text.as_str())?;
        let is_whole = printed.as_str() == text.as_str();
        same(&rt, (is_whole, end), (true, text.len()), first);
        let selector = parsed(rt.alloc(), text.as_str())?;
        same(&rt, selector.specificity(), weight, first);
    }
    Ok(())
}

/// A selector, and its lists as `{:?}` shows them. The last component and the end of the last
/// stretch are kept apart from the lists: subselectors end at 2 and 3 in the first row, and
/// stretches at 2 and 4, the number of components, in the second.
const LISTS: &[(&str, &str)] = &[
    (
        "a.b.c > #d",
        "Selector { front: [FlatComponent { combinator: None, name: Some(\"a\"), end: 2 }], \
        last: FlatComponent { combinator: Child, name: None, end: 3 }, \
        subselectors: [Attribute(\"class\", Contains(\"b\")), \
        Attribute(\"class\", Contains(\"c\")), Attribute(\"id\", Matches(\"d\"))], \
        stretch_ends: [] }",
    ),
    (
        "a > b c + d",
        "Selector { front: [FlatComponent { combinator: None, name: Some(\"a\"), end: 0 }, \
        FlatComponent { combinator: Child, name: Some(\"b\"), end: 0 }, \
        FlatComponent { combinator: Descendant, name: Some(\"c\"), end: 0 }], \
        last: FlatComponent { combinator: Adjacent, name: Some(\"d\"), end: 0 }, \
        subselectors: [], stretch_ends: [2] }",
    ),
];

#[test]
fn keeps_components_in_flat_lists(rt: HostRuntime) -> Result<(), Fail> {
    for &(text, lists) in LISTS {
        let shown = format!(in rt.alloc(); "{:?}", parsed(rt.alloc(), text)?)?;
        same(&rt, shown.as_str(), lists, text);
    }
    Ok(())
}
