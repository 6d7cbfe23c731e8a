//! What the loops and chains return.
use crate::same::same;
use example_library::statements::{declarations_end, position_at, statements};
use example_library::tokens::{
    declaration_count, error_count, important_count, important_count_by_chain, item_count,
};
use simplecss::TextPos;
use std::test::Fail;

const STYLE: &str = "color: red; background: url(\"img.png\") !important; a:b!importantly:x";

/// Styles, and the numbers of their declarations and of the important ones.
const COUNTED: &[(&str, usize, usize)] = &[
    (STYLE, 4, 2),
    ("color:red !important", 1, 1),
    ("color:red", 1, 0),
    ("color:; x:y", 0, 0),
    ("color:; x:y !important", 0, 0),
    ("/**/", 0, 0),
    ("", 0, 0),
];

#[test]
fn counts_declarations(rt: HostRuntime) {
    for &(text, count, important) in COUNTED {
        same(&rt, declaration_count(text), count, text);
        same(&rt, important_count(text), important, text);
        same(&rt, important_count_by_chain(text), important, text);
    }
}

/// Selectors, and the numbers of their tokens and errors, and of the errors.
const ITEMS: &[(&str, usize, usize)] = &[
    ("a > b", 3, 0),
    ("a <", 4, 2),
    ("a<", 2, 1),
    ("<", 2, 2),
    ("/* x", 2, 2),
    ("a / b", 2, 1),
    ("a/ b", 1, 0),
    ("a, b", 1, 0),
    ("", 1, 1),
];

#[test]
fn counts_items(rt: HostRuntime) {
    for &(text, count, errors) in ITEMS {
        same(&rt, item_count(text), count, text);
        same(&rt, error_count(text), errors, text);
    }
}

/// Style sheets, and of each statement the text and the number of rules.
const STATEMENTS: &[(&str, &[(&str, usize)])] = &[
    (
        "@x; a, b { c:d } /* e */ f {} /*",
        &[("@x;", 0), ("a, b { c:d }", 2), ("f {}", 1)],
    ),
    ("é{a:b}<", &[("é{a:b}", 1), ("<", 0)]),
    ("", &[]),
];

#[test]
fn finds_statements(rt: HostRuntime) -> Result<(), Fail> {
    for &(text, want) in STATEMENTS {
        same(&rt, statements(rt.alloc(), text)?.as_slice(), want, text);
    }
    Ok(())
}

/// Styles, and the offsets after their last declarations.
const ENDS: &[(&str, usize)] = &[("a:b; c:d", 8), ("a:b; c; d:e", 5), ("a", 0), ("", 0)];

#[test]
fn finds_where_declarations_end(rt: HostRuntime) {
    for &(text, want) in ENDS {
        same(&rt, declarations_end(text), want, text);
    }
}

/// Offsets in a text, and their positions.
const POSITIONS: &[(usize, Option<TextPos>)] = &[
    (0, Some(TextPos { row: 1, col: 1 })),
    (1, None),
    (2, Some(TextPos { row: 1, col: 2 })),
    (4, Some(TextPos { row: 2, col: 2 })),
    (5, None),
];

#[test]
fn finds_positions(rt: HostRuntime) {
    for &(offset, want) in POSITIONS {
        same(
            &rt,
            (offset, position_at("é\nb", offset)),
            (offset, want),
            "é",
        );
    }
}
