//! A formatter's options: each value of the library prints alike under all of them.

use crate::printed::prints_alike;
use crate::same::same;
use log::sink::Discard;
use simplecss::{Declaration, Error, PseudoClass, StyleSheet, TextPos, find_hints, find_skipped};
use std::alloc::{AllocError, Global};
use std::test::Fail;

/// A value that needs no memory.
enum Value {
    Position(TextPos),
    Error(Error),
    Class(PseudoClass<'static>),
    Declaration(Declaration<'static>),
}

/// Whether the value prints this text under all options.
fn is_printed(alloc: Global, value: &Value, text: &str) -> Result<bool, AllocError> {
    match value {
        Value::Position(position) => prints_alike(alloc, position, text),
        Value::Error(error) => prints_alike(alloc, error, text),
        Value::Class(class) => prints_alike(alloc, class, text),
        Value::Declaration(declaration) => prints_alike(alloc, declaration, text),
    }
}

/// The position of the errors below.
const POS: TextPos = TextPos { row: 2, col: 4 };

/// The last position.
const LAST: TextPos = TextPos {
    row: u32::MAX,
    col: u32::MAX,
};

/// Values, and their printed text.
const PRINTED: &[(Value, &str)] = &[
    (Value::Position(TextPos { row: 1, col: 1 }), "1:1"),
    (Value::Position(TextPos { row: 2, col: 10 }), "2:10"),
    (Value::Position(TextPos { row: 305, col: 47 }), "305:47"),
    (Value::Position(LAST), "4294967295:4294967295"),
    (
        Value::Error(Error::UnexpectedEndOfStream),
        "unexpected end of stream",
    ),
    (
        Value::Error(Error::InvalidIdent(POS)),
        "invalid ident at 2:4",
    ),
    (
        Value::Error(Error::InvalidComment(POS)),
        "invalid comment at 2:4",
    ),
    (
        Value::Error(Error::InvalidValue(POS)),
        "invalid value at 2:4",
    ),
    (
        Value::Error(Error::InvalidByte {
            expected: b']',
            actual: 0xC3,
            pos: POS,
        }),
        "expected ']' not '\u{C3}' at 2:4",
    ),
    // The longest of all.
    (
        Value::Error(Error::InvalidByte {
            expected: 0xC3,
            actual: 0xFF,
            pos: LAST,
        }),
        "expected '\u{C3}' not '\u{FF}' at 4294967295:4294967295",
    ),
    (Value::Error(Error::SelectorMissing), "selector missing"),
    (
        Value::Error(Error::UnexpectedSelector),
        "unexpected selector",
    ),
    (
        Value::Error(Error::UnexpectedCombinator),
        "unexpected combinator",
    ),
    (
        Value::Error(Error::InvalidAttributeSelector),
        "invalid or unsupported attribute selector",
    ),
    (
        Value::Error(Error::InvalidLanguagePseudoClass),
        "invalid language pseudo-class",
    ),
    (Value::Class(PseudoClass::FirstChild), "first-child"),
    (Value::Class(PseudoClass::Link), "link"),
    (Value::Class(PseudoClass::Visited), "visited"),
    (Value::Class(PseudoClass::Hover), "hover"),
    (Value::Class(PseudoClass::Active), "active"),
    (Value::Class(PseudoClass::Focus), "focus"),
    (Value::Class(PseudoClass::Lang("en")), "lang(en)"),
    (
        Value::Declaration(Declaration {
            name: "a",
            value: "x",
            important: false,
        }),
        "a:x;",
    ),
    (
        Value::Declaration(Declaration {
            name: "a",
            value: "x",
            important: true,
        }),
        "a:x !important;",
    ),
];

#[test]
fn options_leave_a_value_alone(rt: HostRuntime) -> Result<(), AllocError> {
    for (value, text) in PRINTED {
        same(&rt, is_printed(rt.alloc(), value, text)?, true, text);
    }
    Ok(())
}

#[test]
fn rules_print_as_in_a_sheet(rt: HostRuntime) -> Result<(), Fail> {
    let sheet = StyleSheet::parse(&Discard, rt.alloc(), "#x > .y { a:b; c:d ! important }")?;
    let text = "*[id='x'] > *[class~='y'] { a:b;c:d !important; }";
    same(&rt, prints_alike(rt.alloc(), &sheet, text)?, true, text);
    let rule = sheet.rules.first().ok_or("no rule")?;
    same(&rt, prints_alike(rt.alloc(), rule, text)?, true, text);
    let text = "*[id='x'] > *[class~='y']";
    let selector = &rule.selector;
    same(&rt, prints_alike(rt.alloc(), selector, text)?, true, text);
    Ok(())
}

#[test]
fn options_leave_a_report_alone(rt: HostRuntime) -> Result<(), Fail> {
    for part in &find_skipped(rt.alloc(), "a < b { c:d }")? {
        let text = "'a < b': invalid ident";
        same(&rt, prints_alike(rt.alloc(), part, text)?, true, text);
        let text = "invalid ident";
        same(&rt, prints_alike(rt.alloc(), &part.why, text)?, true, text);
    }
    for hint in &find_hints(rt.alloc(), "a { width:10px\\9; b:c }")? {
        let text = "'10px': the value is cut here";
        same(&rt, prints_alike(rt.alloc(), &hint.kind, text)?, true, text);
    }
    Ok(())
}
