//! The positions that errors report, and what they are converted into.

use crate::same::same;
use simplecss::{Error, SheetError, TextPos};
use std::io;
use std::io::ErrorKind;
use std::test::Fail;

/// The position of the errors below.
const POS: TextPos = TextPos { row: 2, col: 4 };

/// Errors, and the positions in them.
const POSITIONED: &[(Error, Option<TextPos>)] = &[
    (Error::UnexpectedEndOfStream, None),
    (Error::InvalidIdent(POS), Some(POS)),
    (Error::InvalidComment(POS), Some(POS)),
    (Error::InvalidValue(POS), Some(POS)),
    (
        Error::InvalidByte {
            expected: b']',
            actual: b'b',
            pos: POS,
        },
        Some(POS),
    ),
    (Error::SelectorMissing, None),
    (Error::UnexpectedSelector, None),
    (Error::UnexpectedCombinator, None),
    (Error::InvalidAttributeSelector, None),
    (Error::InvalidLanguagePseudoClass, None),
];

#[test]
fn returns_the_position_of_an_error(rt: HostRuntime) {
    for &(error, reported) in POSITIONED {
        assert_eq!(rt; error.pos(), reported, "of {error}");
    }
}

/// Errors of sheets, and the kinds and texts of the `io::Error`s that they are converted into.
const CONVERTED: &[(SheetError, ErrorKind, &str)] = &[
    (
        SheetError::TooManyDeclarations,
        ErrorKind::InvalidData,
        "too many declarations",
    ),
    (SheetError::Memory, ErrorKind::OutOfMemory, "out of memory"),
];

#[test]
fn converts_errors_of_sheets(rt: HostRuntime) -> Result<(), Fail> {
    for &(error, kind, text) in CONVERTED {
        let converted = io::Error::from(error);
        same(&rt, converted.kind(), kind, text);
        let printed = format!(in rt.alloc(); "{converted}")?;
        same(&rt, printed.as_str(), text, "the text");
    }
    Ok(())
}
