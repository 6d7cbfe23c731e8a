//! Sheets that are read, printed, edited and copied.

use crate::same::same;
use log::sink::{Discard, Lines, Memory};
use simplecss::{Declaration, Reading, Rule, Selector, SheetError, Silent, StyleSheet, Warnings};
use std::alloc::{AllocError, Global};
use std::test::Fail;

fn read<'a>(rt: &HostRuntime, text: &'a str) -> Result<StyleSheet<'a>, AllocError> {
    StyleSheet::parse(&Discard, rt.alloc(), text)
}

/// Whether the sheet prints this text.
fn prints(rt: &HostRuntime, sheet: &StyleSheet, want: &str) -> Result<bool, AllocError> {
    let text = sheet.to_string(rt.alloc())?;
    Ok(text.as_str() == want)
}

/// Texts, and the printed text of the sheet that they are read into, one after another.
const READ: &[(&[&str], &str)] = &[
    (&[], ""),
    (&[""], ""),
    (
        &[".b{x:y}.a{x:y}a{x:y}#c{x:y}b{x:y}*{x:y}"],
        "* { x:y; }\na { x:y; }\nb { x:y; }\n*[class~='b'] { x:y; }\n*[class~='a'] { x:y; }\n*[id='c'] { x:y; }",
    ),
    (
        &["a { b:c !important; d:e f ; }"],
        "a { b:c !important;d:e f; }",
    ),
    (
        &["a > b + c:first-child d { e:f }"],
        "a > b + c:first-child d { e:f; }",
    ),
    // What a reader skips.
    (&[" /* x"], ""),
    (&["a { color:red } /* open"], "a { color:red; }"),
    (&["@x"], ""),
    (&["@x{{}}a{b:c}"], "a { b:c; }"),
    (&["a { b:c/d e / f; g:/ }"], "a { b:c/d e / f;g:/; }"),
    (
        &["#x { color:red } a { color:blue !important }"],
        "a { color:blue !important; }\n*[id='x'] { color:red; }",
    ),
    (&["x\u{ED}{a:b}"], "x\u{ED} { a:b; }"),
    (&["\u{E9} { a:b }"], "\u{E9} { a:b; }"),
    // A statement ends with the first piece of a text, or not.
    (&["a { }}", " b { c:d }"], "b { c:d; }"),
    (&["a { }", "} b { c:d }"], ""),
    (
        &["#x { a:b }", "p { c:d }"],
        "p { c:d; }\n*[id='x'] { a:b; }",
    ),
    (
        &["#x { a:b }", "p { c:d }", "/* open"],
        "p { c:d; }\n*[id='x'] { a:b; }",
    ),
    (
        &["#x { a:b }", "p { c:d }", "/* open", "#y { e:f } q { g:h }"],
        "p { c:d; }\nq { g:h; }\n*[id='x'] { a:b; }\n*[id='y'] { e:f; }",
    ),
    (
        &[
            "#x { a:b }",
            "p { c:d } q {}",
            "/* open",
            "",
            "#y { e:f } q { g:h }",
            ", p { i:j",
        ],
        "p { c:d; }\nq { g:h; }\np { i:j; }\n*[id='x'] { a:b; }\n*[id='y'] { e:f; }",
    ),
];

/// Returns the sheet of the texts, which are read at once, without a limit.
fn read_texts<'a>(rt: &HostRuntime, texts: &[&'a str]) -> Result<StyleSheet<'a>, SheetError> {
    let mut sheet = StyleSheet::new(rt.alloc());
    let how = Reading {
        report: &mut Silent,
        most: usize::MAX,
    };
    sheet.read(how, rt.alloc(), texts)?;
    Ok(sheet)
}

#[test]
fn reads_texts_in_order(rt: HostRuntime) -> Result<(), Fail> {
    for &(texts, want) in READ {
        let mut sheet = read(&rt, texts.first().copied().unwrap_or(""))?;
        for text in texts.iter().skip(1) {
            sheet.parse_more(&Discard, rt.alloc(), text)?;
        }
        same(&rt, prints(&rt, &sheet, want)?, true, want);
        let at_once = read_texts(&rt, texts)?;
        same(&rt, prints(&rt, &at_once, want)?, true, want);
    }
    Ok(())
}

const NOT_SUPPORTED: &str = "The @import rule is not supported. Skipped.";

const NO_COMBINATOR: &str = "Selector parsing failed cause unexpected combinator.";

const NO_CLASS: &str = "':le' is not supported. Selector skipped.";

/// Texts, and the ends of the warnings for them.
const SKIPPED: &[(&[&str], &[&str])] = &[
    (&["> {}"], &[NO_COMBINATOR]),
    (&["@import 'subs.css';"], &[NOT_SUPPORTED]),
    // An at-sign with no name has no warning.
    (&["@import 'subs.css'; @ a{}"], &[NOT_SUPPORTED]),
    (&[":le {}"], &[NO_CLASS]),
    (
        &["> {}", "a { b:c }", "@import 'subs.css';", ":le {}"],
        &[NO_COMBINATOR, NOT_SUPPORTED, NO_CLASS],
    ),
];

/// Returns the warnings for texts, which are read one after another or at once.
fn warned(alloc: Global, texts: &[&str], is_at_once: bool) -> Result<Lines, SheetError> {
    let sink = Memory::new(alloc);
    if is_at_once {
        let how = Reading {
            report: &mut Warnings::new(&sink),
            most: usize::MAX,
        };
        let mut sheet = StyleSheet::new(alloc);
        sheet.read(how, alloc, texts)?;
    } else {
        let first = texts.first().copied().unwrap_or("");
        let mut sheet = StyleSheet::parse(&sink, alloc, first)?;
        for text in texts.iter().skip(1) {
            sheet.parse_more(&sink, alloc, text)?;
        }
    }
    Ok(sink.into_lines())
}

#[test]
fn warns_of_what_is_skipped(rt: HostRuntime) -> Result<(), Fail> {
    for &(texts, messages) in SKIPPED {
        for is_at_once in [false, true] {
            let lines = warned(rt.alloc(), texts, is_at_once)?;
            same(&rt, lines.len(), messages.len(), "the lines");
            for (line, message) in lines.as_slice().iter().zip(messages) {
                let is_reported = line.as_str().ends_with(*message);
                same(&rt, is_reported, true, line.as_str());
            }
        }
    }
    Ok(())
}

/// Texts, and how many declarations their rules hold.
const COUNTED: &[(&str, usize)] = &[
    ("", 0),
    ("/* open", 0),
    ("a, b { }", 0),
    ("a { b:c }", 1),
    ("a { b:c; d:e }", 2),
    ("a, b, c { d:e; f:g }", 6),
    ("a, :b, c { d:e; f:g; h }", 4),
    ("a { b:c } @media x { y { z:z } } d, e { f:g; h:i } j {}", 5),
];

/// What the sheet prints after the text is read within the limit, or why it is not read.
fn read_within(rt: &HostRuntime, text: &str, most: usize) -> Result<String, SheetError> {
    let mut sheet = read(rt, "x { y:z }")?;
    let how = Reading {
        report: &mut Silent,
        most,
    };
    let outcome = sheet.read(how, rt.alloc(), &[text]);
    if outcome.is_err() && !prints(rt, &sheet, "x { y:z; }")? {
        return Ok(String::new(rt.alloc()));
    }
    outcome?;
    Ok(sheet.to_string(rt.alloc())?)
}

#[test]
fn reads_within_a_limit(rt: HostRuntime) -> Result<(), Fail> {
    for (text, count) in COUNTED {
        let mut sheet = read(&rt, "x { y:z }")?;
        sheet.parse_more(&Discard, rt.alloc(), text)?;
        let printed = read_within(&rt, text, *count)?;
        same(&rt, prints(&rt, &sheet, printed.as_str())?, true, text);
        let Some(less) = count.checked_sub(1) else {
            continue;
        };
        let refused = read_within(&rt, text, less).err();
        same(&rt, refused, Some(SheetError::TooManyDeclarations), text);
    }
    Ok(())
}

/// 20,000 selectors before 20,000 declarations are refused before any is copied.
#[test]
fn refuses_a_short_text_of_many_declarations(rt: HostRuntime) -> Result<(), Fail> {
    let selectors = "a,".repeat(rt.alloc(), 20_000)?;
    let declarations = "b:c;".repeat(rt.alloc(), 20_000)?;
    let text = format!(in rt.alloc(); "{selectors}a{{{declarations}}}")?;
    let refused = read_within(&rt, text.as_str(), 1_000_000).err();
    same(&rt, refused, Some(SheetError::TooManyDeclarations), "many");
    Ok(())
}

#[test]
fn reads_into_an_edited_sheet(rt: HostRuntime) -> Result<(), Fail> {
    let mut sheet = read(&rt, "a { x:y } #b { x:y }")?;
    sheet.rules.reverse();
    if let Some(last) = sheet.rules.last_mut() {
        last.declarations.clear();
    }
    sheet.parse_more(&Discard, rt.alloc(), "/* x")?;
    let want = "*[id='b'] { x:y; }\na {  }";
    same(&rt, prints(&rt, &sheet, want)?, true, want);
    sheet.parse_more(&Discard, rt.alloc(), "")?;
    let want = "*[id='b'] { x:y; }";
    same(&rt, prints(&rt, &sheet, want)?, true, want);
    Ok(())
}

/// Whether the sheets have equal rules.
fn equal_rules(a: &StyleSheet, b: &StyleSheet) -> bool {
    a.rules.len() == b.rules.len() && a.rules.iter().zip(b.rules.iter()).all(|(x, y)| *x == *y)
}

/// Rules, each of which differs from each other one.
const DIFFERENT: &[&str] = &[
    "a b { c:d }",
    "a > b { c:d }",
    "a b { c:d !important }",
    "a b { c:e }",
    "a b { f:d }",
    "a b { c:d; c:d }",
    "a b.g { c:d }",
];

#[test]
fn rules_differ_in_any_field(rt: HostRuntime) -> Result<(), Fail> {
    for (i, text) in DIFFERENT.iter().enumerate() {
        let sheet = read(&rt, text)?;
        for (j, other) in DIFFERENT.iter().enumerate() {
            let are_equal = equal_rules(&sheet, &read(&rt, other)?);
            same(&rt, are_equal, i == j, text);
        }
    }
    Ok(())
}

#[test]
fn sheets_are_made_of_rules(rt: HostRuntime) -> Result<(), Fail> {
    let mut sheet = read(&rt, "a { b:c } d { e:f; g:h }")?;
    sheet.rules.retain(|rule| rule.declarations.len() > 1);
    let selector = Selector::parse(&Discard, rt.alloc(), ".i")?.ok_or("refused")?;
    let important = Declaration {
        name: "j",
        value: "x",
        important: true,
    };
    let declarations = vec![in rt.alloc(); important]?;
    sheet.rules.push(Rule {
        selector,
        declarations,
    })?;
    let want = "d { e:f;g:h; }\n*[class~='i'] { j:x !important; }";
    same(&rt, prints(&rt, &sheet, want)?, true, want);
    Ok(())
}
