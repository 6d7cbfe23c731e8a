//! The lines of faults, and what is shown of a sheet within a limit.

use crate::printed::prints_alike;
use crate::same::same;
use cssq::runs::RunFault;
use cssq::show::{ShowError, View, show};
use cssq::tree::TreeFault;
use log::sink::Discard;
use simplecss::{Reading, Silent, StyleSheet};
use std::alloc::Global;
use std::test::Fail;

/// Faults, their statuses and their lines.
const REPORTED: &[(RunFault, u8, &str)] = &[
    (RunFault::Refused, 1, "cssq: selector refused"),
    (
        RunFault::Tree(TreeFault::BadDepth(1)),
        1,
        "cssq: tree fault 1 at line 1",
    ),
    (
        RunFault::Tree(TreeFault::RepeatedKey(1200)),
        1,
        "cssq: tree fault 4 at line 1200",
    ),
    (
        RunFault::Tree(TreeFault::RepeatedKey(usize::MAX)),
        1,
        "cssq: tree fault 4 at line 18446744073709551615",
    ),
    (RunFault::Memory, 3, "cssq: want of memory"),
    (RunFault::Output, 4, "cssq: cannot write"),
];

#[test]
fn reports_statuses_and_lines(rt: HostRuntime) -> Result<(), Fail> {
    for &(fault, status, line) in REPORTED {
        same(&rt, fault.status(), status, line);
        same(&rt, prints_alike(rt.alloc(), &fault, line)?, true, line);
    }
    Ok(())
}

const STYLED: &str = "a { c:red !important; c:blue } a { c:green }";

/// A view, a limit, the outcome, and what is written: the sheet has a rule of an earlier text, which
/// the limit does not count, and one without declarations.
const SHOWN: &[(View<'static>, usize, Result<(), ShowError>, &str)] = &[
    (View::Rules, 1, Err(ShowError::TooManyDeclarations), ""),
    (
        View::Rules,
        2,
        Ok(()),
        "b { c:d; }\na { e:f; }\nb { g:h; }\n",
    ),
    (View::Matches("0\tb\n"), 2, Ok(()), "1: 1 3\n"),
    (
        View::Matches("1\tb\n"),
        1,
        Err(ShowError::TooManyDeclarations),
        "",
    ),
    (
        View::Matches("1\tb\n"),
        2,
        Err(ShowError::Run(RunFault::Tree(TreeFault::BadDepth(1)))),
        "",
    ),
    (View::Winners("0\tb\n", "g"), usize::MAX, Ok(()), "1: h\n"),
];

/// Shows a view of a sheet, which has a rule without declarations, after two more texts.
fn show_more(
    alloc: Global,
    view: View<'_>,
    most: usize,
    out: &mut Vec<u8>,
) -> Result<(), ShowError> {
    let Ok(mut sheet) = StyleSheet::parse(&Discard, alloc, "b { c:d } #i { j:k }") else {
        return Err(ShowError::Run(RunFault::Memory));
    };
    if let Some(rule) = sheet.rules.last_mut() {
        rule.declarations.clear();
    }
    let how = Reading {
        report: &mut Silent,
        most,
    };
    show(
        view,
        &mut sheet,
        how,
        alloc,
        &["a { e:f }", "b { g:h }"],
        out,
    )
}

#[test]
fn shows_within_a_limit(rt: HostRuntime) {
    for &(view, most, outcome, written) in SHOWN {
        let mut out = Vec::new(rt.alloc());
        let got = show_more(rt.alloc(), view, most, &mut out);
        same(&rt, got, outcome, written);
        same(&rt, out.as_slice(), written.as_bytes(), written);
    }
}
