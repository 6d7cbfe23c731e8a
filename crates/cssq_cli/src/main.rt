//! Shows how selectors and style sheets read, which rules match the elements of a tree, and which
//! declarations win there.
#![tactic(auto)]

mod help;
mod inputs;
mod limit;
mod output;
mod pages;
mod trees;
mod visible;
mod warnings;

use cssq::command::{Command, USAGE};
use cssq::runs::{RunFault, run_selector};
use cssq::show::{ShowError, View, show};
use help::{help_for, write_text};
use inputs::{INPUT, read_file, read_input};
use limit::{read_limit, write_beyond};
use log::sink::Discard;
use output::Output;
use pages::{Unread, is_page, tree_of_page};
use simplecss::{Reading, StyleSheet};
use std::io::Write;
use std::process::ExitCode;
use std::{env, mem};
use trees::{fault_of_line, has_crlf};
use visible::visible_stderr;
use warnings::{SheetWarnings, warn_of_selector};

/// Returns the words of the command line, the program's name the first of them.
fn all_words(rt: &HostRuntime) -> Option<Vec<String>> {
    env::args(rt).ok()?.collect(rt.alloc()).ok()
}

/// Writes the usage line. An error of standard error is ignored, here and below.
fn unknown_words(rt: &HostRuntime) -> ExitCode {
    let _ = eprintln!(rt; "{USAGE}");
    ExitCode::from(2)
}

/// Writes the help or the version if the words ask for it, which no command does, or the usage line.
fn answer_other(rt: &HostRuntime, words: &[String]) -> ExitCode {
    let Some(text) = help_for(words) else {
        return unknown_words(rt);
    };
    let mut out = Output::new(rt.stdout());
    let outcome = write_text(text, &mut out);
    written(rt, outcome, &out)
}

/// Writes that a file, or standard input, cannot be read.
fn unreadable(rt: &HostRuntime, name: &str) -> ExitCode {
    let _ = eprintln!(rt; "cssq: cannot read {name}");
    ExitCode::from(4)
}

/// Returns the exit status of a run, and writes the line of its fault.
fn ended(rt: &HostRuntime, outcome: Result<(), RunFault>) -> ExitCode {
    match outcome {
        Ok(()) => ExitCode::SUCCESS,
        Err(fault) => {
            let _ = eprintln!(rt; "{fault}");
            ExitCode::from(fault.status())
        }
    }
}

/// Returns the exit status of a run with this output, and writes the line of its fault, but none
/// if nobody reads the output: the reader, such as `head`, has all that it needs.
fn written<W>(rt: &HostRuntime, outcome: Result<(), RunFault>, out: &Output<W>) -> ExitCode {
    match outcome {
        Err(RunFault::Output) if out.is_unread => ExitCode::from(RunFault::Output.status()),
        outcome => ended(rt, outcome),
    }
}

/// Shows the selector of the text, after warnings with this name.
fn show_selector(rt: &HostRuntime, name: &str, text: &str) -> ExitCode {
    warn_of_selector(rt, name, text);
    let mut out = Output::new(rt.stdout());
    let outcome = run_selector(&Discard, rt.alloc(), text, &mut out);
    written(rt, outcome, &out)
}

/// Returns the texts of the files, or the exit status after the first that cannot be read.
fn read_files(rt: &HostRuntime, names: &[String]) -> Result<Vec<String>, ExitCode> {
    let mut texts = Vec::new(rt.alloc());
    for name in names {
        let Some(text) = read_file(rt, name.as_str()) else {
            return Err(unreadable(rt, name.as_str()));
        };
        if texts.push(text).is_err() {
            return Err(ended(rt, Err(RunFault::Memory)));
        }
    }
    Ok(texts)
}

/// Shows a view of the sheet of texts with these names, one after another, and warns of what is
/// skipped.
/// Beyond the limit a line says so.
///
/// The sheet is not dropped: the process ends, and to free it piece by piece first takes longer.
fn show_texts<W: Write>(
    rt: &HostRuntime,
    view: View<'_>,
    names: &[&str],
    texts: &[&str],
    most: usize,
    out: &mut W,
) -> Result<(), RunFault> {
    let Ok(mut warnings) = SheetWarnings::new(rt, names) else {
        return Err(RunFault::Memory);
    };
    let mut sheet = StyleSheet::new(rt.alloc());
    let how = Reading {
        report: &mut warnings,
        most,
    };
    let outcome = show(view, &mut sheet, how, rt.alloc(), texts, out);
    mem::forget(sheet);
    let _ = warnings.finish();
    outcome.map_err(|error| {
        if error == ShowError::TooManyDeclarations {
            write_beyond(rt, most);
        }
        error.fault()
    })
}

/// Returns the same strings as text.
fn as_texts<'s>(rt: &HostRuntime, owned: &'s [String]) -> Result<Vec<&'s str>, ExitCode> {
    let mut texts = Vec::new(rt.alloc());
    for text in owned {
        if texts.push(text.as_str()).is_err() {
            return Err(ended(rt, Err(RunFault::Memory)));
        }
    }
    Ok(texts)
}

/// Shows the sheet of the files, one after another.
fn show_sheet(rt: &HostRuntime, names: &[String]) -> Result<ExitCode, ExitCode> {
    let most = read_limit(rt)?;
    let owned = read_files(rt, names)?;
    let texts = as_texts(rt, owned.as_slice())?;
    let names = as_texts(rt, names)?;
    let (names, texts) = (names.as_slice(), texts.as_slice());
    let mut out = Output::new(rt.stdout());
    let outcome = show_texts(rt, View::Rules, names, texts, most, &mut out);
    Ok(written(rt, outcome, &out))
}

/// Returns the text of the tree in a file, which may be a page, or the exit status if there is none.
fn read_tree(rt: &HostRuntime, name: &str) -> Result<String, ExitCode> {
    let Some(text) = read_file(rt, name) else {
        return Err(unreadable(rt, name));
    };
    if !is_page(name) {
        return Ok(text);
    }
    match tree_of_page(rt, name, text.as_str()) {
        Ok(tree) => Ok(tree),
        Err(Unread::Memory) => Err(ended(rt, Err(RunFault::Memory))),
        Err(Unread::Refused(reason)) => {
            let _ = writeln!(visible_stderr(rt), "{name}: {reason}");
            Err(unreadable(rt, name))
        }
    }
}

/// Writes what is likely not meant in the text of a tree, and why it has a fault.
fn warn_of_tree(rt: &HostRuntime, name: &str, text: &str, outcome: &Result<(), RunFault>) {
    if has_crlf(text) {
        let _ = writeln!(
            visible_stderr(rt),
            "{name}: lines end in CR LF; the CR belongs to the last field"
        );
    }
    if let Err(RunFault::Tree(fault)) = outcome {
        let found = fault_of_line(rt.alloc(), text, *fault);
        let _ = writeln!(visible_stderr(rt), "{name}:{}: {found}", fault.line());
    }
}

/// Shows the elements of the tree in a file by the rules of the sheet in another: the declaration of
/// the name that wins on each, or without a name which rules match it.
fn show_elements(
    rt: &HostRuntime,
    file: &str,
    tree: &str,
    name: Option<&str>,
) -> Result<ExitCode, ExitCode> {
    let most = read_limit(rt)?;
    let Some(sheet) = read_file(rt, file) else {
        return Err(unreadable(rt, file));
    };
    let page = read_tree(rt, tree)?;
    let page = page.as_str();
    let view = match name {
        Some(name) => View::Winners(page, name),
        None => View::Matches(page),
    };
    let mut out = Output::new(rt.stdout());
    let outcome = show_texts(rt, view, &[file], &[sheet.as_str()], most, &mut out);
    warn_of_tree(rt, tree, page, &outcome);
    Ok(written(rt, outcome, &out))
}

/// Returns the status of a command that reads a sheet.
fn status_of(shown: Result<ExitCode, ExitCode>) -> ExitCode {
    match shown {
        Ok(code) | Err(code) => code,
    }
}

/// Runs the command that the words after the program's name name.
fn main(rt: HostRuntime) -> ExitCode {
    let Some(words) = all_words(&rt) else {
        return unknown_words(&rt);
    };
    let arguments = words.as_slice().get(1..).unwrap_or(&[]);
    match Command::of(arguments) {
        Some(Command::Input) => match read_input(&rt) {
            Some(text) => show_selector(&rt, INPUT, text.as_str()),
            None => unreadable(&rt, INPUT),
        },
        Some(Command::Selector(text)) => show_selector(&rt, "selector", text),
        Some(Command::Sheet(names)) => status_of(show_sheet(&rt, names)),
        Some(Command::Match(file, tree)) => status_of(show_elements(&rt, file, tree, None)),
        Some(Command::Style(file, tree, name)) => {
            status_of(show_elements(&rt, file, tree, Some(name)))
        }
        None => answer_other(&rt, arguments),
    }
}
