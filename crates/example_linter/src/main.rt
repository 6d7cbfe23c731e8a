//! An example: reports what is skipped of some style sheets, `example_linter [--hints] FILE..`. A line
//! for each refused selector, broken declaration, at-rule, open comment and stray text, with the file,
//! the row and the column; and after them, with `--hints`, for what is kept and hardly meant.
#![tactic(auto)]

use simplecss::{Place, find_hints, find_skipped};
use std::process::ExitCode;
use std::{env, fs, io};

/// How the program is called.
const USAGE: &str = "usage: example_linter [--hints] FILE..";

/// Reports what is skipped of a file's text, and the hints if they are wanted. Returns whether
/// something is skipped.
fn lint(rt: &HostRuntime, file: &str, text: &str, wants_hints: bool) -> io::Result<bool> {
    let skipped = find_skipped(rt.alloc(), text)?;
    let mut place = Place::START;
    for part in &skipped {
        place = place.find(text, part.from);
        println!(rt; "{file}:{}: {part}", place.pos)?;
    }
    if wants_hints {
        place = Place::START;
        for hint in &find_hints(rt.alloc(), text)? {
            place = place.find(text, hint.from);
            println!(rt; "{file}:{}: {}", place.pos, hint.kind)?;
        }
    }
    Ok(!skipped.is_empty())
}

/// Reports on each file. Returns the status: 2 if a file cannot be read, else 1 if something is
/// skipped.
fn lint_all(rt: &HostRuntime, files: &[String], wants_hints: bool) -> io::Result<u8> {
    let mut status = 0;
    for file in files {
        match fs::read_to_string(rt, file.as_str()) {
            Ok(text) => {
                let skips = lint(rt, file.as_str(), text.as_str(), wants_hints)?;
                status = status.max(u8::from(skips));
            }
            Err(error) => {
                eprintln!(rt; "example_linter: cannot read {file}: {error}")?;
                status = 2;
            }
        }
    }
    Ok(status)
}

/// Does what the words say, and returns the status.
fn run(rt: &HostRuntime) -> io::Result<u8> {
    let words: Vec<String> = env::args(rt)?.skip(1).collect(rt.alloc())?;
    let (wants_hints, files) = match words.as_slice() {
        [first, files @ ..] if first.as_str() == "--hints" => (true, files),
        files => (false, files),
    };
    match files {
        [] => {
            eprintln!(rt; "{USAGE}")?;
            Ok(2)
        }
        [word] if word.as_str() == "--help" => {
            println!(rt; "{USAGE}")?;
            Ok(0)
        }
        files => lint_all(rt, files, wants_hints),
    }
}

/// The arguments are the names of style sheets. The status is 0 if nothing of them is skipped, 1 if
/// something is, and 2 if a file cannot be read or the lines cannot be written.
fn main(rt: HostRuntime) -> ExitCode {
    match run(&rt) {
        Ok(status) => ExitCode::from(status),
        Err(error) => {
            let _ = eprintln!(rt; "example_linter: {error}");
            ExitCode::from(2)
        }
    }
}
