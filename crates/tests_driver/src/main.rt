//! Prints what the crates answer, for the tests in `tests/`: `tests_driver WORD ..`. Texts are on
//! standard input.
//!
//! With `tokens` the texts have the byte 1 between them. With `match`, `index` and `walk` they are a tree
//! and lists of selectors, with a NUL byte between two. With `nested` and the words of `css::Part` they have
//! a NUL byte between them.
#![tactic(auto)]

mod css;
mod lists;
mod tokens;
mod tree;

use css::Part;
use lists::Search;
use std::alloc::Global;
use std::io::{BufWriter, ErrorKind, Read, Write};
use std::{env, io};

/// Writes the answers on a tree and lists of selectors.
fn write_on_tree<W: Write>(
    alloc: Global,
    out: &mut W,
    input: &[u8],
    search: Search,
) -> io::Result<()> {
    let Ok(input) = str::from_utf8(input) else {
        return Err(io::Error::from(ErrorKind::InvalidData));
    };
    let (lines, lists) = input.split_once('\0').unwrap_or((input, ""));
    lists::write_on_tree(alloc, out, search, lines, lists)
}

/// Writes the answers that the words ask for.
fn write_answers<W: Write>(
    alloc: Global,
    out: &mut W,
    words: &[&str],
    input: &[u8],
) -> io::Result<()> {
    match words {
        ["match"] => return write_on_tree(alloc, out, input, Search::Each),
        ["index"] => return write_on_tree(alloc, out, input, Search::Index),
        ["walk"] => return write_on_tree(alloc, out, input, Search::Walk),
        ["tokens"] => {
            for text in input.split(|byte| *byte == 1) {
                if let Ok(text) = str::from_utf8(text) {
                    tokens::write_tokens(out, text)?;
                }
            }
            return Ok(());
        }
        ["nested"] => {
            for text in input.split(|byte| *byte == 0) {
                if let Ok(text) = str::from_utf8(text) {
                    lists::write_nested(alloc, out, text)?;
                }
            }
            return Ok(());
        }
        _ => {}
    }
    let Some(part) = Part::of(words) else {
        return Err(io::Error::from(ErrorKind::InvalidInput));
    };
    for text in input.split(|byte| *byte == 0) {
        if let Ok(text) = str::from_utf8(text) {
            part.write(alloc, out, text)?;
        }
    }
    Ok(())
}

/// The arguments say what is printed of the texts.
fn main(rt: HostRuntime) -> io::Result<()> {
    let alloc = rt.alloc();
    let owned: Vec<String> = env::args(&rt)?.skip(1).collect(alloc)?;
    let words: Vec<&str> = owned.iter().map(|word| word.as_str()).collect(alloc)?;
    let mut input = Vec::new(alloc);
    rt.reader().read_to_end(&mut input)?;
    let mut out = BufWriter::new(alloc, rt.stdout())?;
    write_answers(alloc, &mut out, words.as_slice(), input.as_slice())?;
    out.flush()
}
