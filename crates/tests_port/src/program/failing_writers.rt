//! What each run returns and writes, with room for all of the output and without it: for each number
//! of bytes, in pieces of each size, with an error or by writing nothing.

use cssq::runs::{RunFault, run_match, run_selector, run_sheet, run_style};
use cssq::tree::TreeFault;
use log::sink::Discard;
use std::alloc::Global;
use std::io;
use std::io::{ErrorKind, Write};
use std::test::Fail;

/// A call of a run, without its writer.
#[derive(Clone, Copy, Debug)]
enum Run<'t> {
    Selector(&'t str),
    Sheet(&'t [&'t str]),
    Match(&'t str, &'t str),
    Style(&'t str, &'t str, &'t str),
}

impl<'t> Run<'t> {
    fn write_to<W: Write>(&self, alloc: Global, out: &mut W) -> Result<(), RunFault> {
        match *self {
            Run::Selector(text) => run_selector(&Discard, alloc, text, out),
            Run::Sheet(texts) => run_sheet(&Discard, alloc, texts, out),
            Run::Match(sheet, tree) => run_match(&Discard, alloc, sheet, tree, out),
            Run::Style(sheet, tree, name) => run_style(&Discard, alloc, sheet, tree, name, out),
        }
    }
}

/// What a writer does once it is full.
#[derive(Clone, Copy, Debug)]
enum Ending {
    /// Each write fails with this error.
    Fails(ErrorKind),
    /// Each write accepts no byte.
    TakesNone,
}

/// The most bytes that a writer accepts in a call, and what it does once it is full.
const WRITERS: [(usize, Ending); 12] = [
    (1, Ending::Fails(ErrorKind::StorageFull)),
    (3, Ending::Fails(ErrorKind::StorageFull)),
    (7, Ending::Fails(ErrorKind::StorageFull)),
    (usize::MAX, Ending::Fails(ErrorKind::StorageFull)),
    (1, Ending::Fails(ErrorKind::Interrupted)),
    (3, Ending::Fails(ErrorKind::Interrupted)),
    (7, Ending::Fails(ErrorKind::Interrupted)),
    (usize::MAX, Ending::Fails(ErrorKind::Interrupted)),
    (1, Ending::TakesNone),
    (3, Ending::TakesNone),
    (7, Ending::TakesNone),
    (usize::MAX, Ending::TakesNone),
];

/// A writer that accepts `room` bytes, at most `most` of them in a call. It counts the
/// writes of which it accepted nothing, and its flushes.
#[derive(Drop)]
struct Narrow {
    taken: Vec<u8>,
    room: usize,
    most: usize,
    ending: Ending,
    refusals: usize,
    flushes: usize,
}

impl Narrow {
    fn new(alloc: Global, room: usize, most: usize, ending: Ending) -> Narrow {
        Narrow {
            taken: Vec::new(alloc),
            room,
            most,
            ending,
            refusals: 0,
            flushes: 0,
        }
    }
}

impl Write for Narrow {
    fn write(&mut self, buf: &[u8]) -> io::Result<usize> {
        let count = buf.len().min(self.room).min(self.most);
        if count == 0 {
            self.refusals = self.refusals.saturating_add(1);
            return match self.ending {
                Ending::Fails(kind) => Err(io::Error::from(kind)),
                Ending::TakesNone => Ok(0),
            };
        }
        self.taken.extend_from_slice(&buf[..count])?;
        self.room -= count;
        Ok(count)
    }

    fn flush(&mut self) -> io::Result<()> {
        self.flushes = self.flushes.saturating_add(1);
        Ok(())
    }
}

const SHEET: &str = "a > b { c:d } b { e:f }";

const TREE: &str = "0\ta\n1\tb\n1\tc\n2\tb\n";

const STYLED: &str = "a { c:red !important; c:blue } a { c:green }";

/// Runs, their outcomes if there is room, and what they then write.
const RUNS: &[(Run<'static>, Result<(), RunFault>, &str)] = &[
    (
        Run::Selector("a > .b"),
        Ok(()),
        "a > *[class~='b']\t0,1,1\n",
    ),
    (
        Run::Sheet(&["#x { a:b }", "p { c:d }"]),
        Ok(()),
        "p { c:d; }\n*[id='x'] { a:b; }\n",
    ),
    (
        Run::Selector("a > .b\n"),
        Ok(()),
        "a > *[class~='b']\t0,1,1\n",
    ),
    (Run::Selector("a, b"), Ok(()), "a\t0,0,1\n"),
    (Run::Sheet(&[]), Ok(()), ""),
    (Run::Sheet(&[""]), Ok(()), ""),
    (Run::Sheet(&["a { b:c }"]), Ok(()), "a { b:c; }\n"),
    (
        Run::Sheet(&["p { font:12px/1.5 serif; color:red } q { color:blue }"]),
        Ok(()),
        "p { font:12px/1.5 serif;color:red; }\nq { color:blue; }\n",
    ),
    (Run::Match(SHEET, TREE), Ok(()), "1:\n2: 1 2\n3:\n4: 1\n"),
    (Run::Match(SHEET, ""), Ok(()), ""),
    (Run::Match("", "0\ta\n"), Ok(()), "1:\n"),
    (
        Run::Style(STYLED, "0\ta", "c"),
        Ok(()),
        "1: red !important\n",
    ),
    (
        Run::Style("a { c:\u{E9} }", "0\ta\n0\ta", "c"),
        Ok(()),
        "1: \u{E9}\n2: \u{E9}\n",
    ),
    (Run::Style(STYLED, "0\ta", "d"), Ok(()), "1:\n"),
    (
        Run::Style(
            "a { c:red } .x { c:blue } a { c:green }",
            "0\ta\tclass=x",
            "c",
        ),
        Ok(()),
        "1: blue\n",
    ),
    (
        Run::Style("a { c:red !important } .x { c:blue }", "0\ta\tclass=x", "c"),
        Ok(()),
        "1: red !important\n",
    ),
    (
        Run::Style("a { c:red !important; c:blue !important }", "0\ta", "c"),
        Ok(()),
        "1: blue !important\n",
    ),
    (
        Run::Style("a { c:red }", "0\ta\n1\tb\n", "c"),
        Ok(()),
        "1: red\n2:\n",
    ),
    (Run::Style("a { c:red }", "0\ta", ""), Ok(()), "1:\n"),
    (
        Run::Style("a{c:x;c:y}a{c:z}", "0\ta", "c"),
        Ok(()),
        "1: z\n",
    ),
    (Run::Style("a{c:x;c:y}", "0\ta", "c"), Ok(()), "1: y\n"),
    (Run::Style("a { c:red }", "0\ta", "C"), Ok(()), "1:\n"),
    (Run::Style("a { c:red }", "", "c"), Ok(()), ""),
    (Run::Style("", "0\ta", "c"), Ok(()), "1:\n"),
    // After another fault nothing is written. A full writer would refuse each write, also one of no
    // byte.
    (Run::Selector(""), Err(RunFault::Refused), ""),
    (Run::Selector("a <"), Err(RunFault::Refused), ""),
    (
        Run::Match(SHEET, "1\ta"),
        Err(RunFault::Tree(TreeFault::BadDepth(1))),
        "",
    ),
    (
        Run::Match(SHEET, "0\ta\n1\tb\tk"),
        Err(RunFault::Tree(TreeFault::NoEquals(2))),
        "",
    ),
    (
        Run::Style(STYLED, "1\ta", "c"),
        Err(RunFault::Tree(TreeFault::BadDepth(1))),
        "",
    ),
    (
        Run::Style(STYLED, "0\ta\tk", "c"),
        Err(RunFault::Tree(TreeFault::NoEquals(1))),
        "",
    ),
    (
        Run::Style(STYLED, "0\ta\n0\t\n", "c"),
        Err(RunFault::Tree(TreeFault::EmptyName(2))),
        "",
    ),
    (
        Run::Style(STYLED, "0\ta\tk=\tk=", "c"),
        Err(RunFault::Tree(TreeFault::RepeatedKey(1))),
        "",
    ),
];

/// Whether the run ends so, writes this and no more, is refused that often and flushes nothing, in
/// a writer with this room.
fn goes_as(
    alloc: Global,
    run: Run<'_>,
    (room, most, ending): (usize, usize, Ending),
    wanted: (Result<(), RunFault>, &[u8], usize),
) -> bool {
    let mut out = Narrow::new(alloc, room, most, ending);
    let outcome = run.write_to(alloc, &mut out);
    (outcome, out.taken.as_slice(), out.refusals) == wanted && out.flushes == 0
}

/// Returns the first writer, by its room, its most bytes in a call and its ending, in which the run
/// goes wrong. If there is enough room, the run has that outcome and output; else it stops at the
/// first write that is refused, and reports it.
fn astray(
    alloc: Global,
    run: Run<'_>,
    outcome: Result<(), RunFault>,
    output: &[u8],
) -> Option<(usize, usize, Ending)> {
    for (most, ending) in WRITERS {
        for room in 0..output.len().saturating_add(2) {
            let wanted = if room < output.len() {
                (Err(RunFault::Output), &output[..room], 1)
            } else {
                (outcome, output, 0)
            };
            if !goes_as(alloc, run, (room, most, ending), wanted) {
                return Some((room, most, ending));
            }
        }
    }
    None
}

#[test]
fn stops_where_the_writer_is_full(rt: HostRuntime) {
    for &(run, outcome, output) in RUNS {
        let found = astray(rt.alloc(), run, outcome, output.as_bytes());
        assert!(rt; found.is_none(), "{run:?} into {found:?}");
    }
}
