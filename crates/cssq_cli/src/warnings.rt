//! Warnings on standard error: a line each, with the name of the text, the row and the column.
use crate::visible::{Visible, visible_stderr};
use simplecss::{
    HintKind, Kept, Place, Refusal, Report, Selector, Skipped, Why, refused_pos, rest_of_open_value,
};
use std::alloc::AllocError;
use std::fmt::Display;
use std::io;
use std::io::{BufWriter, Stderr, Write};

/// A reporter that writes a line for each part of the files' texts that is skipped, for a byte order
/// mark at the start of one, and for each value that leaves a parenthesis open.
///
/// After an error of the writer nothing more is written.
#[derive(Debug, Drop)]
pub(crate) struct SheetWarnings<'n, 'a, W: Write> {
    /// Where the lines are written.
    out: W,
    /// The names of the texts, in order.
    names: &'n [&'n str],
    /// How many texts were begun.
    begun: usize,
    /// The text that is read.
    text: &'a str,
    /// The last place of it that a line names.
    place: Place,
    /// The first error of the writer.
    outcome: io::Result<()>,
}

impl<'n, 'a> SheetWarnings<'n, 'a, Visible<BufWriter<Stderr>>> {
    /// Returns a reporter to standard error, for texts with these names.
    pub(crate) fn new(rt: &HostRuntime, names: &'n [&'n str]) -> io::Result<Self> {
        let out = BufWriter::new(rt.alloc(), rt.stderr())?;
        Ok(SheetWarnings {
            out: Visible::new(out),
            names,
            begun: 0,
            text: "",
            place: Place::START,
            outcome: Ok(()),
        })
    }
}

impl<'n, 'a, W: Write + Drop> SheetWarnings<'n, 'a, W> {
    /// Writes what is in the writer's buffers. Fails if this does, or if a line could not be
    /// written.
    pub(crate) fn finish(self) -> io::Result<()> {
        let SheetWarnings {
            mut out,
            outcome,
            ..
        } = self;
        outcome?;
        out.flush()
    }
}

impl<'n, 'a, W: Write> SheetWarnings<'n, 'a, W> {
    /// Writes a line: the name of the text that is read, the row and the column where this rest of
    /// it begins, and the words, as `page.css:3:1: 'a < b': invalid ident`.
    fn write_line<D: Display>(&mut self, rest: &'a str, words: &D) {
        self.place = self.place.find(self.text, rest);
        let name = match self.names.get(self.begun.saturating_sub(1)) {
            Some(name) => *name,
            None => "",
        };
        let pos = self.place.pos;
        if self.outcome.is_ok() {
            self.outcome = writeln!(self.out, "{name}:{pos}: {words}");
        }
    }
}

impl<'n, 'a, W: Write> Report<'a> for SheetWarnings<'n, 'a, W> {
    ghost State = { Unit {0} };

    ghost state = { λ _. tt };

    ghost add = { λ _ _. tt };

    ghost begun = { λ _ _. tt };

    fn begin(&mut self, text: &'a str) {
        self.text = text;
        self.place = Place::START;
        self.begun = self.begun.saturating_add(1);
        if text.starts_with('\u{feff}') {
            self.write_line(text, &HintKind::ByteOrderMark);
        }
    }

    #[inline(always)]
    fn declared(&mut self, from: &'a str, value: &'a str) {
        if let Some(stated) = rest_of_open_value(from, value) {
            self.write_line(stated, &HintKind::OpenParenthesis(value));
        }
    }

    fn report(&mut self, skipped: Skipped<'a>) -> Result<(), AllocError> {
        self.write_line(skipped.from, &skipped);
        Ok(())
    }
}

/// Writes why the selector at the start of a text is refused, of which this much was read: at the
/// position in the error, where the pseudo-class begins, or else where the selector does.
fn write_refusal(rt: &HostRuntime, name: &str, text: &str, read: &str, skipped: &Skipped<'_>) {
    let why = skipped.why;
    let pos = match why {
        Why::Selector(Refusal::Faulty { error, .. }) if error.pos().is_none() => {
            Place::START.find(text, skipped.from).pos
        }
        _ => refused_pos("", read, why),
    };
    let quote = skipped.quote();
    let _ = writeln!(visible_stderr(rt), "{name}:{pos}: '{quote}': {why}");
}

/// Writes the warnings of a selector: why it is refused, or what follows it and is not read.
pub(crate) fn warn_of_selector(rt: &HostRuntime, name: &str, text: &str) {
    if text.starts_with('\u{feff}') {
        let _ = writeln!(
            visible_stderr(rt),
            "{name}:1:1: {}",
            HintKind::ByteOrderMark
        );
    }
    let mut kept = Kept {
        skips: Vec::new(rt.alloc()),
    };
    let Ok((selector, len)) = Selector::parse_front(&mut kept, rt.alloc(), text) else {
        return;
    };
    for skipped in &kept.skips {
        write_refusal(rt, name, text, text.get(..len).unwrap_or(""), skipped);
    }
    let rest = text.get(len..).unwrap_or("");
    if selector.is_some() && !rest.is_empty() {
        let unread = Skipped {
            from: rest,
            after: "",
            why: Why::AfterSelector,
        };
        let _ = writeln!(
            visible_stderr(rt),
            "{name}: '{}' was not read",
            unread.quote()
        );
    }
}
