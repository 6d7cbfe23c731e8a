//! Lines on standard error in which no text that they quote controls a terminal.
use std::io;
use std::io::{Stderr, Write};

/// What is written in place of a control character.
const REPLACEMENT: &str = "\u{fffd}";

/// The first byte of the characters from U+0080 to U+00BF, of which some are control characters.
const LEAD: u8 = 0xc2;

/// A writer of lines of text that writes U+FFFD in place of each control character, except newlines
/// and TABs.
#[derive(Debug, Drop)]
pub(crate) struct Visible<W> {
    /// Where the lines go.
    out: W,
    /// Whether the last byte is `LEAD`, which is not written yet.
    is_held: bool,
}

impl<W> Visible<W> {
    /// Returns a writer to which nothing was written.
    pub(crate) fn new(out: W) -> Self {
        Visible {
            out,
            is_held: false,
        }
    }
}

/// Returns a writer of lines to standard error.
pub(crate) fn visible_stderr(rt: &HostRuntime) -> Visible<Stderr> {
    Visible::new(rt.stderr())
}

/// Whether a byte is no control character, nor the first byte of one.
fn is_plain(byte: u8) -> bool {
    match byte {
        b'\t' | b'\n' => true,
        LEAD | 0x7f => false,
        byte => byte >= b' ',
    }
}

impl<W: Write> Visible<W> {
    /// Writes a byte, or what takes its place.
    fn write_byte(&mut self, byte: u8) -> io::Result<()> {
        if self.is_held {
            self.is_held = false;
            if byte >= 0x80 && byte < 0xa0 {
                return self.out.write_all(REPLACEMENT.as_bytes());
            }
            self.out.write_all(&[LEAD])?;
        }
        if byte == LEAD {
            self.is_held = true;
            return Ok(());
        }
        if is_plain(byte) {
            return self.out.write_all(&[byte]);
        }
        self.out.write_all(REPLACEMENT.as_bytes())
    }
}

impl<W: Write> Write for Visible<W> {
    fn write(&mut self, buf: &[u8]) -> io::Result<usize> {
        if !self.is_held && buf.iter().all(|byte| is_plain(*byte)) {
            return self.out.write(buf);
        }
        for byte in buf {
            self.write_byte(*byte)?;
        }
        Ok(buf.len())
    }

    fn flush(&mut self) -> io::Result<()> {
        self.out.flush()
    }
}
