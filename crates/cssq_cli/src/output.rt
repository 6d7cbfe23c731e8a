//! Standard output, as a run writes to it.
use std::io;
use std::io::{ErrorKind, Write};

/// Standard output, and whether a write found that it is a pipe which nobody reads.
#[derive(Drop)]
pub(crate) struct Output<W> {
    /// Where the bytes go.
    out: W,
    /// Whether nobody reads them.
    pub(crate) is_unread: bool,
}

impl<W: Write> Output<W> {
    /// Creates an output to which nothing was written.
    pub(crate) fn new(out: W) -> Self {
        Output {
            out,
            is_unread: false,
        }
    }
}

impl<W: Write> Write for Output<W> {
    fn write(&mut self, buf: &[u8]) -> io::Result<usize> {
        let outcome = self.out.write(buf);
        if let Err(error) = &outcome {
            self.is_unread = error.kind() == ErrorKind::BrokenPipe;
        }
        outcome
    }

    fn flush(&mut self) -> io::Result<()> {
        self.out.flush()
    }
}
