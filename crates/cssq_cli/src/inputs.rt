//! Texts of files and of standard input, with the reason on standard error where there is none.
use crate::visible::visible_stderr;
use std::fs::File;
use std::io;
use std::io::{Error, ErrorKind, Read, Write};

/// What a warning calls standard input.
pub(crate) const INPUT: &str = "standard input";

/// Returns the length that the system reports of a file, or 0 if it reports none.
fn file_len(file: &File) -> usize {
    match file.metadata() {
        Ok(metadata) => usize::try_from(metadata.len()).unwrap_or(0),
        Err(_) => 0,
    }
}

/// Returns the bytes of a file. One allocation has room for them and for the read that finds the
/// end.
fn bytes_of(rt: &HostRuntime, name: &str) -> io::Result<Vec<u8>> {
    let mut file = File::open(rt, name)?;
    let room = file_len(&file).saturating_add(1);
    let mut bytes = Vec::with_capacity(rt.alloc(), room)?;
    file.read_to_end(&mut bytes)?;
    Ok(bytes)
}

/// Returns the text of a file, or writes the reason why there is none.
pub(crate) fn read_file(rt: &HostRuntime, name: &str) -> Option<String> {
    text_of(rt, name, bytes_of(rt, name))
}

/// Returns the text of standard input, or writes the reason why there is none.
pub(crate) fn read_input(rt: &HostRuntime) -> Option<String> {
    let mut bytes = Vec::new(rt.alloc());
    let outcome = rt.reader().read_to_end(&mut bytes);
    text_of(rt, INPUT, outcome.map(|_| bytes))
}

/// Returns the bytes as a text, or writes the reason why they are none.
fn text_of(rt: &HostRuntime, name: &str, read: io::Result<Vec<u8>>) -> Option<String> {
    let bytes = match read {
        Ok(bytes) => bytes,
        Err(error) => {
            write_reason(rt, name, &error);
            return None;
        }
    };
    match String::from_utf8(bytes) {
        Ok(text) => Some(text),
        Err(error) => {
            let offset = error.utf8_error().valid_up_to();
            let _ = writeln!(
                visible_stderr(rt),
                "{name}: not UTF-8 at byte offset {offset}"
            );
            None
        }
    }
}

/// Writes why a file, or standard input, cannot be read. An error of standard error is ignored.
fn write_reason(rt: &HostRuntime, name: &str, error: &Error) {
    let mut out = visible_stderr(rt);
    let _ = match error.kind() {
        ErrorKind::NotFound => writeln!(out, "{name}: no such file"),
        ErrorKind::IsADirectory => writeln!(out, "{name}: a folder"),
        ErrorKind::Uncategorized => writeln!(out, "{name}: {error}"),
        kind => writeln!(out, "{name}: {kind}"),
    };
}
