//! The encoding of a page, and what says it.
ghost use Rattle.std.specs.Prelude.{◌≡◌, IfOk, take, string_bytes};
ghost use Rattle.html_encodings.specs.Page.{front_length, source_word, line_of as line_of_found};
ghost use Rattle.html_encodings.specs.Page.{encoding_of_mark as encoding_of_mark_of, said_in as said_in_of, found_of};

use crate::declaration::{declared_encoding, wide_declaration};
use crate::encoding::{Encoding, encoding_of_label};
use crate::prescan::prescan;
use std::alloc::{AllocError, Global};

/// What says in which encoding a page is.
#[derive(Clone, Copy)]
pub enum Source {
    /// A mark of the order of bytes at its start.
    Mark,
    /// The label that comes with it.
    Label,
    /// A `meta`.
    Meta,
    /// An XML declaration.
    Declaration,
    /// Nothing.
    Default,
}

impl Source {
    /// Returns the word for it.
    pub fn word(self) -> &'static str
        ensures { result.now ≡ source_word self }
    {
        match self {
            Source::Mark => "mark",
            Source::Label => "label",
            Source::Meta => "meta",
            Source::Declaration => "declaration",
            Source::Default => "default",
        }
    }
}

/// The encoding of a page, and what says it.
#[derive(Clone, Copy)]
pub struct Found {
    /// What says it.
    pub source: Source,
    /// The encoding.
    pub encoding: Encoding,
}

/// How many bytes of a page are looked at for what it says of itself.
const FRONT_LENGTH: usize = 1024;

/// Returns the encoding of the mark of the order of bytes at the start, if there is one.
fn encoding_of_mark(page: &[u8]) -> Option<Encoding>
    ensures { result ≡ encoding_of_mark_of page.now }
{
    if page.starts_with(b"\xEF\xBB\xBF") {
        Some(Encoding::Utf8)
    } else if page.starts_with(b"\xFE\xFF") {
        Some(Encoding::Utf16Be)
    } else if page.starts_with(b"\xFF\xFE") {
        Some(Encoding::Utf16Le)
    } else {
        None
    }
}

/// Returns what a page says of itself in its front.
fn said_in(front: &[u8]) -> Option<Found>
    ensures { result ≡ said_in_of front.now }
{
    let (source, encoding) = if let Some(encoding) = wide_declaration(front) {
        (Source::Declaration, encoding)
    } else if let Some(encoding) = prescan(front) {
        (Source::Meta, encoding)
    } else {
        (Source::Declaration, declared_encoding(front)?)
    };
    Some(Found { source, encoding })
}

/// Returns the first 1,024 bytes of a page.
fn front_of(page: &[u8]) -> &[u8]
    ensures { result.now ≡ take front_length page.now }
{
    &page[..FRONT_LENGTH.min(page.len())]
}

/// Returns the encoding of a page, and what says it: a mark of the order of bytes, the label that comes with the page,
/// as from a server, or what the page says of itself in its first 1,024 bytes. The default is windows-1252. A label of
/// no encoding, as an empty one, does not count.
#[tactic(auto, using(crate::proofs::Chosen::found_said, crate::proofs::Chosen::found_nowhere))]
pub fn encoding_of_page(label: &[u8], page: &[u8]) -> Found
    ensures { result ≡ found_of label.now page.now }
{
    if let Some(encoding) = encoding_of_mark(page) {
        return Found {
            source: Source::Mark,
            encoding,
        };
    }
    if let Some(encoding) = encoding_of_label(label) {
        return Found {
            source: Source::Label,
            encoding,
        };
    }
    match said_in(front_of(page)) {
        Some(found) => found,
        None => Found {
            source: Source::Default,
            encoding: Encoding::Windows1252,
        },
    }
}

/// Returns what says it, a tab and the encoding's name.
pub fn line_of(alloc: Global, found: Found) -> Result<String, AllocError>
    ensures { IfOk result (λ line. string_bytes line ≡ line_of_found found) }
{
    let mut line = String::new(alloc);
    line.push_str(found.source.word())?;
    line.push_str("\t")?;
    line.push_str(found.encoding.name())?;
    Ok(line)
}
