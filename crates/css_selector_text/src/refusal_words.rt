//! Refusals in words.
ghost use Rattle.std.specs.Prelude.{◌≡◌, ◌≤◌, length};
ghost use Rattle.std.specs.List.{prefix_len};
ghost use Rattle.std.specs.Str.{IsCharBoundary};
ghost use Rattle.css_text.specs.Errors.{position_of};
ghost use Rattle.css_text.specs.Reading.{rest_offset};
ghost use Rattle.css_selector_text.specs.RefusalWords.{is_word_byte as is_word_byte_of, is_quoted as is_quoted_of, word_or_signs as word_or_signs_of};
ghost use Rattle.css_selector_text.specs.RefusalWords.{quoted_by as quoted_by_of, quote, why_words};
ghost use Rattle.css_selector_text.specs.Runs.{run};

use crate::refusal::{Quoted, Refusal, Why};
use css_syntax::tokens::{is_name_byte, is_newline};
use css_text::TextPos;
use css_text::stream::Stream;
use std::fmt;

/// Whether the byte is one of a name with its escapes, or of a pseudo-class.
fn is_word_byte(byte: u8) -> bool
    ensures { result ≡ is_word_byte_of byte }
{
    is_name_byte(byte) || byte == b':' || byte == b'\\'
}

/// Whether the byte is one of what is quoted.
fn is_quoted(quoted: Quoted, byte: u8) -> bool
    ensures { result ≡ is_quoted_of quoted byte }
{
    match quoted {
        Quoted::Line => !is_newline(byte),
        Quoted::Word => is_word_byte(byte),
        Quoted::Signs => byte > 32 && (byte > 127 || !is_word_byte(byte)),
    }
}

/// Returns what is quoted of a text that begins with no string.
fn word_or_signs(text: &str) -> Quoted
    ensures { result ≡ word_or_signs_of text.now }
{
    match text.as_bytes() {
        [byte, ..] if is_word_byte(*byte) => Quoted::Word,
        _ => Quoted::Signs,
    }
}

/// Returns what is quoted of a text that is refused for this reason.
fn quoted_by(why: Why, text: &str) -> Quoted
    ensures { result ≡ quoted_by_of why text.now }
{
    match why {
        Why::BrokenString | Why::Unsupported => Quoted::Line,
        _ => word_or_signs(text),
    }
}

/// Returns the number of bytes at the start that are quoted.
fn quoted_len(quoted: Quoted, bytes: &[u8]) -> usize
    ensures count { result ≡ prefix_len (is_quoted_of quoted) bytes.now }
    ensures within { result ≤ length bytes.now }
{
    bytes
        .iter()
        .take_while(|byte| is_quoted(quoted, **byte))
        .count()
}

/// Returns the longest run of bytes at the start that are quoted.
fn quoted_front(quoted: Quoted, text: &str) -> &str
    ensures { result.now ≡ run (is_quoted_of quoted) text.now }
{
    let len = quoted_len(quoted, text.as_bytes());
    &text[..len]
}

impl Why {
    /// Returns the reason in a few words, which follow what is quoted.
    pub fn words(&self) -> &'static str
        ensures { result.now ≡ why_words self.now }
    {
        match *self {
            Why::Memory => "out of memory",
            Why::NoSelector => "begins no selector",
            Why::NoName => "is no name",
            Why::BrokenString => "is not closed on its line",
            Why::NoOperator => "is no attribute operator",
            Why::NoValue => "is no value",
            Why::UnknownFlag => "is no flag",
            Why::NoProgression => "is no An+B",
            Why::UnknownName => "is unknown",
            Why::UnknownFunction => "is no function",
            Why::UnknownPrefix => "is no declared prefix",
            Why::Unsupported => "is unsupported",
            Why::TooDeep => "is nested too deep",
            Why::Unexpected => "is not expected here",
        }
    }
}

impl<'a> Refusal<'a> {
    /// Returns what a message quotes of the rest: of a broken string the line, and else the name or
    /// the signs at the start. It is empty before a blank and at the end of the text.
    pub fn quote(&self) -> &'a str
        ensures { result.now ≡ quote self.now.why self.now.rest.now }
    {
        quoted_front(quoted_by(self.why, self.rest), self.rest)
    }

    /// Returns the row and the column in the text that was read, at whose end the rest is.
    pub fn position_in(&self, text: &str) -> TextPos
        ensures { IsCharBoundary text.now (rest_offset text.now self.now.rest.now)
            → result ≡ position_of text.now self.now.rest.now }
    {
        let offset = text.len().saturating_sub(self.rest.len());
        let stream = Stream::new(text);
        if text.is_char_boundary(offset) {
            stream.gen_text_pos_from(offset)
        } else {
            stream.gen_text_pos()
        }
    }
}

/// Prints what is quoted and the reason, as in `` `(` is not expected here``.
impl fmt::Display for Refusal<'_> {
    fn fmt<W: fmt::Write>(&self, f: &mut fmt::Formatter<W>) -> fmt::Result {
        let words = self.why.words();
        if self.why == Why::Memory {
            return f.write_str(words);
        }
        let quote = self.quote();
        if quote.is_empty() {
            return write!(f, "a blank or the end of the text {words}");
        }
        write!(f, "`{quote}` {words}")
    }
}
