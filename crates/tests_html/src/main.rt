//! Prints the tokens of the texts on standard input, for the tests in `tests/`. A text begins with the
//! letter of a mode, and the byte 255 is between two. Each part of a token is a line with a word and the
//! number of its bytes, and then these bytes and a newline.
#![tactic(auto)]

use css_html::attributes::next_attribute;
use css_html::decoding::{TextKind, decode};
use css_html::marks::text_between;
use css_html::modes::{Mode, RawName};
use css_html::tokenizer::{Token, TokenKind, read_next};
use std::alloc::Global;
use std::io;
use std::io::{BufWriter, Read, Write};

/// Returns the mode of a letter.
fn mode_of(letter: u8) -> Mode {
    match letter {
        b'f' => Mode::Foreign,
        b't' => Mode::Raw(RawName::Title),
        b'a' => Mode::Raw(RawName::Textarea),
        b's' => Mode::Raw(RawName::Style),
        b'x' => Mode::Raw(RawName::Xmp),
        b'c' => Mode::Script,
        b'p' => Mode::Plaintext,
        _ => Mode::Data,
    }
}

/// Returns what the text of this mode is.
fn kind_of(mode: Mode) -> TextKind {
    match mode {
        Mode::Data => TextKind::Text,
        Mode::Foreign | Mode::Raw(RawName::Title | RawName::Textarea) => TextKind::Escapable,
        Mode::Raw(_) | Mode::Script | Mode::Plaintext => TextKind::Raw,
    }
}

/// Writes a part of a token.
fn write_part<W: Write>(out: &mut W, word: &str, bytes: &[u8]) -> io::Result<()> {
    writeln!(out, "{word} {}", bytes.len())?;
    out.write_all(bytes)?;
    out.write_all(b"\n")
}

/// Writes a part of a token as what it stands for.
fn write_decoded<W: Write>(
    alloc: Global,
    out: &mut W,
    word: &str,
    kind: TextKind,
    bytes: &[u8],
) -> io::Result<()> {
    let mut text = Vec::new(alloc);
    decode(&mut text, kind, bytes)?;
    write_part(out, word, text.as_slice())
}

/// Writes the attributes of a tag, and a slash before its end.
fn write_attributes<W: Write>(alloc: Global, out: &mut W, token: &Token<'_>) -> io::Result<()> {
    let mut rest = token.inside_end;
    for _ in 0..token.from.len() {
        let Some(attribute) = next_attribute(rest) else {
            break;
        };
        write_part(
            out,
            "name",
            text_between(attribute.from, attribute.name_end),
        )?;
        let value = text_between(attribute.value, attribute.value_end);
        write_decoded(alloc, out, "value", TextKind::Value, value)?;
        rest = attribute.rest;
    }
    if text_between(rest, token.rest).ends_with(b"/>") {
        write_part(out, "slash", b"")?;
    }
    Ok(())
}

/// Writes a token that was read in this mode.
fn write_token<W: Write>(
    alloc: Global,
    out: &mut W,
    mode: Mode,
    token: &Token<'_>,
) -> io::Result<()> {
    let inside = text_between(token.inside, token.inside_end);
    match token.kind {
        TokenKind::Text => write_decoded(alloc, out, "text", kind_of(mode), inside),
        TokenKind::Comment => write_decoded(alloc, out, "comment", TextKind::Raw, inside),
        TokenKind::Cdata => write_decoded(alloc, out, "cdata", TextKind::Raw, inside),
        TokenKind::Doctype => write_part(out, "doctype", inside),
        TokenKind::Nothing | TokenKind::Cut => Ok(()),
        TokenKind::EndTag => write_part(out, "end", inside),
        TokenKind::StartTag => {
            write_part(out, "start", inside)?;
            write_attributes(alloc, out, token)
        }
    }
}

/// Writes the tokens of a text, of which those after an end tag are read as markup.
fn write_tokens<W: Write>(alloc: Global, out: &mut W, first: Mode, text: &[u8]) -> io::Result<()> {
    let mut mode = first;
    let mut rest = text;
    for _ in 0..text.len() {
        let Some(token) = read_next(mode, rest) else {
            break;
        };
        write_token(alloc, out, mode, &token)?;
        if token.kind == TokenKind::EndTag && mode != Mode::Foreign {
            mode = Mode::Data;
        }
        rest = token.rest;
    }
    write_part(out, "rest", rest)
}

/// Writes the tokens of the texts on standard input.
fn main(rt: HostRuntime) -> io::Result<()> {
    let alloc = rt.alloc();
    let mut input = Vec::new(alloc);
    rt.reader().read_to_end(&mut input)?;
    let mut out = BufWriter::new(alloc, rt.stdout())?;
    for text in input.split(|byte| *byte == 255) {
        if let [letter, text @ ..] = text {
            write_tokens(alloc, &mut out, mode_of(*letter), text)?;
        }
    }
    out.flush()
}
