//! Parts of texts, and what is open in them.

use css_syntax::declarations::read_part;
use css_syntax::tokenizer::read_next;
use css_syntax::{Item, Token, TokenKind};

/// A part of a sheet, with the offset of the sheet at which it ends.
#[derive(Clone, Copy)]
pub struct Piece<'t> {
    /// Its text.
    pub text: &'t str,
    /// The offset after its last byte.
    pub end: usize,
}

impl<'t> Piece<'t> {
    /// Returns the part of a text from one offset to another one.
    pub fn between(text: &'t str, start: usize, end: usize) -> Piece<'t> {
        Piece {
            text: first_bytes(after_bytes(text, start), end.saturating_sub(start)),
            end,
        }
    }

    /// Returns the offset of its first byte.
    pub fn start(&self) -> usize {
        self.offset(self.text.len())
    }

    /// Returns the offset at which this many bytes of it are left.
    pub fn offset(&self, left: usize) -> usize {
        self.end.saturating_sub(left)
    }
}

/// Returns this many bytes of a text, or none if a character does not end there.
pub fn first_bytes(text: &str, count: usize) -> &str {
    if text.is_char_boundary(count) {
        &text[..count]
    } else {
        ""
    }
}

/// Returns what follows this many bytes of a text, or nothing if a character does not end there.
pub fn after_bytes(text: &str, count: usize) -> &str {
    if text.is_char_boundary(count) {
        &text[count..]
    } else {
        ""
    }
}

/// Returns the text without space bytes at its end.
pub fn without_spaces_after(text: &str) -> &str {
    let mut count = 0usize;
    for (at, byte) in text.as_bytes().iter().enumerate() {
        if !is_space(*byte) {
            count = at.saturating_add(1);
        }
    }
    first_bytes(text, count)
}

/// Whether the byte is white space.
pub fn is_space(byte: u8) -> bool {
    matches!(byte, b' ' | b'\t' | b'\n' | b'\r' | 12)
}

/// Returns how many bytes a token has.
pub fn size_of(token: &Token<'_>) -> usize {
    token.from.len().saturating_sub(token.rest.len())
}

/// Returns how many bytes are in a token.
pub fn inner_size_of(token: &Token<'_>) -> usize {
    token.inside.len().saturating_sub(token.inside_end.len())
}

/// Whether the token is white space or a comment.
pub fn is_gap(token: &Token<'_>) -> bool {
    matches!(token.kind, TokenKind::Whitespace | TokenKind::Comment)
}

/// Whether the token is one byte, and this one.
pub fn is_sign(token: &Token<'_>, byte: u8) -> bool {
    matches!(token.kind, TokenKind::Delim) && token.from.first().copied() == Some(byte)
}

/// Returns the next token that is no white space and no comment.
pub fn next_token(text: &[u8]) -> Option<Token<'_>> {
    let mut rest = text;
    for _ in 0..rest.len() {
        let Some(token) = read_next(rest) else {
            break;
        };
        if !is_gap(&token) {
            return Some(token);
        }
        rest = token.rest;
    }
    None
}

/// What a token is that may have no end.
#[derive(Clone, Copy, PartialEq)]
pub enum Opening {
    /// A comment.
    Comment,
    /// A string, of which a newline or the end of the text is the end.
    AnyString,
    /// A string of which a newline is the end.
    BadString,
    /// A url.
    Url,
}

/// Whether the text of a comment has no end.
fn is_open_comment(bytes: &[u8]) -> bool {
    bytes.len() < 4 || !matches!(bytes, [.., b'*', b'/'])
}

/// Whether a token is of this kind and has no end.
pub fn is_open(opening: Opening, token: &Token<'_>) -> bool {
    match (opening, token.kind) {
        (Opening::Comment, TokenKind::Comment) => {
            is_open_comment(&token.from[..size_of(token).min(token.from.len())])
        }
        (Opening::AnyString, TokenKind::String) => {
            size_of(token).saturating_sub(inner_size_of(token)) < 2
        }
        (Opening::AnyString | Opening::BadString, TokenKind::BadString) => true,
        (Opening::Url, TokenKind::BadUrl) => true,
        (Opening::Url, TokenKind::Url) => {
            token.from.get(size_of(token).saturating_sub(1)).copied() != Some(b')')
        }
        _ => false,
    }
}

/// Returns the first token of this kind that has no end.
pub fn opened(opening: Opening, text: &str) -> Option<Token<'_>> {
    let mut rest = text.as_bytes();
    for _ in 0..rest.len() {
        let Some(token) = read_next(rest) else {
            break;
        };
        if is_open(opening, &token) {
            return Some(token);
        }
        rest = token.rest;
    }
    None
}

/// Returns the offset in a text at which a token of it begins.
pub fn place_in(text: &str, token: &Token<'_>) -> usize {
    text.len().saturating_sub(token.from.len())
}

/// Whether a text ends with a block that has no more than white space, no comment either.
pub fn ends_empty(text: &str) -> bool {
    let mut rest = text.as_bytes();
    let (mut before, mut last) = (false, false);
    for _ in 0..rest.len() {
        let Some(token) = read_next(rest) else {
            break;
        };
        if !matches!(token.kind, TokenKind::Whitespace) {
            last = before && is_sign(&token, b'}');
            before = is_sign(&token, b'{');
        }
        rest = token.rest;
    }
    last
}

/// Whether a text is one declaration, of which nothing is open at its end.
pub fn is_whole(text: &str) -> bool {
    match read_part(text, false) {
        Some(found) => {
            let is_closed = match found.part.item {
                Item::Declaration(one) => one.closed,
                _ => false,
            };
            is_closed && read_part(found.rest, false).is_none()
        }
        None => false,
    }
}
