//! Tokens as tree construction takes them.
use crate::names::Name;
use css_html::attributes::next_attribute;

/// What a piece is.
#[derive(Clone, Copy, PartialEq)]
pub(crate) enum PieceKind {
    /// Text with character references.
    Text,
    /// Text of a CDATA section.
    Cdata,
    /// A start tag.
    Start,
    /// An end tag.
    End,
    /// A comment.
    Comment,
    /// A document type.
    Doctype,
    /// The end of the page.
    Eof,
}

/// A token, or a part of a text.
#[derive(Clone, Copy)]
pub(crate) struct Piece<'a> {
    /// What it is.
    pub(crate) kind: PieceKind,
    /// The name of a tag.
    pub(crate) name: Name,
    /// The index of a start tag among those of the page.
    pub(crate) tag: u32,
    /// Where it begins and ends.
    pub(crate) start: usize,
    pub(crate) end: usize,
    /// The name of a tag, or the bytes of another piece.
    pub(crate) word: &'a [u8],
    /// The attributes of a tag and its `>`.
    pub(crate) attributes: &'a [u8],
}

impl<'a> Piece<'a> {
    /// Whether this is text.
    pub(crate) fn is_text(&self) -> bool {
        matches!(self.kind, PieceKind::Text | PieceKind::Cdata)
    }

    /// Whether this is the start tag of an element with the name.
    pub(crate) fn starts(&self, name: Name) -> bool {
        self.kind == PieceKind::Start && self.name == name
    }

    /// Whether this is the end tag of an element with the name.
    pub(crate) fn ends(&self, name: Name) -> bool {
        self.kind == PieceKind::End && self.name == name
    }

    /// Whether this is text that begins with white space.
    pub(crate) fn is_blank(&self) -> bool {
        self.is_text()
            && past_characters(self.word, self.kind, Class::Blank, 1).len() < self.word.len()
    }

    /// Returns the number of bytes at the start whose characters are white space, or are not.
    pub(crate) fn count(&self, is_blank_part: bool) -> usize {
        let class = if is_blank_part {
            Class::Blank
        } else {
            Class::NoBlank
        };
        let rest = past_characters(self.word, self.kind, class, self.word.len());
        self.word.len().saturating_sub(rest.len())
    }

    /// Whether the text has a character that is not white space, nor a NUL or what stands for one.
    pub(crate) fn is_shown(&self) -> bool {
        !past_characters(self.word, self.kind, Class::Hidden, self.word.len()).is_empty()
    }

    /// Returns the first bytes of a text, and the text after them.
    pub(crate) fn split(&self, count: usize) -> (Piece<'a>, Piece<'a>) {
        let (mut first, mut rest) = (*self, *self);
        let (front, back) = self.word.split_at(count.min(self.word.len()));
        first.word = front;
        rest.word = back;
        first.end = self.end.min(self.start.saturating_add(front.len()));
        rest.start = first.end;
        (first, rest)
    }

    /// Returns the text after a line feed at its start.
    pub(crate) fn after_newline(&self) -> Piece<'a> {
        let rest = match self.word {
            [b'\r', b'\n', after @ ..] | [b'\r' | b'\n', after @ ..] => after,
            _ => past_characters(self.word, self.kind, Class::Newline, 1),
        };
        self.split(self.word.len().saturating_sub(rest.len())).1
    }

    /// Whether a `/` ends a tag.
    pub(crate) fn is_closed(&self) -> bool {
        let mut rest = self.attributes;
        for _ in 0..self.attributes.len() {
            match next_attribute(rest) {
                Some(attribute) => rest = attribute.rest,
                None => break,
            }
        }
        matches!(rest, [.., b'/', b'>'])
    }

    /// Returns the value of the first attribute with the name, if there is one.
    pub(crate) fn attribute(&self, name: &[u8]) -> Option<&'a [u8]> {
        attribute_in(self.attributes, name)
    }
}

/// Returns the name and the value of the next attribute, and the rest.
pub(crate) fn take_attribute(bytes: &[u8]) -> Option<(&[u8], &[u8], &[u8])> {
    let found = next_attribute(bytes)?;
    let name = part(found.from, found.name_end);
    Some((name, part(found.value, found.value_end), found.rest))
}

/// Returns the bytes before a rest.
pub(crate) fn part<'a>(bytes: &'a [u8], rest: &[u8]) -> &'a [u8] {
    &bytes[..bytes.len().saturating_sub(rest.len())]
}

/// Returns the value of the first attribute with the name in these of a tag, if there is one.
pub(crate) fn attribute_in<'a>(attributes: &'a [u8], name: &[u8]) -> Option<&'a [u8]> {
    let mut rest = attributes;
    for _ in 0..attributes.len() {
        let (found, value, after) = take_attribute(rest)?;
        if found.eq_ignore_ascii_case(name) {
            return Some(value);
        }
        rest = after;
    }
    None
}

/// A kind of characters.
#[derive(Clone, Copy)]
enum Class {
    /// White space.
    Blank,
    /// All but white space.
    NoBlank,
    /// White space, NUL and what stands for one.
    Hidden,
    /// A line feed.
    Newline,
}

/// Whether the character is of the class.
fn is_of(class: Class, character: u32) -> bool {
    let is_blank = matches!(character, 9 | 10 | 12 | 13 | 32);
    match class {
        Class::Blank => is_blank,
        Class::NoBlank => !is_blank,
        Class::Hidden => {
            let is_nul = character == 0 || character == 0xFFFD || character > 0x10_FFFF;
            is_blank || is_nul || character >= 0xD800 && character < 0xE000
        }
        Class::Newline => character == 10,
    }
}

/// Returns the rest after at most `most` characters of a class. Of characters that are not
/// of ASCII, U+FFFD alone is read as one.
fn past_characters(text: &[u8], kind: PieceKind, class: Class, most: usize) -> &[u8] {
    let mut rest = text;
    for _ in 0..most {
        let (character, after) = match rest {
            [] => return rest,
            [b'&', after @ ..] if kind == PieceKind::Text => match read_reference(after) {
                Some((character, after)) => (character, after),
                None => (38, after),
            },
            [0xEF, 0xBF, 0xBD, after @ ..] => (0xFFFD, after),
            [byte, after @ ..] => (u32::from(*byte), after),
        };
        if !is_of(class, character) {
            return rest;
        }
        rest = after;
    }
    rest
}

/// Reads a character reference after its `&`, if it is one that may stand for white space or U+FFFD.
fn read_reference(bytes: &[u8]) -> Option<(u32, &[u8])> {
    match bytes {
        [b'T', b'a', b'b', b';', rest @ ..] => Some((9, rest)),
        [b'N', b'e', b'w', b'L', b'i', b'n', b'e', b';', rest @ ..] => Some((10, rest)),
        [b'#', b'x' | b'X', digits @ ..] => read_number(digits, true),
        [b'#', digits @ ..] => read_number(digits, false),
        _ => None,
    }
}

/// Reads a number and the `;` that may follow it. One that is too great stays so.
fn read_number(digits: &[u8], is_hexadecimal: bool) -> Option<(u32, &[u8])> {
    let base: u32 = if is_hexadecimal { 16 } else { 10 };
    let mut rest = digits;
    let mut number: u32 = 0;
    for byte in digits {
        match (*byte as char).to_digit(base) {
            None => break,
            Some(digit) => {
                number = number.saturating_mul(base).saturating_add(digit);
                rest = rest.get(1..).unwrap_or(&[]);
            }
        }
    }
    if rest.len() == digits.len() {
        return None;
    }
    match rest {
        [b';', after @ ..] => Some((number, after)),
        _ => Some((number, rest)),
    }
}
