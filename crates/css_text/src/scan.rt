//! Finds where things end in a text. Each length is a number of bytes that ends on a character
//! boundary.
ghost use Rattle.std.specs.Prelude.{◌≡◌, ◌+◌, ◌-◌, ◌<◌, ◌&&◌, ◌||◌, ◌==◌, length, drop, true};
ghost use Rattle.std.specs.Prelude.{false, None, Some, MatchOption, IfSome, IsTrue, slice_index};
ghost use Rattle.std.specs.Prelude.{chars};
ghost use Rattle.std.specs.Str.{IsCharBoundary};
ghost use Rattle.std.specs.List.{prefix_len};
ghost use Rattle.css_text.specs.AsciiBytes.{slash};
ghost use Rattle.css_text.specs.Bytes.{after_byte, starts_by, is_ascii};
ghost use Rattle.css_text.specs.Characters.{is_space as is_space_byte};
ghost use Rattle.css_text.specs.Characters.{is_name_start as is_name_start_of};
ghost use Rattle.css_text.specs.Characters.{is_name_char as is_name_char_of};
ghost use Rattle.css_text.specs.ThisEdition.{this_edition};
ghost use Rattle.css_text.specs.Comments.{after_close, opens_comment as opens_comment_of};
ghost use Rattle.css_text.specs.Comments.{blank_part, past_blank, has_space};
ghost use Rattle.css_text.specs.Names.{begins_name as begins_name_of, past_name_chars};
ghost use Rattle.css_text.specs.Strings.{from_quote};

use crate::stream::{is_name_char, is_name_start};

/// Whether the byte is a space, a tab, a newline, a carriage return or a form feed (CSS 2.1 section
/// 4.1.1).
#[inline(always)]
pub fn is_space(byte: u8) -> bool
    ensures { result ≡ is_space_byte byte }
{
    byte <= b' ' && matches!(byte, b' ' | b'\t' | b'\n' | b'\r' | b'\x0C')
}

/// Returns the number of space bytes at the start of the bytes.
#[inline(always)]
fn space_count(bytes: &[u8]) -> usize
    ensures { result ≡ prefix_len is_space_byte bytes.now }
{
    bytes.iter().take_while(|byte| is_space(**byte)).count()
}

/// Returns the number of space bytes at the start of the text.
#[inline(always)]
pub(crate) fn spaces_len(text: &str) -> usize
    ensures len { result ≡ prefix_len is_space_byte text.now }
    ensures boundary { IsCharBoundary text.now result }
{
    space_count(text.as_bytes())
}

/// Whether the bytes begin with `/*`.
#[inline(always)]
fn starts_comment(bytes: &[u8]) -> bool
    ensures { result ≡ opens_comment_of bytes.now }
{
    matches!(bytes, [b'/', b'*', ..])
}

/// Whether the text begins with `/*`.
#[inline(always)]
pub fn opens_comment(text: &str) -> bool
    ensures value { result ≡ opens_comment_of text.now }
    ensures boundary { IsTrue result → IsCharBoundary text.now 2 }
{
    starts_comment(text.as_bytes())
}

/// Returns the offset after the first `*/`, if there is one.
#[inline(never)]
pub(crate) fn close_len(text: &str) -> Option<usize>
    ensures found { MatchOption result (after_close text.now ≡ None)
        (λ n. after_close text.now ≡ Some (drop n text.now)) }
    ensures boundary { IfSome result (λ n. IsCharBoundary text.now n) }
{
    match text.find("*/") {
        Some(at) => Some(at + 2),
        None => None,
    }
}

/// Returns the offset of the first such byte, if there is one.
pub fn find_byte(text: &str, byte: u8) -> Option<usize>
    requires { byte < 128 }
    ensures found { MatchOption result (after_byte byte text.now ≡ None)
        (λ n. after_byte byte text.now ≡ Some (drop (n + 1) text.now)) }
    ensures boundary { IfSome result (λ n. IsCharBoundary text.now n) }
    ensures after { IfSome result (λ n. IsCharBoundary text.now (n + 1)) }
{
    text.find(char::from(byte))
}

/// Returns the offset of the first such quote that does not directly follow a backslash, if there
/// is one. The byte before the text is the opening quote.
fn quote_offset(bytes: &[u8], quote: u8) -> Option<usize>
    ensures found { MatchOption result (from_quote quote quote bytes.now ≡ None)
        (λ n. from_quote quote quote bytes.now ≡ Some (drop n bytes.now)) }
    ensures quote { IfSome result
        (λ n. (n < length bytes.now) × (slice_index bytes.now n ≡ quote)) }
{
    let mut previous = quote;
    for (at, byte) in bytes.iter().enumerate() {
        if *byte == quote && previous != b'\\' {
            return Some(at);
        }
        previous = *byte;
    }
    None
}

/// Returns the number of bytes before the closing quote of a string, after its opening one, if it
/// is closed.
pub(crate) fn string_len(text: &str, quote: u8) -> Option<usize>
    requires { quote < 128 }
    ensures found { MatchOption result (from_quote quote quote text.now ≡ None)
        (λ n. from_quote quote quote text.now ≡ Some (drop n text.now)) }
    ensures boundary { IfSome result (λ n. IsCharBoundary text.now n) }
    ensures after { IfSome result (λ n. IsCharBoundary text.now (n + 1)) }
    ensures within { IfSome result (λ n. n < length text.now) }
{
    quote_offset(text.as_bytes(), quote)
}

/// An ASCII byte that may continue a name.
const NAME_CHAR: u8 = 1;

/// An ASCII byte that may begin a name.
const NAME_START: u8 = 2;

/// A space byte or a slash, which may begin a gap.
const GAP_START: u8 = 4;

/// The flags above for each byte, as the low three bits of a digit.
static BYTES: [u8; 256] = *b"\
    00000000044044000000000000000000\
    40000000000001041111111111000000\
    03333333333333333333333333300003\
    03333333333333333333333333300000\
    00000000000000000000000000000000\
    00000000000000000000000000000000\
    00000000000000000000000000000000\
    00000000000000000000000000000000";

/// Whether the byte is ASCII and may begin a name.
#[inline(always)]
fn is_ascii_name_start(byte: u8) -> bool
    ensures { result ≡ (is_ascii byte && is_name_start_of this_edition byte) }
{
    BYTES[usize::from(byte)] & NAME_START != 0
}

/// Whether the text begins with an ASCII byte that may begin a name.
#[inline(always)]
fn starts_with_name_start(bytes: &[u8]) -> bool
    ensures { result ≡ starts_by (λ b. is_ascii b && is_name_start_of this_edition b) bytes.now }
{
    match bytes {
        [byte, ..] => is_ascii_name_start(*byte),
        [] => false,
    }
}

/// Whether a name begins at the start of the text.
fn begins_by_characters(text: &str) -> bool
    ensures { result ≡ begins_name_of this_edition (chars text.now) }
{
    let mut chars = text.chars();
    match chars.next() {
        Some('-') => match chars.next() {
            Some(c) => is_name_start(c),
            None => true,
        },
        Some(c) => is_name_start(c),
        None => false,
    }
}

/// Whether the byte is ASCII and may continue a name.
#[inline(always)]
fn is_ascii_name_char(byte: u8) -> bool
    ensures { result ≡ (is_ascii byte && is_name_char_of this_edition byte) }
{
    BYTES[usize::from(byte)] & NAME_CHAR != 0
}

/// Returns the number of ASCII name characters at the start of the text.
#[inline(always)]
fn ascii_name_len(bytes: &[u8]) -> usize
    ensures { result
        ≡ prefix_len (λ b. is_ascii b && is_name_char_of this_edition b) bytes.now }
{
    bytes
        .iter()
        .take_while(|byte| is_ascii_name_char(**byte))
        .count()
}

/// Returns the length of the longest run of name characters at the start, one character at a time.
#[inline(never)]
fn wide_name_chars_len(text: &str) -> usize
    ensures len { past_name_chars this_edition text.now ≡ drop result text.now }
    ensures boundary { IsCharBoundary text.now result }
{
    let mut len = 0;
    for c in text.chars() {
        if !is_name_char(c) {
            break;
        }
        len += c.len_utf8();
    }
    len
}

/// Returns the length of the longest run of name characters at the start.
#[inline(always)]
fn name_chars_len(text: &str) -> usize
    ensures len { past_name_chars this_edition text.now ≡ drop result text.now }
    ensures boundary { IsCharBoundary text.now result }
{
    let bytes = text.as_bytes();
    let len = ascii_name_len(bytes);
    if len < bytes.len() && bytes[len] >= 128 {
        wide_name_chars_len(text)
    } else {
        len
    }
}

/// Returns the length of the name at the start, if one begins there.
#[inline(never)]
pub fn name_len(text: &str) -> Option<usize>
    ensures none { result ≡ None → begins_name_of this_edition (chars text.now) ≡ false }
    ensures some { IfSome result (λ n. (begins_name_of this_edition (chars text.now) ≡ true)
        × (past_name_chars this_edition text.now ≡ drop n text.now)) }
    ensures boundary { IfSome result (λ n. IsCharBoundary text.now n) }
{
    if starts_with_name_start(text.as_bytes()) {
        Some(name_chars_len(text))
    } else {
        other_name_len(text)
    }
}

/// Returns the length of the name at the start, if one begins there, by its first one or two
/// characters.
#[inline(never)]
fn other_name_len(text: &str) -> Option<usize>
    ensures none { result ≡ None → begins_name_of this_edition (chars text.now) ≡ false }
    ensures some { IfSome result (λ n. (begins_name_of this_edition (chars text.now) ≡ true)
        × (past_name_chars this_edition text.now ≡ drop n text.now)) }
    ensures boundary { IfSome result (λ n. IsCharBoundary text.now n) }
{
    if begins_by_characters(text) {
        Some(name_chars_len(text))
    } else {
        None
    }
}

/// The gap at the start of a text: its space bytes and closed comments.
#[derive(Clone, Copy)]
pub struct Gap {
    /// The number of bytes in the gap.
    pub len: usize,
    /// Whether it has a space byte outside its comments.
    pub spaced: bool,
    /// Whether an open comment follows it.
    pub unclosed: bool,
}

/// Returns the gap at the start of the text.
#[inline(always)]
pub fn find_gap(text: &str) -> Gap
    ensures rest { past_blank text.now ≡ drop result.len text.now }
    ensures spaced { result.spaced ≡ has_space text.now }
    ensures unclosed { result.unclosed ≡ opens_comment_of (past_blank text.now) }
    ensures boundary { IsCharBoundary text.now result.len }
{
    if may_begin_gap(text) {
        long_gap(text)
    } else {
        Gap {
            len: 0,
            spaced: false,
            unclosed: false,
        }
    }
}

/// Whether the byte is a space byte or a slash.
#[inline(always)]
fn is_gap_start(byte: u8) -> bool
    ensures { result ≡ (is_space_byte byte || byte == slash) }
{
    BYTES[usize::from(byte)] & GAP_START != 0
}

/// Whether a gap may begin at the start of the text, by the first byte.
#[inline(always)]
fn may_begin_gap(text: &str) -> bool
    ensures { result ≡ false
        → (starts_by is_space_byte text.now || opens_comment_of text.now) ≡ false }
{
    match text.as_bytes() {
        [byte, ..] => is_gap_start(*byte),
        [] => false,
    }
}

/// Returns the gap at the start of the text. Most gaps have no comment and are a run of space
/// bytes.
#[inline(never)]
fn long_gap(text: &str) -> Gap
    ensures rest { past_blank text.now ≡ drop result.len text.now }
    ensures spaced { result.spaced ≡ has_space text.now }
    ensures unclosed { result.unclosed ≡ opens_comment_of (past_blank text.now) }
    ensures boundary { IsCharBoundary text.now result.len }
{
    let len = spaces_len(text);
    if may_open_comment(&text[len..]) {
        let closed = closed_part(text);
        Gap {
            len: closed.len,
            spaced: closed.spaced,
            unclosed: opens_comment(&text[closed.len..]),
        }
    } else {
        Gap {
            len,
            spaced: len > 0,
            unclosed: false,
        }
    }
}

/// Whether a comment may begin at the start of the text, by the first byte.
#[inline(always)]
fn may_open_comment(text: &str) -> bool
    ensures { result ≡ false → opens_comment_of text.now ≡ false }
{
    matches!(text.as_bytes(), [b'/', ..])
}

/// Returns the space bytes and closed comments at the start of the text, one after another.
#[inline(never)]
fn closed_part(text: &str) -> Blank
    ensures rest { past_blank text.now ≡ drop result.len text.now }
    ensures spaced { result.spaced ≡ has_space text.now }
    ensures boundary { IsCharBoundary text.now result.len }
{
    let mut len = 0;
    let mut spaced = false;
    while let Some(part) = blank_part_len(&text[len..]) {
        len += part.len;
        spaced |= part.spaced;
    }
    Blank { len, spaced }
}

/// Returns the space byte or the closed comment at the start of the text.
#[inline(always)]
fn blank_part_len(text: &str) -> Option<Blank>
    ensures found { MatchOption result (blank_part text.now ≡ None)
        (λ p. blank_part text.now ≡ Some (p.spaced, drop p.len text.now)) }
    ensures boundary { IfSome result (λ p. IsCharBoundary text.now p.len) }
    ensures some { IfSome result (λ p. 0 < p.len) }
{
    if starts_with_space(text) {
        return Some(Blank {
            len: 1,
            spaced: true,
        });
    }
    if !opens_comment(text) {
        return None;
    }
    match close_len(&text[2..]) {
        Some(n) => Some(Blank {
            len: 2 + n,
            spaced: false,
        }),
        None => None,
    }
}

/// Space bytes and closed comments, one after another, at the start of a text.
#[derive(Clone, Copy)]
struct Blank {
    /// The number of bytes.
    len: usize,
    /// Whether a space byte is among them, outside the comments.
    spaced: bool,
}

/// Whether the text begins with a space byte.
#[inline(always)]
fn starts_with_space(text: &str) -> bool
    ensures { result ≡ starts_by is_space_byte text.now }
{
    match text.as_bytes() {
        [byte, ..] => is_space(*byte),
        [] => false,
    }
}
