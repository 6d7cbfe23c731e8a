//! The tokens of CSS Syntax 3 (section 4.3), as far as where one ends depends on them. Each
//! function takes the rest of a text and returns the rest after what it reads.
ghost use Rattle.std.specs.Prelude.{◌≡◌, ◌≤◌, [], ◌∷◌, length, option_map};
ghost use Rattle.std.specs.Prelude.{MatchOption, ◌<◌, true, not, ◌&&◌, ◌||◌, ◌==◌};
ghost use Rattle.std.specs.Prelude.{Some};
ghost use Rattle.std.specs.List.{prefix_len};
ghost use Rattle.css_text.specs.Reading.{each};
ghost use Rattle.css_text.specs.AsciiBytes.{close_parenthesis};
ghost use Rattle.css_text.specs.Bytes.{past, past_byte as past_byte_of, past_one as past_one_of, starts_by};
ghost use Rattle.css_text.specs.Strings.{is_quote as is_quote_byte};
ghost use Rattle.css_text.specs.Characters.{is_space as is_space_byte};
ghost use Rattle.css_text.specs.Comments.{opens_comment};
ghost use Rattle.css_text.specs.Bytes.{is_hex_digit as is_hex};
ghost use Rattle.css_syntax.specs.Tokens.{is_newline as is_newline_byte};
ghost use Rattle.css_syntax.specs.Tokens.{past_newline as past_newline_of};
ghost use Rattle.css_syntax.specs.Tokens.{past_one_space as past_one_space_of, past_hex as past_hex_of, past_escape as past_escape_of};
ghost use Rattle.css_syntax.specs.Tokens.{begins_escape as begins_escape_of, past_comment};
ghost use Rattle.css_syntax.specs.Tokens.{gap_part as gap_part_of, past_gap as past_gap_of};
ghost use Rattle.css_syntax.specs.Tokens.{string_part as string_part_of, past_string, string_end};
ghost use Rattle.css_syntax.specs.Tokens.{past_string_parts as past_string_parts_of};
ghost use Rattle.css_syntax.specs.Tokens.{is_name_byte as is_name_byte_of};
ghost use Rattle.css_syntax.specs.Tokens.{past_word as past_word_of};
ghost use Rattle.css_syntax.specs.Tokens.{begins_url as begins_url_of, hex_digit};
ghost use Rattle.css_syntax.specs.Tokens.{hex_number as hex_number_of, from_close};
ghost use Rattle.css_syntax.specs.Tokens.{escaped_char as escaped_char_of, past_letter};
ghost use Rattle.css_syntax.specs.Tokens.{spells as spells_of};
ghost use Rattle.css_syntax.specs.Tokens.{then_open, after_url};
ghost use Rattle.css_syntax.specs.Tokens.{is_never_bare as is_never_bare_of};
ghost use Rattle.css_syntax.specs.Tokens.{url_part as url_part_of, past_url, url_end};
ghost use Rattle.css_syntax.specs.Tokens.{remnant_part as remnant_part_of};
ghost use Rattle.css_syntax.specs.Tokens.{begins_cdo as begins_cdo_of, token};
ghost use Rattle.css_syntax.specs.Tokens.{is_closer as is_closer_of};
ghost use Rattle.css_syntax.specs.Tokens.{other_token, comment_quality};
ghost use Rattle.css_syntax.specs.internal.PlainTokens.{is_plain as is_plain_byte};

use crate::quality::Quality;

/// What was read: its quality, and the rest.
#[derive(Clone, Copy)]
pub struct ReadBytes<'a> {
    /// Its quality.
    pub quality: Quality,
    /// The rest after it.
    pub rest: &'a [u8],
}

/// Something whole was read.
pub fn whole(rest: &[u8]) -> ReadBytes<'_>
    ensures quality { result.quality ≡ Quality.Whole }
    ensures rest { result.rest.now ≡ rest.now }
{
    ReadBytes {
        quality: Quality::Whole,
        rest,
    }
}

/// Returns the first byte and the rest, if there is one.
pub fn split(bytes: &[u8]) -> Option<(u8, &[u8])>
    ensures { MatchOption result (bytes.now ≡ []) (λ it. bytes.now ≡ it.0 ∷ it.1.now) }
{
    match bytes {
        [] => None,
        [byte, rest @ ..] => Some((*byte, rest)),
    }
}

/// A byte of a name.
const NAME: u8 = 1;

/// A space byte.
const SPACE: u8 = 2;

/// A byte of a name (1), or a sign (4), which is a token or begins one with the word after it.
const PLAIN: u8 = 5;

/// The flags above for each byte, as the low three bits of a digit.
static BYTES: [u8; 256] = *b"\
    10000000022022000000000000000000\
    20044440004441401111111111400444\
    41111111111111111111111111100041\
    41111111111111111111111111104040\
    11111111111111111111111111111111\
    11111111111111111111111111111111\
    11111111111111111111111111111111\
    11111111111111111111111111111111";

/// Whether the byte is a space byte.
#[inline(always)]
pub(crate) fn is_space(byte: u8) -> bool
    ensures { result ≡ is_space_byte byte }
{
    BYTES[usize::from(byte)] & SPACE != 0
}

/// Whether the byte is a line feed, a carriage return or a form feed.
pub fn is_newline(byte: u8) -> bool
    ensures { result ≡ is_newline_byte byte }
{
    matches!(byte, b'\n' | b'\r' | b'\x0C')
}

/// Returns the rest after the byte, if it is next.
pub fn past_byte(bytes: &[u8], byte: u8) -> &[u8]
    ensures { result.now ≡ past_byte_of byte bytes.now }
{
    match bytes {
        [first, rest @ ..] if *first == byte => rest,
        _ => bytes,
    }
}

/// Returns the rest after a byte of a newline, if one is next.
fn past_newline(bytes: &[u8]) -> &[u8]
    ensures { result.now ≡ past_newline_of bytes.now }
{
    match bytes {
        [byte, rest @ ..] if is_newline(*byte) => rest,
        _ => bytes,
    }
}

/// Returns the number of space bytes at the start.
fn space_count(bytes: &[u8]) -> usize
    ensures count { result ≡ prefix_len is_space_byte bytes.now }
    ensures within { result ≤ length bytes.now }
{
    bytes.iter().take_while(|byte| is_space(**byte)).count()
}

/// Returns the rest after space bytes.
pub(crate) fn past_spaces(bytes: &[u8]) -> &[u8]
    ensures { result.now ≡ past is_space_byte bytes.now }
{
    &bytes[space_count(bytes)..]
}

/// Returns the rest after a space byte, if one is next. A carriage return and a line feed are one.
fn past_one_space(bytes: &[u8]) -> &[u8]
    ensures { result.now ≡ past_one_space_of bytes.now }
{
    match bytes {
        [b'\r', rest @ ..] => past_byte(rest, b'\n'),
        [byte, rest @ ..] if is_space(*byte) => rest,
        _ => bytes,
    }
}

/// Whether the byte is a hexadecimal digit.
pub(crate) fn is_hex_digit(byte: u8) -> bool
    ensures { result ≡ is_hex byte }
{
    byte.is_ascii_hexdigit()
}

/// Returns the rest after hexadecimal digits, at most `n`.
fn past_hex(bytes: &[u8], n: usize) -> &[u8]
    ensures { result.now ≡ past_hex_of n bytes.now }
{
    let mut rest = bytes;
    let mut left = n;
    'digits: while left > 0 {
        match rest {
            [byte, after @ ..] if is_hex_digit(*byte) => rest = after,
            _ => return rest,
        }
        left -= 1;
    }
    rest
}

/// Returns the rest after what a backslash escapes.
#[tactic(auto, unfolding(crate::specs::Tokens::past_escape))]
pub(crate) fn past_escape(bytes: &[u8]) -> &[u8]
    ensures { result.now ≡ past_escape_of bytes.now }
{
    match bytes {
        [] => bytes,
        [byte, rest @ ..] => {
            if is_hex_digit(*byte) {
                past_one_space(past_hex(rest, 5))
            } else if is_newline(*byte) {
                past_one_space(bytes)
            } else {
                rest
            }
        }
    }
}

/// Whether the bytes begin with a backslash that no newline follows.
pub fn begins_escape(bytes: &[u8]) -> bool
    ensures { result ≡ begins_escape_of bytes.now }
{
    match bytes {
        [b'\\', next, ..] => !is_newline(*next),
        [b'\\'] => true,
        _ => false,
    }
}

/// Whether the bytes begin with `/*`.
pub(crate) fn starts_comment(bytes: &[u8]) -> bool
    ensures { result ≡ opens_comment bytes.now }
{
    matches!(bytes, [b'/', b'*', ..])
}

/// Reads the comment that opens here, up to the end of the text if it is not closed.
#[tactic(auto, unfolding(crate::specs::Tokens::past_comment, crate::specs::Tokens::comment_quality))]
pub(crate) fn read_comment(bytes: &[u8]) -> ReadBytes<'_>
    ensures quality { result.quality ≡ comment_quality bytes.now }
    ensures rest { result.rest.now ≡ past_comment bytes.now }
{
    let mut rest = match bytes {
        [_, _, inside @ ..] => inside,
        _ => &[],
    };
    'comment: while let [byte, after @ ..] = rest {
        if *byte == b'*' && matches!(after, [b'/', ..]) {
            return whole(past_byte(after, b'/'));
        }
        rest = after;
    }
    ReadBytes {
        quality: Quality::Open,
        rest,
    }
}

/// Returns the rest after a space byte or a comment, if one is next.
#[tactic(auto, unfolding(crate::specs::Tokens::gap_part))]
pub fn gap_part(bytes: &[u8]) -> Option<&[u8]>
    ensures { gap_part_of bytes.now ≡ option_map (λ rest. (tt, rest.now)) result }
{
    match bytes {
        [] => None,
        [byte, rest @ ..] => {
            if is_space(*byte) {
                Some(rest)
            } else if starts_comment(bytes) {
                Some(read_comment(bytes).rest)
            } else {
                None
            }
        }
    }
}

/// Returns the rest after space bytes and comments.
pub fn past_gap(bytes: &[u8]) -> &[u8]
    ensures { result.now ≡ past_gap_of bytes.now }
{
    let mut rest = past_spaces(bytes);
    'parts: while starts_comment(rest) {
        rest = past_spaces(read_comment(rest).rest);
    }
    rest
}

/// Returns the rest after an escape or a byte in a string, if one is next.
#[tactic(auto, unfolding(crate::specs::Tokens::string_part))]
fn string_part(bytes: &[u8], quote: u8) -> Option<&[u8]>
    ensures { string_part_of quote bytes.now ≡ option_map (λ rest. (tt, rest.now)) result }
{
    match bytes {
        [] => None,
        [byte, rest @ ..] => {
            if *byte == quote || is_newline(*byte) {
                None
            } else if *byte == b'\\' {
                Some(past_escape(rest))
            } else {
                Some(rest)
            }
        }
    }
}

/// Reads the end of a string: its quote, or the end of the text. A newline makes it bad, and is read
/// with it.
fn read_string_end(bytes: &[u8], quote: u8) -> ReadBytes<'_>
    ensures { string_end quote bytes.now ≡ (result.quality, result.rest.now) }
{
    match bytes {
        [] => ReadBytes {
            quality: Quality::Open,
            rest: bytes,
        },
        [byte, rest @ ..] => {
            if *byte == quote {
                whole(rest)
            } else {
                ReadBytes {
                    quality: Quality::BadString,
                    rest: past_newline(bytes),
                }
            }
        }
    }
}

/// Returns the rest after what is in a string with this quote: the quote that closes it, a newline,
/// or nothing.
pub(crate) fn past_string_parts(bytes: &[u8], quote: u8) -> &[u8]
    ensures { result.now ≡ past_string_parts_of quote bytes.now }
{
    let mut rest = bytes;
    'parts: while let Some(after) = string_part(rest, quote) {
        rest = after;
    }
    rest
}

/// Reads a string, from after its opening quote.
#[tactic(auto, unfolding(crate::specs::Tokens::past_string))]
fn read_string(bytes: &[u8], quote: u8) -> ReadBytes<'_>
    ensures { past_string quote bytes.now ≡ (result.quality, result.rest.now) }
{
    read_string_end(past_string_parts(bytes, quote), quote)
}

/// Whether the byte is one of a name, or of a character past ASCII, as U+0000 is, which stands for
/// U+FFFD.
#[inline(always)]
pub fn is_name_byte(byte: u8) -> bool
    ensures { result ≡ is_name_byte_of byte }
{
    BYTES[usize::from(byte)] & NAME != 0
}

/// Whether the byte is one of a name, or a sign.
#[inline(always)]
pub(crate) fn is_plain(byte: u8) -> bool
    ensures { result ≡ is_plain_byte byte }
{
    BYTES[usize::from(byte)] & PLAIN != 0
}

/// Returns the number of bytes of names at the start.
fn name_count(bytes: &[u8]) -> usize
    ensures count { result ≡ prefix_len is_name_byte_of bytes.now }
    ensures within { result ≤ length bytes.now }
{
    bytes.iter().take_while(|byte| is_name_byte(**byte)).count()
}

/// Returns the rest after bytes of names.
#[inline(always)]
pub(crate) fn past_name_bytes(bytes: &[u8]) -> &[u8]
    ensures { result.now ≡ past is_name_byte_of bytes.now }
{
    &bytes[name_count(bytes)..]
}

/// Returns the rest after the first byte, if there is one.
pub fn past_one(bytes: &[u8]) -> &[u8]
    ensures { result.now ≡ past_one_of bytes.now }
{
    match bytes {
        [] => bytes,
        [_, rest @ ..] => rest,
    }
}

/// Returns the rest after a word.
pub fn past_word(bytes: &[u8]) -> &[u8]
    ensures { result.now ≡ past_word_of bytes.now }
{
    let mut rest = past_name_bytes(bytes);
    'parts: while begins_escape(rest) {
        rest = past_name_bytes(past_escape(past_one(rest)));
    }
    rest
}

/// Whether the byte is a quote.
pub(crate) fn is_quote(byte: u8) -> bool
    ensures { result ≡ is_quote_byte byte }
{
    matches!(byte, b'\'' | b'"')
}

/// Whether the bytes begin with a quote.
fn starts_with_quote(bytes: &[u8]) -> bool
    ensures { result ≡ starts_by is_quote_byte bytes.now }
{
    matches!(bytes, [b'\'' | b'"', ..])
}

/// Returns the number that a hexadecimal digit denotes.
fn hex_value(byte: u8) -> u32
    requires { is_hex byte ≡ true }
    ensures value { result ≡ hex_digit byte }
    ensures small { result < 16 }
{
    match byte {
        b'0'..=b'9' => u32::from(byte - b'0'),
        b'a'..=b'f' => u32::from(byte - 87),
        _ => u32::from(byte - 55),
    }
}

/// Returns the number of the hexadecimal digits at the start, at most six.
pub(crate) fn hex_number(bytes: &[u8]) -> u32
    ensures { result ≡ hex_number_of 6 0 bytes.now }
{
    let mut rest = bytes;
    let mut so_far = 0u32;
    let mut left = 6usize;
    'digits: while left > 0 {
        match split(rest) {
            Some((byte, after)) if is_hex_digit(byte) => {
                so_far = 16 * so_far + hex_value(byte);
                rest = after;
            }
            _ => return so_far,
        }
        left -= 1;
    }
    so_far
}

/// Returns the character that a backslash escapes, if it is ASCII.
fn escaped_char(bytes: &[u8]) -> u32
    ensures { result ≡ escaped_char_of bytes.now }
{
    match bytes {
        [] => 0,
        [byte, ..] => {
            if is_hex_digit(*byte) {
                hex_number(bytes)
            } else {
                u32::from(*byte)
            }
        }
    }
}

/// Returns the rest after one of two ASCII characters, if it is next, as it is or as an escape.
#[tactic(auto, unfolding(crate::specs::Tokens::past_letter))]
pub fn take_letter(bytes: &[u8], low: u8, up: u8) -> Option<&[u8]>
    ensures { past_letter low up bytes.now ≡ option_map (λ rest. rest.now) result }
{
    match bytes {
        [] => None,
        [byte, rest @ ..] => {
            if *byte == low || *byte == up {
                return Some(rest);
            }
            if !begins_escape(bytes) {
                return None;
            }
            let escaped = escaped_char(rest);
            if escaped == u32::from(low) || escaped == u32::from(up) {
                Some(past_escape(rest))
            } else {
                None
            }
        }
    }
}

/// Whether the word is the keyword, which is in lower case: each of its characters in either case, as
/// it is or as an escape.
pub fn spells(keyword: &[u8], word: &[u8]) -> bool
    ensures { result ≡ spells_of keyword.now word.now }
{
    let mut left = keyword;
    let mut rest = word;
    'letters: while let Some((letter, others)) = split(left) {
        match take_letter(rest, letter, letter.to_ascii_uppercase()) {
            Some(after) => {
                left = others;
                rest = after;
            }
            None => return false,
        }
    }
    rest.is_empty()
}

/// Returns the rest after a parenthesis that no quote follows after blanks, if it is next.
fn take_open(bytes: &[u8]) -> Option<&[u8]>
    ensures { then_open (Some bytes.now) ≡ option_map (λ rest. rest.now) result }
{
    match bytes {
        [] => None,
        [byte, rest @ ..] => {
            if *byte == b'(' && !starts_with_quote(past_spaces(rest)) {
                Some(rest)
            } else {
                None
            }
        }
    }
}

/// Returns the rest after `url(`, in any case and with any escapes, if it is next and no quote follows
/// it.
fn take_url_name(bytes: &[u8]) -> Option<&[u8]>
    ensures { after_url bytes.now ≡ option_map (λ rest. rest.now) result }
{
    let Some(after_u) = take_letter(bytes, b'u', b'U') else {
        return None;
    };
    let Some(after_r) = take_letter(after_u, b'r', b'R') else {
        return None;
    };
    let Some(after_l) = take_letter(after_r, b'l', b'L') else {
        return None;
    };
    take_open(after_l)
}

/// Whether a url without quotes begins here.
pub fn begins_url(bytes: &[u8]) -> bool
    ensures { result ≡ begins_url_of bytes.now }
{
    take_url_name(bytes).is_some()
}

/// Returns the rest after the `url(` that begins here.
pub(crate) fn past_url_name(bytes: &[u8]) -> &[u8]
    ensures { result.now ≡ from_close (after_url bytes.now) }
{
    match take_url_name(bytes) {
        Some(rest) => rest,
        None => &[],
    }
}

/// Whether a url may have the byte only escaped.
fn is_never_bare(byte: u8) -> bool
    ensures { result ≡ is_never_bare_of byte }
{
    matches!(byte, b'\'' | b'"' | b'(' | b'\\' | 1..=8 | 11 | 14..=31 | 127)
}

/// Returns the rest after an escape or a byte in a url, if one is next.
#[tactic(auto, unfolding(crate::specs::Tokens::url_part))]
fn url_part(bytes: &[u8]) -> Option<&[u8]>
    ensures { url_part_of bytes.now ≡ option_map (λ rest. (tt, rest.now)) result }
{
    match bytes {
        [] => None,
        [byte, rest @ ..] => {
            if begins_escape(bytes) {
                Some(past_escape(rest))
            } else if *byte == b')' || is_space(*byte) || is_never_bare(*byte) {
                None
            } else {
                Some(rest)
            }
        }
    }
}

/// Returns the rest after an escape or a byte of a bad url, if one is next before its parenthesis.
#[tactic(auto, unfolding(crate::specs::Tokens::remnant_part))]
fn remnant_part(bytes: &[u8]) -> Option<&[u8]>
    ensures { remnant_part_of bytes.now ≡ option_map (λ rest. (tt, rest.now)) result }
{
    match bytes {
        [] => None,
        [byte, rest @ ..] => {
            if begins_escape(bytes) {
                Some(past_escape(rest))
            } else if *byte == b')' {
                None
            } else {
                Some(rest)
            }
        }
    }
}

/// Returns the rest after a bad url, up to and with its parenthesis.
fn past_remnants(bytes: &[u8]) -> &[u8]
    ensures { result.now ≡ past_byte_of close_parenthesis (each remnant_part_of bytes.now).1 }
{
    let mut rest = bytes;
    'parts: while let Some(after) = remnant_part(rest) {
        rest = after;
    }
    past_byte(rest, b')')
}

/// Reads the end of a url: its parenthesis, the end of the text, or what makes it bad.
fn read_url_end(bytes: &[u8]) -> ReadBytes<'_>
    ensures { url_end bytes.now ≡ (result.quality, result.rest.now) }
{
    match bytes {
        [] => ReadBytes {
            quality: Quality::Open,
            rest: bytes,
        },
        [b')', rest @ ..] => whole(rest),
        _ => ReadBytes {
            quality: Quality::BadUrl,
            rest: past_remnants(bytes),
        },
    }
}

/// Returns the rest after what is in a url: a blank, its parenthesis, or what makes it bad.
pub(crate) fn past_url_parts(bytes: &[u8]) -> &[u8]
    ensures { result.now ≡ (each url_part_of bytes.now).1 }
{
    let mut rest = bytes;
    'parts: while let Some(after) = url_part(rest) {
        rest = after;
    }
    rest
}

/// Reads a url without quotes, from after the parenthesis of `url(`.
#[tactic(auto, unfolding(crate::specs::Tokens::past_url))]
pub(crate) fn read_url(bytes: &[u8]) -> ReadBytes<'_>
    ensures { past_url bytes.now ≡ (result.quality, result.rest.now) }
{
    read_url_end(past_spaces(past_url_parts(past_spaces(bytes))))
}

/// Whether the bytes begin with `<!--`.
pub fn begins_cdo(bytes: &[u8]) -> bool
    ensures { result ≡ begins_cdo_of bytes.now }
{
    matches!(bytes, [b'<', b'!', b'-', b'-', ..])
}

/// Whether the byte is a closing bracket.
pub fn is_closer(byte: u8) -> bool
    ensures { result ≡ is_closer_of byte }
{
    matches!(byte, b')' | b']' | b'}')
}

/// Reads a hash or a name after `@`, from after its first byte, a newline after a backslash, or
/// nothing after any other byte. A closing bracket is bad.
fn read_other(byte: u8, rest: &[u8]) -> ReadBytes<'_>
    ensures { other_token byte rest.now ≡ (result.quality, result.rest.now) }
{
    if byte == b'#' || byte == b'@' {
        whole(past_word(rest))
    } else if is_closer(byte) {
        ReadBytes {
            quality: Quality::StrayBracket,
            rest,
        }
    } else if byte == b'\\' {
        whole(past_newline(rest))
    } else {
        whole(rest)
    }
}

/// Reads a token that is no opening bracket, of whatever kind.
#[tactic(auto, unfolding(crate::specs::Tokens::token))]
fn read_any_token(bytes: &[u8]) -> ReadBytes<'_>
    ensures { token bytes.now ≡ (result.quality, result.rest.now) }
{
    match bytes {
        [] => whole(bytes),
        [byte, rest @ ..] => {
            if starts_comment(bytes) {
                read_comment(bytes)
            } else if is_quote(*byte) {
                read_string(rest, *byte)
            } else if begins_url(bytes) {
                read_url(past_url_name(bytes))
            } else if begins_cdo(bytes) {
                whole(&bytes[4..])
            } else if is_name_byte(*byte) || begins_escape(bytes) {
                whole(past_word(bytes))
            } else {
                read_other(*byte, rest)
            }
        }
    }
}

/// Whether the byte is one of a name and begins no url.
#[inline(always)]
fn is_plain_name(byte: u8) -> bool
    ensures { result ≡ (is_name_byte_of byte && not (byte == 117 || byte == 85)) }
{
    is_name_byte(byte) && !(byte == b'u' || byte == b'U')
}

/// Whether a word begins here that begins no url.
#[inline(always)]
fn begins_plain_name(bytes: &[u8]) -> bool
    ensures { result ≡ starts_by (λ b. is_name_byte_of b && not (b == 117 || b == 85)) bytes.now }
{
    match bytes {
        [] => false,
        [byte, ..] => is_plain_name(*byte),
    }
}

/// Reads a token that is no opening bracket. Most are words.
pub fn read_token(bytes: &[u8]) -> ReadBytes<'_>
    ensures { token bytes.now ≡ (result.quality, result.rest.now) }
{
    if begins_plain_name(bytes) {
        whole(past_word(bytes))
    } else {
        read_any_token(bytes)
    }
}
