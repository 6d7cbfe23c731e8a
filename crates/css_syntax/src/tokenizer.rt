//! The tokens of a text, one after another, each with its kind and its place (CSS Syntax 3,
//! section 4.3).
ghost use Rattle.std.specs.Prelude.{◌≡◌, ◌≤◌, ◌∷◌, length};
ghost use Rattle.std.specs.List.{prefix_len};
ghost use Rattle.std.specs.Prelude.{option_map};
ghost use Rattle.css_text.specs.Bytes.{past, starts_by, is_digit as is_digit_byte};
ghost use Rattle.css_text.specs.Characters.{is_space as is_space_byte};
ghost use Rattle.css_text.specs.Strings.{is_quote as is_quote_byte};
ghost use Rattle.css_syntax.specs.TokenLists.{is_sign as is_sign_byte, past_sign as past_sign_of};
ghost use Rattle.css_syntax.specs.TokenLists.{begins_unsigned as begins_unsigned_of};
ghost use Rattle.css_syntax.specs.TokenLists.{begins_number as begins_number_of};
ghost use Rattle.css_syntax.specs.TokenLists.{past_fraction as past_fraction_of};
ghost use Rattle.css_syntax.specs.TokenLists.{past_exponent as past_exponent_of};
ghost use Rattle.css_syntax.specs.TokenLists.{is_exponent_mark, past_number as past_number_of};
ghost use Rattle.css_syntax.specs.TokenLists.{plain as plain_of, led as led_of};
ghost use Rattle.css_syntax.specs.TokenLists.{after_number as after_number_of};
ghost use Rattle.css_syntax.specs.TokenLists.{string_from as string_from_of};
ghost use Rattle.css_syntax.specs.TokenLists.{url_from as url_from_of, url_kind as url_kind_of};
ghost use Rattle.css_syntax.specs.TokenLists.{name_from as name_from_of};
ghost use Rattle.css_syntax.specs.TokenLists.{begins_name_part as begins_name_part_of};
ghost use Rattle.css_syntax.specs.TokenLists.{hash_kind as hash_kind_of};
ghost use Rattle.css_syntax.specs.TokenLists.{marked_from as marked_from_of};
ghost use Rattle.css_syntax.specs.TokenLists.{worded_from as worded_from_of};
ghost use Rattle.css_syntax.specs.TokenLists.{token_from as token_from_of, next_token};
ghost use Rattle.css_syntax.specs.TokenViews.{token_of};

use crate::quality::{Quality, is_good};
use crate::statements::{begins_cdc, starts_ident};
use crate::tokens::{
    begins_cdo, begins_escape, begins_url, is_name_byte, is_quote, is_space, past_byte, past_one,
    past_spaces, past_string_parts, past_url_name, past_url_parts, past_word, read_comment,
    read_url, split, starts_comment,
};

/// What a token is.
#[derive(Clone, Copy, Debug, PartialEq)]
pub enum TokenKind {
    /// Space bytes.
    Whitespace,
    /// A comment, which the end of the text may close.
    Comment,
    /// A name.
    Ident,
    /// A name and an opening parenthesis.
    Function,
    /// `@` and a name.
    AtKeyword,
    /// `#` and what follows it as in a name.
    Hash,
    /// `#` and a name, as that of an id.
    IdHash,
    /// A string, which the end of the text may close.
    String,
    /// A string up to a newline, before its quote.
    BadString,
    /// A url without quotes, which the end of the text may close.
    Url,
    /// A url with a quote, a parenthesis, a control character, or a blank in it.
    BadUrl,
    /// A number.
    Number,
    /// A number and `%`.
    Percentage,
    /// A number and its unit.
    Dimension,
    /// `<!--`.
    Cdo,
    /// `-->`.
    Cdc,
    /// Any other byte: a colon, a semicolon, a comma, a bracket, or one that means nothing here.
    Delim,
}

/// A token and its place. Each place is what is left of the text from it on.
#[derive(Clone, Copy, Debug, PartialEq)]
pub struct Token<'a> {
    /// What it is.
    pub kind: TokenKind,
    /// What is left from the token on.
    pub from: &'a [u8],
    /// What is left from what is in it on: from after the quote of a string or the blanks after the
    /// parenthesis of a url, from the name after `@` or `#`, or from the unit of a dimension or the
    /// percent sign.
    pub inside: &'a [u8],
    /// What is left from the end of that on.
    pub inside_end: &'a [u8],
    /// What is left after the token.
    pub rest: &'a [u8],
}

/// A token, all of which is in it.
fn plain<'a>(kind: TokenKind, from: &'a [u8], rest: &'a [u8]) -> Token<'a>
    ensures { token_of result ≡ plain_of kind from.now rest.now }
{
    Token {
        kind,
        from,
        inside: from,
        inside_end: rest,
        rest,
    }
}

/// A token that ends with what is in it.
fn led<'a>(kind: TokenKind, from: &'a [u8], inside: &'a [u8], rest: &'a [u8]) -> Token<'a>
    ensures { token_of result ≡ led_of kind from.now inside.now rest.now }
{
    Token {
        kind,
        from,
        inside,
        inside_end: rest,
        rest,
    }
}

/// Returns the number of digits at the start.
fn digit_count(bytes: &[u8]) -> usize
    ensures count { result ≡ prefix_len is_digit_byte bytes.now }
    ensures within { result ≤ length bytes.now }
{
    bytes
        .iter()
        .take_while(|byte| byte.is_ascii_digit())
        .count()
}

/// Returns the rest after digits.
fn past_digits(bytes: &[u8]) -> &[u8]
    ensures { result.now ≡ past is_digit_byte bytes.now }
{
    &bytes[digit_count(bytes)..]
}

/// Whether a digit is next.
fn begins_digit(bytes: &[u8]) -> bool
    ensures { result ≡ starts_by is_digit_byte bytes.now }
{
    matches!(bytes, [b'0'..=b'9', ..])
}

/// Returns the rest after a sign, if one is next.
fn past_sign(bytes: &[u8]) -> &[u8]
    ensures { result.now ≡ past_sign_of bytes.now }
{
    match bytes {
        [b'+' | b'-', rest @ ..] => rest,
        _ => bytes,
    }
}

/// Whether a number without a sign begins here.
fn begins_unsigned(bytes: &[u8]) -> bool
    ensures { result ≡ begins_unsigned_of bytes.now }
{
    begins_digit(bytes) || matches!(bytes, [b'.', ..]) && begins_digit(past_one(bytes))
}

/// Whether a number begins here.
fn begins_number(bytes: &[u8]) -> bool
    ensures { result ≡ begins_number_of bytes.now }
{
    begins_unsigned(past_sign(bytes))
}

/// Returns the rest after a full stop and digits, if they are next.
fn past_fraction(bytes: &[u8]) -> &[u8]
    ensures { result.now ≡ past_fraction_of bytes.now }
{
    if matches!(bytes, [b'.', ..]) && begins_digit(past_one(bytes)) {
        past_digits(past_one(bytes))
    } else {
        bytes
    }
}

/// Returns the rest after an `e`, perhaps a sign, and digits, if they are next.
fn past_exponent(bytes: &[u8]) -> &[u8]
    ensures { result.now ≡ past_exponent_of bytes.now }
{
    let after = past_sign(past_one(bytes));
    if matches!(bytes, [b'e' | b'E', ..]) && begins_digit(after) {
        past_digits(after)
    } else {
        bytes
    }
}

/// Returns the rest after a number.
fn past_number(bytes: &[u8]) -> &[u8]
    ensures { result.now ≡ past_number_of bytes.now }
{
    past_exponent(past_fraction(past_digits(past_sign(bytes))))
}

/// Reads what may follow a number: its unit, or a percent sign.
fn after_number<'a>(from: &'a [u8], rest: &'a [u8]) -> Token<'a>
    ensures { token_of result ≡ after_number_of from.now rest.now }
{
    if starts_ident(rest) {
        led(TokenKind::Dimension, from, rest, past_word(rest))
    } else if matches!(rest, [b'%', ..]) {
        led(TokenKind::Percentage, from, rest, past_one(rest))
    } else {
        plain(TokenKind::Number, from, rest)
    }
}

/// Returns the string that begins at `from`, with this quote, by what follows it.
fn string_from<'a>(quote: u8, from: &'a [u8], inside: &'a [u8], end: &'a [u8]) -> Token<'a>
    ensures { token_of result ≡ string_from_of quote from.now inside.now end.now }
{
    match end {
        [] => led(TokenKind::String, from, inside, end),
        [byte, rest @ ..] => {
            if *byte == quote {
                Token {
                    kind: TokenKind::String,
                    from,
                    inside,
                    inside_end: end,
                    rest,
                }
            } else {
                led(TokenKind::BadString, from, inside, end)
            }
        }
    }
}

/// Returns the kind of a url.
fn url_kind(quality: Quality) -> TokenKind
    ensures { result ≡ url_kind_of quality }
{
    if is_good(quality) {
        TokenKind::Url
    } else {
        TokenKind::BadUrl
    }
}

/// Reads the url that begins at `from`, from after its parenthesis.
fn url_from<'a>(from: &'a [u8], after: &'a [u8]) -> Token<'a>
    ensures { token_of result ≡ url_from_of from.now after.now }
{
    let read = read_url(after);
    let inside = past_spaces(after);
    Token {
        kind: url_kind(read.quality),
        from,
        inside,
        inside_end: past_url_parts(inside),
        rest: read.rest,
    }
}

/// Returns the name that begins at `from`, with a parenthesis that follows it.
fn name_from<'a>(from: &'a [u8], end: &'a [u8]) -> Token<'a>
    ensures { token_of result ≡ name_from_of from.now end.now }
{
    match end {
        [b'(', rest @ ..] => Token {
            kind: TokenKind::Function,
            from,
            inside: from,
            inside_end: end,
            rest,
        },
        _ => plain(TokenKind::Ident, from, end),
    }
}

/// Whether a byte of a name or an escape is next.
fn begins_name_part(bytes: &[u8]) -> bool
    ensures { result ≡ begins_name_part_of bytes.now }
{
    match bytes {
        [] => false,
        [byte, ..] => is_name_byte(*byte) || begins_escape(bytes),
    }
}

/// Returns the kind of a hash, by what follows its sign.
fn hash_kind(bytes: &[u8]) -> TokenKind
    ensures { result ≡ hash_kind_of bytes.now }
{
    if starts_ident(bytes) {
        TokenKind::IdHash
    } else {
        TokenKind::Hash
    }
}

/// Reads a hash or a name after `@`, or returns another byte.
fn marked_from<'a>(byte: u8, from: &'a [u8], after: &'a [u8]) -> Token<'a>
    ensures { token_of result ≡ marked_from_of byte from.now after.now }
{
    if byte == b'#' && begins_name_part(after) {
        led(hash_kind(after), from, after, past_word(after))
    } else if byte == b'@' && starts_ident(after) {
        led(TokenKind::AtKeyword, from, after, past_word(after))
    } else {
        plain(TokenKind::Delim, from, after)
    }
}

/// Reads a number, `-->`, `<!--`, a url, a name, or what follows from its first byte.
fn worded_from<'a>(byte: u8, from: &'a [u8], after: &'a [u8]) -> Token<'a>
    requires { from.now ≡ byte ∷ after.now }
    ensures { token_of result ≡ worded_from_of byte after.now }
{
    if begins_number(from) {
        after_number(from, past_number(from))
    } else if begins_cdc(from) {
        plain(TokenKind::Cdc, from, &from[3..])
    } else if begins_cdo(from) {
        plain(TokenKind::Cdo, from, &from[4..])
    } else if begins_url(from) {
        url_from(from, past_url_name(from))
    } else if starts_ident(from) {
        name_from(from, past_word(from))
    } else {
        marked_from(byte, from, after)
    }
}

/// Reads the token that begins with this byte, before what follows it.
#[tactic(auto, unfolding(crate::specs::TokenLists::token_from))]
fn token_from<'a>(byte: u8, from: &'a [u8], after: &'a [u8]) -> Token<'a>
    requires { from.now ≡ byte ∷ after.now }
    ensures { token_of result ≡ token_from_of byte after.now }
{
    if starts_comment(from) {
        plain(TokenKind::Comment, from, read_comment(from).rest)
    } else if is_space(byte) {
        plain(TokenKind::Whitespace, from, past_spaces(from))
    } else if is_quote(byte) {
        string_from(byte, from, after, past_string_parts(after, byte))
    } else {
        worded_from(byte, from, after)
    }
}

/// Reads the next token, if the text does not end here.
#[tactic(auto, unfolding(crate::specs::TokenLists::next_token))]
pub fn read_next(bytes: &[u8]) -> Option<Token<'_>>
    ensures { next_token bytes.now ≡ option_map (λ t. (token_of t, t.rest.now)) result }
{
    match bytes {
        [] => None,
        [byte, after @ ..] => Some(token_from(*byte, bytes, after)),
    }
}

/// An iterator over the tokens of a text, in order. Together they are the text.
#[derive(Drop)]
pub struct Tokenizer<'a> {
    /// What is left of the text.
    rest: &'a [u8],
}

impl<'a> Tokenizer<'a> {
    ghost use Rattle.css_syntax.specs.TokenViews.{BeginsTokens};

    /// Returns an iterator over the tokens of a text.
    pub fn new(text: &'a [u8]) -> Tokenizer<'a>
        ensures { BeginsTokens text.now result }
    {
        Tokenizer { rest: text }
    }
}

impl<'a> Iterator for Tokenizer<'a> {
    ghost use Rattle.std.specs.Iterator.{item_count};
    ghost use Rattle.css_syntax.specs.TokenViews.{tokens_to_come, GivesToken};

    type Item = Token<'a>;

    ghost next_gives = { GivesToken };

    ghost remaining = { item_count tokens_to_come };

    /// Returns the next token.
    fn next(&mut self) -> Option<Token<'a>> {
        match read_next(self.rest) {
            Some(token) => {
                self.rest = token.rest;
                Some(token)
            }
            None => None,
        }
    }
}
