//! The tokens of a page, one after another.
ghost use Rattle.std.specs.Prelude.{◌≡◌, ◌∷◌, codes, option_map};
ghost use Rattle.css_text.specs.Bytes.{starts_by};
ghost use Rattle.css_text.specs.Characters.{is_letter as is_letter_byte};
ghost use Rattle.css_html.specs.Tokens.{whole as whole_of, framed as framed_of, tag_end as tag_end_of};
ghost use Rattle.css_html.specs.Tokens.{tag_from as tag_from_of, comment_from as comment_from_of};
ghost use Rattle.css_html.specs.Tokens.{up_to_close as up_to_close_of, begins_letters};
ghost use Rattle.css_html.specs.Tokens.{begins_cdata as begins_cdata_of};
ghost use Rattle.css_html.specs.Tokens.{declared_from as declared_from_of};
ghost use Rattle.css_html.specs.Tokens.{closed_from as closed_from_of, markup_from as markup_from_of};
ghost use Rattle.css_html.specs.Tokens.{marked_token as marked_token_of, raw_token as raw_token_of};
ghost use Rattle.css_html.specs.Tokens.{token_from as token_from_of, next_token};
ghost use Rattle.css_html.specs.Views.{token_of};

use crate::attributes::past_attributes;
use crate::marks::{
    begins_close, begins_markup, from_byte, from_cdata_close, from_comment_close, from_end_tag,
    from_script_end, is_letter, past_bytes, past_letters, past_name, past_text,
};
use crate::modes::{Mode, letters_of};

/// What a token is.
#[derive(Clone, Copy, Debug, PartialEq)]
pub enum TokenKind {
    /// Text.
    Text,
    /// A start tag.
    StartTag,
    /// An end tag.
    EndTag,
    /// A comment.
    Comment,
    /// A document type.
    Doctype,
    /// A CDATA section.
    Cdata,
    /// `</>`, which browsers ignore.
    Nothing,
    /// A tag that the end of the page cuts off, which browsers ignore.
    Cut,
}

/// A token and its place. Each place is what is left of the page from there on.
#[derive(Clone, Copy, Debug, PartialEq)]
pub struct Token<'a> {
    /// What it is.
    pub kind: TokenKind,
    /// What is left from the token on.
    pub from: &'a [u8],
    /// What is left from what is in it on.
    pub inside: &'a [u8],
    /// What is left after that: of a tag, from its attributes on.
    pub inside_end: &'a [u8],
    /// What is left after the token.
    pub rest: &'a [u8],
}

/// A token, all of which is in it.
fn whole<'a>(kind: TokenKind, from: &'a [u8], rest: &'a [u8]) -> Token<'a>
    ensures { token_of result ≡ whole_of kind from.now rest.now }
{
    Token {
        kind,
        from,
        inside: from,
        inside_end: rest,
        rest,
    }
}

/// A token with what is in it, and `n` bytes after that.
fn framed<'a>(
    kind: TokenKind,
    from: &'a [u8],
    inside: &'a [u8],
    end: &'a [u8],
    n: usize,
) -> Token<'a>
    ensures { token_of result ≡ framed_of kind from.now inside.now end.now n }
{
    Token {
        kind,
        from,
        inside,
        inside_end: end,
        rest: past_bytes(end, n),
    }
}

/// A tag, by what follows its attributes: `>`, or the end of the page, which cuts it off.
fn tag_end<'a>(
    kind: TokenKind,
    from: &'a [u8],
    name: &'a [u8],
    name_end: &'a [u8],
    end: &'a [u8],
) -> Token<'a>
    ensures { token_of result ≡ tag_end_of kind from.now name.now name_end.now end.now }
{
    match end {
        [] => Token {
            kind: TokenKind::Cut,
            from,
            inside: name,
            inside_end: name_end,
            rest: end,
        },
        [_, rest @ ..] => Token {
            kind,
            from,
            inside: name,
            inside_end: name_end,
            rest,
        },
    }
}

/// Reads a tag whose name begins here.
#[tactic(auto, unfolding(crate::specs::Tokens::tag_from))]
fn tag_from<'a>(kind: TokenKind, from: &'a [u8], name: &'a [u8]) -> Token<'a>
    ensures { token_of result ≡ tag_from_of kind from.now name.now }
{
    let name_end = past_name(name);
    tag_end(kind, from, name, name_end, past_attributes(name_end))
}

/// Reads a comment from after its `<!--` on.
fn comment_from<'a>(from: &'a [u8], inside: &'a [u8]) -> Token<'a>
    ensures { token_of result ≡ comment_from_of from.now inside.now }
{
    match inside {
        [b'>', ..] => framed(TokenKind::Comment, from, inside, inside, 1),
        [b'-', b'>', ..] => framed(TokenKind::Comment, from, inside, inside, 2),
        _ => {
            let end = from_comment_close(inside);
            let n = if begins_close(end) { 3 } else { 4 };
            framed(TokenKind::Comment, from, inside, end, n)
        }
    }
}

/// Reads what ends at the first `>`.
fn up_to_close<'a>(kind: TokenKind, from: &'a [u8], inside: &'a [u8]) -> Token<'a>
    ensures { token_of result ≡ up_to_close_of kind from.now inside.now }
{
    framed(kind, from, inside, from_byte(inside, b'>'), 1)
}

/// Whether the bytes begin with `[CDATA[`.
fn begins_cdata(bytes: &[u8]) -> bool
    ensures { result ≡ begins_cdata_of bytes.now }
{
    matches!(bytes, [b'[', b'C', b'D', b'A', b'T', b'A', b'[', ..])
}

const DOCTYPE: &[u8] = b"doctype";

/// Whether the bytes begin with `doctype` in any case.
fn begins_doctype(bytes: &[u8]) -> bool
    ensures { result ≡ begins_letters (codes "doctype") bytes.now }
{
    past_letters(DOCTYPE, bytes).is_some()
}

/// Reads what follows `<!`.
#[tactic(auto, unfolding(crate::specs::Tokens::declared_from))]
fn declared_from<'a>(foreign: bool, from: &'a [u8], bytes: &'a [u8]) -> Token<'a>
    ensures { token_of result ≡ declared_from_of foreign from.now bytes.now }
{
    if matches!(bytes, [b'-', b'-', ..]) {
        comment_from(from, past_bytes(bytes, 2))
    } else if begins_doctype(bytes) {
        up_to_close(TokenKind::Doctype, from, bytes)
    } else if foreign && begins_cdata(bytes) {
        let inside = past_bytes(bytes, 7);
        framed(TokenKind::Cdata, from, inside, from_cdata_close(inside), 3)
    } else {
        up_to_close(TokenKind::Comment, from, bytes)
    }
}

/// Whether a letter is next.
fn begins_letter(bytes: &[u8]) -> bool
    ensures { result ≡ starts_by is_letter_byte bytes.now }
{
    matches!(bytes, [byte, ..] if is_letter(*byte))
}

/// Reads what follows `</`.
#[tactic(auto, unfolding(crate::specs::Tokens::closed_from))]
fn closed_from<'a>(from: &'a [u8], bytes: &'a [u8]) -> Token<'a>
    ensures { token_of result ≡ closed_from_of from.now bytes.now }
{
    if begins_letter(bytes) {
        tag_from(TokenKind::EndTag, from, bytes)
    } else if matches!(bytes, [b'>', ..]) {
        up_to_close(TokenKind::Nothing, from, bytes)
    } else {
        up_to_close(TokenKind::Comment, from, bytes)
    }
}

/// Reads what follows a `<` that begins markup.
fn markup_from<'a>(foreign: bool, from: &'a [u8], bytes: &'a [u8]) -> Token<'a>
    ensures { token_of result ≡ markup_from_of foreign from.now bytes.now }
{
    if begins_letter(bytes) {
        tag_from(TokenKind::StartTag, from, bytes)
    } else if matches!(bytes, [b'/', ..]) {
        closed_from(from, past_bytes(bytes, 1))
    } else if matches!(bytes, [b'!', ..]) {
        declared_from(foreign, from, past_bytes(bytes, 1))
    } else {
        up_to_close(TokenKind::Comment, from, bytes)
    }
}

/// Reads the token that begins with this byte, where text is markup.
fn marked_token<'a>(foreign: bool, byte: u8, from: &'a [u8], after: &'a [u8]) -> Token<'a>
    requires { from.now ≡ byte ∷ after.now }
    ensures { token_of result ≡ marked_token_of foreign byte after.now }
{
    if begins_markup(from) {
        markup_from(foreign, from, after)
    } else {
        whole(TokenKind::Text, from, past_text(after))
    }
}

/// Reads a text up to an end tag, or that end tag where it is next.
fn raw_token<'a>(from: &'a [u8], end: &'a [u8]) -> Token<'a>
    ensures { token_of result ≡ raw_token_of from.now end.now }
{
    if end.len() == from.len() {
        tag_from(TokenKind::EndTag, from, past_bytes(from, 2))
    } else {
        whole(TokenKind::Text, from, end)
    }
}

/// Reads the token that begins with this byte, before what follows it.
#[tactic(auto, unfolding(crate::specs::Tokens::token_from))]
fn token_from<'a>(mode: Mode, byte: u8, from: &'a [u8], after: &'a [u8]) -> Token<'a>
    requires { from.now ≡ byte ∷ after.now }
    ensures { token_of result ≡ token_from_of mode byte after.now }
{
    match mode {
        Mode::Data => marked_token(false, byte, from, after),
        Mode::Foreign => marked_token(true, byte, from, after),
        Mode::Raw(name) => raw_token(from, from_end_tag(from, letters_of(name))),
        Mode::Script => raw_token(from, from_script_end(from)),
        Mode::Plaintext => whole(TokenKind::Text, from, &[]),
    }
}

/// Reads the next token in this mode, if the page does not end here.
#[tactic(auto, unfolding(crate::specs::Tokens::next_token))]
pub fn read_next(mode: Mode, bytes: &[u8]) -> Option<Token<'_>>
    ensures { next_token mode bytes.now ≡ option_map (λ t. (token_of t, t.rest.now)) result }
{
    match bytes {
        [] => None,
        [byte, after @ ..] => Some(token_from(mode, *byte, bytes, after)),
    }
}
