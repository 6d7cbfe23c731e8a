//! The tokens of an XML document, one after another.
ghost use Rattle.std.specs.Prelude.{◌≡◌, ◌≤◌, ◌∷◌, length, drop, option_map, codes, nat_eq, Option, None, Some};
ghost use Rattle.std.specs.List.{prefix_len, starts_with};
ghost use Rattle.css_text.specs.Bytes.{past};
ghost use Rattle.css_html.specs.Marks.{is_in_name as is_in_name_byte};
ghost use Rattle.css_html.specs.Tokens.{whole as whole_of, tag_end as tag_end_of};
ghost use Rattle.css_html.specs.Views.{token_of};
ghost use Rattle.css_xml.specs.Tokens.{is_in_text as is_in_text_byte, from_mark as from_mark_of};
ghost use Rattle.css_xml.specs.Tokens.{quote_after as quote_after_byte, ends_tag as ends_tag_of, from_tag_end as from_tag_end_of};
ghost use Rattle.css_xml.specs.Tokens.{tag_from as tag_from_of, closed as closed_of, comment_end as comment_end_of};
ghost use Rattle.css_xml.specs.Tokens.{declared_from as declared_from_of, markup_from as markup_from_of};
ghost use Rattle.css_xml.specs.Tokens.{token_from as token_from_of, next_token, is_empty_tag as is_empty_tag_of};
ghost use Rattle.css_xml.specs.Tokens.{is_instruction as is_instruction_of, tag_name as tag_name_of};

use crate::doctypes::from_doctype_end;
use css_html::marks::text_between;
use css_html::tokenizer::{Token, TokenKind};

const HYPHENS: &[u8] = b"--";

const COMMENT_END: &[u8] = b"-->";

const CDATA: &[u8] = b"[CDATA[";

const CDATA_END: &[u8] = b"]]>";

const DOCTYPE: &[u8] = b"DOCTYPE";

const INSTRUCTION: &[u8] = b"<?";

const INSTRUCTION_END: &[u8] = b"?>";

const EMPTY_END: &[u8] = b"/>";

/// Returns the rest after these bytes, or nothing.
pub(crate) fn past_bytes(bytes: &[u8], n: usize) -> &[u8]
    ensures { result.now ≡ drop n bytes.now }
{
    &bytes[n.min(bytes.len())..]
}

/// Returns the number of bytes of a text before the next markup.
fn text_count(bytes: &[u8]) -> usize
    ensures count { result ≡ prefix_len is_in_text_byte bytes.now }
    ensures within { result ≤ length bytes.now }
{
    bytes.iter().take_while(|byte| **byte != b'<').count()
}

/// Returns the rest after a text: the next markup, or nothing.
fn past_text(bytes: &[u8]) -> &[u8]
    ensures { result.now ≡ past is_in_text_byte bytes.now }
{
    &bytes[text_count(bytes)..]
}

/// Whether a byte is in the name of a tag.
#[inline(always)]
fn is_in_name(byte: u8) -> bool
    ensures { result ≡ is_in_name_byte byte }
{
    !matches!(byte, b' ' | b'\t' | b'\n' | b'\r' | b'\x0C' | b'/' | b'>')
}

/// Returns the number of bytes of a tag's name at the start.
fn name_count(bytes: &[u8]) -> usize
    ensures count { result ≡ prefix_len is_in_name_byte bytes.now }
    ensures within { result ≤ length bytes.now }
{
    bytes.iter().take_while(|byte| is_in_name(**byte)).count()
}

/// Returns the rest after the bytes of a tag's name.
fn past_name(bytes: &[u8]) -> &[u8]
    ensures { result.now ≡ past is_in_name_byte bytes.now }
{
    &bytes[name_count(bytes)..]
}

/// Returns the rest from the first of these bytes on, or nothing.
#[tactic(auto, unfolding(crate::specs::Tokens::from_mark))]
fn from_mark<'a>(bytes: &'a [u8], mark: &[u8]) -> &'a [u8]
    ensures { result.now ≡ from_mark_of mark.now bytes.now }
{
    let mut rest = bytes;
    'mark: while let [_, after @ ..] = rest {
        if rest.starts_with(mark) {
            return rest;
        }
        rest = after;
    }
    rest
}

/// Returns the quote that a place in a tag is in after one more byte, if it is in one.
#[inline(always)]
fn quote_after(quote: Option<u8>, byte: u8) -> Option<u8>
    ensures { result ≡ quote_after_byte quote byte }
{
    match quote {
        None if byte == b'\'' || byte == b'"' => Some(byte),
        Some(quote) if byte != quote => Some(quote),
        _ => None,
    }
}

/// Whether a byte is the `>` that ends a tag.
#[inline(always)]
fn ends_tag(quote: Option<u8>, byte: u8) -> bool
    ensures { result ≡ ends_tag_of quote byte }
{
    quote.is_none() && byte == b'>'
}

/// Returns the rest from the first `>` that is not in quotes on, or nothing.
#[tactic(auto, unfolding(crate::specs::Tokens::from_tag_end))]
fn from_tag_end(bytes: &[u8]) -> &[u8]
    ensures { result.now ≡ from_tag_end_of Option.None bytes.now }
{
    let mut quote: Option<u8> = None;
    let mut rest = bytes;
    'tag: while let [byte, after @ ..] = rest {
        if ends_tag(quote, *byte) {
            return rest;
        }
        quote = quote_after(quote, *byte);
        rest = after;
    }
    rest
}

/// A tag, by its end: `>`, or nothing, which cuts it off.
fn tag_end<'a>(
    kind: TokenKind,
    from: &'a [u8],
    name: &'a [u8],
    name_end: &'a [u8],
    end: &'a [u8],
) -> Token<'a>
    ensures { token_of result ≡ tag_end_of kind from.now name.now name_end.now end.now }
{
    match end {
        [] => Token {
            kind: TokenKind::Cut,
            from,
            inside: name,
            inside_end: name_end,
            rest: end,
        },
        [_, rest @ ..] => Token {
            kind,
            from,
            inside: name,
            inside_end: name_end,
            rest,
        },
    }
}

/// Reads a tag whose name begins here.
fn tag_from<'a>(kind: TokenKind, from: &'a [u8], name: &'a [u8]) -> Token<'a>
    ensures { token_of result ≡ tag_from_of kind from.now name.now }
{
    tag_end(kind, from, name, past_name(name), from_tag_end(name))
}

/// A token with what is in it, and its end, of `n` bytes, which nothing is if it is cut off.
fn closed<'a>(
    kind: TokenKind,
    from: &'a [u8],
    inside: &'a [u8],
    end: &'a [u8],
    n: usize,
) -> Token<'a>
    ensures { token_of result ≡ closed_of kind from.now inside.now end.now n }
{
    let kind = match end {
        [] => TokenKind::Cut,
        [_, ..] => kind,
    };
    Token {
        kind,
        from,
        inside,
        inside_end: end,
        rest: past_bytes(end, n),
    }
}

/// Returns what is after the first `--` of a comment, if it ends there, or nothing.
fn comment_end(end: &[u8]) -> &[u8]
    ensures { result.now ≡ comment_end_of end.now }
{
    if end.starts_with(COMMENT_END) {
        end
    } else {
        &[]
    }
}

/// Reads what follows `<!`.
fn declared_from<'a>(from: &'a [u8], bytes: &'a [u8]) -> Token<'a>
    ensures { token_of result ≡ declared_from_of from.now bytes.now }
{
    if bytes.starts_with(HYPHENS) {
        let inside = past_bytes(bytes, 2);
        let end = comment_end(from_mark(inside, HYPHENS));
        closed(TokenKind::Comment, from, inside, end, 3)
    } else if bytes.starts_with(CDATA) {
        let inside = past_bytes(bytes, 7);
        closed(
            TokenKind::Cdata,
            from,
            inside,
            from_mark(inside, CDATA_END),
            3,
        )
    } else if bytes.starts_with(DOCTYPE) {
        let end = from_doctype_end(past_bytes(bytes, 7));
        closed(TokenKind::Doctype, from, bytes, end, 1)
    } else {
        closed(TokenKind::Cut, from, bytes, &[], 0)
    }
}

/// Reads what follows `<`.
fn markup_from<'a>(from: &'a [u8], bytes: &'a [u8]) -> Token<'a>
    ensures { token_of result ≡ markup_from_of from.now bytes.now }
{
    if matches!(bytes, [b'/', ..]) {
        tag_from(TokenKind::EndTag, from, past_bytes(bytes, 1))
    } else if matches!(bytes, [b'!', ..]) {
        declared_from(from, past_bytes(bytes, 1))
    } else if matches!(bytes, [b'?', ..]) {
        let inside = past_bytes(bytes, 1);
        let end = from_mark(inside, INSTRUCTION_END);
        closed(TokenKind::Comment, from, inside, end, 2)
    } else {
        tag_from(TokenKind::StartTag, from, bytes)
    }
}

/// A text up to a rest.
fn whole<'a>(from: &'a [u8], rest: &'a [u8]) -> Token<'a>
    ensures { token_of result ≡ whole_of TokenKind.Text from.now rest.now }
{
    Token {
        kind: TokenKind::Text,
        from,
        inside: from,
        inside_end: rest,
        rest,
    }
}

/// Reads the token that begins with this byte, before what follows it.
#[tactic(auto, unfolding(crate::specs::Tokens::token_from))]
fn token_from<'a>(byte: u8, from: &'a [u8], after: &'a [u8]) -> Token<'a>
    requires { from.now ≡ byte ∷ after.now }
    ensures { token_of result ≡ token_from_of byte after.now }
{
    if byte == b'<' {
        markup_from(from, after)
    } else {
        whole(from, past_text(after))
    }
}

/// Reads the next token, if the document does not end here.
#[tactic(auto, unfolding(crate::specs::Tokens::next_token))]
pub fn read_next(bytes: &[u8]) -> Option<Token<'_>>
    ensures { next_token bytes.now ≡ option_map (λ t. (token_of t, t.rest.now)) result }
{
    match bytes {
        [] => None,
        [byte, after @ ..] => Some(token_from(*byte, bytes, after)),
    }
}

/// Returns the name of a tag, as written.
pub fn tag_name<'a>(tag: &Token<'a>) -> &'a [u8]
    ensures { result.now ≡ tag_name_of (token_of tag.now) }
{
    text_between(tag.inside, tag.inside_end)
}

/// Whether a tag is that of an element without content.
pub fn is_empty_tag(tag: &Token<'_>) -> bool
    ensures { result ≡ is_empty_tag_of (token_of tag.now) }
{
    text_between(tag.from, tag.rest).ends_with(EMPTY_END)
}

/// Whether a token is a processing instruction, and no comment.
pub fn is_instruction(token: &Token<'_>) -> bool
    ensures { result ≡ is_instruction_of (token_of token.now) }
{
    token.from.starts_with(INSTRUCTION)
}
