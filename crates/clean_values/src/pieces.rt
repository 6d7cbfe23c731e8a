//! What is written of a token.
ghost use Rattle.std.specs.Prelude.{◌≡◌, ◌++◌, true, false, IfOk, OnOk, option_map, string_bytes};
ghost use Rattle.css_syntax.specs.TokenViews.{token_of};
ghost use Rattle.clean_values.specs.Values.{piece_text, url_piece as url_piece_of, string_piece as string_piece_of};
ghost use Rattle.clean_values.specs.Values.{same_piece as same_piece_of, word_piece as word_piece_of};
ghost use Rattle.clean_values.specs.Values.{written_token, if_text, answer_to as answer_to_bytes};
ghost use Rattle.clean_values.specs.Views.{changes_of, piece_of};
ghost use Rattle.clean_values.specs.Values.{written_string as written_string_of};

use crate::changes::{Changes, answer_to, text_in};
use crate::names::{inside, is_dashed, is_listed, whole};
use css_syntax::texts::past_byte;
use css_syntax::tokenizer::{Token, TokenKind};
use std::alloc::{AllocError, Global};

/// What is written of a token.
#[derive(Clone, Copy)]
pub(crate) struct Piece<'a> {
    /// What opens it.
    pub opened: &'a str,
    /// The prefix of a name.
    pub prefix: &'a str,
    /// The text.
    pub text: &'a str,
    /// What closes it.
    pub closed: &'a str,
}

/// How the tokens of a value are written.
#[derive(Clone, Copy)]
pub(crate) struct Uses {
    /// Whether strings are urls.
    pub sources: bool,
    /// Whether words are names.
    pub named: bool,
}

/// Returns a url by its answer.
fn url_piece(answer: &str) -> Piece<'_>
    ensures { piece_of result ≡ url_piece_of answer.now }
{
    Piece {
        opened: "url(\"",
        prefix: "",
        text: answer,
        closed: "\")",
    }
}

/// Returns a string by an answer.
fn string_piece(answer: &str) -> Piece<'_>
    ensures { piece_of result ≡ string_piece_of answer.now }
{
    Piece {
        opened: "\"",
        prefix: "",
        text: answer,
        closed: "\"",
    }
}

/// Returns a token as it is.
fn same_piece(text: &str) -> Piece<'_>
    ensures { piece_of result ≡ same_piece_of text.now }
{
    Piece {
        opened: "",
        prefix: "",
        text,
        closed: "",
    }
}

/// Returns a word with the prefix, if it is a name.
pub(crate) fn word_piece<'a>(changes: Changes<'a>, named: bool, word: &'a str) -> Piece<'a>
    ensures { piece_of result ≡ word_piece_of (changes_of changes.entry) named word.now }
{
    if is_dashed(word.as_bytes()) {
        Piece {
            opened: "--",
            prefix: changes.prefix,
            text: past_byte(past_byte(word, b'-'), b'-'),
            closed: "",
        }
    } else if named && !is_listed(changes.words, word.as_bytes()) {
        Piece {
            opened: "",
            prefix: changes.prefix,
            text: word,
            closed: "",
        }
    } else {
        same_piece(word)
    }
}

/// Returns a url by its answer, if it has one.
fn written_url<'a>(
    alloc: Global,
    changes: Changes<'a>,
    inside: &[u8],
) -> Result<Option<Piece<'a>>, AllocError>
    ensures { IfOk result (λ out. option_map piece_of out
        ≡ option_map url_piece_of (answer_to_bytes (changes_of changes.entry) false inside.now)) }
{
    match answer_to(alloc, changes, false, inside)? {
        Some(answer) => Ok(Some(url_piece(answer))),
        None => Ok(None),
    }
}

/// Returns a string by the answer to the url that it is, if it has one.
fn written_source<'a>(
    alloc: Global,
    changes: Changes<'a>,
    inside: &[u8],
) -> Result<Option<Piece<'a>>, AllocError>
    ensures { IfOk result (λ out. option_map piece_of out
        ≡ option_map string_piece_of (answer_to_bytes (changes_of changes.entry) true inside.now)) }
{
    match answer_to(alloc, changes, true, inside)? {
        Some(answer) => Ok(Some(string_piece(answer))),
        None => Ok(None),
    }
}

/// Returns what is written of a string.
fn written_string<'a>(
    alloc: Global,
    changes: Changes<'a>,
    uses: Uses,
    inside: &[u8],
    bytes: &'a [u8],
) -> Result<Option<Piece<'a>>, AllocError>
    ensures { IfOk result (λ out. option_map piece_of out
        ≡ written_string_of (changes_of changes.entry) uses.sources uses.named inside.now bytes.now) }
{
    if uses.sources {
        return written_source(alloc, changes, inside);
    }
    if uses.named {
        return Ok(None);
    }
    Ok(written_same(bytes))
}

/// Returns a token as it is, if its bytes are a text.
pub(crate) fn written_same(bytes: &[u8]) -> Option<Piece<'_>>
    ensures { option_map piece_of result ≡ if_text same_piece_of bytes.now }
{
    match text_in(bytes) {
        Some(text) => Some(same_piece(text)),
        None => None,
    }
}

/// Returns a word, if its bytes are a text.
fn written_word<'a>(changes: Changes<'a>, named: bool, bytes: &'a [u8]) -> Option<Piece<'a>>
    ensures { option_map piece_of result
        ≡ if_text (word_piece_of (changes_of changes.entry) named) bytes.now }
{
    match text_in(bytes) {
        Some(text) => Some(word_piece(changes, named, text)),
        None => None,
    }
}

/// Returns what is written of a token, if it is no url without an answer.
pub(crate) fn written<'a>(
    alloc: Global,
    changes: Changes<'a>,
    uses: Uses,
    token: &Token<'a>,
) -> Result<Option<Piece<'a>>, AllocError>
    ensures { IfOk result (λ out. option_map piece_of out
        ≡ written_token (changes_of changes.entry) uses.sources uses.named (token_of token.now)) }
{
    match token.kind {
        TokenKind::Url => written_url(alloc, changes, inside(token)),
        TokenKind::String => { written_string(alloc, changes, uses, inside(token), whole(token)) }
        TokenKind::Ident => Ok(written_word(changes, uses.named, whole(token))),
        _ => Ok(written_same(whole(token))),
    }
}

/// Appends a piece.
pub(crate) fn push_piece(out: &mut String, piece: Piece<'_>) -> Result<(), AllocError>
    ensures { OnOk result (string_bytes out.new ≡ string_bytes out.old ++ piece_text (piece_of piece.entry)) }
{
    out.push_str(piece.opened)?;
    out.push_str(piece.prefix)?;
    out.push_str(piece.text)?;
    out.push_str(piece.closed)
}
