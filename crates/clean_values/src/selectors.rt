//! Selectors, with a prefix of ids and classes.
ghost use Rattle.std.specs.Prelude.{◌≡◌, false, IfOk, option_map, string_bytes};
ghost use Rattle.std.specs.Cow.{cow_str_bytes};
ghost use Rattle.css_syntax.specs.TokenLists.{tokens};
ghost use Rattle.css_syntax.specs.TokenViews.{token_of, text_of};
ghost use Rattle.clean_values.specs.Values.{inside_of, if_text};
ghost use Rattle.clean_values.specs.Selectors.{is_stop as is_stop_token, id_piece, class_piece, named_by};
ghost use Rattle.clean_values.specs.Selectors.{named_tokens as named_tokens_of, named_selector as named_selector_of};
ghost use Rattle.clean_values.specs.Selectors.{is_named_by, are_named as are_named_of, is_selector_named as is_named_of};
ghost use Rattle.clean_values.specs.Views.{piece_of};

use crate::changes::text_in;
use crate::checks::begins_with;
use crate::names::{inside, whole};
use crate::pieces::{Piece, push_piece, written_same};
use css_syntax::tokenizer::{Token, TokenKind, read_next};
use std::alloc::{AllocError, Global};
use std::borrow::CowStr;

/// Whether the token is a full stop, after which the name of a class follows.
fn is_stop(token: &Token<'_>) -> bool
    ensures { result ≡ is_stop_token (token_of token.now) }
{
    match token.kind {
        TokenKind::Delim => matches!(token.from, [b'.', ..]),
        _ => false,
    }
}

/// Returns an id with the prefix, if its bytes are a text.
fn named_id<'a>(prefix: &'a str, bytes: &'a [u8]) -> Option<Piece<'a>>
    ensures { option_map piece_of result ≡ if_text (id_piece prefix.now) bytes.now }
{
    match text_in(bytes) {
        Some(text) => Some(Piece {
            opened: "#",
            prefix,
            text,
            closed: "",
        }),
        None => None,
    }
}

/// Returns a name, with the prefix if it is that of a class, if its bytes are a text.
fn named_word<'a>(prefix: &'a str, stop: bool, bytes: &'a [u8]) -> Option<Piece<'a>>
    ensures { option_map piece_of result ≡ if_text (class_piece prefix.now stop) bytes.now }
{
    match text_in(bytes) {
        Some(text) => Some(Piece {
            opened: "",
            prefix: if stop { prefix } else { "" },
            text,
            closed: "",
        }),
        None => None,
    }
}

/// Returns what is written of a token of a selector, after a full stop or not.
fn named<'a>(prefix: &'a str, stop: bool, token: &Token<'a>) -> Option<Piece<'a>>
    ensures { let t = token_of token.now in
        option_map piece_of result ≡ named_by prefix.now stop t.kind (inside_of t) (text_of t) }
{
    match token.kind {
        TokenKind::Hash | TokenKind::IdHash => named_id(prefix, inside(token)),
        TokenKind::Ident => named_word(prefix, stop, whole(token)),
        _ => written_same(whole(token)),
    }
}

/// Returns the tokens of a selector with the prefix.
fn named_tokens(alloc: Global, prefix: &str, text: &[u8]) -> Result<Option<String>, AllocError>
    ensures { IfOk result (λ out. option_map string_bytes out
        ≡ named_tokens_of prefix.now false (tokens text.now)) }
{
    let mut out = String::new(alloc);
    let mut stop = false;
    let mut rest = text;
    'tokens: while let Some(token) = read_next(rest) {
        let Some(piece) = named(prefix, stop, &token) else {
            return Ok(None);
        };
        push_piece(&mut out, piece)?;
        stop = is_stop(&token);
        rest = token.rest;
    }
    Ok(Some(out))
}

/// Returns a selector in which each id and each class has the prefix. Fails only if an allocation fails.
pub fn named_selector<'a>(
    alloc: Global,
    prefix: &str,
    text: &'a str,
) -> Result<Option<CowStr<'a>>, AllocError>
    ensures { IfOk result (λ out. option_map cow_str_bytes out ≡ named_selector_of prefix.now text.now) }
{
    if prefix.is_empty() {
        return Ok(Some(CowStr::Borrowed(text)));
    }
    match named_tokens(alloc, prefix, text.as_bytes())? {
        Some(named) => Ok(Some(CowStr::Owned(named))),
        None => Ok(None),
    }
}

/// Whether a token of a selector begins with the prefix, if it is an id or a class.
fn is_named(prefix: &[u8], stop: bool, token: &Token<'_>) -> bool
    ensures { let t = token_of token.now in result ≡ is_named_by prefix.now stop t.kind (inside_of t) }
{
    match token.kind {
        TokenKind::Hash | TokenKind::IdHash => begins_with(prefix, inside(token)),
        TokenKind::Ident => !stop || begins_with(prefix, inside(token)),
        _ => true,
    }
}

/// Whether each id and each class of a selector begins with the prefix, which is not empty.
fn are_named(prefix: &[u8], text: &[u8]) -> bool
    ensures { result ≡ are_named_of prefix.now false (tokens text.now) }
{
    let mut stop = false;
    let mut rest = text;
    'tokens: while let Some(token) = read_next(rest) {
        if !is_named(prefix, stop, &token) {
            return false;
        }
        stop = is_stop(&token);
        rest = token.rest;
    }
    true
}

/// Whether each id and each class of a selector begins with the prefix.
pub fn is_selector_named(prefix: &str, text: &[u8]) -> bool
    ensures { result ≡ is_named_of prefix.now text.now }
{
    prefix.is_empty() || are_named(prefix.as_bytes(), text)
}
