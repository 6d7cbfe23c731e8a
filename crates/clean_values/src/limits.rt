//! Limits of values: which numbers and which words a value of a property may have.
ghost use Rattle.std.specs.Prelude.{◌≡◌, ◌&&◌, map, option_map};
ghost use Rattle.css_syntax.specs.TokenLists.{tokens};
ghost use Rattle.css_syntax.specs.TokenViews.{token_of};
ghost use Rattle.clean_values.specs.Limits.{reaches_down as reaches_down_of, reaches_up as reaches_up_of};
ghost use Rattle.clean_values.specs.Limits.{holds_at_most, holds_at_least, is_between as is_between_of, amount as amount_of};
ghost use Rattle.clean_values.specs.Limits.{is_word as is_word_kind, has_word as has_word_of, keeps_by, all_keep};
ghost use Rattle.clean_values.specs.Limits.{limit_of as limit_of_text, is_within_limit as is_within_limit_of};
ghost use Rattle.clean_values.specs.Values.{inside_of};
ghost use Rattle.clean_values.specs.Views.{limits_of};
ghost use Rattle.css_syntax.specs.Tokens.{spells as spells_of};

use crate::names::{has_backslash, inside, is_name};
use crate::numbers::{Amount, at_most, token_amount};
use css_syntax::tokenizer::{Token, TokenKind, read_next};
use css_syntax::tokens::spells;

/// Limits of the values of properties.
#[derive(Clone, Copy)]
pub struct Limits<'p> {
    /// The properties, in lower case.
    pub properties: &'p [&'p str],
    /// The limit of each: two numbers, between which each number of a value must be, and the words that it may
    /// have, as in `-50 500 auto`. Absolute lengths count in pixels, and all else by its number.
    pub limits: &'p [&'p str],
}

/// Whether the token is a number that is at most this one.
fn is_at_most(token: &Token<'_>, it: Amount) -> bool
    ensures { result ≡ holds_at_most (amount_of (token_of token.now)) it }
{
    match token_amount(token) {
        Some(bound) => at_most(bound, it),
        None => false,
    }
}

/// Whether the token is a number that is at least this one.
fn is_at_least(token: &Token<'_>, it: Amount) -> bool
    ensures { result ≡ holds_at_least (amount_of (token_of token.now)) it }
{
    match token_amount(token) {
        Some(bound) => at_most(it, bound),
        None => false,
    }
}

/// Whether one of the numbers of a limit is at most this one.
fn reaches_down(limit: &str, it: Amount) -> bool
    ensures { result ≡ reaches_down_of (tokens limit.now) it }
{
    let mut rest = limit.as_bytes();
    'tokens: while let Some(token) = read_next(rest) {
        if is_at_most(&token, it) {
            return true;
        }
        rest = token.rest;
    }
    false
}

/// Whether one of the numbers of a limit is at least this one.
fn reaches_up(limit: &str, it: Amount) -> bool
    ensures { result ≡ reaches_up_of (tokens limit.now) it }
{
    let mut rest = limit.as_bytes();
    'tokens: while let Some(token) = read_next(rest) {
        if is_at_least(&token, it) {
            return true;
        }
        rest = token.rest;
    }
    false
}

/// Whether a token is a number between those of a limit.
fn is_between(limit: &str, token: &Token<'_>) -> bool
    ensures { result ≡ is_between_of limit.now (amount_of (token_of token.now)) }
{
    match token_amount(token) {
        Some(it) => reaches_down(limit, it) && reaches_up(limit, it),
        None => false,
    }
}

/// Whether the token is this word.
fn is_word(token: &Token<'_>, word: &[u8]) -> bool
    ensures { let t = token_of token.now in
        result ≡ (is_word_kind t.kind && spells_of (inside_of t) word.now) }
{
    match token.kind {
        TokenKind::Ident => spells(inside(token), word),
        _ => false,
    }
}

/// Whether the word is one of those of a limit.
fn has_word(limit: &str, word: &[u8]) -> bool
    ensures { result ≡ has_word_of (tokens limit.now) word.now }
{
    let mut rest = limit.as_bytes();
    'tokens: while let Some(token) = read_next(rest) {
        if is_word(&token, word) {
            return true;
        }
        rest = token.rest;
    }
    false
}

/// Whether a value with the limit may have the token.
fn keeps_token(limit: &str, token: &Token<'_>) -> bool
    ensures { let t = token_of token.now in result ≡ keeps_by limit.now t.kind t }
{
    match token.kind {
        TokenKind::Whitespace => true,
        TokenKind::Ident => has_word(limit, inside(token)),
        TokenKind::Number | TokenKind::Percentage | TokenKind::Dimension => {
            is_between(limit, token)
        }
        TokenKind::Delim => matches!(token.from, [b',' | b'/', ..]),
        _ => false,
    }
}

/// Whether a value has no token that a limit does not let in.
fn are_kept(limit: &str, value: &[u8]) -> bool
    ensures { result ≡ all_keep limit.now (tokens value.now) }
{
    let mut rest = value;
    'tokens: while let Some(token) = read_next(rest) {
        if !keeps_token(limit, &token) {
            return false;
        }
        rest = token.rest;
    }
    true
}

/// Returns the limit of a property, if it has one.
fn limit_of<'p>(limits: Limits<'p>, name: &[u8]) -> Option<&'p str>
    ensures { let l = limits_of limits.entry in
        option_map (λ text. text.now) result ≡ limit_of_text l.properties l.limits name.now }
{
    let is_plain = !has_backslash(name);
    let mut properties = limits.properties;
    let mut texts = limits.limits;
    'properties: while let [one, more @ ..] = properties {
        let [text, others @ ..] = texts else {
            return None;
        };
        if is_name(one.as_bytes(), name, is_plain) {
            return Some(*text);
        }
        properties = more;
        texts = others;
    }
    None
}

/// Whether a value of a property is within the limit of the property, if that has one.
pub fn is_within_limit(limits: Limits<'_>, name: &[u8], value: &[u8]) -> bool
    ensures { result ≡ is_within_limit_of (limits_of limits.entry) name.now value.now }
{
    match limit_of(limits, name) {
        Some(limit) => are_kept(limit, value),
        None => true,
    }
}
