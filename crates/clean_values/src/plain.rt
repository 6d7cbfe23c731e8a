//! Values of declarations and names of properties without escapes.
ghost use Rattle.std.specs.Prelude.{◌≡◌, ◌++◌, IfOk, OnOk, string_bytes};
ghost use Rattle.std.specs.Cow.{cow_str_bytes};
ghost use Rattle.css_syntax.specs.Escapes.{decoded_in};
ghost use Rattle.css_syntax.specs.TokenViews.{token_of};
ghost use Rattle.clean_values.specs.Plain.{spelling_of as spelling_of_kind, is_quotable as is_quotable_byte};
ghost use Rattle.clean_values.specs.Plain.{are_quotable as are_quotable_of, is_one_name as is_one_name_of};
ghost use Rattle.clean_values.specs.Plain.{fits as fits_of, spelled as spelled_of, is_string as is_string_of};
ghost use Rattle.clean_values.specs.Plain.{spelled_or as spelled_or_of, unescaped as unescaped_of};
ghost use Rattle.clean_values.specs.Plain.{plain_token as plain_token_of, plain_value as plain_value_of};
ghost use Rattle.clean_values.specs.Plain.{plain_name as plain_name_of};

use crate::changes::text_in;
use crate::names::{has_backslash, inside, whole};
use css_syntax::escapes::{decode, decode_string};
use css_syntax::statements::begins_ident;
use css_syntax::tokenizer::{Token, TokenKind, read_next};
use css_syntax::tokens::past_word;
use std::alloc::{AllocError, Global};
use std::borrow::CowStr;

/// How the text of a token is spelled without escapes.
#[derive(Clone, Copy)]
pub(crate) enum Spelling {
    /// As a name.
    Name,
    /// As the name of a function.
    Function,
    /// As a hash.
    Hash,
    /// As a string.
    String,
    /// Not at all: the token stays as it is.
    Same,
}

/// Returns how the text of a token of this kind is spelled.
fn spelling_of(kind: TokenKind) -> Spelling
    ensures { result ≡ spelling_of_kind kind }
{
    match kind {
        TokenKind::Ident => Spelling::Name,
        TokenKind::Function => Spelling::Function,
        TokenKind::Hash | TokenKind::IdHash => Spelling::Hash,
        TokenKind::String => Spelling::String,
        _ => Spelling::Same,
    }
}

/// Whether a byte may be in a string between double quotes as it is.
fn is_quotable(byte: u8) -> bool
    ensures { result ≡ is_quotable_byte byte }
{
    !matches!(byte, b'"' | b'\n' | b'\r' | 12)
}

/// Whether each byte may be.
fn are_quotable(bytes: &[u8]) -> bool
    ensures { result ≡ are_quotable_of bytes.now }
{
    let mut left = bytes;
    'bytes: while let [byte, more @ ..] = left {
        if !is_quotable(*byte) {
            return false;
        }
        left = more;
    }
    true
}

/// Whether the bytes are one name.
fn is_one_name(bytes: &[u8]) -> bool
    ensures { result ≡ is_one_name_of bytes.now }
{
    begins_ident(bytes) && past_word(bytes).is_empty()
}

/// Whether a token that is spelled so may have these bytes as they are.
fn fits(spelling: Spelling, bytes: &[u8]) -> bool
    ensures { result ≡ fits_of spelling bytes.now }
{
    match spelling {
        Spelling::Name | Spelling::Function => is_one_name(bytes),
        Spelling::Hash => past_word(bytes).is_empty(),
        Spelling::String => are_quotable(bytes),
        Spelling::Same => false,
    }
}

/// Returns what the escapes of a text denote in a token that is spelled so.
fn decoded<'a>(alloc: Global, spelling: Spelling, text: &'a str) -> Result<CowStr<'a>, AllocError>
    ensures { IfOk result (λ found. cow_str_bytes found ≡ decoded_in (is_string_of spelling) text.now) }
{
    match spelling {
        Spelling::String => decode_string(alloc, text),
        Spelling::Name | Spelling::Function | Spelling::Hash | Spelling::Same => {
            decode(alloc, text)
        }
    }
}

/// Appends a token with this text.
fn push_spelled(out: &mut String, spelling: Spelling, text: &str) -> Result<(), AllocError>
    ensures { OnOk result (string_bytes out.new ≡ string_bytes out.old ++ spelled_of spelling text.now) }
{
    match spelling {
        Spelling::Function => {
            out.push_str(text)?;
            out.push('(')
        }
        Spelling::Hash => {
            out.push('#')?;
            out.push_str(text)
        }
        Spelling::String => {
            out.push('"')?;
            out.push_str(text)?;
            out.push('"')
        }
        Spelling::Name | Spelling::Same => out.push_str(text),
    }
}

/// Appends a token with a word, if it may have that, or as it is.
fn push_or(out: &mut String, spelling: Spelling, word: &str, text: &str) -> Result<(), AllocError>
    ensures { OnOk result (string_bytes out.new
        ≡ string_bytes out.old ++ spelled_or_of spelling word.now text.now) }
{
    if fits(spelling, word.as_bytes()) {
        return push_spelled(out, spelling, word);
    }
    out.push_str(text)
}

/// Appends a token that has escapes.
fn push_unescaped(
    alloc: Global,
    out: &mut String,
    spelling: Spelling,
    inside: &[u8],
    text: &str,
) -> Result<(), AllocError>
    ensures { OnOk result (string_bytes out.new
        ≡ string_bytes out.old ++ unescaped_of spelling inside.now text.now) }
{
    let Some(inside) = text_in(inside) else {
        return out.push_str(text);
    };
    let word = decoded(alloc, spelling, inside)?;
    push_or(out, spelling, &word, text)
}

/// Appends a token without escapes, but for those that it needs.
fn push_plain(alloc: Global, out: &mut String, token: &Token<'_>) -> Result<(), AllocError>
    ensures { OnOk result (string_bytes out.new
        ≡ string_bytes out.old ++ plain_token_of (token_of token.now)) }
{
    let Some(text) = text_in(whole(token)) else {
        return Ok(());
    };
    if !has_backslash(text.as_bytes()) {
        return out.push_str(text);
    }
    push_unescaped(alloc, out, spelling_of(token.kind), inside(token), text)
}

/// Returns a value without escapes, but for those that it needs. Fails only if an allocation fails.
pub fn plain_value(alloc: Global, value: &str) -> Result<String, AllocError>
    ensures { IfOk result (λ out. string_bytes out ≡ plain_value_of value.now) }
{
    let mut out = String::new(alloc);
    let mut rest = value.as_bytes();
    'tokens: while let Some(token) = read_next(rest) {
        push_plain(alloc, &mut out, &token)?;
        rest = token.rest;
    }
    Ok(out)
}

/// Returns the name of a property without escapes, if it needs none. Fails only if an allocation fails.
pub fn plain_name(alloc: Global, name: &str) -> Result<String, AllocError>
    ensures { IfOk result (λ out. string_bytes out ≡ plain_name_of name.now) }
{
    let mut out = String::new(alloc);
    let word = decode(alloc, name)?;
    push_or(&mut out, Spelling::Name, &word, name)?;
    Ok(out)
}
