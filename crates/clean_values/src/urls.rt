//! The urls of a text.
ghost use Rattle.std.specs.Prelude.{◌≡◌, ◌++◌, IfOk, OnOk, string_bytes};
ghost use Rattle.css_syntax.specs.TokenLists.{tokens};
ghost use Rattle.css_syntax.specs.TokenViews.{token_of};
ghost use Rattle.css_syntax.specs.Escapes.{decoded_in};
ghost use Rattle.clean_values.specs.Urls.{ends_declaration as ends_declaration_of, strings_after as strings_after_of};
ghost use Rattle.clean_values.specs.Urls.{url_by, urls_of, urls_text, url_spelled, string_url};
ghost use Rattle.clean_values.specs.Values.{inside_of};

use crate::changes::text_in;
use crate::names::{inside, is_source};
use css_syntax::escapes::{decode, decode_string};
use css_syntax::tokenizer::{Token, TokenKind, read_next};
use std::alloc::{AllocError, Global};

/// Whether the token ends a declaration: a semicolon or a brace.
fn ends_declaration(token: &Token<'_>) -> bool
    ensures { let t = token_of token.now in result ≡ ends_declaration_of t.kind t.from }
{
    match token.kind {
        TokenKind::Delim => matches!(token.from, [b';' | b'{' | b'}', ..]),
        _ => false,
    }
}

/// Whether strings are urls after the token, where they are before it or are not.
fn strings_after(strings: bool, token: &Token<'_>) -> bool
    ensures { result ≡ strings_after_of strings (token_of token.now) }
{
    !ends_declaration(token) && (strings || is_source(token))
}

/// Appends the url that the bytes spell, as in a string or as elsewhere, and a byte 0.
fn push_spelled(
    alloc: Global,
    out: &mut String,
    in_string: bool,
    bytes: &[u8],
) -> Result<(), AllocError>
    ensures { OnOk result (string_bytes out.new ≡ string_bytes out.old
        ++ urls_text (url_spelled in_string bytes.now)) }
{
    let Some(text) = text_in(bytes) else {
        return Ok(());
    };
    let url = if in_string {
        decode_string(alloc, text)?
    } else {
        decode(alloc, text)?
    };
    out.push_str(&url)?;
    out.push('\0')
}

/// Appends the url that a string is, where strings are urls, and a byte 0.
fn push_string(
    alloc: Global,
    out: &mut String,
    strings: bool,
    bytes: &[u8],
) -> Result<(), AllocError>
    ensures { OnOk result (string_bytes out.new ≡ string_bytes out.old
        ++ urls_text (string_url strings bytes.now)) }
{
    if strings {
        return push_spelled(alloc, out, true, bytes);
    }
    Ok(())
}

/// Appends the url of a token, where strings are urls or are not, and a byte 0.
fn push_url(
    alloc: Global,
    out: &mut String,
    strings: bool,
    token: &Token<'_>,
) -> Result<(), AllocError>
    ensures { let t = token_of token.now in OnOk result (string_bytes out.new ≡ string_bytes out.old
        ++ urls_text (url_by strings t.kind (inside_of t))) }
{
    match token.kind {
        TokenKind::Url => push_spelled(alloc, out, false, inside(token)),
        TokenKind::String => push_string(alloc, out, strings, inside(token)),
        _ => Ok(()),
    }
}

/// Returns the urls of a text, in order, with a byte 0 after each: those without quotes, and the strings that
/// follow a function whose strings are urls in the same declaration. Fails only if an allocation fails.
pub fn urls(alloc: Global, text: &str) -> Result<String, AllocError>
    ensures { IfOk result (λ out. string_bytes out ≡ urls_text (urls_of text.now)) }
{
    let mut out = String::new(alloc);
    let mut strings = false;
    let mut rest = text.as_bytes();
    'tokens: while let Some(token) = read_next(rest) {
        push_url(alloc, &mut out, strings, &token)?;
        strings = strings_after(strings, &token);
        rest = token.rest;
    }
    Ok(out)
}
