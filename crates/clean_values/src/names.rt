//! Lists of names, and what is in tokens.
ghost use Rattle.std.specs.Prelude.{◌≡◌, map, not};
ghost use Rattle.css_text.specs.Reading.{before};
ghost use Rattle.css_text.specs.AsciiBytes.{hyphen};
ghost use Rattle.css_text.specs.Bytes.{starts_two};
ghost use Rattle.css_syntax.specs.Tokens.{spells as spells_of};
ghost use Rattle.css_syntax.specs.TokenViews.{token_of, text_of};
ghost use Rattle.clean_values.specs.Values.{is_listed as is_listed_of, inside_of, is_dashed as is_dashed_of, has_backslash as has_backslash_of};
ghost use Rattle.clean_values.specs.Values.{is_source as is_source_of, is_loader as is_loader_of, source_functions};

use css_syntax::tokenizer::{Token, TokenKind};
use css_syntax::tokens::spells;

/// The functions whose strings are urls.
const SOURCES: [&str; 5] = ["url", "src", "image", "image-set", "-webkit-image-set"];

/// The functions that load a string, which another function in them could bring, as `var()`.
const LOADERS: [&str; 4] = ["src", "image", "image-set", "-webkit-image-set"];

/// Whether a word has a backslash, and so perhaps an escape.
pub fn has_backslash(word: &[u8]) -> bool
    ensures { result ≡ has_backslash_of word.now }
{
    let mut left = word;
    'bytes: while let [byte, more @ ..] = left {
        if *byte == b'\\' {
            return true;
        }
        left = more;
    }
    false
}

/// Whether the word is the name. One without a backslash is as long.
pub(crate) fn is_name(name: &[u8], word: &[u8], is_plain: bool) -> bool
    requires plain { is_plain ≡ not (has_backslash_of word.now) }
    ensures { result ≡ spells_of name.now word.now }
{
    if is_plain && name.len() != word.len() {
        return false;
    }
    spells(name, word)
}

/// Whether the word is one of the names.
pub fn is_listed(names: &[&str], word: &[u8]) -> bool
    ensures { result ≡ is_listed_of (map (λ name. name.now) names.now) word.now }
{
    let is_plain = !has_backslash(word);
    let mut left = names;
    'names: while let [name, more @ ..] = left {
        if is_name(name.as_bytes(), word, is_plain) {
            return true;
        }
        left = more;
    }
    false
}

/// Whether a word begins with two hyphens.
pub fn is_dashed(word: &[u8]) -> bool
    ensures { result ≡ is_dashed_of word.now }
{
    matches!(word, [b'-', b'-', ..])
}

/// Returns what is in the token.
pub fn inside<'a>(token: &Token<'a>) -> &'a [u8]
    ensures { result.now ≡ inside_of (token_of token.now) }
{
    &token.inside[..token.inside.len().saturating_sub(token.inside_end.len())]
}

/// Returns the bytes of the token.
pub fn whole<'a>(token: &Token<'a>) -> &'a [u8]
    ensures { result.now ≡ text_of (token_of token.now) }
{
    &token.from[..token.from.len().saturating_sub(token.rest.len())]
}

/// Whether the word is the name of a function whose strings are urls.
pub fn is_source_name(word: &[u8]) -> bool
    ensures { result ≡ is_listed_of source_functions word.now }
{
    is_listed(&SOURCES, word)
}

/// Whether the token begins a function whose strings are urls.
pub fn is_source(token: &Token<'_>) -> bool
    ensures { result ≡ is_source_of (token_of token.now) }
{
    match token.kind {
        TokenKind::Function => is_source_name(inside(token)),
        _ => false,
    }
}

/// Whether the token begins a function that loads a string.
pub fn is_loader(token: &Token<'_>) -> bool
    ensures { result ≡ is_loader_of (token_of token.now) }
{
    match token.kind {
        TokenKind::Function => is_listed(&LOADERS, inside(token)),
        _ => false,
    }
}
