//! Values of declarations and names of properties, written anew.
ghost use Rattle.std.specs.Prelude.{◌≡◌, IfOk, option_map, string_bytes};
ghost use Rattle.css_syntax.specs.TokenLists.{tokens};
ghost use Rattle.clean_values.specs.Values.{has_source as has_source_of, has_loader as has_loader_of, written_tokens as written_tokens_of};
ghost use Rattle.clean_values.specs.Values.{written_value as written_value_of, written_name as written_name_of};
ghost use Rattle.clean_values.specs.Views.{changes_of};

use crate::changes::Changes;
use crate::names::{is_listed, is_loader, is_source};
use crate::pieces::{Uses, push_piece, word_piece, written};
use css_syntax::tokenizer::read_next;
use std::alloc::{AllocError, Global};

/// Whether a function whose strings are urls begins in the text.
pub fn has_source(text: &[u8]) -> bool
    ensures { result ≡ has_source_of (tokens text.now) }
{
    let mut rest = text;
    'tokens: while let Some(token) = read_next(rest) {
        if is_source(&token) {
            return true;
        }
        rest = token.rest;
    }
    false
}

/// Whether a function that loads a string begins in the text.
pub fn has_loader(text: &[u8]) -> bool
    ensures { result ≡ has_loader_of (tokens text.now) }
{
    let mut rest = text;
    'tokens: while let Some(token) = read_next(rest) {
        if is_loader(&token) {
            return true;
        }
        rest = token.rest;
    }
    false
}

/// Returns the tokens of a text, written anew, if each is written.
fn written_tokens(
    alloc: Global,
    changes: Changes<'_>,
    uses: Uses,
    text: &[u8],
) -> Result<Option<String>, AllocError>
    ensures { IfOk result (λ out. option_map string_bytes out
        ≡ written_tokens_of (changes_of changes.entry) uses.sources uses.named (tokens text.now)) }
{
    let mut out = String::new(alloc);
    let mut rest = text;
    'tokens: while let Some(token) = read_next(rest) {
        let Some(piece) = written(alloc, changes, uses, &token)? else {
            return Ok(None);
        };
        push_piece(&mut out, piece)?;
        rest = token.rest;
    }
    Ok(Some(out))
}

/// Returns a value of a property, written anew: urls by their answers, names with the prefix. Returns
/// `None` if a url of it has no answer, or there is a string where words are names. Fails only if an
/// allocation fails.
pub fn written_value(
    alloc: Global,
    changes: Changes<'_>,
    name: &str,
    value: &str,
) -> Result<Option<String>, AllocError>
    ensures { IfOk result (λ out. option_map string_bytes out
        ≡ written_value_of (changes_of changes.entry) name.now value.now) }
{
    let uses = Uses {
        sources: has_source(value.as_bytes()),
        named: is_listed(changes.named, name.as_bytes()),
    };
    written_tokens(alloc, changes, uses, value.as_bytes())
}

/// Returns the name of a property: that of a custom one with the prefix. Fails only if an allocation fails.
pub fn written_name(alloc: Global, changes: Changes<'_>, name: &str) -> Result<String, AllocError>
    ensures { IfOk result (λ out. string_bytes out ≡ written_name_of (changes_of changes.entry) name.now) }
{
    let mut out = String::new(alloc);
    push_piece(&mut out, word_piece(changes, false, name))?;
    Ok(out)
}
