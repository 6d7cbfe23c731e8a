//! What is changed in values, and the answers to urls.
ghost use Rattle.std.specs.Prelude.{◌≡◌, map, IfOk, option_map, if◌then◌else◌, Some, None};
ghost use Rattle.std.specs.Str.{is_utf8};
ghost use Rattle.clean_values.specs.Values.{answer_of as answer_of_url, answer_to as answer_to_bytes};
ghost use Rattle.css_syntax.specs.Escapes.{decoded_in};
ghost use Rattle.clean_values.specs.Views.{changes_of};

use css_syntax::escapes::{decode, decode_string};
use std::alloc::{AllocError, Global};

/// What is changed in values. Names and words are in lower case, and match in any case.
#[derive(Clone, Copy)]
pub struct Changes<'p> {
    /// The urls that are answered. Another is refused.
    pub urls: &'p [&'p str],
    /// What is written in place of each.
    pub answers: &'p [&'p str],
    /// What is put before names.
    pub prefix: &'p str,
    /// The properties of which the words are names.
    pub named: &'p [&'p str],
    /// The words that are no names there.
    pub words: &'p [&'p str],
}

/// Returns the bytes as a text, if they are UTF-8.
#[tactic(auto, using(crate::proofs::ValueLemmas::utf8_true, crate::proofs::ValueLemmas::utf8_false))]
pub(crate) fn text_in(bytes: &[u8]) -> Option<&str>
    ensures { option_map (λ text. text.now) result ≡ (if is_utf8 bytes.now then Some bytes.now else None) }
{
    match std::str::from_utf8(bytes) {
        Ok(text) => Some(text),
        Err(_) => None,
    }
}

/// Returns what is written in place of a url, if it is answered.
fn answer_of<'p>(changes: Changes<'p>, url: &str) -> Option<&'p str>
    ensures { let c = changes_of changes.entry in
        option_map (λ text. text.now) result ≡ answer_of_url c.urls c.answers url.now }
{
    let mut urls = changes.urls;
    let mut answers = changes.answers;
    'urls: while let [one, more @ ..] = urls {
        let [answer, others @ ..] = answers else {
            return None;
        };
        if *one == url {
            return Some(*answer);
        }
        urls = more;
        answers = others;
    }
    None
}

/// Returns the answer to the url of a text with its escapes decoded, as in a string or as elsewhere.
fn answer_decoded<'p>(
    alloc: Global,
    changes: Changes<'p>,
    in_string: bool,
    text: &str,
) -> Result<Option<&'p str>, AllocError>
    ensures { let c = changes_of changes.entry in IfOk result (λ found. option_map (λ text. text.now) found
        ≡ answer_of_url c.urls c.answers (decoded_in in_string text.now)) }
{
    let url = if in_string {
        decode_string(alloc, text)?
    } else {
        decode(alloc, text)?
    };
    Ok(answer_of(changes, &url))
}

/// Returns the answer to the url that the bytes spell, as in a string or as elsewhere.
pub(crate) fn answer_to<'p>(
    alloc: Global,
    changes: Changes<'p>,
    in_string: bool,
    inside: &[u8],
) -> Result<Option<&'p str>, AllocError>
    ensures { IfOk result (λ found. option_map (λ text. text.now) found
        ≡ answer_to_bytes (changes_of changes.entry) in_string inside.now) }
{
    match text_in(inside) {
        Some(text) => answer_decoded(alloc, changes, in_string, text),
        None => Ok(None),
    }
}
