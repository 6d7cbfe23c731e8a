//! Whether values are written as they may be: names have the prefix, and urls are answers.
ghost use Rattle.std.specs.Prelude.{◌≡◌, map};
ghost use Rattle.clean_values.specs.Checks.{changes_nothing as changes_nothing_of, begins_with as begins_with_of};
ghost use Rattle.clean_values.specs.Checks.{has_prefix as has_prefix_of, is_custom as is_custom_of};
ghost use Rattle.clean_values.specs.Checks.{is_one_of as is_one_of_texts, is_beside_urls as is_beside_urls_of};
ghost use Rattle.clean_values.specs.Views.{changes_of};

use crate::changes::Changes;
use crate::names::{is_dashed, is_listed, is_source_name};
use css_syntax::tokens::{past_byte, spells};

/// Whether nothing is changed: no url is answered, and there is no prefix.
pub fn changes_nothing(changes: Changes<'_>) -> bool
    ensures { result ≡ changes_nothing_of (changes_of changes.entry) }
{
    changes.urls.is_empty() && changes.prefix.is_empty()
}

/// Whether a text begins with the bytes `front`.
pub fn begins_with(front: &[u8], text: &[u8]) -> bool
    ensures { result ≡ begins_with_of front.now text.now }
{
    let mut left = front;
    let mut rest = text;
    'bytes: while let [byte, more @ ..] = left {
        match rest {
            [next, after @ ..] if *next == *byte => rest = after,
            _ => return false,
        }
        left = more;
    }
    true
}

/// Whether a word has the prefix, if it is a name.
pub fn has_prefix(changes: Changes<'_>, named: bool, word: &[u8]) -> bool
    ensures { result ≡ has_prefix_of (changes_of changes.entry) named word.now }
{
    let prefix = changes.prefix.as_bytes();
    if is_dashed(word) {
        return begins_with(prefix, past_byte(past_byte(word, b'-'), b'-'));
    }
    !named || is_listed(changes.words, word) || begins_with(prefix, word)
}

/// Whether a name is that of a custom property with a prefix.
pub fn is_custom(changes: Changes<'_>, name: &[u8]) -> bool
    ensures { result ≡ is_custom_of (changes_of changes.entry) name.now }
{
    !changes.prefix.is_empty() && is_dashed(name) && has_prefix(changes, false, name)
}

/// Whether a text is one of these, byte by byte.
pub fn is_one_of(texts: &[&str], text: &[u8]) -> bool
    ensures { result ≡ is_one_of_texts (map (λ one. one.now) texts.now) text.now }
{
    let mut left = texts;
    'texts: while let [one, more @ ..] = left {
        if one.as_bytes() == text {
            return true;
        }
        left = more;
    }
    false
}

/// Whether a function of this name may be in a value with one that loads a string.
pub fn is_beside_urls(word: &[u8]) -> bool
    ensures { result ≡ is_beside_urls_of word.now }
{
    is_source_name(word) || spells(b"type", word)
}
