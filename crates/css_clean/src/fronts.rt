//! What means the scope at the front of a selector.
ghost use Rattle.std.specs.Prelude.{◌≡◌, ◌||◌, option_map, map};
ghost use Rattle.css_text.specs.Bytes.{starts_by};
ghost use Rattle.css_syntax.specs.DeclarationLists.{is_empty};
ghost use Rattle.css_syntax.specs.Tokens.{past_word as past_word_of};
ghost use Rattle.css_clean.specs.Fronts.{ends_compound as ends_compound_of, after_word as after_word_of};
ghost use Rattle.css_clean.specs.Fronts.{after_scope_name as after_scope_name_of, inner_from as inner_from_of};
ghost use Rattle.css_clean.specs.Fronts.{past_front as past_front_of, inner_of as inner_of_text};
ghost use Rattle.css_clean.specs.Views.{inner_view};

use clean_values::names::is_listed;
use css_syntax::texts::{past_byte, past_spaces, past_word};

/// What is left of a selector after the names at its front that mean the scope.
#[derive(Clone, Copy)]
pub(crate) struct Inner<'a> {
    /// The text that is left.
    pub text: &'a str,
    /// Whether it is joined to the scope by `>`.
    pub is_child: bool,
}

/// Whether a compound ends here: at a blank, a combinator or the end.
fn ends_compound(bytes: &[u8]) -> bool
    ensures { result ≡ (is_empty bytes.now || starts_by ends_compound_of bytes.now) }
{
    matches!(
        bytes,
        [] | [b' ' | b'\t' | b'\n' | b'\r' | 12 | b'>' | b'+' | b'~', ..]
    )
}

/// Returns what follows the word that is next, if it is listed and ends a compound.
fn after_word<'a>(words: &[&str], text: &'a str) -> Option<&'a str>
    ensures { after_word_of (map (λ word. word.now) words.now) text.now (past_word_of text.now)
        ≡ option_map (λ rest. rest.now) result }
{
    let rest = past_word(text);
    let bytes = text.as_bytes();
    let word = &bytes[..bytes.len().saturating_sub(rest.len())];
    if ends_compound(rest.as_bytes()) && is_listed(words, word) {
        Some(rest)
    } else {
        None
    }
}

/// Returns what follows a compound that means the scope, if one is next.
fn after_scope_name(text: &str) -> Option<&str>
    ensures { after_scope_name_of text.now ≡ option_map (λ rest. rest.now) result }
{
    match text.as_bytes() {
        [b':', ..] => after_word(&["root", "host"], past_byte(text, b':')),
        _ => after_word(&["html", "body"], text),
    }
}

/// Returns what is left after blanks, and after a `>` and blanks, if that is next.
fn inner_from(rest: &str) -> Inner<'_>
    ensures { inner_view result ≡ inner_from_of rest.now }
{
    Inner {
        text: past_spaces(past_byte(rest, b'>')),
        is_child: matches!(rest.as_bytes(), [b'>', ..]),
    }
}

/// Returns what is left after one more compound that means the scope.
fn past_front(inner: Inner<'_>) -> Inner<'_>
    ensures { inner_view result ≡ past_front_of (inner_view inner.entry) }
{
    match after_scope_name(inner.text) {
        Some(rest) => inner_from(past_spaces(rest)),
        None => inner,
    }
}

/// Returns what is left of a selector after at most two compounds at its front that mean the scope, as in
/// `html > body p`.
pub(crate) fn inner_of(text: &str) -> Inner<'_>
    ensures { inner_view result ≡ inner_of_text text.now }
{
    let inner = past_front(Inner {
        text,
        is_child: false,
    });
    past_front(inner)
}
