//! The words of a value.
ghost use Rattle.std.specs.Prelude.{◌≡◌, ◌<◌, ◌≤◌, ◌↔◌, ◌⊎◌, ⊤, ℕ, not, length, map, false, List, IsTrue, IfOk, MatchOption};
ghost use Rattle.std.specs.Cmp.Lexicographic.{slice_cmp};
ghost use Rattle.std.specs.List.{prefix_len};
ghost use Rattle.std.specs.List.Sorted.{IsStrictlySortedBy};
ghost use Rattle.std.specs.Ordering.{nat_cmp};
ghost use Rattle.css_text.specs.Characters.{is_space as is_space_byte};
ghost use Rattle.css_selector_text.specs.AttributeTests.{is_satisfied};
ghost use Rattle.css_selector_text.specs.Components.Comparison.{has_word};
ghost use Rattle.css_index.specs.internal.Filed.{AreWords};

use css_text::stream::Stream;
use std::alloc::{AllocError, Global};

/// Whether the byte is white space.
fn is_space(byte: u8) -> bool
    ensures { result ≡ is_space_byte byte }
{
    matches!(byte, b' ' | b'\t' | b'\n' | b'\r' | b'\x0C')
}

/// Returns the number of bytes at the start that are not white space.
fn word_len(bytes: &[u8]) -> usize
    ensures count { result ≡ prefix_len (λ b. not (is_space_byte b)) bytes.now }
    ensures within { result ≤ length bytes.now }
{
    bytes.iter().take_while(|byte| !is_space(**byte)).count()
}

/// Returns the first word of a value and what is after it, if there is one.
pub(crate) fn split_word(value: &str) -> Option<(&str, &str)>
    ensures words { MatchOption result
        ((text : List ℕ) → IsTrue (is_satisfied has_word false text value.now) → ⊥)
        (λ it. (text : List ℕ) → IsTrue (is_satisfied has_word false text value.now)
        ↔ ((text ≡ it.0.now) ⊎ IsTrue (is_satisfied has_word false text it.1.now))) }
    ensures shorter { MatchOption result ⊤ (λ it. length it.1.now < length value.now) }
{
    let mut rest = Stream::new(value);
    rest.skip_spaces();
    let text = rest.slice_tail();
    let len = word_len(text.as_bytes());
    if len == 0 {
        return None;
    }
    Some((&text[..len], &text[len..]))
}

/// Returns the words of a value, each once.
pub(crate) fn distinct_words(alloc: Global, value: &str) -> Result<Vec<&str>, AllocError>
    ensures words { IfOk result (λ words. AreWords value.now (map (λ word. word.now) words.items)) }
    ensures once { IfOk result (λ words.
        IsStrictlySortedBy (slice_cmp nat_cmp) (map (λ word. word.now) words.items)) }
{
    let mut words = Vec::new(alloc);
    let mut rest = value;
    'words: while let Some((word, after)) = split_word(rest) {
        words.push(word)?;
        rest = after;
    }
    words.sort_unstable();
    words.dedup();
    Ok(words)
}
