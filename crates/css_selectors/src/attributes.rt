//! Whether an attribute's value satisfies a condition.
ghost use Rattle.std.specs.Prelude.{◌≡◌, ◌≤◌, true, IsTrue, drop, length};
ghost use Rattle.std.specs.List.{list_any};
ghost use Rattle.css_text.specs.Characters.{is_space as is_space_byte};
ghost use Rattle.css_selector_text.specs.AttributeTests.{same_byte as is_same_byte, begins as begins_by};
ghost use Rattle.css_selector_text.specs.AttributeTests.{begins_up_to, ends_by, is_word_of, occurs_in, is_satisfied};
ghost use Rattle.css_selector_text.specs.AttributeTests.{is_hyphen};
ghost use Rattle.css_selectors.specs.internal.WordStarts.{after_space as after_space_of};
ghost use Rattle.css_selector_text.specs.Views.{comparison_of};

use crate::Comparison;
use crate::occurrences::has_occurrence;
use css_selector_text::bytes::begins;

/// Whether the byte is white space.
pub(crate) fn is_space(byte: u8) -> bool
    ensures { result ≡ is_space_byte byte }
{
    matches!(byte, b' ' | b'\t' | b'\n' | b'\r' | b'\x0C')
}

/// Whether the value is the text, or the text and then a hyphen at its start.
fn has_subtag(ignores_case: bool, text: &[u8], value: &[u8]) -> bool
    ensures { result ≡ begins_up_to is_hyphen ignores_case text.now value.now }
{
    begins(ignores_case, text, value) && matches!(&value[text.len()..], [] | [b'-', ..])
}

/// Whether a value ends, or has white space at its start.
#[inline(always)]
fn ends_word(rest: &[u8]) -> bool
    ensures { result ≡ ends_by is_space_byte rest.now }
{
    match rest {
        [] => true,
        [byte, ..] => is_space(*byte),
    }
}

/// Whether the value begins with the text and then ends or has white space. That is asked first, since
/// most words of other lengths fail there.
#[inline(always)]
fn begins_word(ignores_case: bool, text: &[u8], value: &[u8]) -> bool
    ensures { result ≡ begins_up_to is_space_byte ignores_case text.now value.now }
{
    if value.len() < text.len() {
        return false;
    }
    ends_word(&value[text.len()..]) && begins(ignores_case, text, value)
}

/// Returns what is after the first white space of the value: nothing if there is none.
#[inline(always)]
fn after_space(value: &[u8]) -> &[u8]
    ensures { result.now ≡ after_space_of value.now }
{
    let mut rest = value;
    'bytes: while let [byte, after @ ..] = rest {
        if is_space(*byte) {
            return after;
        }
        rest = after;
    }
    rest
}

/// Whether the text is a word of the value. It is compared only where a word begins.
fn is_word(ignores_case: bool, text: &[u8], value: &[u8]) -> bool
    ensures { result ≡ is_word_of true ignores_case text.now value.now }
{
    let mut rest = value;
    'words: while !rest.is_empty() {
        if begins_word(ignores_case, text, rest) {
            return true;
        }
        rest = after_space(rest);
    }
    false
}

/// Up to this length a text is compared at each place of a value, which costs less than to prepare
/// a search.
const MOST_COMPARED: usize = 32;

/// Whether the text occurs in the value. This takes time that grows as the value and the text.
fn occurs(ignores_case: bool, text: &[u8], value: &[u8]) -> bool
    ensures { result ≡ occurs_in ignores_case text.now value.now }
{
    if text.len() > MOST_COMPARED {
        return has_occurrence(ignores_case, text, value);
    }
    let mut rest = value;
    'bytes: while let [_, after @ ..] = rest {
        if begins(ignores_case, text, rest) {
            return true;
        }
        rest = after;
    }
    false
}

/// Whether there is white space in the text.
fn has_space(text: &[u8]) -> bool
    ensures { result ≡ list_any is_space_byte text.now }
{
    let mut rest = text;
    'bytes: while let [byte, after @ ..] = rest {
        if is_space(*byte) {
            return true;
        }
        rest = after;
    }
    false
}

/// Whether an attribute's value satisfies the comparison with the text.
pub(crate) fn is_satisfied(
    comparison: Comparison,
    ignores_case: bool,
    text: &str,
    value: &str,
) -> bool
    ensures { result ≡ is_satisfied (comparison_of comparison) ignores_case text.now value.now }
{
    let (text, value) = (text.as_bytes(), value.as_bytes());
    match comparison {
        Comparison::Equals => { text.len() == value.len() && begins(ignores_case, text, value) }
        Comparison::HasWord => {
            !text.is_empty() && is_word(ignores_case, text, value) && !has_space(text)
        }
        Comparison::HasSubtag => has_subtag(ignores_case, text, value),
        Comparison::Starts => !text.is_empty() && begins(ignores_case, text, value),
        Comparison::Ends => {
            !text.is_empty()
                && begins(
                    ignores_case,
                    text,
                    &value[value.len().saturating_sub(text.len())..],
                )
        }
        Comparison::Contains => !text.is_empty() && occurs(ignores_case, text, value),
    }
}
