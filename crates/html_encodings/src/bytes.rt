//! Words in a page, and what is around them. Each function takes the rest of a page and returns the rest after what it
//! reads.
ghost use Rattle.std.specs.Prelude.{◌≡◌, ◌≤◌, ◌==◌, not, length, option_map};
ghost use Rattle.std.specs.List.{prefix_len};
ghost use Rattle.css_text.specs.Bytes.{past};
ghost use Rattle.css_text.specs.Characters.{is_space as is_space_byte};
ghost use Rattle.css_html.specs.Marks.{past_letters as past_letters_of};
ghost use Rattle.html_encodings.specs.Words.{is_word as is_word_of, is_spaced_word as is_spaced_word_of};
ghost use Rattle.html_encodings.specs.Words.{past_sign as past_sign_of, up_to_byte as up_to_byte_of};

use css_html::marks::text_between;

/// Whether the byte is a space, a tab, a line feed, a form feed or a carriage return.
pub(crate) fn is_space(byte: u8) -> bool
    ensures { result ≡ is_space_byte byte }
{
    matches!(byte, b' ' | b'\t' | b'\n' | b'\r' | b'\x0C')
}

/// Returns the number of space bytes at the start.
fn space_count(bytes: &[u8]) -> usize
    ensures count { result ≡ prefix_len is_space_byte bytes.now }
    ensures within { result ≤ length bytes.now }
{
    bytes.iter().take_while(|byte| is_space(**byte)).count()
}

/// Returns the rest after space bytes.
pub(crate) fn past_spaces(bytes: &[u8]) -> &[u8]
    ensures { result.now ≡ past is_space_byte bytes.now }
{
    &bytes[space_count(bytes)..]
}

/// Returns the number of other bytes before this one.
pub(crate) fn count_before(bytes: &[u8], end: u8) -> usize
    ensures count { result ≡ prefix_len (λ b. not (b == end)) bytes.now }
    ensures within { result ≤ length bytes.now }
{
    bytes.iter().take_while(|byte| **byte != end).count()
}

/// Returns the text up to the next such byte, if there is one.
pub(crate) fn up_to_byte(bytes: &[u8], end: u8) -> Option<&[u8]>
    ensures { up_to_byte_of end bytes.now ≡ option_map (λ text. text.now) result }
{
    let rest = &bytes[count_before(bytes, end)..];
    match rest {
        [] => None,
        [_, ..] => Some(text_between(bytes, rest)),
    }
}

/// Returns the rest after `=`, if that is next.
pub(crate) fn past_sign(bytes: &[u8]) -> Option<&[u8]>
    ensures { past_sign_of bytes.now ≡ option_map (λ rest. rest.now) result }
{
    match bytes {
        [b'=', rest @ ..] => Some(rest),
        _ => None,
    }
}

/// Returns the rest after these letters, which are in lower case, in any case.
#[tactic(auto, unfolding(css_html::specs::Marks::past_letters))]
pub(crate) fn past_letters<'a>(letters: &[u8], bytes: &'a [u8]) -> Option<&'a [u8]>
    ensures { past_letters_of letters.now bytes.now ≡ option_map (λ rest. rest.now) result }
{
    let mut left = letters;
    let mut rest = bytes;
    'letters: while let [letter, others @ ..] = left {
        match rest {
            [byte, after @ ..] if byte.to_ascii_lowercase() == *letter => {
                left = others;
                rest = after;
            }
            _ => return None,
        }
    }
    Some(rest)
}

/// Whether the text is this word, which is in lower case, in any case.
pub(crate) fn is_word(word: &[u8], bytes: &[u8]) -> bool
    ensures { result ≡ is_word_of word.now bytes.now }
{
    matches!(past_letters(word, bytes), Some([]))
}

/// Whether the text is this word with any space bytes at its ends.
pub(crate) fn is_spaced_word(word: &[u8], bytes: &[u8]) -> bool
    ensures { result ≡ is_spaced_word_of word.now bytes.now }
{
    match past_letters(word, past_spaces(bytes)) {
        Some(rest) => past_spaces(rest).is_empty(),
        None => false,
    }
}
