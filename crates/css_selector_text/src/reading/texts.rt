//! Steps over a text.
ghost use Rattle.std.specs.Prelude.{◌≡◌, ◌<◌, ◌∷◌, false, MatchOption};
ghost use Rattle.css_text.specs.Bytes.{starts_by, is_ascii};

use css_syntax::texts::past_ascii;

/// Returns the first byte and the rest after it, if it is ASCII.
pub(crate) fn split_ascii(text: &str) -> Option<(u8, &str)>
    ensures { MatchOption result (starts_by is_ascii text.now ≡ false)
        (λ it. (text.now ≡ it.0 ∷ it.1.now) × (it.0 < 128)) }
{
    match text.as_bytes() {
        [byte, ..] if *byte < 128 => Some((*byte, past_ascii(text))),
        _ => None,
    }
}
