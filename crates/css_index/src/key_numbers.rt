//! Numbers of keys, by which an index files them.
ghost use Rattle.std.specs.Prelude.{◌≡◌};
ghost use Rattle.css_selectors.specs.KeyViews.{key_of};
ghost use Rattle.css_index.specs.KeyNumbers.{number_from as number_from_text};
ghost use Rattle.css_index.specs.KeyNumbers.{number_of as number_of_key};

use css_selectors::Key;

/// Returns a number for a text, counted from the number of a kind of key.
#[inline(always)]
fn number_from(kind: u64, text: &str) -> u64
    ensures { result ≡ number_from_text kind text.now }
{
    let mut number = kind;
    for byte in text.as_bytes() {
        number = number
            .wrapping_mul(37)
            .wrapping_add(u64::from(byte.to_ascii_lowercase()));
    }
    number
}

/// Returns a number for a key.
#[inline(always)]
pub(crate) fn number_of(key: &Key<'_>) -> u64
    ensures { result ≡ number_of_key (key_of key.now) }
{
    match key {
        Key::Id(text) => number_from(1, text),
        Key::Class(text) => number_from(2, text),
        Key::Name(text) => number_from(3, text),
        Key::Attribute(text) => number_from(4, text),
        Key::Any => 0,
    }
}
