//! Hashes of texts, for tables of texts and for sets of them that are kept as 64 bits.
ghost use Rattle.std.specs.Prelude.{◌≡◌, ◌<◌};
ghost use Rattle.css_matching.specs.Hashes.{small_hash, mark_of, number_from, place_of};

/// Returns one of 64 numbers for a text, by its length and its first byte.
#[inline(always)]
pub fn small_hash(text: &str) -> usize
    ensures value { result ≡ small_hash text.now }
    ensures within { result < 64 }
{
    match text.as_bytes() {
        [] => 0,
        [first, ..] => text.len().wrapping_mul(7).wrapping_add(usize::from(*first)) % 64,
    }
}

/// Returns one of 64 bits for a text. Equal texts have the same bit; different texts may share one.
#[inline(always)]
pub fn mark_of(text: &str) -> u64
    ensures { result ≡ mark_of text.now }
{
    1 << small_hash(text)
}

/// Returns a number for a text, by all of its bytes.
#[inline(always)]
fn number_of(text: &str) -> usize
    ensures { result ≡ number_from 0 text.now }
{
    let mut number = 0usize;
    for byte in text.as_bytes() {
        number = number.wrapping_mul(37).wrapping_add(usize::from(*byte));
    }
    number
}

/// Returns the place of a text among `count` slots.
#[inline(always)]
pub fn place_of(text: &str, count: usize) -> usize
    requires { 0 < count }
    ensures value { result ≡ place_of count text.now }
    ensures within { result < count }
{
    (number_of(text).wrapping_mul(0x9E37_79B9_7F4A_7C15) >> 32) & (count - 1)
}
