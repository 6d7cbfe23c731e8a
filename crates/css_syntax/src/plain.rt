//! Runs of words and signs: most of what is in sheets. They are whole tokens and parts, whatever follows.
ghost use Rattle.std.specs.Prelude.{◌≡◌, ◌<◌, ◌≤◌, false, length, IfSome};
ghost use Rattle.css_syntax.specs.declared.parts.Stops.{Stops};
ghost use Rattle.css_syntax.specs.declared.quality.Quality.TheVariants.{Whole};
ghost use Rattle.css_syntax.specs.Tokens.{past_gap};
ghost use Rattle.css_syntax.specs.internal.PlainTokens.{Goes, goes_on as goes_on_of};

use crate::tokens::{is_plain, past_name_bytes, past_spaces, split};

/// Whether what is next may go on with a word: an escape, or a parenthesis as of `url(`.
#[inline(always)]
fn goes_on(bytes: &[u8]) -> bool
    ensures { result ≡ goes_on_of bytes.now }
{
    matches!(bytes, [b'(' | b'\\', ..])
}

/// Returns the rest after a word, or after a sign and the word after it, if one is next.
#[inline(always)]
fn take_plain(bytes: &[u8]) -> Option<&[u8]>
    ensures goes { (stops : Stops) → stops.comma ≡ false → IfSome result (λ rest.
        goes_on_of rest.now ≡ false → Goes stops bytes.now Whole rest.now (past_gap rest.now)) }
    ensures less { IfSome result (λ rest. length rest.now < length bytes.now) }
    ensures no_gap { IfSome result (λ _. past_gap bytes.now ≡ bytes.now) }
{
    match split(bytes) {
        Some((byte, after)) if is_plain(byte) => Some(past_name_bytes(after)),
        _ => None,
    }
}

/// Returns the rest after words and signs with space bytes between them, as far as they are whole,
/// whatever follows.
pub(crate) fn past_plain(bytes: &[u8]) -> &[u8]
    ensures goes { (stops : Stops) → stops.comma ≡ false → length result.now < length bytes.now
        → Goes stops bytes.now Whole result.now (past_gap result.now) }
    ensures within { length result.now ≤ length bytes.now }
{
    let mut end = bytes;
    let mut from = bytes;
    'tokens: while let Some(rest) = take_plain(from) {
        if goes_on(rest) {
            return end;
        }
        end = rest;
        from = past_spaces(rest);
    }
    end
}
