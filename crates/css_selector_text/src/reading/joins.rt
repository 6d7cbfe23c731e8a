//! What joins compound selectors.
ghost use Rattle.std.specs.Prelude.{◌≡◌, IfNone, IfSome, None, Some};
ghost use Rattle.css_selector_text.specs.reading.Grammar.{sign_combinator as sign_combinator_of};
ghost use Rattle.css_selector_text.specs.reading.Grammar.{begins_compound as begins_compound_of, first_sign, leading_sign};
ghost use Rattle.css_text.specs.Bytes.{starts_by, past_one};

use crate::Combinator;
use crate::components::ListKind;
use crate::reading::room::is_relative;
use crate::reading::texts::split_ascii;

/// Returns the combinator of a sign.
fn sign_combinator(byte: u8) -> Option<Combinator>
    ensures { result ≡ sign_combinator_of byte }
{
    match byte {
        b'>' => Some(Combinator::Child),
        b'+' => Some(Combinator::Adjacent),
        b'~' => Some(Combinator::Sibling),
        _ => None,
    }
}

/// Returns the combinator that is next, if it is a sign, and the rest after it.
pub(crate) fn take_sign<'a>(text: &'a str) -> Option<(Combinator, &'a str)>
    ensures none { IfNone result (first_sign text.now ≡ None) }
    ensures some { IfSome result
        (λ it. (first_sign text.now ≡ Some it.0) × (it.1.now ≡ past_one text.now)) }
{
    let (byte, rest) = split_ascii(text)?;
    let combinator = sign_combinator(byte)?;
    Some((combinator, rest))
}

/// Returns the combinator before a relative selector, and the rest after its sign, if there is one.
pub(crate) fn take_leading<'a>(kind: ListKind, text: &'a str) -> Option<(Combinator, &'a str)>
    ensures none { IfNone result (leading_sign kind text.now ≡ None) }
    ensures some { IfSome result
        (λ it. (leading_sign kind text.now ≡ Some it.0) × (it.1.now ≡ past_one text.now)) }
{
    if is_relative(kind) {
        take_sign(text)
    } else {
        None
    }
}

/// Whether a compound selector may begin here.
pub(crate) fn begins_compound(text: &str) -> bool
    ensures { result ≡ starts_by begins_compound_of text.now }
{
    match text.as_bytes() {
        [] => false,
        [byte, ..] => {
            byte.is_ascii_alphabetic()
                || *byte >= 128
                || matches!(
                    byte,
                    0 | b'_' | b'-' | b'*' | b'.' | b'#' | b'[' | b':' | b'\\' | b'&' | b'|'
                )
        }
    }
}
