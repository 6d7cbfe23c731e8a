//! Texts from the bytes that a caller passes.

ghost use Rattle.std.specs.Prelude.{◌≡◌, map, MatchResult};
ghost use Rattle.std.specs.Str.{IsUtf8};
ghost use Rattle.call_answers.specs.Calls.{HasTexts, HasBadEnds, IsBrokenUtf8, FailsFor};
ghost use Rattle.call_answers.specs.declared.answer.CallError.TheVariants.{NotUtf8};

use crate::answer::CallError;
use std::alloc::Global;

/// The text of the bytes, if they are UTF-8.
pub fn text_of(bytes: &[u8]) -> Result<&str, CallError>
    ensures { MatchResult result (λ text. (text.now ≡ bytes.now) × IsUtf8 bytes.now)
        (λ failure. (failure ≡ NotUtf8) × ¬ (IsUtf8 bytes.now)) }
{
    match std::str::from_utf8(bytes) {
        Ok(text) => Ok(text),
        Err(_) => Err(CallError::NotUtf8),
    }
}

/// The texts that lie one after another in a buffer, by where each ends.
pub fn texts_of<'t>(
    alloc: Global,
    buffer: &'t [u8],
    ends: &[usize],
) -> Result<Vec<&'t str>, CallError>
    ensures { MatchResult result
        (λ texts. HasTexts buffer.now ends.now (map (λ text. text.now) texts.items))
        (λ failure. FailsFor (HasBadEnds buffer.now ends.now) (λ fault. ⊥)
        (IsBrokenUtf8 buffer.now ends.now) failure) }
{
    let mut texts = Vec::new(alloc);
    let mut start = 0;
    for end in ends {
        let Some(bytes) = buffer.get(start..*end) else {
            return Err(CallError::Refused);
        };
        texts.push(text_of(bytes)?)?;
        start = *end;
    }
    if start != buffer.len() {
        return Err(CallError::Refused);
    }
    Ok(texts)
}
