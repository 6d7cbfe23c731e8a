//! Names and strings, with escapes and without.

ghost use Rattle.std.specs.Prelude.{◌≡◌};
ghost use Rattle.call_answers.specs.Outcomes.{outcome_of};
ghost use Rattle.css_selector_text.specs.printing.Escaping.{escaped, quoted};
ghost use Rattle.css_syntax.specs.Escapes.{decoded_in};
ghost use Rattle.sheet_calls.specs.Spellings.{IsSpellCall, IsWritten};

use call_answers::answer::CallError;
use call_answers::texts::text_of;
use css_syntax::{decode, decode_string};
use std::alloc::Global;

/// The text that a name denotes, or what is in a string.
fn decoded(alloc: Global, text: &[u8], in_string: bool) -> Result<String, CallError>
    ensures { IsWritten (decoded_in in_string) text.now (outcome_of result) }
{
    let text = text_of(text)?;
    let decoded = if in_string {
        decode_string(alloc, text)?
    } else {
        decode(alloc, text)?
    };
    let mut out = String::new(alloc);
    out.push_str(decoded.as_str())?;
    Ok(out)
}

/// An identifier that denotes the name.
fn identifier(alloc: Global, name: &[u8]) -> Result<String, CallError>
    ensures { IsWritten escaped name.now (outcome_of result) }
{
    Ok(css_selectors::escape(alloc, text_of(name)?)?)
}

/// A string that denotes the text.
fn string(alloc: Global, text: &[u8]) -> Result<String, CallError>
    ensures { IsWritten quoted text.now (outcome_of result) }
{
    Ok(css_selectors::quote(alloc, text_of(text)?)?)
}

/// What is asked of a text by a number: what it denotes as a name, or in a string, or the identifier or the string
/// that denotes it.
pub fn spell(alloc: Global, text: &[u8], asked: usize) -> Result<String, CallError>
    ensures { IsSpellCall asked text.now (outcome_of result) }
{
    match asked {
        0 => decoded(alloc, text, false),
        1 => decoded(alloc, text, true),
        2 => identifier(alloc, text),
        3 => string(alloc, text),
        _ => Err(CallError::Refused),
    }
}
