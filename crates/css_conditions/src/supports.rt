//! The conditions of `@supports`.
ghost use Rattle.std.specs.Prelude.{◌≡◌, true, IfOk};
ghost use Rattle.css_text.specs.AsciiBytes.{colon};
ghost use Rattle.css_conditions.specs.Supports.{declaration as declaration_of, after_property as after_property_of};
ghost use Rattle.css_conditions.specs.Supports.{truth_of_function, supports as supports_of};
ghost use Rattle.css_conditions.specs.declared.truth.Truth.TheVariants as truths;

use crate::answers::{Asked, Read, Supported, broken, unfit};
use crate::conditions::condition;
use crate::truth::{Outcome, Truth, holds, truth_of};
use crate::words::{Stop, before, begins_name, is_end, read_values, starts_with};
use css_syntax::quality::is_good;
use css_syntax::tokens::{past_gap, past_one, past_word};
use std::alloc::AllocError;

/// Reads what follows the name of a property.
fn after_property<'t, S: Supported>(supported: &S, name: &[u8], bytes: &'t [u8]) -> Read<'t>
    ensures { after_property_of (S.knows supported.now) name.now bytes.now
        ≡ (result.outcome, result.rest.now) }
{
    if !starts_with(bytes, b':') {
        return unfit(bytes);
    }
    let value = past_one(bytes);
    let skipped = read_values(Stop::Parenthesis, value);
    if !is_good(skipped.quality) {
        return broken(skipped.rest);
    }
    let known = supported.knows(name, before(value, skipped.rest));
    Read {
        outcome: Outcome::Found(truth_of(known)),
        rest: skipped.rest,
    }
}

/// Reads a declaration.
fn declaration<'t, S: Supported>(supported: &S, bytes: &'t [u8]) -> Read<'t>
    ensures { declaration_of (S.knows supported.now) bytes.now ≡ (result.outcome, result.rest.now) }
{
    if !begins_name(bytes) {
        return unfit(bytes);
    }
    let after = past_word(bytes);
    after_property(supported, before(bytes, after), past_gap(after))
}

/// The grammar of `@supports`.
#[derive(Drop)]
struct Supports<'a, S: Supported> {
    /// Who knows what is supported.
    supported: &'a S,
}

impl<'a, S: Supported> Asked for Supports<'a, S> {
    ghost enclosed = { λ it. truths.False };

    ghost function = { λ it. truth_of_function (S.function it.supported.now) };

    ghost leaf = { λ it. declaration_of (S.knows it.supported.now) };

    ghost may_fail = { λ it. true };

    fn enclosed(&self) -> Truth {
        Truth::False
    }

    fn function(&self, name: &[u8], arguments: &[u8]) -> Result<Truth, AllocError> {
        Ok(truth_of(self.supported.function(name, arguments)?))
    }

    fn leaf<'t>(&self, bytes: &'t [u8]) -> Read<'t> {
        declaration(self.supported, bytes)
    }
}

/// Whether a condition of `@supports` holds. It fails if an allocation of `supported` fails.
#[tactic(auto, unfolding(crate::specs::Supports::supports))]
pub fn supports_holds<S: Supported>(text: &str, supported: &S) -> Result<bool, AllocError>
    ensures { IfOk result
        (λ held. held ≡ supports_of (S.knows supported.now) (S.function supported.now) text.now) }
{
    let read = condition(&Supports { supported }, true, past_gap(text.as_bytes()))?;
    Ok(holds(read.outcome) && is_end(past_gap(read.rest)))
}
