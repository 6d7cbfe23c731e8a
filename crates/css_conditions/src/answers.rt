//! Who answers what a condition asks.
ghost use Rattle.std.specs.Prelude.{◌≡◌, ℕ, Bool, List, MatchResult, true};
ghost use Rattle.css_conditions.specs.declared.truth.Truth.{Truth};
ghost use Rattle.css_conditions.specs.declared.truth.Outcome.{Outcome};
ghost use Rattle.css_conditions.specs.declared.truth.Comparison.{Comparison};

use crate::truth::{Comparison, Outcome, Truth};
use std::alloc::AllocError;

/// Who knows the medium. Names and values are as they are written, with their escapes, and blanks and
/// comments after a value.
pub trait Features {
    ghost type_holds: { Self → List ℕ → Bool };

    ghost says: { Self → List ℕ → Comparison → List ℕ → Truth };

    /// Whether the medium has this type.
    fn type_holds(&self, name: &[u8]) -> bool
        ensures { result ≡ type_holds self.now name.now };

    /// What the feature says, compared so with this value, which is empty for `Present`.
    fn says(&self, name: &[u8], how: Comparison, value: &[u8]) -> Truth
        ensures { result ≡ says self.now name.now how value.now };
}

/// Who knows what is supported.
pub trait Supported {
    ghost knows: { Self → List ℕ → List ℕ → Bool };

    ghost function: { Self → List ℕ → List ℕ → Bool };

    /// Whether a declaration of this name and value is.
    fn knows(&self, name: &[u8], value: &[u8]) -> bool
        ensures { result ≡ knows self.now name.now value.now };

    /// Whether a function of this name, as `selector`, is with these arguments. It fails if an
    /// allocation fails.
    fn function(&self, name: &[u8], arguments: &[u8]) -> Result<bool, AllocError>
        ensures { MatchResult result (λ known. known ≡ function self.now name.now arguments.now)
            (λ _. Unit {0}) };
}

/// What was read, and the rest after it.
#[derive(Clone, Copy)]
pub struct Read<'t> {
    /// What it gives.
    pub outcome: Outcome,
    /// The rest.
    pub rest: &'t [u8],
}

/// Returns that nothing of the grammar is there.
pub(crate) fn unfit(rest: &[u8]) -> Read<'_>
    ensures outcome { result.outcome ≡ Outcome.Unfit }
    ensures rest { result.rest.now ≡ rest.now }
{
    Read {
        outcome: Outcome::Unfit,
        rest,
    }
}

/// Returns that the text is broken up to the rest.
pub(crate) fn broken(rest: &[u8]) -> Read<'_>
    ensures outcome { result.outcome ≡ Outcome.Broken }
    ensures rest { result.rest.now ≡ rest.now }
{
    Read {
        outcome: Outcome::Broken,
        rest,
    }
}

/// What the grammars of conditions differ in.
pub trait Asked {
    ghost enclosed: { Self → Truth };

    ghost function: { Self → List ℕ → List ℕ → Truth };

    ghost leaf: { Self → List ℕ → Outcome × List ℕ };

    ghost may_fail: { Self → Bool };

    /// What is in parentheses and not of the grammar.
    fn enclosed(&self) -> Truth
        ensures { result ≡ enclosed self.now };

    /// What a function says.
    fn function(&self, name: &[u8], arguments: &[u8]) -> Result<Truth, AllocError>
        ensures { MatchResult result (λ truth. truth ≡ function self.now name.now arguments.now)
            (λ _. may_fail self.now ≡ true) };

    /// Reads what is asked in parentheses.
    fn leaf<'t>(&self, bytes: &'t [u8]) -> Read<'t>
        ensures { leaf self.now bytes.now ≡ (result.outcome, result.rest.now) };
}
