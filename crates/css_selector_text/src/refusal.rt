//! Why a text is no selector.
ghost use Rattle.std.specs.Prelude.{◌≡◌};

use std::alloc::{AllocError, AllocFailed};

/// Why a text is no selector that is read here.
#[derive(Clone, Copy, Debug, PartialEq, Eq)]
pub enum Why {
    /// An allocation failed.
    Memory,
    /// There is no selector here.
    NoSelector,
    /// There is no name here.
    NoName,
    /// There is a newline in the string. The rest begins with the string.
    BrokenString,
    /// There is no attribute operator here.
    NoOperator,
    /// There is no value here: neither a name nor a string.
    NoValue,
    /// There is another flag than `i` and `s`.
    UnknownFlag,
    /// There is no `An+B`, `odd` or `even` here.
    NoProgression,
    /// There is no pseudo-class or pseudo-element of this name without an argument.
    UnknownName,
    /// There is no functional pseudo-class or pseudo-element of this name.
    UnknownFunction,
    /// This prefix of a namespace is not declared.
    UnknownPrefix,
    /// This is a selector, but it has no meaning here.
    Unsupported,
    /// More lists would be open at once than may be: this pseudo-class has one too many.
    TooDeep,
    /// This does not continue the selector.
    Unexpected,
}

/// What is quoted of a text that is refused.
#[derive(Clone, Copy)]
pub(crate) enum Quoted {
    /// The line.
    Line,
    /// The word at the start.
    Word,
    /// The signs at the start.
    Signs,
}

/// Why, and where, a text is no selector.
#[derive(Clone, Copy, Debug, PartialEq)]
pub struct Refusal<'a> {
    /// Why.
    pub why: Why,
    /// The text from there on. If an allocation failed, it is empty.
    pub rest: &'a str,
}

impl<'a> Refusal<'a> {
    /// Returns a refusal.
    pub(crate) fn new(why: Why, rest: &'a str) -> Refusal<'a>
        ensures why { result.why ≡ why }
        ensures rest { result.rest.now ≡ rest.now }
    {
        Refusal { why, rest }
    }
}

impl<'a> From<AllocError> for Refusal<'a> {
    ghost use Rattle.std.specs.Prelude.{◌≡◌};
    ghost use Rattle.css_selector_text.specs.declared.refusal.Why.TheVariants.{Memory};

    ghost from_gives = { λ _ refusal. refusal.why ≡ Memory };

    fn from(_error: AllocError) -> Refusal<'a> {
        Refusal {
            why: Why::Memory,
            rest: "",
        }
    }
}

impl<'a, T: Drop> From<AllocFailed<T>> for Refusal<'a> {
    ghost use Rattle.std.specs.Prelude.{◌≡◌};
    ghost use Rattle.css_selector_text.specs.declared.refusal.Why.TheVariants.{Memory};

    ghost from_gives = { λ _ refusal. refusal.why ≡ Memory };

    fn from(_error: AllocFailed<T>) -> Refusal<'a> {
        Refusal {
            why: Why::Memory,
            rest: "",
        }
    }
}
