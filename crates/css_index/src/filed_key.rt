//! What an index keeps of a key of a selector.
ghost use Rattle.std.specs.Prelude.{◌≡◌, false};
ghost use Rattle.css_selectors.specs.KeyViews.{key_of};
ghost use Rattle.css_index.specs.KeyNumbers.{number_of as number_of_key};

use crate::key_numbers::number_of;
use css_selectors::Key;

/// A key of a rule.
#[derive(Clone, Copy)]
pub(crate) struct FiledKey<'s> {
    /// The key.
    pub(crate) key: Key<'s>,
    /// The key's number.
    pub(crate) number: u64,
    /// The index of the rule.
    pub(crate) rule: usize,
    /// Whether the entry before it at its place is known to have the same key.
    pub(crate) repeats: bool,
    ghost numbered: { number ≡ number_of_key (key_of key) },
}

impl<'s> FiledKey<'s> {
    /// Returns the entry of a key of a rule.
    #[inline(always)]
    pub(crate) fn new(key: Key<'s>, rule: usize) -> FiledKey<'s>
        ensures key { key_of result.key ≡ key_of key.entry }
        ensures rule { result.rule ≡ rule }
        ensures first { result.repeats ≡ false }
    {
        let number = number_of(&key);
        FiledKey {
            key,
            number,
            rule,
            repeats: false,
        }
    }
}
