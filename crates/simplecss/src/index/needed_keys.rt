//! Numbers of the keys that selectors need of an element's ancestors.
ghost use Rattle.std.specs.Prelude.{◌≡◌, ◌<◌, [], OnOk, IfOk, length, map};
ghost use Rattle.std.specs.List.{fold};
ghost use Rattle.simplecss_selector.specs.KeyViews.{key_value};
ghost use Rattle.simplecss.specs.OpenPaths.{numbered, add_key};
ghost use Rattle.simplecss.specs.internal.LastByKey.{last_for};
ghost use Rattle.simplecss.specs.internal.NeededKeys.{keys_of, HasNumbers, AreNumbersOf};

use super::last_by_key::LastByKey;
use simplecss_selector::Key;
use std::alloc::{AllocError, Global};

/// The keys that selectors need of an element's ancestors, each with a number.
#[derive(Drop)]
pub(crate) struct NeededKeys<'a> {
    /// The number of each key.
    pub(crate) numbers: LastByKey<'a>,
    /// The keys, by their numbers.
    keys: Vec<Key<'a>>,
}

impl<'a> NeededKeys<'a> {
    /// No key has a number.
    pub(crate) fn new(alloc: Global) -> NeededKeys<'a>
        ensures numbered { HasNumbers result }
        ensures none { keys_of result ≡ [] }
    {
        NeededKeys {
            numbers: LastByKey::new(alloc),
            keys: Vec::new(alloc),
        }
    }

    /// How many keys have a number.
    pub(crate) fn len(&self) -> usize
        ensures { result ≡ length (keys_of self.now) }
    {
        self.keys.len()
    }

    /// Returns the number of the key. One that has none gets the next.
    fn number(&mut self, key: Key<'a>) -> Result<usize, AllocError>
        requires { HasNumbers self.old }
        ensures numbered { OnOk result (HasNumbers self.new) }
        ensures keys { OnOk result
            (keys_of self.new ≡ add_key (keys_of self.old) (key_value key.entry)) }
        ensures within { IfOk result (λ number. number < length (keys_of self.new)) }
        ensures is { IfOk result
            (λ number. numbered (keys_of self.new) number ≡ key_value key.entry) }
    {
        if let Some(number) = self.numbers.get(key) {
            return Ok(number);
        }
        let number = self.keys.len();
        self.numbers.replace(key, number)?;
        self.keys.push(key)?;
        Ok(number)
    }

    /// Returns the numbers of these keys, in order. Those that have none get the next.
    pub(crate) fn numbers_of(
        &mut self,
        alloc: Global,
        keys: &[Key<'a>],
    ) -> Result<Vec<usize>, AllocError>
        requires { HasNumbers self.old }
        ensures numbered { OnOk result (HasNumbers self.new) }
        ensures keys { OnOk result
            (keys_of self.new ≡ fold add_key (keys_of self.old) (map key_value keys.now)) }
        ensures numbers { IfOk result
            (λ numbers. AreNumbersOf (keys_of self.new) numbers.items (map key_value keys.now)) }
    {
        let mut numbers = Vec::new(alloc);
        for key in keys {
            let number = self.number(*key)?;
            numbers.push(number)?;
        }
        Ok(numbers)
    }
}
