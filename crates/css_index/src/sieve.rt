//! Which keys a table can have.
ghost use Rattle.std.specs.Prelude.{◌≡◌, ◌<◌, IfOk, map, false, slice_index_or, length};
ghost use Rattle.std.specs.Str.{str_to_ascii_lowercase};
ghost use Rattle.css_selectors.specs.Keys.{Key as KeyOf};
ghost use Rattle.css_selectors.specs.KeyViews.{key_of};
ghost use Rattle.css_index.specs.internal.Filed.{entry_of};
ghost use Rattle.css_index.specs.internal.Sieves.{place_of_text, sieve_place as sieve_place_of, IsIn, AreIn};

use crate::filed_key::FiledKey;
use css_selectors::Key;
use std::alloc::{AllocError, Global};

/// How many places there are.
const PLACES: usize = 1024;

/// Returns the place of a text, by its length, its first and its last byte.
#[inline(always)]
fn text_place(kind: usize, text: &str) -> usize
    requires { kind < 4 }
    ensures value { result ≡ place_of_text kind (str_to_ascii_lowercase text.now) }
    ensures within { result < 1024 }
{
    let bytes = text.as_bytes();
    if bytes.is_empty() {
        return kind * 251;
    }
    let first = usize::from(bytes[0].to_ascii_lowercase());
    let last = usize::from(bytes[bytes.len() - 1].to_ascii_lowercase());
    (kind * 251 + bytes.len() % 64 * 37 + first * 5 + last * 101) % PLACES
}

/// Returns the place of a key.
#[inline(always)]
fn sieve_place(key: &Key<'_>) -> usize
    ensures value { result ≡ sieve_place_of (key_of key.now) }
    ensures within { result < 1024 }
{
    match key {
        Key::Id(text) => text_place(0, text),
        Key::Class(text) => text_place(1, text),
        Key::Name(text) => text_place(2, text),
        Key::Attribute(text) => text_place(3, text),
        Key::Any => 0,
    }
}

/// The places that keys of a table have. A key whose place is free is not in the table, which is known without
/// a look at all of its text.
#[derive(Drop)]
pub(crate) struct Sieve {
    /// Whether a key has each place.
    places: Vec<bool>,
    ghost all: { length places.items ≡ 1024 },
}

impl Sieve {
    /// Returns a sieve whose places are free.
    pub(crate) fn new(alloc: Global) -> Result<Sieve, AllocError> {
        let places = Vec::from_elem(alloc, false, PLACES)?;
        Ok(Sieve { places })
    }

    /// Takes the place of a key.
    pub(crate) fn add(&mut self, key: &Key<'_>)
        ensures added { IsIn self.new.places.items (key_of key.now) }
        ensures kept { (other : KeyOf) → IsIn self.old.places.items other → IsIn self.new.places.items other }
    {
        let place = sieve_place(key);
        self.places[place] = true;
    }

    /// Whether the place of a key is taken.
    #[inline(always)]
    pub(crate) fn may_have(&self, key: &Key<'_>) -> bool
        ensures { result ≡ slice_index_or self.now.places.items (sieve_place_of (key_of key.now)) false }
    {
        self.places[sieve_place(key)]
    }
}

/// Returns a sieve with the places of the keys of entries.
pub(crate) fn sieve_of(alloc: Global, entries: &[FiledKey<'_>]) -> Result<Sieve, AllocError>
    ensures { IfOk result (λ sieve. AreIn sieve.places.items (map entry_of entries.now)) }
{
    let mut sieve = Sieve::new(alloc)?;
    for entry in entries {
        sieve.add(&entry.key);
    }
    Ok(sieve)
}
