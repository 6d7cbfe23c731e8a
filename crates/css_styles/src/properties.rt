//! Properties, by their names.
ghost use Rattle.std.specs.Prelude.{◌≡◌, ◌<◌, ◌^◌, [], IfOk, OnOk, Some, length, map};
ghost use Rattle.std.specs.String.{string_bytes};
ghost use Rattle.css_text.specs.AsciiBytes.{hyphen};
ghost use Rattle.css_text.specs.Bytes.{starts_two};
ghost use Rattle.css_styles.specs.Contenders.{is_named as is_named_of, is_property as is_property_of};
ghost use Rattle.css_styles.specs.Properties.{number_in, property_key};
ghost use Rattle.css_styles.specs.internal.Numbered.{with_property};

use std::alloc::{AllocError, Global};
use std::collections::BTreeMap;
use std::marker::Model;

/// Whether the name is that of a custom property.
fn is_custom(name: &str) -> bool
    ensures { result ≡ starts_two hyphen hyphen name.now }
{
    matches!(name.as_bytes(), [b'-', b'-', ..])
}

/// Whether the name is that of the property.
pub(crate) fn is_property(property: &str, name: &str) -> bool
    ensures { result ≡ is_property_of property.now name.now }
{
    if is_custom(property) {
        name == property
    } else {
        name.eq_ignore_ascii_case(property)
    }
}

/// Whether the name is that of one of the properties.
pub(crate) fn is_named(properties: &[&str], name: &str) -> bool
    ensures { result ≡ is_named_of (map (λ property. property.now) properties.now) name.now }
{
    let mut rest = properties;
    'properties: while let [property, more @ ..] = rest {
        if is_property(*property, name) {
            return true;
        }
        rest = more;
    }
    false
}

/// Returns what the names of one property have in common: the name, in lower case unless it is that of a
/// custom property.
pub(crate) fn key_of(alloc: Global, name: &str) -> Result<String, AllocError>
    ensures { IfOk result (λ key. string_bytes key ≡ property_key name.now) }
{
    if is_custom(name) {
        name.to_string(alloc)
    } else {
        name.to_ascii_lowercase(alloc)
    }
}

/// Properties, each with a number: how many are before it.
#[derive(Drop)]
pub(crate) struct Properties<'a> {
    /// A name of each, in order.
    names: Vec<&'a str>,
    /// Their numbers.
    numbers: BTreeMap<String, usize>,
}

impl<'a> Model for Properties<'a> {
    ghost use Rattle.std.specs.Prelude.{◌≡◌, ℕ, List, map};
    ghost use Rattle.std.specs.BTreeMap.{get_by_text};
    ghost use Rattle.css_styles.specs.Properties.{number_in, property_key};

    ghost Value = { List (List ℕ) };

    ghost view = { λ p. map (λ name. property_key name.now) p.names.items };

    ghost invariant = { λ p. (key : List ℕ) → get_by_text p.numbers key
        ≡ number_in (map (λ name. property_key name.now) p.names.items) key };
}

impl<'a> Properties<'a> {
    /// Returns no properties.
    pub(crate) fn new(alloc: Global) -> Properties<'a>
        ensures { result ≡ [] }
    {
        Properties {
            names: Vec::new(alloc),
            numbers: BTreeMap::new(alloc),
        }
    }

    /// Returns how many there are.
    pub(crate) fn len(&self) -> usize
        ensures len { result ≡ length self.now }
        ensures few { result < 2 ^ 63 }
    {
        self.names.len()
    }

    /// Returns the number of the property with this key, if it has one.
    pub(crate) fn find(&self, key: &str) -> Option<usize>
        ensures { result ≡ number_in self.now key.now }
    {
        self.numbers.get(key).copied()
    }

    /// Returns the number of the property with this name, whose key this is. One that has none gets the
    /// next.
    pub(crate) fn number(&mut self, name: &'a str, key: String) -> Result<usize, AllocError>
        requires { string_bytes key ≡ property_key name.now }
        ensures properties { OnOk result
            (self.new ≡ with_property self.old (property_key name.now)) }
        ensures number { IfOk result (λ number. number_in self.new (property_key name.now) ≡ Some number) }
        ensures few { OnOk result (length self.new < 2 ^ 63) }
    {
        if let Some(number) = self.find(&key) {
            return Ok(number);
        }
        let number = self.names.len();
        self.names.push(name)?;
        if let Err(error) = self.numbers.insert(key, number) {
            self.names.pop();
            return Err(error.into());
        }
        Ok(number)
    }
}
