//! The properties of an element by their names, and what is known of each.
ghost use Rattle.std.specs.Prelude.{◌≡◌, ℕ, List, Some, IfOk, OnOk, map, bytes_eq, if◌then◌else◌};
ghost use Rattle.std.specs.BTreeMap.{get_by_text};
ghost use Rattle.css_syntax.specs.Escapes.{decoded};
ghost use Rattle.css_values.specs.Resolution.{known_at, known_target, named, number_from, property_at};
ghost use Rattle.css_values.specs.Resolution.{number_target, value_target};
ghost use Rattle.css_values.specs.Substitution.{is_custom_name as is_custom_name_of};
ghost use Rattle.css_values.specs.Views.{borrowed_value, property_of, seen_of, slot_from, target_of};

use crate::drafts::Value;
use css_syntax::decode;
use std::alloc::{AllocError, Global};
use std::collections::BTreeMap;
use std::marker::Model;

/// A property of an element.
#[derive(Clone, Copy, Debug)]
pub struct Property<'a> {
    /// Its name, as written.
    pub name: &'a str,
    /// Its value, in which references may be.
    pub text: &'a str,
}

/// What a custom property has in place of its value, if it has any value then.
#[derive(Clone, Copy)]
pub(crate) struct Meanings<'a> {
    /// Where its value comes to `initial`.
    pub initial: Option<&'a Value>,
    /// Where it comes to `inherit`.
    pub inherited: Option<&'a Value>,
    /// Where it comes to `unset`.
    pub unset: Option<&'a Value>,
    /// Where it is invalid at computed-value time.
    pub otherwise: Option<&'a Value>,
}

/// Nothing replaces a value.
pub(crate) const NO_MEANINGS: Meanings<'static> = Meanings {
    initial: None,
    inherited: None,
    unset: None,
    otherwise: None,
};

/// A property, and what replaces its value.
#[derive(Clone, Copy)]
pub(crate) struct Declared<'a> {
    /// Its name, as written.
    pub name: &'a str,
    /// Its value, in which references may be.
    pub text: &'a str,
    /// What replaces its value.
    pub instead: Meanings<'a>,
}

/// What is known of a property.
#[derive(Debug, Drop)]
pub enum Slot {
    /// Nothing yet.
    Unread,
    /// Nothing yet, but its value was begun, after this many others.
    Open(usize),
    /// Its computed value. There is none if it is invalid at computed-value time.
    Computed(Option<Value>),
}

/// What a circle sees of properties.
#[derive(Clone, Copy)]
pub(crate) struct Seen<'s> {
    /// What is known of each.
    pub slots: &'s [Slot],
    /// Those that were begun since this place are of the circle, and are invalid.
    pub from: usize,
}

/// What a reference names.
#[derive(Clone, Copy)]
pub(crate) enum Named<'s> {
    /// No custom property.
    Bad,
    /// A custom property that has no value, or whose value is invalid.
    Absent,
    /// The property of this number, which has no computed value yet.
    Unknown(usize),
    /// This value.
    Found(&'s Value),
}

/// Whether a name without escapes is that of a custom property.
pub(crate) fn is_custom_name(name: &[u8]) -> bool
    ensures { result ≡ is_custom_name_of name.now }
{
    matches!(name, [b'-', b'-', _, ..])
}

/// Gives the property of this name, as written, the number.
fn give_number(
    alloc: Global,
    numbers: &mut BTreeMap<String, usize>,
    name: &str,
    number: usize,
) -> Result<(), AllocError>
    ensures { (key : List ℕ) → OnOk result (get_by_text numbers.new key
        ≡ (if bytes_eq (decoded name.now) key then Some number else get_by_text numbers.old key)) }
{
    let decoded = decode(alloc, name)?;
    let key = decoded.to_string(alloc)?;
    numbers.insert(key, number)?;
    Ok(())
}

/// Returns the numbers of properties by their names without escapes. The first of a name has it.
pub(crate) fn numbers_of(
    alloc: Global,
    properties: &[Declared<'_>],
) -> Result<BTreeMap<String, usize>, AllocError>
    ensures { (name : List ℕ) → IfOk result (λ numbers. get_by_text numbers name
        ≡ number_from 0 (map property_of properties.now) name) }
{
    let mut numbers = BTreeMap::new(alloc);
    let mut number = properties.len();
    'properties: while number > 0 {
        number -= 1;
        give_number(alloc, &mut numbers, properties[number].name, number)?;
    }
    Ok(numbers)
}

/// The properties of an element.
#[derive(Drop)]
pub(crate) struct Table<'a> {
    /// The properties, in order.
    properties: &'a [Declared<'a>],
    /// Their numbers by their names. The first of a name has it.
    numbers: BTreeMap<String, usize>,
}

impl<'a> Model for Table<'a> {
    ghost use Rattle.std.specs.Prelude.{◌≡◌, ℕ, List, map};
    ghost use Rattle.std.specs.BTreeMap.{get_by_text};
    ghost use Rattle.css_values.specs.Resolution.{Property as Stated, number_from};
    ghost use Rattle.css_values.specs.Views.{property_of};

    ghost Value = { List Stated };

    ghost view = { λ t. map property_of t.properties.now };

    ghost invariant = { λ t. (name : List ℕ) → get_by_text t.numbers name
        ≡ number_from 0 (map property_of t.properties.now) name };
}

impl<'a> Table<'a> {
    /// Returns a table of the properties.
    pub(crate) fn new(
        alloc: Global,
        properties: &'a [Declared<'a>],
    ) -> Result<Table<'a>, AllocError>
        ensures { IfOk result (λ table. table ≡ map property_of properties.now) }
    {
        let numbers = numbers_of(alloc, properties)?;
        Ok(Table {
            properties,
            numbers,
        })
    }

    /// Returns the property of this number.
    pub(crate) fn property(&self, number: usize) -> Declared<'a>
        ensures { property_of result ≡ property_at self.now number }
    {
        match self.properties.get(number) {
            None => Declared {
                name: "",
                text: "",
                instead: NO_MEANINGS,
            },
            Some(property) => *property,
        }
    }

    /// Returns the number of the first property of this name, which has no escapes.
    fn find(&self, name: &str) -> Option<usize>
        ensures { result ≡ number_from 0 self.now name.now }
    {
        self.numbers.get(name).copied()
    }
}

/// Returns what has this value, or none.
fn named_value(value: Option<&Value>) -> Named<'_>
    ensures { value_target (borrowed_value value.entry) ≡ target_of result }
{
    match value {
        None => Named::Absent,
        Some(value) => Named::Found(value),
    }
}

/// Returns what is seen of the property of this number.
fn known<'s>(property: Declared<'s>, seen: Seen<'s>, number: usize) -> Named<'s>
    ensures { known_target (property_of property.entry) number (known_at (seen_of seen.entry) number)
        ≡ target_of result }
{
    match seen.slots.get(number) {
        Some(Slot::Computed(None)) => named_value(property.instead.otherwise),
        Some(Slot::Computed(Some(value))) => Named::Found(value),
        Some(Slot::Open(place)) => {
            if seen.from <= *place {
                named_value(property.instead.otherwise)
            } else {
                Named::Unknown(number)
            }
        }
        _ => Named::Unknown(number),
    }
}

/// Returns what a name as written names.
pub(crate) fn find_named<'s>(
    alloc: Global,
    table: &Table<'s>,
    seen: Seen<'s>,
    name: &str,
) -> Result<Named<'s>, AllocError>
    ensures { IfOk result (λ it. named table.now (seen_of seen.entry) name.now ≡ target_of it) }
{
    let decoded = decode(alloc, name)?;
    if !is_custom_name(decoded.as_bytes()) {
        return Ok(Named::Bad);
    }
    match table.find(&decoded) {
        None => Ok(Named::Absent),
        Some(number) => Ok(known(table.property(number), seen, number)),
    }
}
