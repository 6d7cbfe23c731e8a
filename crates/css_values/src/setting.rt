//! The values of properties, of which some are registered.
ghost use Rattle.std.specs.Prelude.{◌≡◌, ◌++◌, List, Option, IfOk, OnOk, map, option_map, length};
ghost use Rattle.css_syntax.specs.Escapes.{decoded};
ghost use Rattle.css_values.specs.Substitution.{Value as ValueText};
ghost use Rattle.css_values.specs.Registered.{AreValues, bare as bare_of, declared as declared_of};
ghost use Rattle.css_values.specs.Registered.{falls_back as falls_back_of, inherited_number, initial_number};
ghost use Rattle.css_values.specs.Registered.{initial_text as initial_text_of, initials as initials_of, keeps_own as keeps_own_of};
ghost use Rattle.css_values.specs.Registered.{meanings, others as others_of, properties as properties_of};
ghost use Rattle.css_values.specs.Registered.{registration_named, text_if as text_if_of, undeclared as undeclared_of};
ghost use Rattle.css_values.specs.Registered.{unset_number, value_if as value_if_of, value_in, values_of as values_of_stage};
ghost use Rattle.css_values.specs.Resolution.{given_value as given_value_of};
ghost use Rattle.css_values.specs.Views.{borrowed_value, meanings_of, property_of, registration_of, slot_of, stage_of, stated_of, value_of};

use crate::drafts::Value;
use crate::registering::Registration;
use crate::resolution::{computed_slots, copied};
use crate::table::{Declared, Meanings, NO_MEANINGS, Property, Slot, numbers_of};
use css_syntax::decode;
use std::alloc::{AllocError, Global};
use std::collections::BTreeMap;
use std::marker::Model;

/// Returns a property for whose value nothing stands.
fn bare<'a>(name: &'a str, text: &'a str) -> Declared<'a>
    ensures { property_of result ≡ bare_of (record { name = name.now; text = text.now }) }
{
    Declared {
        name,
        text,
        instead: NO_MEANINGS,
    }
}

/// Returns an initial value, or `initial`, which is none.
fn initial_text(initial: Option<&str>) -> &str
    ensures { result.now ≡ initial_text_of (option_map (λ text. text.now) initial.entry) }
{
    match initial {
        None => "initial",
        Some(text) => text,
    }
}

/// Appends the initial values of registrations.
fn push_initials<'a>(
    found: &mut Vec<Declared<'a>>,
    registered: &[Registration<'a>],
) -> Result<(), AllocError>
    ensures { OnOk result (map property_of found.new.items
        ≡ map property_of found.old.items ++ initials_of (map registration_of registered.now)) }
{
    let mut left = registered;
    'registrations: while let [one, others @ ..] = left {
        found.push(bare(one.name, initial_text(one.initial)))?;
        left = others;
    }
    Ok(())
}

/// Appends properties for whose values nothing stands.
fn push_bare<'a>(
    found: &mut Vec<Declared<'a>>,
    properties: &[Property<'a>],
) -> Result<(), AllocError>
    ensures { OnOk result (map property_of found.new.items
        ≡ map property_of found.old.items ++ map bare_of (map stated_of properties.now)) }
{
    let mut left = properties;
    'properties: while let [one, others @ ..] = left {
        found.push(bare(one.name, one.text))?;
        left = others;
    }
    Ok(())
}

/// Returns the registrations with their initial values.
fn initials<'a>(
    alloc: Global,
    registered: &[Registration<'a>],
) -> Result<Vec<Declared<'a>>, AllocError>
    ensures { IfOk result (λ found. map property_of found.items
        ≡ initials_of (map registration_of registered.now)) }
{
    let mut found = Vec::new(alloc);
    push_initials(&mut found, registered)?;
    Ok(found)
}

/// Returns what an element has if it declares nothing.
fn others<'a>(
    alloc: Global,
    registered: &[Registration<'a>],
    handed: &[Property<'a>],
) -> Result<Vec<Declared<'a>>, AllocError>
    ensures { IfOk result (λ found. map property_of found.items
        ≡ others_of (map registration_of registered.now) (map stated_of handed.now)) }
{
    let mut found = Vec::new(alloc);
    push_bare(&mut found, handed)?;
    push_initials(&mut found, registered)?;
    Ok(found)
}

/// Whether parents do not hand the property down.
fn keeps_own(registration: Option<Registration<'_>>) -> bool
    ensures { result ≡ keeps_own_of (option_map registration_of registration.entry) }
{
    match registration {
        None => false,
        Some(one) => !one.inherits,
    }
}

/// Whether an invalid value is as none.
fn falls_back(registration: Option<Registration<'_>>) -> bool
    ensures { result ≡ falls_back_of (option_map registration_of registration.entry) }
{
    match registration {
        None => false,
        Some(one) => !one.universal,
    }
}

/// Returns the value of the property of this number, if there is one and it has one.
fn value_if(known: &[Slot], number: Option<usize>) -> Option<&Value>
    ensures { borrowed_value result ≡ value_if_of (stage_of known.now) number }
{
    match known.get(number?) {
        Some(Slot::Computed(Some(value))) => Some(value),
        _ => None,
    }
}

/// Returns the text of the property of this number, if there is one.
fn text_if<'a>(properties: &[Declared<'a>], number: Option<usize>) -> &'a str
    ensures { result.now ≡ text_if_of (map property_of properties.now) number }
{
    let Some(number) = number else {
        return "";
    };
    match properties.get(number) {
        Some(property) => property.text,
        None => "",
    }
}

/// What an element has of its parent, and by registrations.
#[derive(Drop)]
struct Setting<'a> {
    /// The registrations: the first of a name is the one that counts.
    registered: &'a [Registration<'a>],
    /// The properties that the parent has.
    handed: &'a [Property<'a>],
    /// The numbers of the registrations by their names.
    registrations: BTreeMap<String, usize>,
    /// The numbers of those that the parent has, and then of initial values.
    others: BTreeMap<String, usize>,
}

impl<'a> Model for Setting<'a> {
    ghost use Rattle.std.specs.Prelude.{◌≡◌, ◌+◌, ◌<◌, ◌^◌, ℕ, List, length, map};
    ghost use Rattle.std.specs.BTreeMap.{get_by_text};
    ghost use Rattle.css_values.specs.Registrations.{Registration as RegistrationText, Stated};
    ghost use Rattle.css_values.specs.Registered.{registration_number, inherited_number};
    ghost use Rattle.css_values.specs.Views.{registration_of, stated_of};

    ghost Value = { List RegistrationText × List Stated };

    ghost view = { λ s. (map registration_of s.registered.now, map stated_of s.handed.now) };

    ghost invariant = { λ s.
        ((name : List ℕ) → get_by_text s.registrations name
        ≡ registration_number (map registration_of s.registered.now) name)
        × ((name : List ℕ) → get_by_text s.others name
        ≡ inherited_number (map registration_of s.registered.now) (map stated_of s.handed.now) name)
        × (length s.handed.now + length s.registered.now < 2 ^ 64) };
}

impl<'a> Setting<'a> {
    /// Returns what an element has of these.
    fn new(
        alloc: Global,
        registered: &'a [Registration<'a>],
        handed: &'a [Property<'a>],
        others: &[Declared<'_>],
    ) -> Result<Setting<'a>, AllocError>
        requires { map property_of others.now
            ≡ others_of (map registration_of registered.now) (map stated_of handed.now) }
        ensures { IfOk result (λ setting. setting
            ≡ (map registration_of registered.now, map stated_of handed.now)) }
    {
        let initial = initials(alloc, registered)?;
        let registrations = numbers_of(alloc, &initial)?;
        let others = numbers_of(alloc, others)?;
        Ok(Setting {
            registered,
            handed,
            registrations,
            others,
        })
    }

    /// Returns the registration of this name, which has no escapes.
    fn registration(&self, name: &str) -> Option<Registration<'a>>
        ensures { registration_named self.now.0 name.now ≡ option_map registration_of result }
    {
        let number = self.registrations.get(name).copied()?;
        self.registered.get(number).copied()
    }

    /// Returns the number of the initial value of this name.
    fn initial_number(&self, name: &str) -> Option<usize>
        ensures { initial_number self.now.0 self.now.1 name.now ≡ result }
    {
        let number = self.registrations.get(name).copied()?;
        Some(self.handed.len() + number)
    }

    /// Returns the number of what a property of this name has of the parent, or else of its initial value.
    fn inherited_number(&self, name: &str) -> Option<usize>
        ensures { inherited_number self.now.0 self.now.1 name.now ≡ result }
    {
        self.others.get(name).copied()
    }

    /// Returns the number of what a property of this name has that the element does not declare.
    fn unset_number(&self, name: &str) -> Option<usize>
        ensures { unset_number self.now.0 self.now.1 name.now ≡ result }
    {
        if keeps_own(self.registration(name)) {
            self.initial_number(name)
        } else {
            self.inherited_number(name)
        }
    }

    /// Returns what stands for a value of this name, where this is known of the others.
    fn meanings<'k>(&self, known: &'k [Slot], name: &str) -> Meanings<'k>
        ensures { meanings_of result ≡ meanings self.now.0 self.now.1 (stage_of known.now) name.now }
    {
        let unset = value_if(known, self.unset_number(name));
        let otherwise = if falls_back(self.registration(name)) {
            unset
        } else {
            None
        };
        Meanings {
            initial: value_if(known, self.initial_number(name)),
            inherited: value_if(known, self.inherited_number(name)),
            unset,
            otherwise,
        }
    }

    /// Returns a property that the element declares, where this is known of the others.
    fn declared<'k>(
        &self,
        alloc: Global,
        known: &'k [Slot],
        property: Property<'k>,
    ) -> Result<Declared<'k>, AllocError>
        ensures { IfOk result (λ found. property_of found
            ≡ declared_of self.now.0 self.now.1 (stage_of known.now) (stated_of property.entry)) }
    {
        let name = decode(alloc, property.name)?;
        Ok(Declared {
            name: property.name,
            text: property.text,
            instead: self.meanings(known, &name),
        })
    }

    /// Returns the properties that the element declares, where this is known of the others.
    fn all_declared<'k>(
        &self,
        alloc: Global,
        known: &'k [Slot],
        own: &[Property<'k>],
    ) -> Result<Vec<Declared<'k>>, AllocError>
        ensures { IfOk result (λ found. map property_of found.items
            ≡ map (declared_of self.now.0 self.now.1 (stage_of known.now)) (map stated_of own.now)) }
    {
        let mut found = Vec::new(alloc);
        let mut left = own;
        'own: while let [one, others @ ..] = left {
            found.push(self.declared(alloc, known, *one)?)?;
            left = others;
        }
        Ok(found)
    }

    /// Returns what one of the others is if the element does not declare it.
    fn undeclared<'k>(
        &self,
        alloc: Global,
        others: &[Declared<'k>],
        other: Declared<'k>,
    ) -> Result<Declared<'k>, AllocError>
        requires { map property_of others.now ≡ others_of self.now.0 self.now.1 }
        ensures { IfOk result (λ found. property_of found
            ≡ undeclared_of self.now.0 self.now.1 (property_of other.entry)) }
    {
        let name = decode(alloc, other.name)?;
        let number = self.unset_number(&name);
        Ok(bare(other.name, text_if(others, number)))
    }

    /// Appends the others, as they are if the element does not declare them.
    fn push_undeclared<'k>(
        &self,
        alloc: Global,
        found: &mut Vec<Declared<'k>>,
        others: &[Declared<'k>],
    ) -> Result<(), AllocError>
        requires { map property_of others.now ≡ others_of self.now.0 self.now.1 }
        ensures { OnOk result (map property_of found.new.items ≡ map property_of found.old.items
            ++ map (undeclared_of self.now.0 self.now.1) (map property_of others.now)) }
    {
        let mut left = others;
        'others: while let [one, more @ ..] = left {
            found.push(self.undeclared(alloc, others, *one)?)?;
            left = more;
        }
        Ok(())
    }

    /// Returns the properties of the element: those that it declares, and those that it has without.
    fn properties<'k>(
        &self,
        alloc: Global,
        declared: &[Declared<'k>],
        others: &[Declared<'k>],
    ) -> Result<Vec<Declared<'k>>, AllocError>
        requires { map property_of others.now ≡ others_of self.now.0 self.now.1 }
        ensures { IfOk result (λ found. map property_of found.items ≡ map property_of declared.now
            ++ map (undeclared_of self.now.0 self.now.1) (map property_of others.now)) }
    {
        let mut found = Vec::new(alloc);
        found.extend_from_slice(declared)?;
        self.push_undeclared(alloc, &mut found, others)?;
        Ok(found)
    }
}

/// Returns the value of a property, by what is known of it.
fn given_value(
    alloc: Global,
    property: &Declared<'_>,
    slot: &Slot,
) -> Result<Option<Value>, AllocError>
    ensures { IfOk result (λ found. given_value_of (property_of property.now) (value_in (slot_of slot.now))
        ≡ option_map value_of found) }
{
    if let Slot::Computed(Some(value)) = slot {
        copied(alloc, Some(value))
    } else {
        copied(alloc, property.instead.otherwise)
    }
}

/// Returns the values of properties, by what is known of them.
fn values_of(
    alloc: Global,
    properties: &[Declared<'_>],
    slots: &[Slot],
) -> Result<Vec<Option<Value>>, AllocError>
    ensures { IfOk result (λ found. map (option_map value_of) found.items
        ≡ values_of_stage (map property_of properties.now) (stage_of slots.now)) }
{
    let mut found = Vec::new(alloc);
    let mut left = properties;
    let mut known = slots;
    'properties: while let [property, others @ ..] = left {
        if let [slot, more @ ..] = known {
            found.push(given_value(alloc, property, slot)?)?;
            known = more;
        } else {
            found.push(copied(alloc, property.instead.otherwise)?)?;
        }
        left = others;
    }
    Ok(found)
}

/// Computes the values of the properties that an element declares.
fn computed_values<'t>(
    alloc: Global,
    limit: usize,
    registered: &'t [Registration<'t>],
    own: &'t [Property<'t>],
    handed: &'t [Property<'t>],
) -> Result<Vec<Option<Value>>, AllocError>
    ensures { IfOk result (λ found. AreValues limit (map registration_of registered.now)
        (map stated_of own.now) (map stated_of handed.now) (map (option_map value_of) found.items)) }
{
    let others = others(alloc, registered, handed)?;
    let setting = Setting::new(alloc, registered, handed, &others)?;
    let known = computed_slots(alloc, limit, &others, others.len())?;
    let declared = setting.all_declared(alloc, &known, own)?;
    let properties = setting.properties(alloc, &declared, &others)?;
    let slots = computed_slots(alloc, limit, &properties, own.len())?;
    let values = values_of(alloc, &declared, &slots)?;
    Ok(values)
}

/// Computes the values of the properties that an element declares, where custom properties are registered and
/// its parent has others.
///
/// Each reference `var(..)` is replaced by the value of the first property of its name, or else by its
/// fallback, which is only then read. A property that the element does not declare has the value that the
/// parent has, or the initial value of its registration, as this says. Properties that lead to one another in
/// a circle are invalid, as is a value longer than `limit`, and one whose references are not valid. An invalid
/// one has no value, but with a registration whose syntax is not `*` what it has without a declaration. The
/// keywords `initial`, `inherit` and `unset` are read. Of registrations of one name the first counts. Fails only
/// if an allocation fails.
pub fn resolve<'t>(
    alloc: Global,
    limit: usize,
    registered: &'t [Registration<'t>],
    own: &'t [Property<'t>],
    handed: &'t [Property<'t>],
) -> Result<Vec<Option<Value>>, AllocError>
    ensures values { IfOk result (λ found. AreValues limit (map registration_of registered.now)
        (map stated_of own.now) (map stated_of handed.now) (map (option_map value_of) found.items)) }
    ensures only { (values : List (Option ValueText))
        → AreValues limit (map registration_of registered.now) (map stated_of own.now)
        (map stated_of handed.now) values
        → IfOk result (λ found. values ≡ map (option_map value_of) found.items) }
{
    let values = computed_values(alloc, limit, registered, own, handed)?;
    Ok(values)
}
