//! The keys of a selector: conditions of which each element that it matches satisfies one.
ghost use Rattle.std.specs.Prelude.{◌≡◌, ◌++◌, ◌-◌, ◌∷◌, [], OnOk, MatchOption, List, length, map, if◌then◌else◌};
ghost use Rattle.css_selectors.specs.Keys.{local_key, simple_key, lone_key, compound_key, parts_key, selector_keys};
ghost use Rattle.css_selectors.specs.Keys.{condition_keys, conditions_at, least_rank, best_keys, keys_of};
ghost use Rattle.css_selectors.specs.Keys.{rank as rank_of};
ghost use Rattle.css_selectors.specs.Keys.Key.{by_attribute, by_nothing};
ghost use Rattle.css_selector_text.specs.Components.{is_absent as is_absent_of, conditions_from, parts_from, selectors_from};
ghost use Rattle.css_selectors.specs.KeyViews.{key_of, keys_of_best};
ghost use Rattle.css_selector_text.specs.Views.{namespace_of, local_of, simple_of, complex_of, condition_of};

use crate::{Complex, Condition, Local, Namespace, Namespaced, Selector, Simple};
use css_selector_text::is_absent;
use std::alloc::AllocError;

/// A condition that an element satisfies or not. Each element that a selector matches satisfies one
/// of the selector's keys.
#[derive(Clone, Copy, Debug)]
pub enum Key<'s> {
    /// The attribute `id` is this text.
    Id(&'s str),
    /// This is a word of the attribute `class`.
    Class(&'s str),
    /// The element's name is this.
    Name(&'s str),
    /// There is an attribute of this name in no namespace.
    Attribute(&'s str),
    /// None of these: each element has it.
    Any,
}

impl<'s> Key<'s> {
    /// Returns a number that is the greater, the fewer elements have such a key.
    fn rank(&self) -> u8
        ensures { result ≡ rank_of (key_of self.now) }
    {
        match self {
            Key::Id(_) => 4,
            Key::Class(_) => 3,
            Key::Name(_) => 2,
            Key::Attribute(_) => 1,
            Key::Any => 0,
        }
    }
}

/// Returns the key that an attribute requires: one that may be in a namespace has none.
fn key_of_attribute<'s>(namespace: &Namespace<'_>, name: &'s str) -> Key<'s>
    ensures { key_of result
        ≡ if is_absent_of (namespace_of namespace.now) then by_attribute name.now else by_nothing }
{
    if is_absent(namespace) {
        Key::Attribute(name)
    } else {
        Key::Any
    }
}

/// Returns the key that what is in a namespace requires.
fn key_of_namespaced<'s>(namespaced: &'s Namespaced<'_>) -> Key<'s>
    ensures { key_of result
        ≡ local_key (namespace_of namespaced.now.namespace) (local_of namespaced.now.local) }
{
    let namespace = &namespaced.namespace;
    match &namespaced.local {
        Local::TypeName(name) => Key::Name(name.as_str()),
        Local::HasAttribute(name) => key_of_attribute(namespace, name.as_str()),
        Local::Attribute(test) => key_of_attribute(namespace, test.name.as_str()),
        Local::Universal | Local::Implied => Key::Any,
    }
}

/// Returns the key that a simple selector requires.
fn key_of_simple<'s>(simple: &'s Simple<'_>) -> Key<'s>
    ensures { key_of result ≡ simple_key (simple_of simple.now) }
{
    match simple {
        Simple::TypeName(name) => Key::Name(name.as_str()),
        Simple::Id(id) => Key::Id(id.as_str()),
        Simple::Class(class) => Key::Class(class.as_str()),
        Simple::HasAttribute(name) => Key::Attribute(name.as_str()),
        Simple::Attribute(test) => Key::Attribute(test.name.as_str()),
        Simple::Universal
        | Simple::Structure(_)
        | Simple::Language(_)
        | Simple::State(_)
        | Simple::Function(_)
        | Simple::Element(_)
        | Simple::Nesting(_) => Key::Any,
        Simple::Namespaced(namespaced) => key_of_namespaced(namespaced),
    }
}

/// Returns the key that a condition of a compound selector in a list requires.
fn lone_key_of<'s>(condition: &'s Condition<'_>) -> Key<'s>
    ensures { key_of result ≡ lone_key (condition_of condition.now) }
{
    match condition {
        Condition::Simple(simple) => key_of_simple(simple),
        Condition::Not(_) | Condition::Is(_) | Condition::Where(_) | Condition::Tested(..) => {
            Key::Any
        }
    }
}

/// Returns the first key of the greatest rank of conditions.
fn key_of_compound<'s>(conditions: &'s [Condition<'_>]) -> Key<'s>
    ensures { key_of result
        ≡ compound_key (conditions_from (map condition_of conditions.now)) }
{
    let mut best = Key::Any;
    let mut rest = conditions;
    'conditions: while let [condition, after @ ..] = rest {
        let key = lone_key_of(condition);
        if best.rank() < key.rank() {
            best = key;
        }
        rest = after;
    }
    best
}

/// Returns the key of a complex selector in a list: that of its last compound selector.
fn key_of_selector<'s>(selector: &'s Complex<'_>) -> Key<'s>
    ensures { key_of result ≡ parts_key (parts_from (complex_of selector.now)) }
{
    let parts = selector.parts.as_slice();
    if parts.is_empty() {
        return Key::Any;
    }
    key_of_compound(parts[parts.len() - 1].conditions.as_slice())
}

/// Returns the least rank of the keys of complex selectors, at most 4.
fn least_of(selectors: &[Complex<'_>]) -> u8
    ensures { result
        ≡ least_rank (selector_keys (selectors_from (map complex_of selectors.now))) }
{
    let mut least = 4;
    let mut rest = selectors;
    'selectors: while let [selector, after @ ..] = rest {
        least = least.min(key_of_selector(selector).rank());
        rest = after;
    }
    least
}

/// Returns the least rank of the keys of a condition.
pub(crate) fn rank_of_condition(condition: &Condition<'_>) -> u8
    ensures { result ≡ least_rank (condition_keys (condition_of condition.now)) }
{
    match condition {
        Condition::Simple(simple) => key_of_simple(simple).rank(),
        Condition::Not(_) | Condition::Tested(..) => 0,
        Condition::Is(selectors) | Condition::Where(selectors) => least_of(selectors.as_slice()),
    }
}

/// Returns the first condition whose keys have the greatest least rank, unless that is 0.
pub(crate) fn best_condition<'s, 'a>(conditions: &'s [Condition<'a>]) -> Option<&'s Condition<'a>>
    ensures { best_keys (by_nothing ∷ []) (map condition_of conditions.now)
        ≡ keys_of_best result }
{
    let mut best = None;
    let mut greatest = 0;
    let mut rest = conditions;
    'conditions: while let [condition, after @ ..] = rest {
        let rank = rank_of_condition(condition);
        if greatest < rank {
            best = Some(condition);
            greatest = rank;
        }
        rest = after;
    }
    best
}

/// Appends the keys of complex selectors.
fn push_selectors<'s>(
    selectors: &'s [Complex<'_>],
    keys: &mut Vec<Key<'s>>,
) -> Result<(), AllocError>
    ensures { OnOk result (map key_of keys.new.items ≡ map key_of keys.old.items
        ++ map (λ s. parts_key (parts_from (complex_of s))) selectors.now) }
{
    for selector in selectors {
        keys.push(key_of_selector(selector))?;
    }
    Ok(())
}

/// Appends the keys of a condition.
fn push_condition<'s>(
    condition: &'s Condition<'_>,
    keys: &mut Vec<Key<'s>>,
) -> Result<(), AllocError>
    ensures { OnOk result (map key_of keys.new.items ≡ map key_of keys.old.items
        ++ condition_keys (condition_of condition.now)) }
{
    match condition {
        Condition::Simple(simple) => {
            keys.push(key_of_simple(simple))?;
            Ok(())
        }
        Condition::Not(_) | Condition::Tested(..) => {
            keys.push(Key::Any)?;
            Ok(())
        }
        Condition::Is(selectors) | Condition::Where(selectors) => {
            push_selectors(selectors.as_slice(), keys)
        }
    }
}

/// Appends the keys of a condition, if there is one, or the key that each element has.
pub(crate) fn push_best<'s>(
    best: Option<&'s Condition<'_>>,
    keys: &mut Vec<Key<'s>>,
) -> Result<(), AllocError>
    ensures { OnOk result (map key_of keys.new.items ≡ map key_of keys.old.items
        ++ keys_of_best best.entry) }
{
    match best {
        None => {
            keys.push(Key::Any)?;
            Ok(())
        }
        Some(condition) => push_condition(condition, keys),
    }
}

/// Returns the conditions of the last compound selector.
pub(crate) fn last_conditions<'s, 'a>(selector: &'s Selector<'a>) -> &'s [Condition<'a>]
    ensures { map condition_of result.now
        ≡ conditions_at selector.now.parts (length selector.now.parts - 1) }
{
    let parts = selector.parts();
    parts[parts.len() - 1].conditions.as_slice()
}

/// Appends the keys of a selector: each element that it matches has one of them. They are those of
/// one condition of the last compound selector, of one that few elements satisfy. Nothing
/// within `:not()` is a key, nor within a list that is answered by its number.
pub fn push_keys<'s>(selector: &'s Selector<'_>, keys: &mut Vec<Key<'s>>) -> Result<(), AllocError>
    ensures { OnOk result (map key_of keys.new.items
        ≡ map key_of keys.old.items ++ keys_of selector.now) }
{
    push_best(best_condition(last_conditions(selector)), keys)
}
