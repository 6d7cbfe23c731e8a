//! What searches keep for later elements with the same name and classes.
ghost use Rattle.std.specs.Prelude.{◌≡◌, ◌<◌, IfOk, IfSome, IsTrue, string_bytes};
ghost use Rattle.std.specs.Option.{option_map};
ghost use Rattle.simplecss.specs.internal.Recents.{IsFound};

use super::rule_index::RuleIndex;
use css_matching::hashes::small_hash;
use std::alloc::{AllocError, Global};
use std::marker::Model;
use std::snapshot::Snapshot;

/// How many results are kept.
const SLOTS: usize = 64;

/// How many bytes a name and a class value that are kept have at most.
const LONGEST: usize = 128;

/// How many rules a result that is kept has at most.
const MOST: usize = 64;

/// The result of a search by name and classes.
#[derive(Drop)]
pub(crate) struct Slot {
    /// The name.
    pub(crate) name: String,
    /// The value of the attribute `class`, if there is one.
    pub(crate) class: Option<String>,
    /// The rules that the search found.
    pub(crate) indices: Vec<usize>,
}

impl Slot {
    /// The slot of a name and a class value.
    fn new(
        alloc: Global,
        name: &str,
        class: Option<&str>,
        indices: &[usize],
    ) -> Result<Slot, AllocError>
        ensures name { IfOk result (λ slot. string_bytes slot.name ≡ name.now) }
        ensures class { IfOk result (λ slot. option_map string_bytes slot.class
            ≡ option_map (λ value. value.now) class.entry) }
        ensures indices { IfOk result (λ slot. slot.indices.items ≡ indices.now) }
    {
        let class = match class {
            Some(value) => Some(String::from_str(alloc, value)?),
            None => None,
        };
        Ok(Slot {
            name: String::from_str(alloc, name)?,
            class,
            indices: Vec::from_slice(alloc, indices)?,
        })
    }

    /// Whether it is for this name and this class value.
    fn is_for(&self, name: &str, class: Option<&str>) -> bool
        ensures name { IsTrue result → string_bytes self.now.name ≡ name.now }
        ensures class { IsTrue result → option_map string_bytes self.now.class
            ≡ option_map (λ value. value.now) class.entry }
    {
        if self.name.as_str() != name {
            return false;
        }
        match (&self.class, class) {
            (Some(known), Some(value)) => known.as_str() == value,
            (None, None) => true,
            _ => false,
        }
    }
}

/// What searches by an index found for elements by their names and classes, for later elements with
/// the same name and the same class value.
#[derive(Drop)]
pub(crate) struct Recent<'a> {
    /// Allocates the slots.
    alloc: Global,
    /// The results, each at the number of its name and class value.
    slots: Vec<Option<Slot>>,
    /// The index, which only contracts see.
    index: Snapshot<RuleIndex<'a>>,
}

impl<'a> Model for Recent<'a> {
    ghost use Rattle.std.specs.Prelude.{List, All};
    ghost use Rattle.simplecss_grammar.specs.Components.{Component};

    ghost Value = { List (List Component) };

    ghost use Rattle.simplecss.specs.internal.Recents.{IsSlotOf};

    ghost view = { λ recent. recent.index.value };

    ghost invariant = { λ recent. All (IsSlotOf recent.index.value) recent.slots.items };
}

/// Returns the number of the slot for a name and a class value.
#[inline(always)]
fn slot_number(name: &str, class: Option<&str>) -> usize {
    (small_hash(name) + 5 * small_hash(class.unwrap_or(""))) % SLOTS
}

/// Whether a name and a class value are too long to be kept.
#[inline(always)]
fn are_long(name: &str, class: Option<&str>) -> bool {
    name.len() > LONGEST || class.unwrap_or("").len() > LONGEST
}

impl<'a> Recent<'a> {
    /// Keeps nothing.
    pub(crate) fn none(alloc: Global, index: &RuleIndex<'a>) -> Recent<'a>
        ensures { result ≡ index.now }
    {
        Recent {
            alloc,
            slots: Vec::new(alloc),
            index: Snapshot::of(index),
        }
    }

    /// Has room for results of searches by this index, and none yet. Fails only if an allocation
    /// fails.
    pub(crate) fn new(alloc: Global, index: &RuleIndex<'a>) -> Result<Recent<'a>, AllocError>
        ensures { IfOk result (λ recent. recent ≡ index.now) }
    {
        let mut slots = Vec::with_capacity(alloc, SLOTS)?;
        'slots: for _ in 0..SLOTS {
            slots.push(None)?;
        }
        Ok(Recent {
            alloc,
            slots,
            index: Snapshot::of(index),
        })
    }

    /// Returns the result for this name and this class value, if it is kept.
    #[inline(always)]
    pub(crate) fn get(&self, name: &str, class: Option<&str>) -> Option<&[usize]>
        ensures { IfSome result (λ indices. IsFound self.now name.now
            (option_map (λ value. value.now) class.entry) indices.now) }
    {
        match self.slots.get(slot_number(name, class)) {
            Some(Some(slot)) if slot.is_for(name, class) => Some(slot.indices.as_slice()),
            _ => None,
        }
    }

    /// Keeps the result for this name and this class value, unless it is long.
    pub(crate) fn keep(
        &mut self,
        name: &str,
        class: Option<&str>,
        indices: &[usize],
    ) -> Result<(), AllocError>
        requires { IsFound self.old name.now (option_map (λ value. value.now) class) indices.now }
        ensures { self.new ≡ self.old }
    {
        let number = slot_number(name, class);
        if number >= self.slots.len() || indices.len() > MOST || are_long(name, class) {
            return Ok(());
        }
        let slot = Slot::new(self.alloc, name, class, indices)?;
        self.slots[number] = Some(slot);
        Ok(())
    }
}
