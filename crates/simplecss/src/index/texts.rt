//! Rule indices by text.
ghost use Rattle.std.specs.Prelude.{◌≡◌, ◌<◌, ℕ, List, length, IfOk, OnOk, None, Some};
ghost use Rattle.std.specs.BTreeMap.{UpdatesBy};
ghost use Rattle.std.specs.Cmp.Lexicographic.{slice_cmp};
ghost use Rattle.std.specs.Ordering.{nat_cmp};
ghost use Rattle.css_matching.specs.Hashes.{mark_of, covers};
ghost use Rattle.simplecss.specs.internal.TextIndices.{index_for_text, slot_of};
ghost use Rattle.simplecss.specs.internal.TextIndices.{IsJoined, IsPut, AreTold, AreMarked};

use css_matching::hashes::{mark_of, place_of};
use std::alloc::{AllocError, Global};
use std::collections::BTreeMap;

/// How many slots a table has at first.
const FEWEST: usize = 32;

/// What a table says of the texts that lead to a slot of it.
#[derive(Clone, Copy, Debug, Drop)]
pub(crate) enum Slot<'a> {
    /// None of them has an index.
    Empty,
    /// This one has this index, and no other has one.
    One(&'a str, usize),
    /// Several have one.
    Several,
}

/// The index of a rule for each of some texts: an ordered map, and a table of what it says of most
/// texts. Only a text that shares its slot with others costs a look-up in the map.
#[derive(Drop)]
pub(crate) struct Texts<'a> {
    /// The index of each text.
    pub(crate) indices: BTreeMap<&'a str, usize>,
    /// What the map says, by the places of the texts; without slots, nothing.
    slots: Vec<Slot<'a>>,
    /// The marks of the texts. Most texts without an index have none of them, and cost no more.
    marks: u64,
    ghost told: { AreTold slots.items (index_for_text indices) },
    ghost marked: { AreMarked marks (index_for_text indices) },
}

/// Returns what becomes of a slot when a text of it gets an index.
#[inline(always)]
fn joined<'a>(slot: Slot<'a>, text: &'a str, index: usize) -> Slot<'a>
    ensures { IsJoined slot.entry text.now index result }
{
    match slot {
        Slot::Empty => Slot::One(text, index),
        Slot::One(known, _) => {
            if known == text {
                Slot::One(text, index)
            } else {
                Slot::Several
            }
        }
        Slot::Several => Slot::Several,
    }
}

/// Puts the index of a text into its slot.
fn put<'a>(slots: &mut Vec<Slot<'a>>, text: &'a str, index: usize)
    requires { 0 < length slots.old.items }
    ensures { IsPut slots.old.items slots.new.items text.now index }
{
    let place = place_of(text, slots.len());
    let slot = slots[place];
    slots[place] = joined(slot, text, index);
}

/// Returns `count` slots with the texts of a map, or none if an allocation fails.
fn slots_of<'a>(alloc: Global, indices: &BTreeMap<&'a str, usize>, count: usize) -> Vec<Slot<'a>>
    requires { 0 < count }
    ensures { AreTold result.items (index_for_text indices.now) }
{
    let Ok(mut slots) = Vec::from_elem(alloc, Slot::Empty, count) else {
        return Vec::new(alloc);
    };
    for (text, index) in indices {
        put(&mut slots, text, *index);
    }
    slots
}

impl<'a> Texts<'a> {
    /// Returns a map in which no text has an index.
    pub(crate) fn new(alloc: Global) -> Texts<'a>
        ensures { (text : List ℕ) → index_for_text result.indices text ≡ None }
    {
        Texts {
            indices: BTreeMap::new(alloc),
            slots: Vec::new(alloc),
            marks: 0,
        }
    }

    /// Whether the text may have an index, by its mark.
    #[inline(always)]
    fn is_marked(&self, text: &str) -> bool
        ensures { result ≡ covers self.now.marks (mark_of text.now) }
    {
        self.marks | mark_of(text) == self.marks
    }

    /// Returns the slot of a text.
    #[inline(always)]
    fn slot(&self, text: &str) -> Slot<'a>
        ensures { result ≡ slot_of self.now.slots.items text.now }
    {
        let count = self.slots.len();
        if count == 0 {
            return Slot::Several;
        }
        self.slots[place_of(text, count)]
    }

    /// Returns the index of the text, if it has one.
    #[inline(always)]
    pub(crate) fn get(&self, text: &str) -> Option<usize>
        ensures { result ≡ index_for_text self.now.indices text.now }
    {
        if !self.is_marked(text) {
            return None;
        }
        match self.slot(text) {
            Slot::Empty => None,
            Slot::One(known, index) => { if known == text { Some(index) } else { None } }
            Slot::Several => self.indices.get(text).copied(),
        }
    }

    /// Replaces the index of the text, and returns the one that it had.
    pub(crate) fn insert(
        &mut self,
        text: &'a str,
        index: usize,
    ) -> Result<Option<usize>, AllocError>
        ensures known { IfOk result (λ known. known ≡ index_for_text self.old.indices text.now) }
        ensures updates { OnOk result (UpdatesBy (λ x y. slice_cmp nat_cmp x.now y.now)
            (λ key. slice_cmp nat_cmp text.now key.now) self.old.indices self.new.indices
            (Some index)) }
    {
        let known = self.indices.insert(text, index)?;
        self.marks |= mark_of(text);
        let count = self.slots.len();
        if self.indices.len() >= count / 3 {
            let alloc = *self.slots.allocator();
            self.slots = slots_of(alloc, &self.indices, count.saturating_mul(2).max(FEWEST));
        } else {
            put(&mut self.slots, text, index);
        }
        Ok(known)
    }
}
