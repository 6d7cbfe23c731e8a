//! The active formatting elements (HTML Standard, section 13.2.4.3), and the adoption agency.
use crate::builder::Builder;
use crate::names::{Name, Scope, ends_scope, is_special};
use crate::page::Fault;
use crate::pieces::{attribute_in, part, take_attribute};
use crate::tree::{NONE, Node};
use std::alloc::Global;

/// A formatting element, or a marker.
#[derive(Clone, Copy)]
pub(crate) struct Entry {
    /// The index of its node, or `NONE` of a marker.
    pub(crate) node: u32,
    /// A number that equal elements have in common.
    pub(crate) key: usize,
}

/// A marker.
pub(crate) const MARKER: Entry = Entry { node: NONE, key: 0 };

/// The number of counts of formatting elements by their keys.
const KEYS: usize = 4096;

/// The key of an element with so many attributes or more is that of its name.
const MANY_ATTRIBUTES: usize = 64;

/// The active formatting elements.
#[derive(Drop)]
pub(crate) struct Formatting {
    pub(crate) entries: Vec<Entry>,
    /// How many entries there are, by the last bits of their keys.
    pub(crate) alike: Vec<u32>,
}

impl Formatting {
    /// Returns an empty list.
    pub(crate) fn new(alloc: Global) -> Result<Formatting, Fault> {
        let alike = Vec::from_elem(alloc, 0, KEYS)?;
        let entries = Vec::new(alloc);
        Ok(Formatting { entries, alike })
    }

    /// Adds to the count of a key, or takes from it.
    fn note(&mut self, key: usize, is_added: bool) {
        if let Some(count) = self.alike.get_mut(key % KEYS) {
            *count = if is_added {
                count.saturating_add(1)
            } else {
                count.saturating_sub(1)
            };
        }
    }

    /// Returns how many entries may have the key.
    fn count_of(&self, key: usize) -> u32 {
        match self.alike.get(key % KEYS) {
            Some(count) => *count,
            None => 0,
        }
    }

    /// Returns an entry, or a marker.
    #[inline(always)]
    pub(crate) fn entry(&self, index: usize) -> Entry {
        match self.entries.get(index) {
            Some(entry) => *entry,
            None => MARKER,
        }
    }

    /// Makes an entry that of another node of the same tag.
    fn replace(&mut self, index: usize, id: u32) {
        if let Some(entry) = self.entries.get_mut(index) {
            entry.node = id;
        }
    }

    /// Removes an entry.
    fn remove(&mut self, index: usize) {
        if index < self.entries.len() {
            let entry = self.entries.remove(index);
            self.note(entry.key, false);
        }
    }

    /// Adds an entry before another one, or as the last.
    fn insert(&mut self, index: usize, entry: Entry) -> Result<(), Fault> {
        self.note(entry.key, true);
        let index = index.min(self.entries.len());
        self.entries.insert(index, entry)?;
        Ok(())
    }

    /// Removes the entries up to the last marker.
    pub(crate) fn clear(&mut self) {
        for _ in 0..self.entries.len() {
            match self.entries.pop() {
                Some(entry) => {
                    self.note(entry.key, false);
                    if entry.node == NONE {
                        break;
                    }
                }
                None => break,
            }
        }
    }
}

/// Returns a number that equal elements have in common: their attributes, but for further ones of a
/// name, may be in another order.
fn key_of(node: &Node<'_>) -> usize {
    let mut key = node.name as usize;
    let mut rest = node.attributes;
    let mut seen: u64 = 0;
    for _ in 0..MANY_ATTRIBUTES {
        let Some((name, value, after)) = take_attribute(rest) else {
            return key;
        };
        let hash = hash_of(7, name);
        let bit: u64 = 1 << (hash % 64);
        let front = part(node.attributes, rest);
        if seen & bit == 0 || attribute_in(front, name).is_none() {
            key = key.wrapping_add(
                hash_of(hash, value)
                    .wrapping_mul(0x9E37_79B9)
                    .rotate_right(16),
            );
        }
        seen |= bit;
        rest = after;
    }
    node.name as usize
}

/// Returns a number that equal letters in any case have in common.
pub(crate) fn hash_of(start: usize, word: &[u8]) -> usize {
    let mut hash = start;
    for byte in word {
        hash = hash
            .wrapping_mul(31)
            .wrapping_add(byte.to_ascii_lowercase() as usize);
    }
    hash
}

/// Whether each attribute of these is one of the others, and how many steps this took.
fn are_among(attributes: &[u8], others: &[u8]) -> (bool, usize) {
    let mut rest = attributes;
    let mut steps: usize = 0;
    for _ in 0..attributes.len() {
        let Some((name, _, after)) = take_attribute(rest) else {
            break;
        };
        steps = steps.saturating_add(others.len());
        if attribute_in(attributes, name) != attribute_in(others, name) {
            return (false, steps);
        }
        rest = after;
    }
    (true, steps)
}

impl<'a> Builder<'a> {
    /// Adds a marker.
    pub(crate) fn push_marker(&mut self) {
        if self.formatting.entries.push(MARKER).is_err() {
            self.fault = Some(Fault::Memory);
        }
    }

    /// Adds a formatting element, and drops the first of three equal ones since the last marker.
    pub(crate) fn push_formatting(&mut self, id: u32) {
        let node = self.tree.node(id);
        let key = key_of(&node);
        if self.formatting.count_of(key) >= 3 {
            let (mut count, mut last): (usize, usize) = (0, 0);
            for index in (0..self.formatting.entries.len()).rev() {
                self.spend(1);
                let entry = self.formatting.entry(index);
                if entry.node == NONE {
                    break;
                }
                let other = self.tree.node(entry.node);
                if entry.key == key && self.is_alike(&node, &other) {
                    count = count.saturating_add(1);
                    last = index;
                    if count == 3 {
                        break;
                    }
                }
            }
            if count == 3 {
                self.formatting.remove(last);
            }
        }
        let length = self.formatting.entries.len();
        if self
            .formatting
            .insert(length, Entry { node: id, key })
            .is_err()
        {
            self.fault = Some(Fault::Memory);
        }
    }

    /// Whether two elements have the same name and attributes.
    fn is_alike(&mut self, node: &Node<'a>, other: &Node<'a>) -> bool {
        if node.name != other.name {
            return false;
        }
        if node.attributes == other.attributes {
            return true;
        }
        let (is_in, steps) = are_among(node.attributes, other.attributes);
        let (has_all, more) = are_among(other.attributes, node.attributes);
        self.spend(steps.saturating_add(more));
        is_in && has_all
    }

    /// Opens again the formatting elements that are not open since the last that is.
    pub(crate) fn reconstruct(&mut self) {
        let mut first = self.formatting.entries.len();
        for index in (0..self.formatting.entries.len()).rev() {
            let entry = self.formatting.entry(index);
            if entry.node == NONE || self.tree.node(entry.node).is_open {
                break;
            }
            first = index;
        }
        for index in first..self.formatting.entries.len() {
            if self.fault.is_some() {
                break;
            }
            let old = self.formatting.entry(index).node;
            let top = self.top_id();
            let node = self.clone_of(old);
            let id = self.add_to(top, node);
            self.push(id);
            self.formatting.replace(index, id);
        }
    }

    /// Returns another element of the same tag. Each has its attributes, however long.
    fn clone_of(&mut self, id: u32) -> Node<'a> {
        let mut node = self.tree.node(id);
        self.spend(node.attributes.len().saturating_add(20));
        node.is_open = false;
        node.parent = NONE;
        node.first = NONE;
        node.last = NONE;
        node.previous = NONE;
        node.next = NONE;
        node
    }

    /// Returns the index of an element among the formatting ones.
    fn formatting_index(&mut self, id: u32) -> Option<usize> {
        let length = self.formatting.entries.len();
        let mut found = None;
        for index in (0..length).rev() {
            if self.formatting.entry(index).node == id {
                found = Some(index);
                break;
            }
        }
        self.spend(length.saturating_sub(found.unwrap_or(0)));
        found
    }

    /// Returns the last formatting element with the name since the last marker, or `NONE`.
    pub(crate) fn formatting_of(&mut self, name: Name) -> u32 {
        let mut found = NONE;
        let mut steps: usize = 0;
        for entry in self.formatting.entries.iter().rev() {
            steps = steps.saturating_add(1);
            if entry.node == NONE {
                break;
            }
            if self.tree.node(entry.node).name == name {
                found = entry.node;
                break;
            }
        }
        self.spend(steps);
        found
    }

    /// Removes an element from the formatting ones.
    pub(crate) fn forget(&mut self, id: u32) {
        if let Some(index) = self.formatting_index(id) {
            self.formatting.remove(index);
        }
    }

    /// Ends a formatting element, which may be ended in another order than it was opened (the
    /// "adoption agency"). Returns whether the end tag is another one's, and ends no such element.
    pub(crate) fn adopt(&mut self, name: Name) -> bool {
        let top = self.top_id();
        if self.top_is(name) && self.formatting_index(top).is_none() {
            self.pop();
            return false;
        }
        for _ in 0..8 {
            let id = self.formatting_of(name);
            if id == NONE {
                return true;
            }
            if !self.tree.node(id).is_open {
                self.forget(id);
                return false;
            }
            if !self.is_in_scope(id) || !self.adopt_once(id) {
                return false;
            }
        }
        false
    }

    /// Whether an open element is in scope.
    pub(crate) fn is_in_scope(&mut self, id: u32) -> bool {
        let mut steps: usize = 0;
        let mut found = false;
        for open in self.open.iter().rev() {
            steps = steps.saturating_add(1);
            if *open == id {
                found = true;
                break;
            }
            let node = self.tree.node(*open);
            if ends_scope(Scope::Default, node.space, node.name) {
                break;
            }
        }
        self.spend(steps);
        found
    }

    /// Moves the furthest block in an open formatting element out of it. Returns whether there is one.
    fn adopt_once(&mut self, id: u32) -> bool {
        let Some(index) = self.index_of(id) else {
            return false;
        };
        let mut found = self.open.len();
        for k in index..self.open.len() {
            let node = self.tree.node(self.open_id(k));
            if is_special(node.space, node.name) {
                found = k;
                break;
            }
        }
        if found == self.open.len() {
            for _ in index..found {
                self.pop();
            }
            self.forget(id);
            return false;
        }
        let block = self.open_id(found);
        let (last, mark) = self.adopt_between(id, block, found);
        self.tree.detach(last);
        let ancestor = match index.checked_sub(1) {
            Some(above) => self.open_id(above),
            None => NONE,
        };
        let (parent, before) = self.place(ancestor);
        self.tree.put(last, parent, before);
        self.replace_adopted(id, block, mark);
        true
    }

    /// Puts a copy of a formatting element around the content of a block, and removes the element.
    fn replace_adopted(&mut self, id: u32, block: u32, mark: usize) {
        let node = self.clone_of(id);
        let clone = match self.tree.add(node) {
            Ok(clone) => clone,
            Err(fault) => {
                self.fault = Some(fault);
                return;
            }
        };
        let moved = self.tree.move_children(block, clone);
        self.spend(moved);
        self.tree.put(clone, block, NONE);
        if let Some(index) = self.formatting_index(id) {
            let entry = self.formatting.entry(index);
            self.formatting.remove(index);
            let mark = if index < mark {
                mark.saturating_sub(1)
            } else {
                mark
            };
            let entry = Entry {
                node: clone,
                key: entry.key,
            };
            if self.formatting.insert(mark, entry).is_err() {
                self.fault = Some(Fault::Memory);
            }
        }
        self.remove(id);
        if let Some(index) = self.index_of(block) {
            self.open_at(index.saturating_add(1), clone);
        }
    }

    /// Copies the formatting elements between a formatting element and the block in it. Returns the
    /// outermost element to be moved, and where the new formatting element goes.
    fn adopt_between(&mut self, id: u32, block: u32, found: usize) -> (u32, usize) {
        let mut last = block;
        let mut mark = self.formatting_index(id).unwrap_or(0);
        let mut count: usize = 0;
        for index in (0..found).rev() {
            let node = self.open_id(index);
            if node == id || self.fault.is_some() {
                break;
            }
            count = count.saturating_add(1);
            match self.formatting_index(node) {
                Some(known) if count <= 3 => {
                    let clone = self.replace_open(index, known, node);
                    if last == block {
                        mark = known.saturating_add(1);
                    }
                    self.tree.detach(last);
                    self.tree.put(last, clone, NONE);
                    last = clone;
                }
                Some(known) => {
                    self.formatting.remove(known);
                    mark = if known < mark {
                        mark.saturating_sub(1)
                    } else {
                        mark
                    };
                    self.remove_at(index);
                }
                None => self.remove_at(index),
            }
        }
        (last, mark)
    }

    /// Puts a copy in place of an open formatting element, and returns its index.
    fn replace_open(&mut self, index: usize, known: usize, id: u32) -> u32 {
        let node = self.clone_of(id);
        let clone = match self.tree.add(node) {
            Ok(clone) => clone,
            Err(fault) => {
                self.fault = Some(fault);
                return NONE;
            }
        };
        self.formatting.replace(known, clone);
        self.remove_at(index);
        self.open_at(index, clone);
        clone
    }
}
