//! A tree as a caller passes it: its elements in document order, and all their strings in one buffer.

ghost use Rattle.std.specs.Prelude.{◌≡◌, ◌+◌, ◌-◌, ◌*◌, ◌^◌, ◌<◌, ◌≤◌, ◌++◌, ◌∷◌, [], ℕ, List, length};
ghost use Rattle.std.specs.Prelude.{map, take, drop, true, false, None, Some, Ok, Err};
ghost use Rattle.std.specs.Prelude.{MatchOption, MatchResult, IfOk, IfErr, OnOk};
ghost use Rattle.std.specs.List.{slice_range};
ghost use Rattle.std.specs.Str.{IsCharBoundary, IsUtf8};
ghost use Rattle.call_answers.specs.Elements.{Strings, may_end, strings_in, IsPath, limit_after};
ghost use Rattle.call_answers.specs.Elements.{parent_after, element_row, repeats_key, strings_of};
ghost use Rattle.call_answers.specs.Elements.{fault_in, with_element, tree_from};
ghost use Rattle.call_answers.specs.Elements.{keys_in, has_key as has_key_of};
ghost use Rattle.call_answers.specs.Elements.{all_but, last_names, prefixes_with as prefixes_with_of};
ghost use Rattle.call_answers.specs.Elements.{attributes_with as attributes_with_of};
ghost use Rattle.call_answers.specs.internal.Attributes.{placed_attribute_of};
ghost use Rattle.css_selector_text.specs.NameViews.{prefix_of};
ghost use Rattle.call_answers.specs.Elements.{fault_number, fault_element, has_bit, has_text, is_scope, scope_in, states_in};
ghost use Rattle.call_answers.specs.Calls.{FailsFor, passed_of, passed_tree, passed_names, passed_prefixes};
ghost use Rattle.call_answers.specs.Calls.{passed_attributes};

use crate::answer::CallError;
use crate::texts::text_of;
use css_elements::{States, Tree, TreeError};
use css_selectors::{NamespacedAttribute, Prefix};
use std::alloc::{AllocError, Global};
use std::collections::BTreeSet;

/// An element of a tree.
#[repr(C)]
#[derive(Clone, Copy, Debug)]
pub struct TreeElement {
    /// How many ancestors the element has.
    pub depth: usize,
    /// How many attributes it has.
    pub attributes: usize,
    /// The sum of its states: 1 is `:link`, 2 `:visited`, 4 `:hover`, 8 `:active`, 16 `:focus`, 32 that it
    /// has a text of its own that is not empty, and 64 that `:scope` matches it, as no later one. 128 is
    /// the first state that has a name, 256 the second, and so on.
    pub states: usize,
    /// The number of its namespace, or 0 of an element in none.
    pub namespace: usize,
}

/// Where an attribute of a tree is that is in a namespace.
#[repr(C)]
#[derive(Clone, Copy, Debug)]
pub struct TreeAttribute {
    /// The index of its element, from 0 on.
    pub element: usize,
    /// The number of its namespace, which is not 0.
    pub namespace: usize,
}

/// A tree as a caller passes it.
#[repr(C)]
#[derive(Clone, Copy)]
pub struct PassedTree<'t> {
    /// Its elements, in document order.
    pub elements: &'t [TreeElement],
    /// The bytes of all its strings, one after another.
    pub strings: &'t [u8],
    /// Where each string ends.
    pub ends: &'t [usize],
    /// The attributes that are in namespaces. Their names and values are after the strings of the elements.
    pub attributes: &'t [TreeAttribute],
    /// How many names of states are after these.
    pub states: usize,
    /// The numbers of the namespaces of prefixes, which are the last strings.
    pub prefixes: &'t [usize],
}

/// An attribute that is in a namespace, and the index of its element.
#[derive(Clone, Copy)]
pub struct PlacedAttribute<'t> {
    /// The index of the element. There may be none.
    pub element: usize,
    /// The attribute.
    pub attribute: NamespacedAttribute<'t>,
}

/// A tree, and what it declares for selectors.
#[derive(Drop)]
pub struct ReadTree<'t> {
    /// The tree.
    pub rows: Tree<'t>,
    /// The attributes of elements that are in namespaces.
    pub attributes: Vec<PlacedAttribute<'t>>,
    /// The names of the states that elements may be in beside those of every tree.
    pub states: Vec<&'t str>,
    /// Prefixes. The empty one is of the default namespace.
    pub prefixes: Vec<Prefix<'t>>,
}

/// What is wrong with a tree, with the number of the element, the first being 1.
#[derive(Clone, Copy, Debug, PartialEq)]
pub enum ElementFault {
    /// The depth is greater than that of the element before and one more, or than 0 at the first.
    BadDepth(usize),
    /// The name is empty.
    EmptyName(usize),
    /// A string of the element is missing. At one more than the number of elements: there are
    /// strings, or bytes of the buffer, that no element has.
    BadStrings(usize),
    /// Two attributes have one key.
    RepeatedKey(usize),
}

impl ElementFault {
    /// The number of the kind of fault.
    pub fn number(&self) -> u32
        ensures { result ≡ fault_number self.now }
    {
        match self {
            ElementFault::BadDepth(_) => 1,
            ElementFault::EmptyName(_) => 2,
            ElementFault::BadStrings(_) => 3,
            ElementFault::RepeatedKey(_) => 4,
        }
    }

    /// The number of the element.
    pub fn element(&self) -> usize
        ensures { result ≡ fault_element self.now }
    {
        match self {
            ElementFault::BadDepth(element)
            | ElementFault::EmptyName(element)
            | ElementFault::BadStrings(element)
            | ElementFault::RepeatedKey(element) => *element,
        }
    }
}

/// The string between two offsets of a buffer, if one may end at the second.
fn string_between(buffer: &str, start: usize, end: usize) -> Option<&str>
    requires { IsCharBoundary buffer.now start }
    ensures { MatchOption result (may_end buffer.now start end ≡ false)
        (λ string. (may_end buffer.now start end ≡ true)
        × (string.now ≡ slice_range buffer.now start end) × IsCharBoundary buffer.now end) }
{
    if end < start || !buffer.is_char_boundary(end) {
        return None;
    }
    buffer.get(start..end)
}

/// The strings of a buffer, by where each ends, up to the first end that none may have, and whether
/// they are all of the buffer.
fn cut_strings<'t>(
    alloc: Global,
    buffer: &'t str,
    ends: &[usize],
) -> Result<(Vec<&'t str>, bool), AllocError>
    ensures { IfOk result (λ cut. strings_in buffer.now ends.now
        ≡ record { strings = map (λ string. string.now) cut.0.items; are_all = cut.1 }) }
{
    let mut strings = Vec::with_capacity(alloc, ends.len())?;
    let mut start = 0;
    for end in ends {
        let Some(string) = string_between(buffer, start, *end) else {
            return Ok((strings, false));
        };
        strings.push(string)?;
        start = *end;
    }
    Ok((strings, start == buffer.len()))
}

/// The most attributes whose keys are compared one after another.
const COMPARED: usize = 8;

/// Whether one of the first attributes has this key.
fn has_key(fields: &[&str], count: usize, key: &str) -> bool
    requires { 2 * count ≤ length fields.now }
    ensures { result ≡ has_key_of (keys_in (map (λ field. field.now) fields.now) count) key.now }
{
    for i in 0..count {
        if fields[2 * i] == key {
            return true;
        }
    }
    false
}

/// Whether one of a few first attributes has the key of an earlier one.
fn repeats_among_few(fields: &[&str], count: usize) -> bool
    requires { 2 * count ≤ length fields.now }
    ensures { result ≡ repeats_key (map (λ field. field.now) fields.now) count }
{
    for i in 0..count {
        if has_key(fields, i, fields[2 * i]) {
            return true;
        }
    }
    false
}

/// Whether one of the first attributes has the key of an earlier one.
fn repeats_key(alloc: Global, fields: &[&str], count: usize) -> Result<bool, AllocError>
    requires { 2 * count ≤ length fields.now }
    ensures { IfOk result
        (λ repeats. repeats ≡ repeats_key (map (λ field. field.now) fields.now) count) }
{
    if count <= COMPARED {
        return Ok(repeats_among_few(fields, count));
    }
    let mut keys = BTreeSet::new(alloc);
    for i in 0..count {
        if !keys.insert(fields[2 * i])? {
            return Ok(true);
        }
    }
    Ok(false)
}

/// What is wrong with an element of this number, of which the strings that are left have the first.
fn fault_in(
    alloc: Global,
    number: usize,
    limit: usize,
    element: TreeElement,
    strings: &[&str],
) -> Result<Option<ElementFault>, AllocError>
    ensures { IfOk result (λ fault. fault
        ≡ fault_in number limit element (map (λ string. string.now) strings.now)) }
{
    if limit < element.depth {
        return Ok(Some(ElementFault::BadDepth(number)));
    }
    let [name, fields @ ..] = strings else {
        return Ok(Some(ElementFault::BadStrings(number)));
    };
    if fields.len() / 2 < element.attributes {
        return Ok(Some(ElementFault::BadStrings(number)));
    }
    if name.is_empty() {
        return Ok(Some(ElementFault::EmptyName(number)));
    }
    if element.attributes > 1 && repeats_key(alloc, fields, element.attributes)? {
        return Ok(Some(ElementFault::RepeatedKey(number)));
    }
    Ok(None)
}

/// Adds an element with its attributes as the last child of its parent.
fn add_element<'t>(
    tree: &mut Tree<'t>,
    parent: Option<usize>,
    name: &'t str,
    fields: &[&'t str],
    count: usize,
) -> Result<(), TreeError>
    requires { 2 * count ≤ length fields.now }
    ensures { OnOk result (tree.new ≡ tree.old
        ++ element_row tree.old parent name.now (map (λ field. field.now) fields.now) count ∷ []) }
{
    tree.push(parent, name)?;
    for i in 0..count {
        tree.set_attribute(fields[2 * i], fields[2 * i + 1])?;
    }
    Ok(())
}

/// The parent of an element of this depth, by the indices of the last element and its ancestors.
fn parent_of(path: &[usize], depth: usize) -> Option<usize>
    ensures { (depths : List ℕ) → IsPath path.now depths → depth ≤ length path.now
        → result ≡ parent_after depths depth }
{
    path.get(depth.checked_sub(1)?).copied()
}

/// Whether the sum of different powers of two has this one.
pub fn has_bit(sum: usize, power: usize) -> bool
    requires { 0 < power }
    ensures { result ≡ has_bit sum power }
{
    sum / power % 2 == 1
}

/// The states whose sum this is.
fn states_in(sum: usize) -> States
    ensures { result ≡ states_in sum }
{
    States {
        link: has_bit(sum, 1),
        visited: has_bit(sum, 2),
        hover: has_bit(sum, 4),
        active: has_bit(sum, 8),
        focus: has_bit(sum, 16),
    }
}

/// Whether an element has a text of its own that is not empty.
pub fn has_text(element: TreeElement) -> bool
    ensures { result ≡ has_text element }
{
    has_bit(element.states, 32)
}

/// Whether `:scope` matches the element.
fn is_scope(element: &TreeElement) -> bool
    ensures { result ≡ is_scope element.now }
{
    has_bit(element.states, 64)
}

/// Returns the index of the first element that `:scope` matches, if one is named.
pub fn scope_in(elements: &[TreeElement]) -> Option<usize>
    ensures { result ≡ scope_in elements.now }
{
    elements.iter().position(is_scope)
}

/// Adds the next element, and returns how many of the strings that are left it has.
fn add_next<'t>(
    alloc: Global,
    tree: &mut Tree<'t>,
    path: &mut Vec<usize>,
    element: TreeElement,
    strings: &[&'t str],
) -> Result<usize, CallError>
    requires { length tree.old + 1 < 2 ^ 64 }
    ensures { (depths : List ℕ) → IsPath path.old.items depths → length depths ≡ length tree.old
        → let all = map (λ string. string.now) strings.now in
        let fault = fault_in (length tree.old + 1) (limit_after depths) element all in
        MatchResult result (λ read. (fault ≡ None)
        × (tree.new ≡ with_element tree.old depths element all)
        × IsPath path.new.items (depths ++ element.depth ∷ [])
        × (read ≡ strings_of element) × (read ≤ length strings.now))
        (λ failure. FailsFor ⊥ (λ reported. fault ≡ Some reported) ⊥ failure) }
{
    let index = tree.len();
    if let Some(fault) = fault_in(alloc, index + 1, path.len(), element, strings)? {
        return Err(CallError::Tree(fault));
    }
    let parent = parent_of(path, element.depth);
    add_element(tree, parent, strings[0], &strings[1..], element.attributes)?;
    tree.set_states(index, states_in(element.states))?;
    path.truncate(element.depth);
    path.push(index)?;
    Ok(2 * element.attributes + 1)
}

/// The tree of the elements, by their strings.
fn link<'t>(
    alloc: Global,
    elements: &[TreeElement],
    strings: &[&'t str],
    are_all: bool,
) -> Result<Tree<'t>, CallError>
    ensures { let due = tree_from [] []
        (record { strings = map (λ string. string.now) strings.now; are_all = are_all })
        elements.now in
        MatchResult result (λ tree. due ≡ Ok tree)
        (λ failure. FailsFor ⊥ (λ fault. due ≡ Err fault) ⊥ failure) }
{
    let mut tree = Tree::new(alloc);
    let mut path = Vec::new(alloc);
    let mut next = 0;
    for element in elements {
        next += add_next(alloc, &mut tree, &mut path, *element, &strings[next..])?;
    }
    if next < strings.len() || !are_all {
        return Err(CallError::Tree(ElementFault::BadStrings(elements.len() + 1)));
    }
    Ok(tree)
}

/// Attributes in namespaces, by a name and a value for each, while there are both.
fn attributes_with<'t>(
    alloc: Global,
    strings: &[&'t str],
    places: &[TreeAttribute],
) -> Result<Vec<PlacedAttribute<'t>>, AllocError>
    ensures { IfOk result (λ found. map placed_attribute_of found.items
        ≡ attributes_with_of (map (λ string. string.now) strings.now) places.now) }
{
    let mut found = Vec::new(alloc);
    let mut left = strings;
    let mut more = places;
    'strings: while let [name, after @ ..] = left {
        let [value, strings @ ..] = after else {
            break 'strings;
        };
        let [place, places @ ..] = more else {
            break 'strings;
        };
        let attribute = NamespacedAttribute {
            namespace: place.namespace,
            name: *name,
            value: *value,
        };
        found.push(PlacedAttribute {
            element: place.element,
            attribute,
        })?;
        left = strings;
        more = places;
    }
    Ok(found)
}

/// Prefixes with the numbers of their namespaces, while there are both.
fn prefixes_with<'t>(
    alloc: Global,
    names: &[&'t str],
    numbers: &[usize],
) -> Result<Vec<Prefix<'t>>, AllocError>
    ensures { IfOk result (λ found. map prefix_of found.items
        ≡ prefixes_with_of (map (λ name. name.now) names.now) numbers.now) }
{
    let mut found = Vec::new(alloc);
    let mut left = names;
    let mut more = numbers;
    'names: while let [name, names @ ..] = left {
        let [number, numbers @ ..] = more else {
            break 'names;
        };
        found.push(Prefix {
            name: *name,
            number: *number,
        })?;
        left = names;
        more = numbers;
    }
    Ok(found)
}

/// The strings of elements, and the last strings, which are this number of names.
fn cut_names<'t>(
    strings: Vec<&'t str>,
    count: usize,
) -> Result<(Vec<&'t str>, Vec<&'t str>), AllocError>
    ensures { IfOk result (λ cut. let at = length strings.entry.items - count in
        (cut.0.items ≡ take at strings.entry.items) × (cut.1.items ≡ drop at strings.entry.items)) }
{
    let mut own = strings;
    let names = own.split_off(own.len().saturating_sub(count))?;
    Ok((own, names))
}

/// The tree of the elements that are passed, by all strings, of which the last ones are those of attributes, then
/// the names of states, and then prefixes.
fn link_named<'t>(
    alloc: Global,
    tree: PassedTree<'_>,
    strings: Vec<&'t str>,
    are_all: bool,
) -> Result<ReadTree<'t>, CallError>
    ensures { let all : Strings = record {
      strings = map (λ string. string.now) strings.entry.items;
      are_all = are_all;
    } in
        let before = all_but (length tree.entry.prefixes.now) all in
        let fields = all_but tree.entry.states before in
        let count = 2 * length tree.entry.attributes.now in
        let due = tree_from [] [] (all_but count fields) tree.entry.elements.now in
        MatchResult result (λ read. (due ≡ Ok read.rows)
        × (map (λ name. name.now) read.states.items ≡ last_names tree.entry.states before)
        × (map prefix_of read.prefixes.items
        ≡ prefixes_with_of (last_names (length tree.entry.prefixes.now) all) tree.entry.prefixes.now)
        × (map placed_attribute_of read.attributes.items
        ≡ attributes_with_of (last_names count fields) tree.entry.attributes.now))
        (λ failure. FailsFor ⊥ (λ fault. due ≡ Err fault) ⊥ failure) }
{
    let (before, prefix_names) = cut_names(strings, tree.prefixes.len())?;
    let (fields, states) = cut_names(before, tree.states)?;
    let (own, attribute_strings) = cut_names(fields, 2 * tree.attributes.len())?;
    let rows = link(alloc, tree.elements, &own, are_all)?;
    let attributes = attributes_with(alloc, &attribute_strings, tree.attributes)?;
    let prefixes = prefixes_with(alloc, &prefix_names, tree.prefixes)?;
    Ok(ReadTree {
        rows,
        attributes,
        states,
        prefixes,
    })
}

/// The tree of the elements, by a buffer of strings and where each ends, and what it declares.
pub fn read_named_tree<'t>(alloc: Global, tree: PassedTree<'t>) -> Result<ReadTree<'t>, CallError>
    ensures { let passed = passed_of tree.entry in
        MatchResult result
        (λ read. IsUtf8 passed.strings × (passed_tree passed ≡ Ok read.rows)
        × (map (λ name. name.now) read.states.items ≡ passed_names passed)
        × (map prefix_of read.prefixes.items ≡ passed_prefixes passed)
        × (map placed_attribute_of read.attributes.items ≡ passed_attributes passed))
        (λ failure. FailsFor ⊥ (λ fault. passed_tree passed ≡ Err fault)
        (¬ (IsUtf8 passed.strings)) failure) }
{
    let buffer = text_of(tree.strings)?;
    let (strings, are_all) = cut_strings(alloc, buffer, tree.ends)?;
    link_named(alloc, tree, strings, are_all)
}

/// The tree of the elements, by a buffer of strings and where each ends.
pub fn read_tree<'t>(alloc: Global, tree: PassedTree<'t>) -> Result<Tree<'t>, CallError>
    ensures { let passed = passed_of tree.entry in
        MatchResult result
        (λ rows. IsUtf8 passed.strings × (passed_tree passed ≡ Ok rows))
        (λ failure. FailsFor ⊥ (λ fault. passed_tree passed ≡ Err fault)
        (¬ (IsUtf8 passed.strings)) failure) }
{
    let read = read_named_tree(alloc, tree)?;
    Ok(read.rows)
}
