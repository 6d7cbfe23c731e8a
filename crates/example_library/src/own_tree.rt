//! A user's own tree, against which selectors are matched: entries in a list, each with the indices
//! of its parent and its previous sibling. Both laws of elements come from `ListTrees`.
ghost use Rattle.std.specs.Prelude.{◌<◌, ◌≡◌, ℕ, List, IfSome, length};
ghost use Rattle.std.specs.Option.{option_map};
ghost use Rattle.simplecss.specs.ListTrees.{list_tree, list_counts_ancestors, list_shares_parents};
ghost use Rattle.simplecss.specs.ListTrees.{parent_index, sibling_index};
ghost use Rattle.example_library.specs.OwnTree.{entry_list, value_of, value_at, reported_at, keys_reported};
ghost use Rattle.example_library.specs.declared.own_tree.Entry.{Entry};

use simplecss::{AttributeOperator, Element, Keyed, PseudoClass};

/// An entry: a name, an id and a class, if it has them, and the indices of the parent and of the
/// previous sibling, if any.
#[derive(Clone, Copy, Debug)]
pub struct Entry<'t> {
    /// The element's name.
    pub name: &'t str,
    /// The value of its attribute `id`.
    pub id: Option<&'t str>,
    /// The value of its attribute `class`.
    pub class: Option<&'t str>,
    /// The index of the parent.
    pub parent: Option<usize>,
    /// The index of the previous sibling.
    pub previous: Option<usize>,
}

impl<'t> Entry<'t> {
    /// Returns the value of an attribute.
    fn value(&self, name: &str) -> Option<&'t str>
        ensures { option_map (λ value. value.now) result ≡ value_of self.now name.now }
    {
        match name {
            "id" => self.id,
            "class" => self.class,
            _ => None,
        }
    }
}

/// The element at an index of a list.
#[derive(Drop)]
pub struct Spot<'t> {
    /// All entries.
    pub entries: &'t [Entry<'t>],
    /// The index of this one.
    pub index: usize,
    pub ghost within: { index < length entries.now },
}

/// Returns the index of the parent, if that is less.
fn parent_of(entries: &[Entry<'_>], index: usize) -> Option<usize>
    requires { index < length entries.now }
    ensures value { result ≡ parent_index entry_list entries.now index }
    ensures before { IfSome result (λ parent. parent < index) }
{
    let parent = entries[index].parent?;
    if parent < index { Some(parent) } else { None }
}

/// Returns the index of the previous sibling, if that is less and has the same parent.
fn previous_of(entries: &[Entry<'_>], index: usize) -> Option<usize>
    requires { index < length entries.now }
    ensures value { result ≡ sibling_index entry_list entries.now index }
    ensures before { IfSome result (λ previous. previous < index) }
{
    let previous = entries[index].previous?;
    if previous < index && parent_of(entries, previous) == parent_of(entries, index) {
        Some(previous)
    } else {
        None
    }
}

impl<'t> Spot<'t> {
    /// Returns the value of an attribute.
    fn value(&self, name: &str) -> Option<&'t str>
        ensures { option_map (λ value. value.now) result
            ≡ value_at self.now.entries.now self.now.index name.now }
    {
        self.entries[self.index].value(name)
    }
}

/// Names and values compare byte by byte. `:first-child` is an element without a previous sibling,
/// and no other pseudo-class holds.
impl<'t> Element for Spot<'t> {
    ghost Node = { List Entry × ℕ };

    ghost tree = { list_tree entry_list };

    ghost node = { λ spot. (spot.entries.now, spot.index) };

    ghost depth_law = { list_counts_ancestors entry_list };

    ghost sibling_law = { list_shares_parents entry_list };

    fn parent_element(&self) -> Option<Self> {
        let entries = self.entries;
        let index = parent_of(entries, self.index)?;
        Some(Spot { entries, index })
    }

    fn prev_sibling_element(&self) -> Option<Self> {
        let entries = self.entries;
        let index = previous_of(entries, self.index)?;
        Some(Spot { entries, index })
    }

    fn has_local_name(&self, name: &str) -> bool {
        self.entries[self.index].name == name
    }

    fn attribute_matches(&self, local_name: &str, operator: AttributeOperator<'_>) -> bool {
        match self.value(local_name) {
            Some(value) => operator.matches(value),
            None => false,
        }
    }

    fn pseudo_class_matches(&self, class: PseudoClass<'_>) -> bool {
        match class {
            PseudoClass::FirstChild => previous_of(self.entries, self.index).is_none(),
            _ => false,
        }
    }
}

/// Reports its name, and the values of `id` and `class`.
impl<'t> Keyed for Spot<'t> {
    ghost reported = { λ spot. reported_at (spot.entries.now, spot.index) };

    ghost reported_law = { λ spot. keys_reported (spot.entries.now, spot.index) };

    fn local_name(&self) -> &str {
        self.entries[self.index].name
    }

    fn id_value(&self) -> Option<&str> {
        self.value("id")
    }

    fn class_value(&self) -> Option<&str> {
        self.value("class")
    }

    fn has_attribute(&self, name: &str) -> bool {
        self.value(name).is_some()
    }
}
