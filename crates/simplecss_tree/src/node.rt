//! The elements of a tree, as selectors see them.
ghost use Rattle.std.specs.Prelude.{◌≡◌, ◌<◌, length, Some, map, false};
ghost use Rattle.std.specs.Option.{option_map};
ghost use Rattle.css_elements.specs.Rows.{attribute_of};

use css_elements::Tree;
use simplecss::{AttributeOperator, Element, Exact, Keyed, PseudoClass};
use std::marker::Model;

/// An element of a tree.
#[derive(Debug, Drop)]
pub struct Node<'p, 't> {
    /// The tree of the element.
    tree: &'p Tree<'t>,
    /// Its index among the elements.
    index: usize,
}

impl<'p, 't> Model for Node<'p, 't> {
    ghost use Rattle.std.specs.Prelude.{◌<◌, ℕ, List, length};
    ghost use Rattle.simplecss.specs.ListTrees.{spot};
    ghost use Rattle.css_elements.specs.Rows.{Row};

    ghost Value = { List Row × ℕ };

    ghost view = { λ node. spot node.tree.now node.index };

    ghost invariant = { λ node. node.index < length node.tree.now };
}

/// A tree, as selectors of CSS 2.1 see it.
pub trait Nodes<'t> {
    /// Returns the element at an index, if there is one.
    fn node(&self, index: usize) -> Option<Node<'_, 't>>;
}

impl<'t> Nodes<'t> for Tree<'t> {
    ghost use Rattle.std.specs.Prelude.{◌≡◌, ◌<◌, ◌≤◌, length, MatchOption};
    ghost use Rattle.simplecss.specs.ListTrees.{spot};

    fn node(&self, index: usize) -> Option<Node<'_, 't>>
        ensures { MatchOption result (length self.now ≤ index)
            (λ node. (index < length self.now) × (node ≡ spot self.now index)) }
    {
        if index < self.len() {
            Some(Node { tree: self, index })
        } else {
            None
        }
    }
}

impl<'p, 't> Node<'p, 't> {
    ghost use Rattle.css_elements.specs.TreeNodes.{name_at, attribute_at, attributes_at};
    ghost use Rattle.css_elements.specs.TreeNodes.{language_at};

    /// Returns the index among the elements of the tree, in the order in which they were added.
    pub fn index(&self) -> usize
        ensures { result ≡ self.now.1 }
    {
        self.index
    }

    /// Returns the name.
    #[inline(always)]
    pub fn name(&self) -> &'t str
        ensures { result.now ≡ name_at self.now.0 self.now.1 }
    {
        self.tree.name(self.index)
    }

    /// Returns the name and the value of each attribute.
    pub fn attributes(&self) -> &'p [(&'t str, &'t str)]
        ensures { map attribute_of result.now ≡ attributes_at self.now.0 self.now.1 }
    {
        self.tree.attributes(self.index)
    }

    /// Returns the value of the first attribute with the name, if there is one.
    pub fn attribute(&self, name: &str) -> Option<&'t str>
        ensures { option_map (λ value. value.now) result
            ≡ attribute_at self.now.0 self.now.1 name.now }
    {
        self.tree.attribute(self.index, name)
    }

    /// Returns the value of the attribute `lang` of the nearest among the element and its ancestors
    /// that has one.
    pub fn language(&self) -> Option<&'t str>
        ensures { option_map (λ value. value.now) result ≡ language_at self.now.0 self.now.1 }
    {
        self.tree.language(self.index)
    }
}

/// Names and values compare byte by byte. A first child is an element without a previous sibling,
/// so the first of those without a parent is one too. The states are those of `Tree::set_states`.
/// The language is the attribute `lang` of the nearest among the element and its ancestors that has
/// one.
impl<'p, 't> Element for Node<'p, 't> {
    ghost use Rattle.std.specs.Prelude.{ℕ, List};
    ghost use Rattle.simplecss.specs.ListTrees.{list_counts_ancestors, list_shares_parents};
    ghost use Rattle.css_elements.specs.Rows.{Row};
    ghost use Rattle.simplecss_tree.specs.TreeNodes.{elements, element_tree};

    ghost Node = { List Row × ℕ };

    ghost tree = { element_tree };

    ghost node = { λ node. node };

    ghost depth_law = { list_counts_ancestors elements };

    ghost sibling_law = { list_shares_parents elements };

    #[inline(always)]
    fn parent_element(&self) -> Option<Self> {
        let tree = self.tree;
        let index = tree.parent(self.index)?;
        Some(Node { tree, index })
    }

    #[inline(always)]
    fn prev_sibling_element(&self) -> Option<Self> {
        let tree = self.tree;
        let index = tree.previous(self.index)?;
        Some(Node { tree, index })
    }

    #[inline(always)]
    fn has_local_name(&self, name: &str) -> bool {
        self.name() == name
    }

    fn attribute_matches(&self, local_name: &str, operator: AttributeOperator<'_>) -> bool {
        match self.tree.attribute(self.index, local_name) {
            Some(value) => operator.matches(value),
            None => false,
        }
    }

    fn pseudo_class_matches(&self, class: PseudoClass<'_>) -> bool {
        let states = self.tree.states(self.index);
        match class {
            PseudoClass::FirstChild => self.tree.previous(self.index).is_none(),
            PseudoClass::Link => states.link,
            PseudoClass::Visited => states.visited,
            PseudoClass::Hover => states.hover,
            PseudoClass::Active => states.active,
            PseudoClass::Focus => states.focus,
            PseudoClass::Lang(tag) => self.tree.is_in_language(self.index, tag),
        }
    }
}

/// Reports its name and its attributes `id` and `class`.
impl<'p, 't> Keyed for Node<'p, 't> {
    ghost use Rattle.simplecss_tree.specs.TreeNodes.{reported_at, keys_reported};

    ghost reported = { reported_at };

    ghost reported_law = { keys_reported };

    #[inline(always)]
    fn local_name(&self) -> &str {
        self.name()
    }

    fn id_value(&self) -> Option<&str> {
        self.tree.attribute(self.index, "id")
    }

    fn class_value(&self) -> Option<&str> {
        self.tree.attribute(self.index, "class")
    }

    fn has_attribute(&self, name: &str) -> bool {
        self.tree.attribute(self.index, name).is_some()
    }
}

/// Names and values are reported as they are compared.
impl<'p, 't> Exact for Node<'p, 't> {
    ghost use Rattle.simplecss_tree.specs.TreeNodes.{only_keys_reported};

    ghost exact_law = { only_keys_reported };
}
