//! The elements of a tree.
ghost use Rattle.std.specs.Prelude.{◌≡◌, map};
ghost use Rattle.std.specs.Option.{option_map};
ghost use Rattle.css_elements.specs.TreeNodes.{is_in_language, value_in};
ghost use Rattle.css_elements.specs.Rows.{attribute_of};

use crate::{States, Tree};
use std::marker::Model;

/// An element of a tree.
#[derive(Debug, Drop)]
pub struct Node<'p, 't> {
    /// The tree of the element.
    pub(crate) tree: &'p Tree<'t>,
    /// Its index among the elements.
    pub(crate) index: usize,
}

impl<'p, 't> Model for Node<'p, 't> {
    ghost use Rattle.std.specs.Prelude.{◌<◌, ℕ, List, length};
    ghost use Rattle.css_matching.specs.ListTrees.{spot};
    ghost use Rattle.css_elements.specs.Rows.{Row};

    ghost Value = { List Row × ℕ };

    ghost view = { λ node. spot node.tree.now node.index };

    ghost invariant = { λ node. node.index < length node.tree.now };
}

/// Whether the language is the tag, or the tag and then a hyphen.
pub(crate) fn is_in_language(tag: &str, language: &str) -> bool
    ensures { result ≡ is_in_language tag.now language.now }
{
    let (tag, language) = (tag.as_bytes(), language.as_bytes());
    if language.len() < tag.len() {
        return false;
    }
    let (front, rest) = language.split_at(tag.len());
    front.eq_ignore_ascii_case(tag) && (rest.is_empty() || rest[0] == b'-')
}

/// Returns the value of the first attribute with the name, if there is one.
pub(crate) fn value_in<'t>(attributes: &[(&'t str, &'t str)], name: &str) -> Option<&'t str>
    ensures { option_map (λ value. value.now) result
        ≡ value_in (map attribute_of attributes.now) name.now }
{
    for (key, value) in attributes {
        if *key == name {
            return Some(*value);
        }
    }
    None
}

impl<'p, 't> Node<'p, 't> {
    ghost use Rattle.css_elements.specs.TreeNodes.{name_at, attribute_at, attributes_at, states_at};

    /// Returns the index among the elements of the tree, in the order in which they were added.
    pub fn index(&self) -> usize
        ensures { result ≡ self.now.1 }
    {
        self.index
    }

    /// Returns the name.
    #[inline(always)]
    pub fn name(&self) -> &'t str
        ensures { result.now ≡ name_at self.now.0 self.now.1 }
    {
        self.tree.name(self.index)
    }

    /// Returns the name and the value of each attribute.
    pub fn attributes(&self) -> &'p [(&'t str, &'t str)]
        ensures { map attribute_of result.now ≡ attributes_at self.now.0 self.now.1 }
    {
        self.tree.attributes(self.index)
    }

    /// Returns the value of the first attribute with the name, if there is one.
    pub fn attribute(&self, name: &str) -> Option<&'t str>
        ensures { option_map (λ value. value.now) result
            ≡ attribute_at self.now.0 self.now.1 name.now }
    {
        self.tree.attribute(self.index, name)
    }

    /// Returns the states.
    pub fn states(&self) -> States
        ensures { result ≡ states_at self.now.0 self.now.1 }
    {
        self.tree.states(self.index)
    }
}
