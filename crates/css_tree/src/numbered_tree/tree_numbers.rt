//! What is counted of a tree, without the tree.

ghost use Rattle.std.specs.Prelude.{◌≡◌};
ghost use Rattle.css_tree.specs.TreeNumbers.{AreNumbersOf, page_by, unasked};

use super::{NamedState, NumberedTree};
use crate::groups::Groups;
use crate::html_states::HtmlStates;
use css_elements::Tree;
use css_selectors::NamespacedAttribute;
use std::alloc::Global;
use std::collections::BTreeMap;

/// What a [`NumberedTree`] has beside its tree: what is counted of it and was said of it, but for the scoping root
/// and the numbers of lists, which are those of a question. It does not borrow the tree, so that both may lie side by
/// side.
#[derive(Drop)]
pub struct TreeNumbers<'t> {
    /// The elements by their parents: families.
    families: Groups,
    /// The elements by their parents, their namespaces and their names: kinds.
    kinds: Groups,
    /// The language of each element.
    languages: Vec<&'t str>,
    /// The values of the attributes of elements that have many, by the element's index and the name.
    attributes: BTreeMap<usize, BTreeMap<&'t str, &'t str>>,
    /// Whether each element has a text of its own that is not empty.
    texts: Vec<bool>,
    /// The states that were named.
    states: Vec<NamedState<'t>>,
    /// The number of the namespace of each element; those after the last one are in none.
    namespaces: Vec<usize>,
    /// The attributes of each element that are in namespaces; those after the last one have none.
    namespaced_attributes: Vec<Vec<NamespacedAttribute<'t>>>,
    /// The states of each element that its attributes decide, if the tree is that of an HTML document.
    html: Option<Vec<HtmlStates>>,
}

impl<'p, 't> NumberedTree<'p, 't> {
    /// Lets the tree go, and keeps what was counted of it and said of it. No element is named as the scoping root
    /// any longer, and no list has a number.
    pub fn into_numbers(self) -> TreeNumbers<'t>
        ensures counted { AreNumbersOf self.entry.rows result }
        ensures page { page_by self.entry.rows result ≡ unasked self.entry }
    {
        let NumberedTree {
            tree: _tree,
            families,
            kinds,
            languages,
            attributes,
            texts,
            scope: _scope,
            states,
            namespaces,
            namespaced_attributes,
            marks: _marks,
            html,
        } = self;
        TreeNumbers {
            families,
            kinds,
            languages,
            attributes,
            texts,
            states,
            namespaces,
            namespaced_attributes,
            html,
        }
    }
}

impl<'t> TreeNumbers<'t> {
    /// The tree again with what was counted of it, in a time that does not depend on it. The tree must be the one of
    /// which all was counted.
    pub fn on<'p>(self, alloc: Global, tree: &'p Tree<'t>) -> NumberedTree<'p, 't>
        requires { AreNumbersOf tree.now self }
        ensures { result ≡ page_by tree.now self.entry }
    {
        let TreeNumbers {
            families,
            kinds,
            languages,
            attributes,
            texts,
            states,
            namespaces,
            namespaced_attributes,
            html,
        } = self;
        NumberedTree {
            tree,
            families,
            kinds,
            languages,
            attributes,
            texts,
            scope: None,
            states,
            namespaces,
            namespaced_attributes,
            marks: Vec::new(alloc),
            html,
        }
    }
}
