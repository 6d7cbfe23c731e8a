//! The elements of a tree whose siblings are counted.
ghost use Rattle.std.specs.Prelude.{◌≡◌};
ghost use Rattle.css_elements.specs.TreeNodes.{states_at};
ghost use Rattle.css_tree.specs.Pages.{is_in_state};

use crate::NumberedTree;
use crate::languages::is_in_range;
use css_elements::Node;
use css_index::Keyed;
use css_selectors::{Element, NamespacedAttribute};
use std::marker::Model;

/// An element of a tree whose siblings are counted.
#[derive(Drop)]
pub struct NumberedNode<'n, 'p, 't> {
    /// The tree of the element.
    pub(crate) tree: &'n NumberedTree<'p, 't>,
    /// Its index among the elements.
    pub(crate) index: usize,
}

impl<'n, 'p, 't> Model for NumberedNode<'n, 'p, 't> {
    ghost use Rattle.std.specs.Prelude.{◌<◌, ℕ, length};
    ghost use Rattle.css_matching.specs.ListTrees.{spot};
    ghost use Rattle.css_tree.specs.Pages.{Page};

    ghost Value = { Page × ℕ };

    ghost view = { λ node. spot node.tree.now node.index };

    ghost invariant = { λ node. node.index < length node.tree.now.rows };
}

impl<'n, 'p, 't> NumberedNode<'n, 'p, 't> {
    /// Returns the index among the elements of the tree.
    pub fn index(&self) -> usize
        ensures { result ≡ self.now.1 }
    {
        self.index
    }
}

/// The language is the attribute `lang` of the nearest among the element and its ancestors that has
/// one; it is empty if none has one. `languages::is_in_range` says which ranges it is in.
impl<'n, 'p, 't> Element for NumberedNode<'n, 'p, 't> {
    ghost use Rattle.std.specs.Prelude.{ℕ};
    ghost use Rattle.css_tree.specs.Pages.{Page, page_document};
    ghost use Rattle.css_tree.specs.Laws.{depths_count, earlier_count, parents_shared};

    ghost Node = { Page × ℕ };

    ghost document = { page_document };

    ghost node = { λ node. node };

    ghost depth_law = { depths_count };

    ghost earlier_law = { earlier_count };

    ghost sibling_law = { parents_shared };

    fn parent(&self) -> Option<Self> {
        let tree = self.tree;
        let index = self.tree.parent(self.index)?;
        Some(NumberedNode { tree, index })
    }

    fn previous_sibling(&self) -> Option<Self> {
        let tree = self.tree;
        let index = tree.before(self.index).last?;
        Some(NumberedNode { tree, index })
    }

    fn earlier_siblings(&self) -> u32 {
        self.tree.before(self.index).count
    }

    fn later_siblings(&self) -> u32 {
        self.tree.after(self.index)
    }

    fn earlier_of_type(&self) -> u32 {
        self.tree.alike_before(self.index)
    }

    fn later_of_type(&self) -> u32 {
        self.tree.alike_after(self.index)
    }

    fn is_named(&self, name: &str) -> bool {
        self.tree.plain(self.index).name() == name
    }

    fn is_in_namespace(&self, number: usize) -> bool {
        self.tree.is_in_namespace(self.index, number)
    }

    fn attribute(&self, name: &str) -> Option<&str> {
        self.tree.attribute(self.index, name)
    }

    fn namespaced_attribute(&self, index: usize) -> Option<NamespacedAttribute<'_>> {
        self.tree.namespaced_attribute(self.index, index)
    }

    fn is_in_state(&self, name: &str) -> bool {
        is_in(&self.tree.plain(self.index), name) || self.tree.is_in_further_state(self.index, name)
    }

    fn is_in_language(&self, range: &str) -> bool {
        is_in_range(range, self.tree.language(self.index))
    }

    fn has_content(&self) -> bool {
        self.tree.has_content(self.index)
    }

    fn is_in_list(&self, number: usize) -> bool {
        match number {
            0 => self.tree.is_scope(self.index),
            _ => self.tree.is_marked(number - 1, self.index),
        }
    }
}

/// Reports the names of the element and of its attributes.
impl<'n, 'p, 't> Keyed for NumberedNode<'n, 'p, 't> {
    ghost use Rattle.css_tree.specs.Reports.{reported_of, keys_reported};

    ghost reported = { reported_of };

    ghost reported_law = { keys_reported };

    fn local_name(&self) -> &str {
        self.tree.plain(self.index).name()
    }

    fn attribute_count(&self) -> usize {
        self.tree.plain(self.index).attributes().len()
    }

    fn attribute_name(&self, index: usize) -> &str {
        let attributes = self.tree.plain(self.index).attributes();
        attributes[index].0
    }
}

/// Whether the element is in the state of this name.
fn is_in(node: &Node<'_, '_>, name: &str) -> bool
    ensures { result ≡ is_in_state (states_at node.now.0 node.now.1) name.now }
{
    if name.eq_ignore_ascii_case("link") {
        node.states().link
    } else if name.eq_ignore_ascii_case("visited") {
        node.states().visited
    } else if name.eq_ignore_ascii_case("hover") {
        node.states().hover
    } else if name.eq_ignore_ascii_case("active") {
        node.states().active
    } else if name.eq_ignore_ascii_case("focus") {
        node.states().focus
    } else {
        name.eq_ignore_ascii_case("any-link") && (node.states().link || node.states().visited)
    }
}
