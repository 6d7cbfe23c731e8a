//! Elements of a page that count the tests made of them.

use cssq::tree::Node;
use simplecss::{AttributeOperator, Element, Keyed, PseudoClass};
use std::cell::Cell;

/// How often elements were tested, by kind of test.
#[derive(Drop)]
pub(crate) struct CallCounts {
    pub(crate) names: Cell<u64>,
    pub(crate) attributes: Cell<u64>,
    pub(crate) classes: Cell<u64>,
}

impl CallCounts {
    pub(crate) fn new() -> CallCounts {
        CallCounts {
            names: Cell::new(0),
            attributes: Cell::new(0),
            classes: Cell::new(0),
        }
    }
}

fn count(cell: &Cell<u64>) {
    cell.set(cell.get().saturating_add(1));
}

/// An element of a page that counts the tests of it and its relatives.
#[derive(Drop)]
pub(crate) struct Counted<'a, 'p, 't> {
    pub(crate) node: Node<'p, 't>,
    pub(crate) calls: &'a CallCounts,
}

impl<'a, 'p, 't> Element for Counted<'a, 'p, 't> {
    ghost use Rattle.cssq.specs.PageNodes.{Spot, page_tree};
    ghost use Rattle.cssq.specs.ElementLaws.{depths_count_ancestors, siblings_share_parents};

    ghost Node = { Spot };

    ghost tree = { page_tree };

    ghost node = { λ counted. counted.node };

    ghost depth_law = { depths_count_ancestors };

    ghost sibling_law = { siblings_share_parents };

    fn parent_element(&self) -> Option<Self> {
        let node = self.node.parent_element()?;
        Some(Counted {
            node,
            calls: self.calls,
        })
    }

    fn prev_sibling_element(&self) -> Option<Self> {
        let node = self.node.prev_sibling_element()?;
        Some(Counted {
            node,
            calls: self.calls,
        })
    }

    fn has_local_name(&self, name: &str) -> bool {
        count(&self.calls.names);
        self.node.has_local_name(name)
    }

    fn attribute_matches(&self, local_name: &str, operator: AttributeOperator<'_>) -> bool {
        count(&self.calls.attributes);
        self.node.attribute_matches(local_name, operator)
    }

    fn pseudo_class_matches(&self, class: PseudoClass<'_>) -> bool {
        count(&self.calls.classes);
        self.node.pseudo_class_matches(class)
    }
}

impl<'a, 'p, 't> Keyed for Counted<'a, 'p, 't> {
    ghost use Rattle.cssq.specs.PageNodes.{reported_of};
    ghost use Rattle.cssq.specs.ElementLaws.{keys_reported};

    ghost reported = { λ counted. reported_of counted.node };

    ghost reported_law = { λ counted. keys_reported counted.node };

    fn local_name(&self) -> &str {
        self.node.local_name()
    }

    fn id_value(&self) -> Option<&str> {
        self.node.id_value()
    }

    fn class_value(&self) -> Option<&str> {
        self.node.class_value()
    }

    fn has_attribute(&self, name: &str) -> bool {
        self.node.has_attribute(name)
    }
}
