//! The nodes of a page, which are in one list and linked by their indices.
use crate::names::{Name, Space};
use crate::page::{Fault, NodeKind};
use std::alloc::Global;

/// The index of a node that is not there.
pub(crate) const NONE: u32 = u32::MAX;

/// The index of the document.
pub(crate) const DOCUMENT: u32 = 0;

/// A node.
#[derive(Clone, Copy)]
pub(crate) struct Node<'a> {
    pub(crate) kind: NodeKind,
    pub(crate) space: Space,
    pub(crate) name: Name,
    /// Whether it is one of the open elements.
    pub(crate) is_open: bool,
    /// Whether it is an element of SVG or MathML whose content is HTML.
    pub(crate) has_html: bool,
    /// The index of its start tag, or `NONE`.
    pub(crate) tag: u32,
    /// The letters of its name, if they are in the page.
    pub(crate) word: &'a [u8],
    /// The attributes of its start tag and the `>`.
    pub(crate) attributes: &'a [u8],
    /// Where its end tag is, or another node is.
    pub(crate) start: usize,
    pub(crate) end: usize,
    pub(crate) parent: u32,
    pub(crate) first: u32,
    pub(crate) last: u32,
    pub(crate) previous: u32,
    pub(crate) next: u32,
}

/// Returns a node of a kind without relatives.
pub(crate) fn new_node<'a>(kind: NodeKind, start: usize, end: usize) -> Node<'a> {
    Node {
        kind,
        space: Space::Html,
        name: Name::Other,
        is_open: false,
        has_html: false,
        tag: NONE,
        word: &[],
        attributes: &[],
        start,
        end,
        parent: NONE,
        first: NONE,
        last: NONE,
        previous: NONE,
        next: NONE,
    }
}

/// The nodes.
#[derive(Drop)]
pub(crate) struct Tree<'a> {
    pub(crate) nodes: Vec<Node<'a>>,
}

impl<'a> Tree<'a> {
    /// Creates a tree with a document at index 0.
    pub(crate) fn new(alloc: Global) -> Result<Tree<'a>, Fault> {
        let mut nodes = Vec::new(alloc);
        nodes.push(new_node(NodeKind::Document, 0, 0))?;
        Ok(Tree { nodes })
    }

    /// Returns a copy of a node, or one that is nothing.
    #[inline(always)]
    pub(crate) fn node(&self, id: u32) -> Node<'a> {
        match self.nodes.get(id as usize) {
            Some(node) => *node,
            None => new_node(NodeKind::Document, 0, 0),
        }
    }

    /// Adds a node without relatives, and returns its index.
    pub(crate) fn add(&mut self, node: Node<'a>) -> Result<u32, Fault> {
        match u32::try_from(self.nodes.len()) {
            Ok(id) if id < NONE => {
                self.nodes.push(node)?;
                Ok(id)
            }
            _ => Err(Fault::TooLong),
        }
    }

    /// Puts a node without a parent into one, before another node or as the last child.
    pub(crate) fn put(&mut self, child: u32, parent: u32, before: u32) {
        let previous = if before == NONE {
            self.node(parent).last
        } else {
            self.node(before).previous
        };
        if let Some(node) = self.nodes.get_mut(child as usize) {
            node.parent = parent;
            node.previous = previous;
            node.next = before;
        }
        self.set_next(parent, previous, child);
        self.set_previous(parent, before, child);
    }

    /// Takes a node out of its parent.
    pub(crate) fn detach(&mut self, child: u32) {
        let node = self.node(child);
        self.set_next(node.parent, node.previous, node.next);
        self.set_previous(node.parent, node.next, node.previous);
        if let Some(node) = self.nodes.get_mut(child as usize) {
            node.parent = NONE;
            node.previous = NONE;
            node.next = NONE;
        }
    }

    /// Makes a node follow another one, or the first child.
    fn set_next(&mut self, parent: u32, previous: u32, next: u32) {
        if previous != NONE {
            if let Some(node) = self.nodes.get_mut(previous as usize) {
                node.next = next;
            }
        } else if let Some(node) = self.nodes.get_mut(parent as usize) {
            node.first = next;
        }
    }

    /// Makes a node precede another one, or the last child.
    fn set_previous(&mut self, parent: u32, next: u32, previous: u32) {
        if next != NONE {
            if let Some(node) = self.nodes.get_mut(next as usize) {
                node.previous = previous;
            }
        } else if let Some(node) = self.nodes.get_mut(parent as usize) {
            node.last = previous;
        }
    }

    /// Moves the children of a node into one that has none, and returns their number.
    pub(crate) fn move_children(&mut self, from: u32, to: u32) -> usize {
        let old = self.node(from);
        let mut child = old.first;
        let mut count: usize = 0;
        for _ in 0..self.nodes.len() {
            match self.nodes.get_mut(child as usize) {
                Some(node) => {
                    node.parent = to;
                    child = node.next;
                    count = count.saturating_add(1);
                }
                None => break,
            }
        }
        if let Some(node) = self.nodes.get_mut(to as usize) {
            node.first = old.first;
            node.last = old.last;
        }
        if let Some(node) = self.nodes.get_mut(from as usize) {
            node.first = NONE;
            node.last = NONE;
        }
        count
    }
}
