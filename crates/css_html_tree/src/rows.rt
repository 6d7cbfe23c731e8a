//! The nodes of a page in document order.
ghost use Rattle.std.specs.Prelude.{◌≡◌, ◌<◌, IfOk, IfSome};
ghost use Rattle.css_html_tree.specs.Rows.{AreRows, IsBelow};

use crate::page::{Fault, Row};
use crate::tree::{NONE, Node, Tree};
use std::alloc::Global;

/// Returns the index of a node's start tag, if it is among so many.
fn tag_of(node: &Node<'_>, tags: usize) -> Option<usize>
    ensures { IfSome result (λ tag. tag < tags) }
{
    let tag = node.tag as usize;
    if tag < tags { Some(tag) } else { None }
}

/// Returns the row of a node.
fn new_row<'a>(node: &Node<'a>, tag: Option<usize>, parent: Option<usize>, depth: usize) -> Row<'a>
    ensures tag { result.tag ≡ tag }
    ensures parent { result.parent ≡ parent }
    ensures depth { result.depth ≡ depth }
{
    Row {
        kind: node.kind,
        space: node.space,
        name: node.name,
        word: node.word,
        tag,
        parent,
        depth,
        start: node.start,
        end: node.end,
    }
}

/// Returns the row of a node after these rows, with its parent at an index.
fn row_of<'a>(node: &Node<'a>, rows: &[Row<'a>], parent: usize, tags: usize) -> Row<'a>
    ensures tagged { IfSome result.tag (λ tag. tag < tags) }
    ensures below { IsBelow rows.now result }
{
    let tag = tag_of(node, tags);
    match rows.get(parent) {
        Some(above) if above.depth < usize::MAX => {
            new_row(node, tag, Some(parent), above.depth + 1)
        }
        _ => new_row(node, tag, None, 0),
    }
}

impl<'a> Tree<'a> {
    /// Returns the node after another one in document order, among those in the outermost.
    fn following(&self, id: u32, outermost: u32) -> u32 {
        let first = self.node(id).first;
        if first != NONE {
            return first;
        }
        let mut at = id;
        for _ in 0..self.nodes.len() {
            if at == outermost {
                return NONE;
            }
            let node = self.node(at);
            if node.next != NONE {
                return node.next;
            }
            at = node.parent;
        }
        NONE
    }

    /// Returns the rows of the nodes in a node, and notes the row of each.
    pub(crate) fn rows(
        &self,
        alloc: Global,
        outermost: u32,
        tags: usize,
        places: &mut Vec<usize>,
    ) -> Result<Vec<Row<'a>>, Fault>
        ensures { IfOk result (λ rows. AreRows tags rows.items) }
    {
        let mut rows: Vec<Row<'a>> = Vec::new(alloc);
        let mut at = outermost;
        for row in 0..self.nodes.len() {
            at = self.following(at, outermost);
            if at == NONE {
                break;
            }
            let node = self.node(at);
            let parent = match places.get(node.parent as usize) {
                Some(parent) => *parent,
                None => usize::MAX,
            };
            let next = row_of(&node, rows.as_slice(), parent, tags);
            rows.push(next)?;
            if let Some(place) = places.get_mut(at as usize) {
                *place = row;
            }
        }
        Ok(rows)
    }
}
