//! The nodes of a document in document order.
ghost use Rattle.std.specs.Prelude.{◌≡◌, ◌<◌, IfOk, IfSome};
ghost use Rattle.css_html_tree.specs.Rows.{AreRows, IsBelow};

use crate::faults::Fault;
use crate::tokenizer::{is_empty_tag, read_next, tag_name};
use css_html::tokenizer::{Token, TokenKind};
use css_html_tree::names::{Name, Space};
use css_html_tree::page::{NodeKind, Row};
use std::alloc::{AllocError, Global};

/// A node.
#[derive(Clone, Copy)]
pub(crate) struct Node<'a> {
    kind: NodeKind,
    /// The name of an element, as written.
    word: &'a [u8],
    /// The index of an element's tag.
    tag: Option<usize>,
    /// The index of its parent.
    parent: Option<usize>,
    /// Where its end tag is, or another node is.
    start: usize,
    end: usize,
}

/// The nodes so far, those of elements that are open, and how many start tags there were.
#[derive(Drop)]
struct Nodes<'a> {
    found: Vec<Node<'a>>,
    open: Vec<usize>,
    tags: usize,
}

impl<'a> Nodes<'a> {
    /// Adds a node in the innermost element that is open.
    fn add(&mut self, kind: NodeKind, start: usize, end: usize) -> Result<(), AllocError> {
        Ok(
            self.found.push(Node {
                kind,
                word: &[],
                tag: None,
                parent: self.open.last().copied(),
                start,
                end,
            })?,
        )
    }

    /// Adds an element, whose tag ends at a place.
    fn begin(&mut self, tag: &Token<'a>, end: usize) -> Result<(), AllocError> {
        let index = self.found.len();
        self.found.push(Node {
            kind: NodeKind::Element,
            word: tag_name(tag),
            tag: Some(self.tags),
            parent: self.open.last().copied(),
            start: end,
            end,
        })?;
        self.tags = self.tags.saturating_add(1);
        if !is_empty_tag(tag) {
            self.open.push(index)?;
        }
        Ok(())
    }

    /// Ends the innermost element that is open, whose end tag is at a place.
    fn end(&mut self, start: usize, end: usize) {
        if let Some(index) = self.open.pop() {
            if let Some(node) = self.found.get_mut(index) {
                node.start = start;
                node.end = end;
            }
        }
    }

    /// Adds what a token is.
    fn take(&mut self, text: &'a [u8], token: &Token<'a>) -> Result<(), AllocError> {
        let place = |rest: &[u8]| text.len().saturating_sub(rest.len());
        let (start, end) = (place(token.from), place(token.rest));
        match token.kind {
            TokenKind::StartTag => self.begin(token, end),
            TokenKind::EndTag => {
                self.end(start, end);
                Ok(())
            }
            TokenKind::Text if self.open.is_empty() => Ok(()),
            TokenKind::Text => self.add(NodeKind::Text, start, end),
            TokenKind::Cdata => {
                self.add(
                    NodeKind::Cdata,
                    place(token.inside),
                    place(token.inside_end),
                )
            }
            TokenKind::Comment => self.add(NodeKind::Comment, start, end),
            TokenKind::Doctype => self.add(NodeKind::Doctype, start, end),
            TokenKind::Nothing | TokenKind::Cut => Ok(()),
        }
    }
}

/// Returns the nodes of a document.
pub(crate) fn nodes_of<'a>(alloc: Global, text: &'a [u8]) -> Result<Vec<Node<'a>>, Fault> {
    let mut nodes = Nodes {
        found: Vec::new(alloc),
        open: Vec::new(alloc),
        tags: 0,
    };
    let mut rest = text;
    for _ in 0..text.len() {
        let Some(token) = read_next(rest) else {
            break;
        };
        nodes.take(text, &token)?;
        rest = token.rest;
    }
    Ok(nodes.found)
}

/// Returns an index, if it is among so many.
fn among(index: Option<usize>, count: usize) -> Option<usize>
    ensures { IfSome result (λ k. k < count) }
{
    match index {
        Some(index) if index < count => Some(index),
        _ => None,
    }
}

/// Returns the row of a node.
fn new_row<'a>(node: &Node<'a>, tag: Option<usize>, parent: Option<usize>, depth: usize) -> Row<'a>
    ensures tag { result.tag ≡ tag }
    ensures parent { result.parent ≡ parent }
    ensures depth { result.depth ≡ depth }
{
    Row {
        kind: node.kind,
        space: Space::Html,
        name: Name::Other,
        word: node.word,
        tag,
        parent,
        depth,
        start: node.start,
        end: node.end,
    }
}

/// Returns the row of a node after these rows.
fn row_of<'a>(node: &Node<'a>, rows: &[Row<'a>], tags: usize) -> Row<'a>
    ensures tagged { IfSome result.tag (λ tag. tag < tags) }
    ensures below { IsBelow rows.now result }
{
    let tag = among(node.tag, tags);
    let parent = node.parent.unwrap_or(usize::MAX);
    match rows.get(parent) {
        Some(above) if above.depth < usize::MAX => {
            new_row(node, tag, Some(parent), above.depth + 1)
        }
        _ => new_row(node, tag, None, 0),
    }
}

/// Returns the rows of nodes.
pub(crate) fn rows_of<'a>(
    alloc: Global,
    nodes: &[Node<'a>],
    tags: usize,
) -> Result<Vec<Row<'a>>, Fault>
    ensures { IfOk result (λ rows. AreRows tags rows.items) }
{
    let mut rows: Vec<Row<'a>> = Vec::new(alloc);
    'nodes: for node in nodes {
        let next = row_of(node, rows.as_slice(), tags);
        rows.push(next)?;
    }
    Ok(rows)
}
