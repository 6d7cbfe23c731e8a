//! A page as it was read: its start tags, and its nodes in document order.
use crate::names::{Name, Space};
use css_html::tokenizer::Token;
use std::alloc::{AllocError, AllocFailed};

/// Why a page was not read.
#[derive(Clone, Copy, Debug, PartialEq)]
pub enum Fault {
    /// An allocation failed.
    Memory,
    /// Its elements are nested in a way that takes time or elements out of proportion.
    TooDeep,
    /// It has too many nodes.
    TooLong,
}

impl From<AllocError> for Fault {
    fn from(_error: AllocError) -> Fault {
        Fault::Memory
    }
}

impl<T: Drop> From<AllocFailed<T>> for Fault {
    fn from(_error: AllocFailed<T>) -> Fault {
        Fault::Memory
    }
}

/// What a node is.
#[derive(Clone, Copy, Debug, PartialEq)]
pub enum NodeKind {
    /// The document.
    Document,
    /// An element.
    Element,
    /// Text with character references, but in `script`, `style` and the like without.
    Text,
    /// Text of a CDATA section.
    Cdata,
    /// A comment, with its marks.
    Comment,
    /// A document type.
    Doctype,
}

/// A node in document order.
#[derive(Clone, Copy)]
pub struct Row<'a> {
    /// What it is.
    pub kind: NodeKind,
    /// The namespace of an element.
    pub space: Space,
    /// The name of an element.
    pub name: Name,
    /// The letters of the name as they are in its start tag, if it has one.
    pub word: &'a [u8],
    /// The index of its start tag, if the page has one.
    pub tag: Option<usize>,
    /// The index of its parent, which is less than its own, if that is not the document.
    pub parent: Option<usize>,
    /// How many ancestors it has but for the document.
    pub depth: usize,
    /// Where its end tag begins, or where it ends without one. Of other nodes, where they begin.
    pub start: usize,
    /// Where it ends.
    pub end: usize,
}

/// A page.
#[derive(Drop)]
pub struct Page<'a> {
    /// The start tags that were read, in order.
    pub tags: Vec<Token<'a>>,
    /// The nodes in document order.
    pub rows: Vec<Row<'a>>,
    /// Start tags whose attributes an element has besides its own, of which the first of a name
    /// counts: the index of the element and of the tag.
    pub merged: Vec<(usize, usize)>,
    /// Whether browsers show the page as old ones did.
    pub is_quirky: bool,
    /// Whether browsers differ in where an element ends.
    pub is_doubtful: bool,
    /// Where the head ends, if it does: what is put there is in the head.
    pub head_end: Option<usize>,
}

/// The element whose content a fragment is.
#[derive(Clone, Copy)]
pub struct Context<'a> {
    /// Its namespace.
    pub space: Space,
    /// The letters of its name.
    pub name: &'a [u8],
    /// The attributes of its start tag, as they are in a page.
    pub attributes: &'a [u8],
}

/// How a page is read.
#[derive(Clone, Copy)]
pub struct Options<'a> {
    /// Whether scripts run, so that the content of `noscript` is text.
    pub has_scripts: bool,
    /// The element whose content it is, if it is not a document.
    pub context: Option<Context<'a>>,
}
