//! The state of tree construction: the open elements, and where new nodes go.
use crate::formatting::{Formatting, hash_of};
use crate::names::{
    NAMES, Name, Scope, Space, ends_scope, is_fostering, is_implied, is_table_part,
};
use crate::page::{Fault, NodeKind};
use crate::pieces::{Piece, PieceKind, attribute_in};
use crate::tree::{DOCUMENT, NONE, Node, Tree, new_node};

/// An insertion mode (HTML Standard, section 13.2.4.1).
#[derive(Clone, Copy, PartialEq)]
pub(crate) enum InsertionMode {
    Initial,
    BeforeHtml,
    BeforeHead,
    InHead,
    InHeadNoscript,
    AfterHead,
    InBody,
    Text,
    InTable,
    InTableText,
    InCaption,
    InColumnGroup,
    InTableBody,
    InRow,
    InCell,
    InTemplate,
    AfterBody,
    InFrameset,
    AfterFrameset,
    AfterAfterBody,
    AfterAfterFrameset,
}

/// What is next after a step.
#[derive(Clone, Copy, PartialEq)]
pub(crate) enum Next {
    /// The piece is done with.
    Done,
    /// It is taken again, in another mode.
    Again,
    /// It is taken again, by the rules of HTML whatever the current node is.
    AsHtml,
}

/// The state of tree construction. A failed allocation and work out of proportion are noted in
/// `fault`, and what is done after that does not count.
#[derive(Drop)]
pub(crate) struct Builder<'a> {
    pub(crate) tree: Tree<'a>,
    /// The open elements.
    pub(crate) open: Vec<u32>,
    /// How many elements with a name are open, by the name's number.
    pub(crate) counts: Vec<u32>,
    pub(crate) formatting: Formatting,
    /// The modes of the open templates.
    pub(crate) templates: Vec<InsertionMode>,
    /// The pending texts of a table.
    pub(crate) pending: Vec<Piece<'a>>,
    /// Start tags whose attributes are added to an element: its node, and the tag's index.
    pub(crate) merged: Vec<(u32, u32)>,
    pub(crate) mode: InsertionMode,
    /// The mode to return to after a text.
    pub(crate) original: InsertionMode,
    /// The element whose content a fragment is.
    pub(crate) context: Option<Node<'a>>,
    pub(crate) root: u32,
    pub(crate) head: u32,
    pub(crate) form: u32,
    pub(crate) is_quirky: bool,
    /// Whether browsers differ in where an element ends.
    pub(crate) is_doubtful: bool,
    /// Where the head ended first.
    pub(crate) head_end: Option<usize>,
    /// Where a tag, a comment or a document type begins that the end of the page cuts off.
    pub(crate) unclosed: usize,
    pub(crate) has_scripts: bool,
    pub(crate) may_be_frames: bool,
    pub(crate) is_fostering: bool,
    pub(crate) skips_newline: bool,
    /// Whether the rest of the page is text.
    pub(crate) is_plain: bool,
    /// How many further steps the page's length allows.
    pub(crate) steps: usize,
    pub(crate) fault: Option<Fault>,
    /// The piece that is taken.
    pub(crate) piece: Piece<'a>,
}

/// The number of counts of open elements: one for each name that has rules, and more for the others.
pub(crate) const COUNTS: usize = 256;

/// Returns the number of a name among the counts of open elements. Other names may share one.
fn number_of(name: Name, word: &[u8]) -> usize {
    if name != Name::Other {
        return name as usize;
    }
    NAMES + hash_of(0, word) % (COUNTS - NAMES)
}

impl<'a> Builder<'a> {
    /// Takes steps of those that are left.
    pub(crate) fn spend(&mut self, steps: usize) {
        match self.steps.checked_sub(steps) {
            Some(left) => self.steps = left,
            None => self.fault = Some(Fault::TooDeep),
        }
    }

    /// Returns the current node.
    #[inline(always)]
    pub(crate) fn top(&self) -> Node<'a> {
        self.tree.node(self.top_id())
    }

    /// Returns the index of the current node, or that of the document.
    #[inline(always)]
    pub(crate) fn top_id(&self) -> u32 {
        match self.open.last() {
            Some(id) => *id,
            None => DOCUMENT,
        }
    }

    /// Returns the open element at an index, or `NONE`.
    #[inline(always)]
    pub(crate) fn open_id(&self, index: usize) -> u32 {
        match self.open.get(index) {
            Some(id) => *id,
            None => NONE,
        }
    }

    /// Returns the current node, or the context of a fragment in its place (the "adjusted current
    /// node").
    pub(crate) fn adjusted_top(&self) -> Node<'a> {
        match self.context {
            Some(context) if self.open.len() < 2 => context,
            _ => self.top(),
        }
    }

    /// Whether the current node is an HTML element with the name.
    pub(crate) fn top_is(&self, name: Name) -> bool {
        let top = self.top();
        top.space == Space::Html && top.name == name
    }

    /// Adds to the count of a node, or takes from it.
    fn note_open(&mut self, id: u32, is_open: bool) {
        let node = self.tree.node(id);
        if let Some(node) = self.tree.nodes.get_mut(id as usize) {
            node.is_open = is_open;
        }
        if let Some(count) = self.counts.get_mut(number_of(node.name, node.word)) {
            *count = if is_open {
                count.saturating_add(1)
            } else {
                count.saturating_sub(1)
            };
        }
    }

    /// Opens an element, at an index among the open ones or as the innermost.
    pub(crate) fn open_at(&mut self, index: usize, id: u32) {
        self.note_open(id, true);
        let index = index.min(self.open.len());
        if self.open.insert(index, id).is_err() {
            self.fault = Some(Fault::Memory);
        }
    }

    /// Opens an element as the innermost.
    pub(crate) fn push(&mut self, id: u32) {
        self.note_open(id, true);
        if self.open.push(id).is_err() {
            self.fault = Some(Fault::Memory);
        }
    }

    /// Ends the innermost element, and returns its index.
    pub(crate) fn pop(&mut self) -> u32 {
        match self.open.pop() {
            Some(id) => {
                self.note_ended(id);
                id
            }
            None => NONE,
        }
    }

    /// Ends the open element at an index among the open ones.
    pub(crate) fn remove_at(&mut self, index: usize) {
        let length = self.open.len();
        if index < length {
            let id = self.open.remove(index);
            self.spend(length - index);
            self.note_ended(id);
        }
    }

    /// Ends an element if it is open.
    pub(crate) fn remove(&mut self, id: u32) {
        if self.tree.node(id).is_open {
            if let Some(index) = self.index_of(id) {
                self.remove_at(index);
            }
        }
    }

    /// Returns the index of an element among the open ones.
    pub(crate) fn index_of(&mut self, id: u32) -> Option<usize> {
        let length = self.open.len();
        let mut found = None;
        for index in (0..length).rev() {
            if self.open_id(index) == id {
                found = Some(index);
                break;
            }
        }
        self.spend(length.saturating_sub(found.unwrap_or(0)));
        found
    }

    /// Notes that an element is no longer open, and where it ends.
    fn note_ended(&mut self, id: u32) {
        self.note_open(id, false);
        let piece = self.piece;
        if id == self.head && self.head_end.is_none() {
            self.head_end = Some(piece.start.min(self.unclosed));
        }
        let Some(node) = self.tree.nodes.get_mut(id as usize) else {
            return;
        };
        let is_own = piece.kind == PieceKind::End
            && piece.name == node.name
            && (piece.name != Name::Other || piece.word.eq_ignore_ascii_case(node.word));
        let is_start = piece.kind == PieceKind::Start && piece.tag == node.tag;
        node.start = if is_start { piece.end } else { piece.start };
        node.end = if is_own || is_start {
            piece.end
        } else {
            piece.start
        };
    }

    /// Returns how many open elements have the name, at most.
    pub(crate) fn count_of(&self, name: Name) -> u32 {
        match self.counts.get(name as usize) {
            Some(count) => *count,
            None => 0,
        }
    }

    /// Whether an element with the name of the piece may be open.
    pub(crate) fn may_have(&self, piece: &Piece<'a>) -> bool {
        match self.counts.get(number_of(piece.name, piece.word)) {
            Some(count) => *count > 0,
            None => false,
        }
    }

    /// Whether an open HTML element has one of the names, with no other of the scope in it.
    pub(crate) fn has_any(&mut self, names: &[Name], scope: Scope) -> bool {
        if names.iter().all(|name| self.count_of(*name) == 0) {
            return false;
        }
        let (mut steps, mut found): (usize, bool) = (0, false);
        for id in self.open.iter().rev() {
            steps = steps.saturating_add(1);
            let node = self.tree.node(*id);
            if node.space == Space::Html && names.contains(&node.name) {
                found = true;
                break;
            }
            if ends_scope(scope, node.space, node.name) {
                break;
            }
        }
        self.spend(steps);
        found
    }

    /// Whether an open HTML element has the name, with no other of the scope in it.
    pub(crate) fn has(&mut self, name: Name, scope: Scope) -> bool {
        self.has_any(&[name], scope)
    }

    /// Ends elements up to an HTML element with one of the names, but not the outermost.
    pub(crate) fn pop_until(&mut self, names: &[Name]) {
        for _ in 1..self.open.len() {
            let node = self.top();
            self.pop();
            if node.space == Space::Html && names.contains(&node.name) {
                break;
            }
        }
    }

    /// Ends the elements within the innermost HTML element with one of the names.
    pub(crate) fn clear_to(&mut self, names: &[Name]) {
        for _ in 1..self.open.len() {
            let node = self.top();
            if node.space == Space::Html && names.contains(&node.name) {
                break;
            }
            self.pop();
        }
    }

    /// Ends the innermost elements whose end tags may be left out, but not one with the name.
    pub(crate) fn end_implied(&mut self, but: Name) {
        for _ in 1..self.open.len() {
            let node = self.top();
            if node.space != Space::Html || !is_implied(node.name) || node.name == but {
                break;
            }
            self.pop();
        }
    }

    /// Ends the innermost elements whose end tags a template ends.
    pub(crate) fn end_thoroughly(&mut self) {
        for _ in 1..self.open.len() {
            let node = self.top();
            let is_ended = is_implied(node.name)
                || is_table_part(node.name) && node.name != Name::Col;
            if node.space != Space::Html || !is_ended {
                break;
            }
            self.pop();
        }
    }

    /// Ends an open paragraph.
    pub(crate) fn close_p(&mut self) {
        if self.count_of(Name::P) > 0 && self.has(Name::P, Scope::Button) {
            self.end_implied(Name::P);
            self.pop_until(&[Name::P]);
        }
    }

    /// Returns the parent of what is to go into an element, and the node before which it goes.
    pub(crate) fn place(&mut self, target: u32) -> (u32, u32) {
        let node = self.tree.node(target);
        if !self.is_fostering || node.space != Space::Html || !is_fostering(node.name) {
            return (target, NONE);
        }
        let mut steps: usize = 0;
        let mut place = (self.root, NONE);
        for index in (0..self.open.len()).rev() {
            steps = steps.saturating_add(1);
            let id = self.open_id(index);
            let node = self.tree.node(id);
            if node.space == Space::Html && node.name == Name::Template {
                place = (id, NONE);
                break;
            }
            if node.space == Space::Html && node.name == Name::Table {
                place = (node.parent, id);
                if node.parent == NONE {
                    place = (self.open_id(index.saturating_sub(1)), NONE);
                }
                break;
            }
        }
        self.spend(steps);
        place
    }

    /// Adds a node at its place in an element, and returns its index.
    pub(crate) fn add_to(&mut self, target: u32, node: Node<'a>) -> u32 {
        let (parent, before) = self.place(target);
        match self.tree.add(node) {
            Ok(id) => {
                self.tree.put(id, parent, before);
                id
            }
            Err(fault) => {
                self.fault = Some(fault);
                NONE
            }
        }
    }

    /// Adds a text, a comment or a document type to an element.
    pub(crate) fn add_piece(&mut self, target: u32, kind: NodeKind, piece: &Piece<'a>) {
        self.add_to(target, new_node(kind, piece.start, piece.end));
    }

    /// Adds a text to the current node.
    pub(crate) fn add_text(&mut self, piece: &Piece<'a>) {
        if !piece.word.is_empty() {
            let is_cdata = piece.kind == PieceKind::Cdata;
            let kind = if is_cdata {
                NodeKind::Cdata
            } else {
                NodeKind::Text
            };
            self.add_piece(self.top_id(), kind, piece);
        }
    }

    /// Adds a comment to the current node.
    pub(crate) fn add_comment(&mut self, piece: &Piece<'a>) {
        self.add_piece(self.top_id(), NodeKind::Comment, piece);
    }

    /// Adds and opens the element of a start tag.
    pub(crate) fn insert_in(&mut self, space: Space, piece: &Piece<'a>) -> u32 {
        let mut node = new_node(NodeKind::Element, piece.end, piece.end);
        node.space = space;
        node.name = piece.name;
        node.tag = piece.tag;
        node.word = piece.word;
        node.attributes = piece.attributes;
        node.has_html = has_html(space, piece.name, piece.attributes);
        let id = self.add_to(self.top_id(), node);
        self.push(id);
        id
    }

    /// Adds and opens the HTML element of a start tag.
    pub(crate) fn insert(&mut self, piece: &Piece<'a>) -> u32 {
        self.insert_in(Space::Html, piece)
    }

    /// Adds and ends the HTML element of a start tag.
    pub(crate) fn insert_void(&mut self, piece: &Piece<'a>) {
        self.insert(piece);
        self.pop();
    }

    /// Adds and opens an HTML element whose content is text.
    pub(crate) fn insert_raw(&mut self, piece: &Piece<'a>) {
        self.insert(piece);
        self.original = self.mode;
        self.mode = InsertionMode::Text;
    }

    /// Adds and opens an HTML element that has no tag.
    pub(crate) fn insert_implied(&mut self, name: Name) -> u32 {
        let mut node = new_node(NodeKind::Element, self.piece.start, self.piece.start);
        node.name = name;
        let id = self.add_to(self.top_id(), node);
        self.push(id);
        id
    }

    /// Adds the attributes of a start tag to an element.
    pub(crate) fn merge(&mut self, id: u32, piece: &Piece<'a>) {
        if self.merged.push((id, piece.tag)).is_err() {
            self.fault = Some(Fault::Memory);
        }
    }
}

/// Whether the content of an element of SVG or MathML is HTML.
pub(crate) fn has_html(space: Space, name: Name, attributes: &[u8]) -> bool {
    match space {
        Space::Html => false,
        Space::Svg => matches!(name, Name::ForeignObject | Name::Desc | Name::Title),
        Space::Math => {
            let encoding = match name {
                Name::AnnotationXml => attribute_in(attributes, b"encoding").unwrap_or(&[]),
                _ => &[],
            };
            encoding.eq_ignore_ascii_case(b"text/html")
                || encoding.eq_ignore_ascii_case(b"application/xhtml+xml")
        }
    }
}
