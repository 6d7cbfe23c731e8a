//! The elements of a page.

use css_elements::{Tree, TreeError};
use css_html::attributes::{Attribute, next_attribute};
use css_html::decoding::{TextKind, decode};
use css_html::marks::text_between;
use css_html::tokenizer::Token;
use css_html_tree::names::{Name, Space, letters_of};
use css_html_tree::page::{NodeKind, Page, Row};
use css_tree::html::{CASELESS_ATTRIBUTES, QUIRKS_ATTRIBUTES};
use css_tree::{NumberedTree, NumberingError};
use std::alloc::{AllocError, Global};

/// Elements that are not shown, nor is what is in them.
const HIDDEN: &[Name] = &[
    Name::Head,
    Name::Style,
    Name::Script,
    Name::Title,
    Name::Meta,
    Name::Link,
    Name::Base,
    Name::Template,
];

/// Why the elements of a page are no tree.
#[derive(Clone, Copy)]
pub(crate) enum Failure {
    /// An allocation failed.
    Memory,
    /// It has too many elements, or they are no tree.
    NoTree,
}

impl From<AllocError> for Failure {
    fn from(_error: AllocError) -> Failure {
        Failure::Memory
    }
}

impl From<TreeError> for Failure {
    fn from(error: TreeError) -> Failure {
        match error {
            TreeError::Memory => Failure::Memory,
            TreeError::NoElement => Failure::NoTree,
        }
    }
}

impl From<NumberingError> for Failure {
    fn from(error: NumberingError) -> Failure {
        match error {
            NumberingError::Memory => Failure::Memory,
            NumberingError::TooManyElements => Failure::NoTree,
        }
    }
}

/// An element.
#[derive(Clone, Copy)]
pub(crate) struct Element {
    /// The number of its node.
    pub(crate) row: usize,
    /// The index of its parent among the elements, if it has one.
    parent: Option<usize>,
    /// The index of its start tag, if it alone has it and no other tag adds attributes to it.
    pub(crate) tag: Option<usize>,
    /// Whether it may be shown.
    pub(crate) is_shown: bool,
    /// The index of its name among the strings, which the names and the values of its attributes follow.
    string: usize,
    /// Where its strings end.
    string_end: usize,
    /// The number of its namespace.
    namespace: usize,
}

/// The elements of a page, and their strings.
#[derive(Drop)]
pub(crate) struct Elements {
    pub(crate) all: Vec<Element>,
    /// The strings, one after another.
    bytes: Vec<u8>,
    /// Where each ends.
    ends: Vec<usize>,
    /// The index of the element of each node, if it is one that is in no template.
    of_rows: Vec<Option<usize>>,
}

/// U+FFFD in UTF-8, which stands for U+0000 in a name.
const REPLACEMENT: &[u8] = &[0xEF, 0xBF, 0xBD];

/// Whether a name is one of some, in any case.
fn is_among(names: &[&str], name: &[u8]) -> bool {
    names
        .iter()
        .any(|each| each.as_bytes().eq_ignore_ascii_case(name))
}

/// Whether the value of an attribute is compared without case.
fn is_caseless(is_quirky: bool, name: &[u8]) -> bool {
    is_among(&CASELESS_ATTRIBUTES, name) || is_quirky && is_among(&QUIRKS_ATTRIBUTES, name)
}

/// Puts bytes from an index on in lower case.
fn lower_from(bytes: &mut Vec<u8>, start: usize) {
    for index in start..bytes.len() {
        if let Some(byte) = bytes.get_mut(index) {
            *byte = byte.to_ascii_lowercase();
        }
    }
}

/// Returns the number of a namespace.
fn number_of(space: Space) -> usize {
    match space {
        Space::Html => 1,
        Space::Svg => 2,
        Space::Math => 3,
    }
}

/// Returns how many elements have each tag for their own. One counts as two where other tags add attributes to its
/// element, or that is no tag where scripts run.
fn tag_counts(alloc: Global, page: &Page<'_>, shared: &[bool]) -> Result<Vec<usize>, AllocError> {
    let mut counts = Vec::with_capacity(alloc, shared.len())?;
    for is_shared in shared {
        counts.push(if *is_shared { 0 } else { 1 })?;
    }
    for row in page.rows.iter() {
        if let Some(tag) = row.tag {
            if let Some(count) = counts.get_mut(tag) {
                *count = usize::saturating_add(*count, 1);
            }
        }
    }
    for (index, _) in page.merged.iter() {
        if let Some(row) = page.rows.get(*index) {
            if let Some(tag) = row.tag {
                if let Some(count) = counts.get_mut(tag) {
                    *count = usize::saturating_add(*count, 2);
                }
            }
        }
    }
    Ok(counts)
}

/// Whether nodes in a node are in a template.
fn is_template(row: &Row<'_>) -> bool {
    row.space == Space::Html && row.name == Name::Template
}

/// Whether an element is not shown, by itself.
fn is_hidden(row: &Row<'_>) -> bool {
    HIDDEN.iter().any(|name| row.name == *name)
}

impl Elements {
    /// Appends the end of a string.
    fn end_string(&mut self) -> Result<(), AllocError> {
        let end = self.bytes.len();
        self.ends.push(end)?;
        Ok(())
    }

    /// Appends a name in lower case.
    fn push_name(&mut self, name: &[u8]) -> Result<(), AllocError> {
        for byte in name {
            if *byte == 0 {
                self.bytes.extend_from_slice(REPLACEMENT)?;
            } else {
                self.bytes.push(byte.to_ascii_lowercase())?;
            }
        }
        self.end_string()
    }

    /// Appends the value of an attribute, in lower case where it is compared without case.
    fn push_value(&mut self, is_caseless: bool, value: &[u8]) -> Result<(), AllocError> {
        let start = self.bytes.len();
        decode(&mut self.bytes, TextKind::Value, value)?;
        if is_caseless {
            lower_from(&mut self.bytes, start);
        }
        self.end_string()
    }

    /// Appends the name and the value of an attribute.
    fn push_attribute(
        &mut self,
        is_quirky: bool,
        attribute: &Attribute<'_>,
    ) -> Result<(), AllocError> {
        let name = text_between(attribute.from, attribute.name_end);
        self.push_name(name)?;
        let value = text_between(attribute.value, attribute.value_end);
        self.push_value(is_caseless(is_quirky, name), value)
    }

    /// Appends the names and the values of the attributes of a tag.
    fn push_attributes(&mut self, is_quirky: bool, tag: &Token<'_>) -> Result<(), AllocError> {
        let mut rest = tag.inside_end;
        for _ in 0..tag.inside_end.len() {
            let Some(attribute) = next_attribute(rest) else {
                break;
            };
            self.push_attribute(is_quirky, &attribute)?;
            rest = attribute.rest;
        }
        Ok(())
    }

    /// Appends the attributes that a node has besides those of its own tag. Only an `html` and a `body` have
    /// some.
    fn push_merged(
        &mut self,
        page: &Page<'_>,
        index: usize,
        row: &Row<'_>,
    ) -> Result<(), AllocError> {
        if row.space != Space::Html || !matches!(row.name, Name::Html | Name::Body) {
            return Ok(());
        }
        for (of, tag) in page.merged.iter() {
            if *of == index {
                if let Some(tag) = page.tags.get(*tag) {
                    self.push_attributes(page.is_quirky, tag)?;
                }
            }
        }
        Ok(())
    }

    /// Appends the strings of an element.
    fn push_strings(
        &mut self,
        page: &Page<'_>,
        index: usize,
        row: &Row<'_>,
    ) -> Result<(), AllocError> {
        let word = match row.name {
            Name::Other => row.word,
            name => letters_of(name),
        };
        self.push_name(word)?;
        if let Some(tag) = row.tag {
            if let Some(tag) = page.tags.get(tag) {
                self.push_attributes(page.is_quirky, tag)?;
            }
        }
        self.push_merged(page, index, row)
    }

    /// Returns the element of a node, if it is one that is in no template.
    pub(crate) fn of_row(&self, row: usize) -> Option<usize> {
        match self.of_rows.get(row) {
            Some(found) => *found,
            None => None,
        }
    }

    /// Returns the element that a node is in, if it is in one: the inner one of those is `None` of a node that is
    /// in a template, or below the document.
    fn parent_of(&self, page: &Page<'_>, row: &Row<'_>) -> Option<Option<usize>> {
        let Some(index) = row.parent else {
            return Some(None);
        };
        match page.rows.get(index) {
            Some(parent) if !is_template(parent) => match self.of_row(index) {
                Some(element) => Some(Some(element)),
                None => None,
            },
            _ => None,
        }
    }

    /// Whether an element may be shown by its parent.
    fn is_shown_in(&self, parent: Option<usize>) -> bool {
        match parent {
            Some(index) => match self.all.get(index) {
                Some(element) => element.is_shown,
                None => false,
            },
            None => true,
        }
    }

    /// Appends an element.
    fn push_element(
        &mut self,
        page: &Page<'_>,
        counts: &[usize],
        index: usize,
        row: &Row<'_>,
        parent: Option<usize>,
    ) -> Result<(), AllocError> {
        let string = self.ends.len();
        self.push_strings(page, index, row)?;
        let is_alone = match row.tag {
            Some(tag) => counts.get(tag) == Some(&1),
            None => false,
        };
        let element = Element {
            row: index,
            parent,
            tag: if is_alone { row.tag } else { None },
            is_shown: !is_hidden(row) && self.is_shown_in(parent),
            string,
            string_end: self.ends.len(),
            namespace: number_of(row.space),
        };
        self.all.push(element)?;
        Ok(())
    }

    /// Appends a node.
    fn push_row(
        &mut self,
        page: &Page<'_>,
        counts: &[usize],
        index: usize,
        row: &Row<'_>,
    ) -> Result<(), AllocError> {
        let mut found = None;
        if row.kind == NodeKind::Element {
            if let Some(parent) = self.parent_of(page, row) {
                found = Some(self.all.len());
                self.push_element(page, counts, index, row, parent)?;
            }
        }
        self.of_rows.push(found)?;
        Ok(())
    }

    /// Returns the elements of a page that are in no template, in document order. Tags are shared that are some too
    /// where scripts run.
    pub(crate) fn read(
        alloc: Global,
        page: &Page<'_>,
        shared: &[bool],
    ) -> Result<Elements, AllocError> {
        let counts = tag_counts(alloc, page, shared)?;
        let mut elements = Elements {
            all: Vec::new(alloc),
            bytes: Vec::new(alloc),
            ends: Vec::new(alloc),
            of_rows: Vec::new(alloc),
        };
        for (index, row) in page.rows.iter().enumerate() {
            elements.push_row(page, counts.as_slice(), index, row)?;
        }
        Ok(elements)
    }

    /// Returns a string, or an empty one if it is no text.
    fn string(&self, index: usize) -> &str {
        let start = match index.checked_sub(1) {
            Some(last) => self.ends.get(last).copied().unwrap_or(0),
            None => 0,
        };
        let end = self.ends.get(index).copied().unwrap_or(start);
        match self.bytes.as_slice().get(start..end) {
            Some(bytes) => std::str::from_utf8(bytes).unwrap_or(""),
            None => "",
        }
    }

    /// Returns the value of the attribute `style` of an element.
    pub(crate) fn style_of(&self, element: &Element) -> Option<&str> {
        for index in element.string..element.string_end {
            let is_name = index.saturating_sub(element.string) % 2 == 1;
            if is_name && self.string(index) == "style" {
                return Some(self.string(index.saturating_add(1)));
            }
        }
        None
    }

    /// Adds an element to a tree.
    fn add_to<'t>(&'t self, tree: &mut Tree<'t>, element: &Element) -> Result<(), TreeError> {
        tree.push(element.parent, self.string(element.string))?;
        for index in element.string..element.string_end {
            let is_name = index.saturating_sub(element.string) % 2 == 1;
            if is_name {
                let value = self.string(index.saturating_add(1));
                tree.set_attribute(self.string(index), value)?;
            }
        }
        Ok(())
    }

    /// Returns the elements as a tree.
    pub(crate) fn tree(&self, alloc: Global) -> Result<Tree<'_>, TreeError> {
        let mut tree = Tree::new(alloc);
        for element in self.all.iter() {
            self.add_to(&mut tree, element)?;
        }
        Ok(tree)
    }

    /// Marks the elements of a page that have a text.
    fn mark_texts(&self, page: &Page<'_>, numbered: &mut NumberedTree<'_, '_>) {
        for row in page.rows.iter() {
            if matches!(row.kind, NodeKind::Text | NodeKind::Cdata) {
                if let Some(parent) = row.parent {
                    if let Some(index) = self.of_row(parent) {
                        if index < numbered.len() {
                            numbered.set_text(index);
                        }
                    }
                }
            }
        }
    }

    /// Returns the numbers of the namespaces of the elements.
    fn namespaces(&self, alloc: Global) -> Result<Vec<usize>, AllocError> {
        let mut found = Vec::with_capacity(alloc, self.all.len())?;
        for element in self.all.iter() {
            found.push(element.namespace)?;
        }
        Ok(found)
    }

    /// Returns the tree with counted siblings.
    pub(crate) fn numbered<'p, 't>(
        &self,
        alloc: Global,
        page: &Page<'_>,
        tree: &'p Tree<'t>,
    ) -> Result<NumberedTree<'p, 't>, Failure> {
        let mut numbered = NumberedTree::new(alloc, tree)?;
        numbered.set_namespaces(alloc, self.namespaces(alloc)?)?;
        self.mark_texts(page, &mut numbered);
        Ok(numbered)
    }
}
