//! The elements of a page, and its texts, comments and document types.

use crate::tags::Strings;
use css_html::decoding::TextKind;
use css_html_tree::names::{Name, Space};
use css_html_tree::page::{NodeKind, Row};
use std::alloc::{AllocError, Global};

/// The numbers and the strings of the nodes of a page.
#[derive(Drop)]
pub(crate) struct Nodes {
    /// Six numbers of each element.
    pub(crate) elements: Vec<usize>,
    /// Five numbers of each other node.
    pub(crate) others: Vec<usize>,
    /// For each row the number of its element, from 1, or 0 of what is no element or is left out.
    pub(crate) numbers: Vec<usize>,
    /// How many elements there are so far.
    count: usize,
    /// Where the page begins.
    start: usize,
}

/// Returns the number of a namespace.
fn space_number(space: Space) -> usize {
    match space {
        Space::Html => 1,
        Space::Svg => 2,
        Space::Math => 3,
    }
}

/// Returns an index as a number from 1, and 0 where there is none.
pub(crate) fn number_of(index: Option<usize>) -> usize {
    match index {
        Some(index) => index.saturating_add(1),
        None => 0,
    }
}

/// Whether texts in an element of SVG or MathML are those of HTML.
fn is_point(space: Space, name: Name) -> bool {
    match space {
        Space::Html => false,
        Space::Svg => matches!(name, Name::ForeignObject | Name::Desc | Name::Title),
        Space::Math => matches!(
            name,
            Name::Mi | Name::Mo | Name::Mn | Name::Ms | Name::Mtext
        ),
    }
}

/// Returns how texts in an element are read.
pub(crate) fn kind_within(space: Space, name: Name, has_scripts: bool) -> TextKind {
    if space != Space::Html {
        return if is_point(space, name) {
            TextKind::Text
        } else {
            TextKind::Escapable
        };
    }
    match name {
        Name::Style
        | Name::Script
        | Name::Xmp
        | Name::Iframe
        | Name::Noembed
        | Name::Noframes
        | Name::Plaintext => TextKind::Raw,
        Name::Noscript if has_scripts => TextKind::Raw,
        Name::Title | Name::Textarea => TextKind::Escapable,
        _ => TextKind::Text,
    }
}

impl Nodes {
    /// Creates no nodes.
    pub(crate) fn new(alloc: Global, start: usize) -> Nodes {
        Nodes {
            elements: Vec::new(alloc),
            others: Vec::new(alloc),
            numbers: Vec::new(alloc),
            count: 0,
            start,
        }
    }

    /// Returns the number of a row's parent, or `None` where the row is left out with it.
    fn parent_of(&self, rows: &[Row<'_>], row: &Row<'_>, leaves_templates: bool) -> Option<usize> {
        let Some(index) = row.parent else {
            return Some(0);
        };
        let (Some(number), Some(parent)) = (self.numbers.get(index), rows.get(index)) else {
            return None;
        };
        let is_template = parent.space == Space::Html && parent.name == Name::Template;
        if *number == 0 || leaves_templates && is_template {
            return None;
        }
        Some(*number)
    }

    /// Appends an element: the number of its start tag and of its parent, its depth and its namespace,
    /// and where its end tag begins and ends.
    fn push_element(
        &mut self,
        strings: &mut Strings,
        row: &Row<'_>,
        parent: usize,
    ) -> Result<(), AllocError> {
        self.elements.extend_from_slice(&[
            number_of(row.tag),
            parent,
            row.depth,
            space_number(row.space),
            self.start.saturating_add(row.start),
            self.start.saturating_add(row.end),
        ])?;
        self.count = self.count.saturating_add(1);
        strings.push_element_name(row)
    }

    /// Appends the elements among rows, and their names.
    pub(crate) fn push_elements(
        &mut self,
        strings: &mut Strings,
        rows: &[Row<'_>],
        leaves_templates: bool,
    ) -> Result<(), AllocError> {
        for row in rows {
            let parent = self.parent_of(rows, row, leaves_templates);
            match parent {
                Some(parent) if row.kind == NodeKind::Element => {
                    self.push_element(strings, row, parent)?;
                    self.numbers.push(self.count)?;
                }
                _ => self.numbers.push(0)?,
            }
        }
        Ok(())
    }

    /// Appends another node: its kind, how many elements begin before it, the number of its parent, and
    /// where it begins and ends.
    fn push_other(
        &mut self,
        strings: &mut Strings,
        page: &[u8],
        row: &Row<'_>,
        place: (usize, usize),
        kind: TextKind,
    ) -> Result<(), AllocError> {
        let (begun, parent) = place;
        let (number, kind) = match row.kind {
            NodeKind::Text => (1, Some(kind)),
            NodeKind::Cdata => (2, Some(TextKind::Raw)),
            NodeKind::Comment => (3, None),
            _ => (4, None),
        };
        self.others.extend_from_slice(&[
            number,
            begun,
            parent,
            self.start.saturating_add(row.start),
            self.start.saturating_add(row.end),
        ])?;
        match kind {
            Some(kind) => {
                let text = page.get(row.start..row.end).unwrap_or(&[]);
                strings.push_text(kind, text)
            }
            None => strings.push_text(TextKind::Raw, &[]),
        }
    }

    /// Appends the texts, comments and document types among rows, and what the texts stand for.
    pub(crate) fn push_others(
        &mut self,
        strings: &mut Strings,
        page: &[u8],
        rows: &[Row<'_>],
        context: TextKind,
        has_scripts: bool,
        leaves_templates: bool,
    ) -> Result<(), AllocError> {
        let mut begun: usize = 0;
        for (index, row) in rows.iter().enumerate() {
            if row.kind == NodeKind::Element {
                let number = self.numbers.get(index).copied().unwrap_or(0);
                begun = begun.max(number);
                continue;
            }
            let Some(parent) = self.parent_of(rows, row, leaves_templates) else {
                continue;
            };
            let kind = match row.parent.and_then(|index| rows.get(index)) {
                Some(parent) => kind_within(parent.space, parent.name, has_scripts),
                None => context,
            };
            self.push_other(strings, page, row, (begun, parent), kind)?;
        }
        Ok(())
    }
}
