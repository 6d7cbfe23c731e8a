//! The shape of a page's tree, without sheets.
ghost use Rattle.std.specs.Prelude.{◌≡◌, true, IfOk, map, None};
ghost use Rattle.css_html.specs.Views.{token_of};
ghost use Rattle.html_edits.specs.Shapes.{ranks_from, mark_of as mark_of_tag, hidden_after as hidden_after_of, shapes_from};
ghost use Rattle.html_edits.specs.Shapes.{is_sheet_tag as is_sheet_tag_of, shape_of as shape_of_row, sort_of};
ghost use Rattle.html_edits.specs.Shapes.{is_left_out as is_left_out_of, texts_after as texts_after_of};

use crate::attributes::{is_link_tag, is_style_tag};
use crate::edits::Language;
use css_html::tokenizer::Token;
use css_html_tree::names::{Name, Space};
use css_html_tree::page::{NodeKind, Row};
use std::alloc::{AllocError, Global};

/// The start tag of a node.
#[derive(Clone, Copy, Debug, PartialEq)]
pub enum Mark {
    /// It has none.
    Implied,
    /// That of a sheet: a `style` element or a `link`.
    Sheet,
    /// The one with this index among all others.
    Tag(usize),
}

/// A node that is not a sheet and not in one.
#[derive(Clone, Copy, Debug)]
pub struct Shape {
    /// What it is.
    pub kind: NodeKind,
    /// The namespace of an element.
    pub space: Space,
    /// The name of an element.
    pub name: Name,
    /// How many ancestors it has.
    pub depth: usize,
    /// Its start tag.
    pub mark: Mark,
}

/// Whether a tag is that of a sheet.
fn is_sheet_tag(language: Language, tag: &Token<'_>) -> bool
    ensures { result ≡ is_sheet_tag_of language (token_of tag.now) }
{
    is_style_tag(language, tag) || is_link_tag(language, tag)
}

/// Returns the index of each tag among those that are not of sheets.
pub(crate) fn ranks(
    alloc: Global,
    language: Language,
    tags: &[Token<'_>],
) -> Result<Vec<Option<usize>>, AllocError>
    ensures { IfOk result (λ found. found.items ≡ ranks_from language 0 (map token_of tags.now)) }
{
    let mut found = Vec::new(alloc);
    let mut next: usize = 0;
    let mut rest = tags;
    'tags: while let [tag, after @ ..] = rest {
        if is_sheet_tag(language, tag) {
            found.push(None)?;
        } else {
            found.push(Some(next))?;
            next += 1;
        }
        rest = after;
    }
    Ok(found)
}

/// Returns which start tag a node has.
fn mark_of(ranks: &[Option<usize>], tag: Option<usize>) -> Mark
    ensures { result ≡ mark_of_tag ranks.now tag }
{
    let Some(tag) = tag else {
        return Mark::Implied;
    };
    match ranks.get(tag) {
        Some(Some(rank)) => Mark::Tag(*rank),
        _ => Mark::Sheet,
    }
}

/// Returns below which depth nodes are hidden from one on, if they are.
fn hidden_after(hidden: Option<usize>, depth: usize, mark: Mark) -> Option<usize>
    ensures { result ≡ hidden_after_of hidden depth mark }
{
    match (hidden, mark) {
        (Some(above), _) if above < depth => hidden,
        (_, Mark::Sheet) => Some(depth),
        _ => None,
    }
}

/// Returns the shape of a node.
fn shape_of(row: &Row<'_>, mark: Mark) -> Shape
    ensures { result ≡ shape_of_row row.now mark }
{
    Shape {
        kind: row.kind,
        space: row.space,
        name: row.name,
        depth: row.depth,
        mark,
    }
}

/// Whether a node is left out: because it is hidden, or a comment, or a text beside another one. Texts may join
/// where a sheet was between them.
fn is_left_out(hidden: Option<usize>, kind: NodeKind, texts: Option<usize>, depth: usize) -> bool
    ensures { result ≡ is_left_out_of hidden (sort_of kind) texts depth }
{
    if hidden.is_some() {
        return true;
    }
    match kind {
        NodeKind::Text | NodeKind::Cdata => match texts {
            Some(before) => before == depth,
            None => false,
        },
        NodeKind::Comment => true,
        NodeKind::Document | NodeKind::Element | NodeKind::Doctype => false,
    }
}

/// Returns of what depth the text is that a text after this node would be beside, if there is one.
fn texts_after(
    hidden: Option<usize>,
    kind: NodeKind,
    texts: Option<usize>,
    depth: usize,
) -> Option<usize>
    ensures { result ≡ texts_after_of hidden (sort_of kind) texts depth }
{
    if hidden.is_some() {
        return texts;
    }
    match kind {
        NodeKind::Text | NodeKind::Cdata => Some(depth),
        NodeKind::Comment => texts,
        NodeKind::Document | NodeKind::Element | NodeKind::Doctype => None,
    }
}

/// Returns the shapes of the nodes that are not sheets and not in one, and not comments. Texts beside one
/// another are one.
pub(crate) fn shapes(
    alloc: Global,
    ranks: &[Option<usize>],
    rows: &[Row<'_>],
) -> Result<Vec<Shape>, AllocError>
    ensures { IfOk result (λ found. found.items ≡ shapes_from ranks.now None None rows.now) }
{
    let mut found = Vec::new(alloc);
    let (mut hidden, mut texts) = (None, None);
    let mut rest = rows;
    'rows: while let [row, after @ ..] = rest {
        let mark = mark_of(ranks, row.tag);
        hidden = hidden_after(hidden, row.depth, mark);
        if !is_left_out(hidden, row.kind, texts, row.depth) {
            found.push(shape_of(row, mark))?;
        }
        texts = texts_after(hidden, row.kind, texts, row.depth);
        rest = after;
    }
    Ok(found)
}

/// Whether two names are the same.
fn is_same_name(one: Name, other: Name) -> bool
    ensures { result ≡ true → one ≡ other }
{
    one == other
}

/// Whether two marks are the same.
fn is_same_mark(one: Mark, other: Mark) -> bool
    ensures { result ≡ true → one ≡ other }
{
    one == other
}

/// Whether two kinds and two namespaces are the same.
fn is_same_sort(one: &Shape, other: &Shape) -> bool
    ensures { result ≡ true → (one.now.kind ≡ other.now.kind) × (one.now.space ≡ other.now.space) }
{
    one.kind == other.kind && one.space == other.space
}

/// Whether two shapes are the same.
fn is_same(one: &Shape, other: &Shape) -> bool
    ensures { result ≡ true → one.now ≡ other.now }
{
    one.depth == other.depth
        && is_same_sort(one, other)
        && is_same_name(one.name, other.name)
        && is_same_mark(one.mark, other.mark)
}

/// Whether shapes are the same as others.
pub(crate) fn are_same(shapes: &[Shape], others: &[Shape]) -> bool
    ensures { result ≡ true → shapes.now ≡ others.now }
{
    let mut left = shapes;
    let mut right = others;
    'shapes: while let [shape, more @ ..] = left {
        match right {
            [other, after @ ..] if is_same(shape, other) => {
                left = more;
                right = after;
            }
            _ => return false,
        }
    }
    right.is_empty()
}

/// Returns the index among tags that are not of sheets of the first that is another one, or near it.
pub(crate) fn first_other(old: &[Shape], new: &[Shape]) -> usize {
    let mut last: usize = 0;
    for (index, shape) in new.iter().enumerate() {
        if let Mark::Tag(rank) = shape.mark {
            last = rank;
        }
        match old.get(index) {
            Some(other) if is_same(other, shape) => {}
            Some(other) => {
                return match (shape.mark, other.mark) {
                    (Mark::Implied, Mark::Tag(rank)) => rank,
                    _ => last,
                };
            }
            None => return last,
        }
    }
    match old.get(new.len()) {
        Some(
            Shape {
                mark: Mark::Tag(rank),
                ..
            },
        ) => *rank,
        _ => last,
    }
}
