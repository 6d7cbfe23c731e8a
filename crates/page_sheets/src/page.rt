//! What the elements of a page say of sheets.
ghost use Rattle.std.specs.Prelude.{◌≡◌, ◌++◌, IfOk, OnOk, map, Some, None};
ghost use Rattle.css_html.specs.Views.{attribute_of, token_of};
ghost use Rattle.page_sheets.specs.Nodes.{text_of};
ghost use Rattle.page_sheets.specs.Page.{role_in_html as role_in_html_of, role_of as role_of_tag};
ghost use Rattle.page_sheets.specs.Page.{is_template as is_template_tag};
ghost use Rattle.page_sheets.specs.Page.{said_of, has as has_of, node_of as node_of_tag, node_at, node_by, nodes_from};
ghost use Rattle.page_sheets.specs.Page.{hidden_after as hidden_after_of, name_at};
ghost use Rattle.page_sheets.specs.Sheets.{numbers_of};

use crate::nodes::{Role, SheetNode};
use crate::sheets::{push_sheets, sheets};
use css_html::attributes::Attribute;
use css_html::decoding::{TextKind, decode};
use css_html::marks::text_between;
use css_html::tokenizer::Token;
use css_html_tree::names::Space;
use css_html_tree::page::Row;
use html_edits::attributes::{attributes_from, first_named, same_name};
use html_edits::edits::Language;
use std::alloc::{AllocError, Global};

const STYLE: &[u8] = b"style";

const LINK: &[u8] = b"link";

const BASE: &[u8] = b"base";

const TEMPLATE: &[u8] = b"template";

const REL: &[u8] = b"rel";

const TYPE: &[u8] = b"type";

const TITLE: &[u8] = b"title";

const HREF: &[u8] = b"href";

const DISABLED: &[u8] = b"disabled";

/// Returns what an element of HTML with this name is.
fn role_in_html(name: &[u8]) -> Option<Role>
    ensures { result ≡ role_in_html_of name.now }
{
    if same_name(Language::Html, STYLE, name) {
        Some(Role::Style)
    } else if same_name(Language::Html, LINK, name) {
        Some(Role::Link)
    } else if same_name(Language::Html, BASE, name) {
        Some(Role::Base)
    } else {
        None
    }
}

/// Returns what an element in this namespace with this name is.
fn role_of(space: Space, name: &[u8]) -> Option<Role>
    ensures { result ≡ role_of_tag space name.now }
{
    match space {
        Space::Html => role_in_html(name),
        Space::Svg if same_name(Language::Html, STYLE, name) => Some(Role::Style),
        Space::Svg | Space::Math => None,
    }
}

/// Returns what an attribute stands for, or nothing if it is missing.
fn said(alloc: Global, name: &[u8], attributes: &[Attribute<'_>]) -> Result<Vec<u8>, AllocError>
    ensures { IfOk result (λ out. out.items ≡ said_of name.now (map attribute_of attributes.now)) }
{
    let mut out = Vec::new(alloc);
    if let Some(attribute) = first_named(Language::Html, name, attributes) {
        let value = text_between(attribute.value, attribute.value_end);
        decode(&mut out, TextKind::Value, value)?;
    }
    Ok(out)
}

/// Whether there is an attribute with a name.
fn has(name: &[u8], attributes: &[Attribute<'_>]) -> bool
    ensures { result ≡ has_of name.now (map attribute_of attributes.now) }
{
    first_named(Language::Html, name, attributes).is_some()
}

/// Returns what an element says of sheets, which ends at a place and has the tag with this number.
fn node_of(
    alloc: Global,
    role: Role,
    number: usize,
    place: usize,
    tag: &Token<'_>,
) -> Result<SheetNode, AllocError>
    ensures { IfOk result (λ node. text_of node ≡ node_of_tag role number place (token_of tag.now)) }
{
    let attributes = attributes_from(alloc, tag.inside_end)?;
    let found = attributes.as_slice();
    Ok(SheetNode {
        role,
        number,
        place,
        rel: said(alloc, REL, found)?,
        type_name: said(alloc, TYPE, found)?,
        title: said(alloc, TITLE, found)?,
        href: said(alloc, HREF, found)?,
        has_href: has(HREF, found),
        is_disabled: has(DISABLED, found),
    })
}

/// Whether what is in an element in this namespace with this tag is no part of the page.
fn is_template(space: Space, name: &[u8]) -> bool
    ensures { result ≡ is_template_tag space name.now }
{
    match space {
        Space::Html => same_name(Language::Html, TEMPLATE, name),
        Space::Svg | Space::Math => false,
    }
}

/// Returns below which depth nodes are hidden from a node of this depth on, if they are.
fn hidden_after(hidden: Option<usize>, depth: usize, is_template: bool) -> Option<usize>
    ensures { result ≡ hidden_after_of hidden depth is_template }
{
    match hidden {
        Some(above) if above < depth => hidden,
        _ if is_template => Some(depth),
        _ => None,
    }
}

/// Returns the name of a start tag, or nothing if there is none.
fn name_of<'a>(tags: &[Token<'a>], tag: Option<usize>) -> &'a [u8]
    ensures { result.now ≡ name_at tags.now tag }
{
    let Some(index) = tag else {
        return &[];
    };
    match tags.get(index) {
        Some(tag) => text_between(tag.inside, tag.inside_end),
        None => &[],
    }
}

/// Appends what an element with a tag of this number says of sheets, if it does.
fn push_tagged(
    alloc: Global,
    found: &mut Vec<SheetNode>,
    row: &Row<'_>,
    number: usize,
    tag: &Token<'_>,
) -> Result<(), AllocError>
    ensures { OnOk result (map text_of found.new.items
        ≡ map text_of found.old.items ++ node_by row.now.space number row.now.start (Some tag.now)) }
{
    let name = text_between(tag.inside, tag.inside_end);
    match role_of(row.space, name) {
        Some(role) => {
            let node = node_of(alloc, role, number, row.start, tag)?;
            found.push(node)?;
            Ok(())
        }
        None => Ok(()),
    }
}

/// Appends what an element says of sheets, if it does.
fn push_node(
    alloc: Global,
    found: &mut Vec<SheetNode>,
    tags: &[Token<'_>],
    row: &Row<'_>,
) -> Result<(), AllocError>
    ensures { OnOk result (map text_of found.new.items
        ≡ map text_of found.old.items ++ node_at tags.now row.now.space row.now.start row.now.tag) }
{
    let Some(index) = row.tag else {
        return Ok(());
    };
    match tags.get(index) {
        Some(tag) => push_tagged(alloc, found, row, index + 1, tag),
        None => Ok(()),
    }
}

/// Returns what the elements of a page say of sheets, in document order. They have the numbers of their start tags, from 1.
fn nodes(alloc: Global, tags: &[Token<'_>], rows: &[Row<'_>]) -> Result<Vec<SheetNode>, AllocError>
    ensures { IfOk result (λ found. map text_of found.items ≡ nodes_from tags.now None rows.now) }
{
    let mut found = Vec::new(alloc);
    let mut hidden = None;
    let mut rest = rows;
    'rows: while let [row, after @ ..] = rest {
        let is_template = is_template(row.space, name_of(tags, row.tag));
        hidden = hidden_after(hidden, row.depth, is_template);
        if hidden.is_none() {
            push_node(alloc, &mut found, tags, row)?;
        }
        rest = after;
    }
    Ok(found)
}

/// Appends the number of the `base` of a page with these start tags and nodes or 0, how many sheets it names, and two
/// numbers of each sheet: that of its start tag, from 1, and what it is.
pub fn push_page_sheets(
    alloc: Global,
    out: &mut Vec<usize>,
    tags: &[Token<'_>],
    rows: &[Row<'_>],
) -> Result<(), AllocError>
    ensures { OnOk result (out.new.items ≡ out.old.items ++ numbers_of (nodes_from tags.now None rows.now)) }
{
    let nodes = nodes(alloc, tags, rows)?;
    let found = sheets(alloc, nodes.as_slice())?;
    push_sheets(out, &found)
}
