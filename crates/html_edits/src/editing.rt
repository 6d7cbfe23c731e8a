//! A page with edits.
ghost use Rattle.std.specs.Prelude.{◌≡◌, IfOk};
ghost use Rattle.html_edits.specs.Editing.{HasTree, IsEdited, IsRead, tree_of as tree_of_page};

use crate::edits::{Edit, Language, Refusal};
use crate::placing::{begin_tags, put_places, splices_of};
use crate::shapes::{Shape, are_same, first_other, ranks, shapes};
use crate::splicing::spliced;
use css_html::tokenizer::Token;
use css_html_tree::page::{Options, Row};
use css_html_tree::reading::read_page;
use css_xml::documents::read_document;
use std::alloc::{AllocError, Global};

/// What is read of a page.
#[derive(Drop)]
struct Source<'a> {
    /// The start tags that were read, in order.
    tags: Vec<Token<'a>>,
    /// The nodes in document order.
    rows: Vec<Row<'a>>,
}

/// Reads a page as browsers do where scripts do not run.
fn read_html<'a>(alloc: Global, page: &'a [u8]) -> Result<Source<'a>, Refusal>
    ensures { IfOk result (λ found. IsRead Language.Html page.now found.tags.items found.rows.items) }
{
    let options = Options {
        has_scripts: false,
        context: None,
    };
    let found = read_page(alloc, page, &options)?;
    Ok(Source {
        tags: found.tags,
        rows: found.rows,
    })
}

/// Reads a document in XML.
fn read_xml<'a>(alloc: Global, page: &'a [u8]) -> Result<Source<'a>, Refusal>
    ensures { IfOk result (λ found. IsRead Language.Xml page.now found.tags.items found.rows.items) }
{
    let found = read_document(alloc, page)?;
    Ok(Source {
        tags: found.tags,
        rows: found.rows,
    })
}

/// Reads a page.
fn read<'a>(alloc: Global, language: Language, page: &'a [u8]) -> Result<Source<'a>, Refusal>
    ensures { IfOk result (λ found. IsRead language page.now found.tags.items found.rows.items) }
{
    match language {
        Language::Html => read_html(alloc, page),
        Language::Xml => read_xml(alloc, page),
    }
}

/// Returns the shapes of the nodes of a page.
fn tree_of(alloc: Global, language: Language, page: &Source<'_>) -> Result<Vec<Shape>, AllocError>
    ensures { IfOk result (λ found. found.items
        ≡ tree_of_page language page.now.tags.items page.now.rows.items) }
{
    let ranks = ranks(alloc, language, page.tags.as_slice())?;
    shapes(alloc, ranks.as_slice(), page.rows.as_slice())
}

/// Returns the index of the tag that is the one with this index among those that are not of sheets.
fn tag_of_rank(
    alloc: Global,
    language: Language,
    tags: &[Token<'_>],
    rank: usize,
) -> Result<usize, AllocError> {
    let ranks = ranks(alloc, language, tags)?;
    let found = ranks.iter().position(|each| *each == Some(rank));
    Ok(found.unwrap_or(tags.len()))
}

/// Checks that a text has the tree of a page, and start tags at some places.
fn check_tree(
    alloc: Global,
    language: Language,
    page: &Source<'_>,
    places: &[usize],
    text: &[u8],
) -> Result<(), Refusal>
    ensures { IfOk result (λ _. HasTree language
        (tree_of_page language page.now.tags.items page.now.rows.items) places.now text.now) }
{
    let new = read(alloc, language, text)?;
    let old_tree = tree_of(alloc, language, page)?;
    let new_tree = tree_of(alloc, language, &new)?;
    if !are_same(new_tree.as_slice(), old_tree.as_slice()) {
        let rank = first_other(old_tree.as_slice(), new_tree.as_slice());
        let tag = tag_of_rank(alloc, language, page.tags.as_slice(), rank)?;
        return Err(Refusal::Differs(tag));
    }
    if begin_tags(text, places, new.tags.as_slice()) {
        Ok(())
    } else {
        Err(Refusal::Misplaced)
    }
}

/// Returns a page with edits, which are in order of their places.
///
/// The attributes that are written are read again, and so is the whole page, whose tree is the same but for
/// `style` elements and links. Each element that is put in is read as one.
pub fn edited(
    alloc: Global,
    language: Language,
    page: &[u8],
    edits: &[Edit<'_>],
) -> Result<Vec<u8>, Refusal>
    ensures { IfOk result (λ text. IsEdited language page.now edits.now text.items) }
{
    let old = read(alloc, language, page)?;
    let splices = splices_of(alloc, language, page, old.tags.as_slice(), edits)?;
    let text = spliced(alloc, page, splices.as_slice())?;
    let places = put_places(alloc, edits, splices.as_slice())?;
    check_tree(alloc, language, &old, places.as_slice(), text.as_slice())?;
    Ok(text)
}
