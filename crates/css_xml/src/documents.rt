//! Reads a document: its start tags, and its nodes with their places.
ghost use Rattle.std.specs.Prelude.{◌≡◌, true, [], IfOk, OnOk, map, vec_len};
ghost use Rattle.css_html.specs.Views.{token_of};
ghost use Rattle.css_html_tree.specs.Rows.{AreRows};
ghost use Rattle.css_xml.specs.Documents.{state_of, StepOf, Reads, IsDocument};

use crate::characters::{are_characters, is_refused};
use crate::faults::{Fault, Reason, Wrong};
use crate::nesting::{Nesting, Stage};
use crate::nodes::{nodes_of, rows_of};
use crate::spaces::{Spaces, spaces_of};
use crate::tokenizer::read_next;
use css_html::tokenizer::Token;
use css_html_tree::page::Row;
use std::alloc::Global;

/// A document.
#[derive(Drop)]
pub struct Document<'a> {
    /// The start tags that were read, in order.
    pub tags: Vec<Token<'a>>,
    /// The nodes in document order. An element has the name that is in its tag; its namespace is among `spaces`, and not here. A
    /// processing instruction is a comment that begins with `<?`.
    pub rows: Vec<Row<'a>>,
    /// The namespaces of elements and attributes.
    pub spaces: Spaces,
}

/// Reads a token of a document after what was read before it.
fn take_at<'a>(nesting: &mut Nesting<'a>, text: &'a [u8], token: &Token<'a>) -> Result<(), Fault>
    ensures { OnOk result (StepOf token.now.kind (state_of nesting.old) (token_of token.now) (state_of nesting.new)) }
{
    match nesting.take(token) {
        Ok(()) => Ok(()),
        Err(Wrong::Memory) => Err(Fault::Memory),
        Err(Wrong::Because(reason)) => {
            let place = text.len().saturating_sub(token.from.len());
            Err(Fault::NotWellFormed(reason, place))
        }
    }
}

/// Reads the tokens of a document, to its end.
fn read_tokens<'a>(alloc: Global, text: &'a [u8]) -> Result<Nesting<'a>, Fault>
    ensures { IfOk result (λ nesting. Reads text.now (state_of nesting) []) }
{
    let mut nesting = Nesting::new(alloc);
    let mut rest = text;
    'tokens: for _ in 0..text.len() {
        let Some(token) = read_next(rest) else {
            break;
        };
        take_at(&mut nesting, text, &token)?;
        rest = token.rest;
    }
    if !rest.is_empty() {
        return Err(Fault::TooMany);
    }
    Ok(nesting)
}

/// Whether the root is closed.
fn is_ended(stage: Stage) -> bool
    ensures { result ≡ true → stage ≡ Stage.After }
{
    matches!(stage, Stage::After)
}

/// Returns where the first character is that no document has.
fn first_refused(text: &[u8]) -> usize {
    let mut rest = text;
    for at in 0..text.len() {
        if is_refused(rest) {
            return at;
        }
        rest = rest.get(1..).unwrap_or(&[]);
    }
    text.len()
}

/// Reads the start tags of a document that is well-formed.
fn read_tags<'a>(alloc: Global, text: &'a [u8]) -> Result<Vec<Token<'a>>, Fault>
    ensures { IfOk result (λ tags. IsDocument text.now (map token_of tags.items)) }
{
    if !are_characters(text) {
        return Err(Fault::NotWellFormed(Reason::Character, first_refused(text)));
    }
    let nesting = read_tokens(alloc, text)?;
    if !is_ended(nesting.stage) {
        return Err(Fault::NotWellFormed(Reason::OpenElement, text.len()));
    }
    Ok(nesting.tags)
}

/// Reads a document.
pub fn read_document<'a>(alloc: Global, text: &'a [u8]) -> Result<Document<'a>, Fault>
    ensures tags { IfOk result (λ found. IsDocument text.now (map token_of found.tags.items)) }
    ensures rows { IfOk result (λ found. AreRows (vec_len found.tags) found.rows.items) }
{
    let tags = read_tags(alloc, text)?;
    let nodes = nodes_of(alloc, text)?;
    let rows = rows_of(alloc, nodes.as_slice(), tags.len())?;
    let spaces = spaces_of(alloc, text, tags.as_slice(), rows.as_slice())?;
    Ok(Document { tags, rows, spaces })
}
