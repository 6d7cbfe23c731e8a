//! The encoding of a page, also where a `meta` after its front names it.

ghost use Rattle.std.specs.Prelude.{◌≡◌, true, IfOk, IfSome, map, slice_get, Some, []};
ghost use Rattle.css_html.specs.Tokens.{text_of};
ghost use Rattle.css_html.specs.Views.{token_of};
ghost use Rattle.css_html.specs.declared.tokenizer.Token.{Token};
ghost use Rattle.html_calls.specs.Encodings.{IsFound, IsNamedBy, IsNamedLate};
ghost use Rattle.html_encodings.specs.Page.{found_of};

use css_html::marks::text_between;
use css_html::tokenizer::Token;
use css_html_tree::names::{Name, Space};
use css_html_tree::page::{Fault, NodeKind, Options, Row};
use css_html_tree::reading::read_page;
use html_encodings::page::{Found, Source, encoding_of_page};
use std::alloc::Global;

const CHARSET: &[u8] = b"charset";

/// Whether the encoding of a page is the default.
fn is_default(found: &Found) -> bool
    ensures { result ≡ true → found.now.source ≡ Source.Default }
{
    matches!(found.source, Source::Default)
}

/// Whether a text may have the word `charset`.
fn may_name(page: &[u8]) -> bool {
    let mut rest = page;
    for _ in 0..page.len() {
        match rest.get(..CHARSET.len()) {
            Some(word) if word.eq_ignore_ascii_case(CHARSET) => return true,
            Some(_) => rest = rest.get(1..).unwrap_or(&[]),
            None => return false,
        }
    }
    false
}

/// Whether a row is that of a `meta` in the head of a page.
fn is_head_meta(rows: &[Row<'_>], row: &Row<'_>) -> bool {
    let is = |row: &Row<'_>, name: Name| {
        row.kind == NodeKind::Element && row.space == Space::Html && row.name == name
    };
    match row.parent.and_then(|parent| rows.get(parent)) {
        Some(parent) => is(row, Name::Meta) && is(parent, Name::Head) && parent.depth == 1,
        None => false,
    }
}

/// Returns the encoding that a start tag names, if it names one.
fn named_by(tags: &[Token<'_>], tag: Option<usize>) -> Option<Found>
    ensures { IfSome result (IsNamedBy tags.now) }
{
    let Some(index) = tag else {
        return None;
    };
    match tags.get(index) {
        Some(tag) => Some(encoding_of_page(&[], text_between(tag.from, tag.rest))),
        None => None,
    }
}

/// Returns the encoding that a `meta` in the head of a page names, if one does.
fn named_in(tags: &[Token<'_>], rows: &[Row<'_>]) -> Option<Found>
    ensures { IfSome result (IsNamedBy tags.now) }
{
    let mut rest = rows;
    for _ in 0..rows.len() {
        let [row, after @ ..] = rest else {
            break;
        };
        if is_head_meta(rows, row) {
            match named_by(tags, row.tag) {
                Some(found) if !is_default(&found) => return Some(found),
                _ => {}
            }
        }
        rest = after;
    }
    None
}

/// Returns the encoding that a `meta` of a page names, if one does.
fn named_late(alloc: Global, page: &[u8]) -> Result<Option<Found>, Fault>
    ensures { IfOk result (λ found. IfSome found (IsNamedLate page.now)) }
{
    let options = Options {
        has_scripts: false,
        context: None,
    };
    match read_page(alloc, page, &options) {
        Ok(read) => Ok(named_in(read.tags.as_slice(), read.rows.as_slice())),
        Err(Fault::Memory) => Err(Fault::Memory),
        Err(Fault::TooDeep | Fault::TooLong) => Ok(None),
    }
}

/// Returns the encoding of a page, and what says it. Where nothing in its front does, a `meta` of its head may: a browser reads the page
/// again then.
pub fn encoding_of(alloc: Global, label: &[u8], page: &[u8]) -> Result<Found, Fault>
    ensures { IfOk result (IsFound label.now page.now) }
{
    let found = encoding_of_page(label, page);
    if !is_default(&found) || !may_name(page) {
        return Ok(found);
    }
    match named_late(alloc, page)? {
        Some(late) => Ok(late),
        None => Ok(found),
    }
}
