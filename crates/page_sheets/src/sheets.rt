//! Which elements are style sheets, and which sheets are in use.
ghost use Rattle.std.specs.Prelude.{◌≡◌, ◌≤◌, ◌++◌, IfOk, OnOk, map, length};
ghost use Rattle.std.specs.List.{prefix_len};
ghost use Rattle.std.specs.Str.{str_eq_ignore_ascii_case};
ghost use Rattle.page_sheets.specs.Nodes.{text_of};
ghost use Rattle.page_sheets.specs.Sheets.{has_word as has_word_of, trimmed as trimmed_of, essence as essence_of};
ghost use Rattle.page_sheets.specs.Sheets.{is_no_semicolon, is_css as is_css_of, is_sheet as is_sheet_of};
ghost use Rattle.page_sheets.specs.Sheets.{is_alternative as is_alternative_of, names_title as names_title_of};
ghost use Rattle.page_sheets.specs.Sheets.{preferred_title, first_base as first_base_of, is_based as is_based_of};
ghost use Rattle.page_sheets.specs.Sheets.{is_used as is_used_of, sheet_of as sheet_of_node, sheets_among as sheets_among_of};
ghost use Rattle.page_sheets.specs.Sheets.{sheets_of, flags_of as flags_of_sheet, base_number as base_number_of, rows_of, sheet_numbers};

use crate::nodes::{Role, SheetNode};
use std::alloc::{AllocError, Global};

const CSS: &[u8] = b"text/css";

const STYLESHEET: &[u8] = b"stylesheet";

const ALTERNATE: &[u8] = b"alternate";

/// A style sheet of a page.
#[derive(Clone, Copy, Debug, PartialEq)]
pub struct PageSheet {
    /// The number of its element.
    pub number: usize,
    /// Whether it is a link to a sheet, and not the text of a `style` element.
    pub is_link: bool,
    /// Whether it is an alternative sheet, for which users may ask by its title.
    pub is_alternative: bool,
    /// Whether it is in use if nobody asks for another one.
    pub is_used: bool,
    /// Whether its urls are taken from the `base`, which stands before it.
    pub is_based: bool,
}

/// A `base` that has a url.
#[derive(Clone, Copy)]
pub struct BaseUrl {
    /// Its number.
    pub number: usize,
    /// Where it ends.
    pub place: usize,
}

/// The sheets of a page.
#[derive(Drop)]
pub struct PageSheets {
    /// The `base` of the page, if it has a url.
    pub base: Option<BaseUrl>,
    /// The sheets, in document order.
    pub sheets: Vec<PageSheet>,
}

/// Whether two texts have the same letters, in any case.
fn is_same(one: &[u8], other: &[u8]) -> bool
    ensures { result ≡ str_eq_ignore_ascii_case one.now other.now }
{
    one.eq_ignore_ascii_case(other)
}

/// Whether one of the words of a text, which spaces part, is this one in any case.
fn has_word(text: &[u8], word: &[u8]) -> bool
    ensures { result ≡ has_word_of word.now text.now }
{
    text.split(|byte| byte.is_ascii_whitespace())
        .any(|part| is_same(word, part))
}

/// Returns a text without the spaces around it.
fn trimmed(text: &[u8]) -> &[u8]
    ensures { result.now ≡ trimmed_of text.now }
{
    text.trim_ascii()
}

/// Returns the number of bytes before a semicolon.
fn count_before_semicolon(text: &[u8]) -> usize
    ensures count { result ≡ prefix_len is_no_semicolon text.now }
    ensures within { result ≤ length text.now }
{
    text.iter().take_while(|byte| **byte != b';').count()
}

/// Returns a MIME type without its parameters.
fn essence(text: &[u8]) -> &[u8]
    ensures { result.now ≡ essence_of text.now }
{
    trimmed(&text[..count_before_semicolon(text)])
}

/// Whether a type is none, or that of CSS.
fn is_css(text: &[u8]) -> bool
    ensures { result ≡ is_css_of text.now }
{
    text.is_empty() || is_same(CSS, text)
}

/// Whether an element is a style sheet, or a link to one.
fn is_sheet(node: &SheetNode) -> bool
    ensures { result ≡ is_sheet_of (text_of node.now) }
{
    match node.role {
        Role::Style => is_css(node.type_name.as_slice()),
        Role::Link => has_word(node.rel.as_slice(), STYLESHEET)
            && !node.is_disabled
            && is_css(essence(node.type_name.as_slice()))
            && !trimmed(node.href.as_slice()).is_empty(),
        Role::Base => false,
    }
}

/// Whether a sheet is an alternative one.
fn is_alternative(node: &SheetNode) -> bool
    ensures { result ≡ is_alternative_of (text_of node.now) }
{
    match node.role {
        Role::Link => has_word(node.rel.as_slice(), ALTERNATE),
        Role::Style | Role::Base => false,
    }
}

/// Whether an element gives the preferred sheets its title, if it is the first.
fn names_title(node: &SheetNode) -> bool
    ensures { result ≡ names_title_of (text_of node.now) }
{
    is_sheet(node) && !is_alternative(node) && !node.title.is_empty()
}

/// Returns the title of the sheets that are preferred, or nothing.
fn preferred(nodes: &[SheetNode]) -> &[u8]
    ensures { result.now ≡ preferred_title (map text_of nodes.now) }
{
    let mut title: &[u8] = &[];
    let mut place = 0;
    let mut rest = nodes;
    'nodes: while let [node, after @ ..] = rest {
        if names_title(node) && (title.is_empty() || node.place <= place) {
            title = node.title.as_slice();
            place = node.place;
        }
        rest = after;
    }
    title
}

/// Returns the first `base` that has a url.
fn first_base(nodes: &[SheetNode]) -> Option<BaseUrl>
    ensures { result ≡ first_base_of (map text_of nodes.now) }
{
    let mut rest = nodes;
    'nodes: while let [node, after @ ..] = rest {
        if node.role == Role::Base && node.has_href {
            return Some(BaseUrl {
                number: node.number,
                place: node.place,
            });
        }
        rest = after;
    }
    None
}

/// Whether a sheet that was made at a place takes its urls from the `base`.
fn is_based(base: Option<BaseUrl>, place: usize) -> bool
    ensures { result ≡ is_based_of base place }
{
    match base {
        Some(base) => base.place < place,
        None => false,
    }
}

/// Whether a sheet is in use where sheets with this title are preferred.
fn is_used(node: &SheetNode, title: &[u8]) -> bool
    ensures { result ≡ is_used_of title.now (text_of node.now) }
{
    if node.title.is_empty() {
        !is_alternative(node)
    } else {
        node.title.as_slice() == title
    }
}

/// Returns the sheet of an element.
fn sheet_of(node: &SheetNode, title: &[u8], base: Option<BaseUrl>) -> PageSheet
    ensures { result ≡ sheet_of_node title.now base (text_of node.now) }
{
    PageSheet {
        number: node.number,
        is_link: node.role == Role::Link,
        is_alternative: is_alternative(node),
        is_used: is_used(node, title),
        is_based: is_based(base, node.place),
    }
}

/// Returns the sheets of elements that are in document order, where those with this title are preferred.
fn sheets_among(
    alloc: Global,
    title: &[u8],
    base: Option<BaseUrl>,
    nodes: &[SheetNode],
) -> Result<Vec<PageSheet>, AllocError>
    ensures { IfOk result (λ found. found.items ≡ sheets_among_of title.now base (map text_of nodes.now)) }
{
    let mut found = Vec::new(alloc);
    let mut rest = nodes;
    'nodes: while let [node, after @ ..] = rest {
        if is_sheet(node) {
            found.push(sheet_of(node, title, base))?;
        }
        rest = after;
    }
    Ok(found)
}

/// Returns the sheets of elements that are in document order.
pub fn sheets(alloc: Global, nodes: &[SheetNode]) -> Result<PageSheets, AllocError>
    ensures base { IfOk result (λ found. found.base ≡ first_base_of (map text_of nodes.now)) }
    ensures sheets { IfOk result (λ found. found.sheets.items ≡ sheets_of (map text_of nodes.now)) }
{
    let (title, base) = (preferred(nodes), first_base(nodes));
    Ok(PageSheets {
        base,
        sheets: sheets_among(alloc, title, base, nodes)?,
    })
}

/// Returns what a sheet is, added up: 1 for a link, 2 for an alternative sheet, 4 for one in use, 8 for one whose urls are
/// taken from the `base`.
fn flags_of(sheet: PageSheet) -> usize
    ensures { result ≡ flags_of_sheet sheet }
{
    usize::from(sheet.is_link)
        + 2 * usize::from(sheet.is_alternative)
        + 4 * usize::from(sheet.is_used)
        + 8 * usize::from(sheet.is_based)
}

/// Returns the number of a `base`, or 0 where there is none.
fn base_number(base: Option<BaseUrl>) -> usize
    ensures { result ≡ base_number_of base }
{
    match base {
        Some(base) => base.number,
        None => 0,
    }
}

/// Appends two numbers of each sheet: its element's, and what it is.
fn push_rows(out: &mut Vec<usize>, sheets: &[PageSheet]) -> Result<(), AllocError>
    ensures { OnOk result (out.new.items ≡ out.old.items ++ rows_of sheets.now) }
{
    let mut rest = sheets;
    'sheets: while let [sheet, after @ ..] = rest {
        out.extend_from_slice(&[sheet.number, flags_of(*sheet)])?;
        rest = after;
    }
    Ok(())
}

/// Appends the number of the `base` or 0, how many sheets there are, and two numbers of each.
pub fn push_sheets(out: &mut Vec<usize>, found: &PageSheets) -> Result<(), AllocError>
    ensures { OnOk result (out.new.items
        ≡ out.old.items ++ sheet_numbers found.now.base found.now.sheets.items) }
{
    out.push(base_number(found.base))?;
    out.push(found.sheets.len())?;
    push_rows(out, found.sheets.as_slice())
}
