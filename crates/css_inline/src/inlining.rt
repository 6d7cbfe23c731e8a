//! Pages with style sheets in their `style` attributes.
ghost use Rattle.std.specs.Prelude.{IfOk};
ghost use Rattle.css_inline.specs.Inlining.{IsStyled};

use crate::deciding::{Asked, Decided, Stop, decide};
use crate::elements::{Elements, Failure};
use crate::page_styles::{PageStyle, page_styles, tag_start};
use crate::planning::{Planned, changes_of, edits_of, split};
use crate::sheets::{Rules, SheetStatement, Sheets};
use css_html::tokenizer::Token;
use css_html_tree::names::{Name, Space};
use css_html_tree::page::{Fault, NodeKind, Options as Reading, Page, Row};
use css_html_tree::reading::read_page;
use css_tree::html::{HtmlMode, html_selectors};
use html_edits::editing::edited;
use html_edits::edits::{Language, Refusal};
use std::alloc::{AllocError, AllocFailed, Global};
use std::collections::BTreeSet;

/// How often a page is written again where its tree would be another one.
const MOST_TRIES: usize = 16;

/// How a page is written.
#[derive(Clone, Copy, Debug)]
pub struct Options {
    /// Whether its `style` elements stay as they are.
    pub keep_style: bool,
    /// How many declarations and bytes are looked at and written at most.
    pub limit: usize,
}

/// Why a page is not written.
#[derive(Clone, Copy, Debug, PartialEq)]
pub enum InlineError {
    /// An allocation failed.
    Memory,
    /// Elements are nested in a way that takes time or elements out of proportion, or there are too many.
    TooDeep,
    /// Browsers read it in different ways.
    Doubtful,
    /// It would take more work than the limit.
    TooLong,
    /// A sheet that stays has text that would end its element, or there is no head that it could be in.
    Misplaced,
    /// The page would have another tree.
    Differs,
    /// The page or a sheet is no text.
    NoText,
}

impl From<AllocError> for InlineError {
    fn from(_error: AllocError) -> InlineError {
        InlineError::Memory
    }
}

impl<T: Drop> From<AllocFailed<T>> for InlineError {
    fn from(_error: AllocFailed<T>) -> InlineError {
        InlineError::Memory
    }
}

impl From<Fault> for InlineError {
    fn from(fault: Fault) -> InlineError {
        match fault {
            Fault::Memory => InlineError::Memory,
            Fault::TooDeep | Fault::TooLong => InlineError::TooDeep,
        }
    }
}

impl From<Failure> for InlineError {
    fn from(failure: Failure) -> InlineError {
        match failure {
            Failure::Memory => InlineError::Memory,
            Failure::NoTree => InlineError::TooDeep,
        }
    }
}

impl From<Stop> for InlineError {
    fn from(stop: Stop) -> InlineError {
        match stop {
            Stop::Memory => InlineError::Memory,
            Stop::TooLong => InlineError::TooLong,
        }
    }
}

impl From<Refusal> for InlineError {
    fn from(refusal: Refusal) -> InlineError {
        match refusal {
            Refusal::Memory => InlineError::Memory,
            Refusal::TooDeep => InlineError::TooDeep,
            Refusal::Misplaced => InlineError::Misplaced,
            Refusal::Differs(_) => InlineError::Differs,
        }
    }
}

/// Why a page is not written with these tags.
#[derive(Clone, Copy)]
enum Obstacle {
    /// With the edits of a tag it would have another tree.
    Differs(usize),
    /// Another reason.
    Other(InlineError),
}

impl From<AllocError> for Obstacle {
    fn from(_error: AllocError) -> Obstacle {
        Obstacle::Other(InlineError::Memory)
    }
}

impl From<InlineError> for Obstacle {
    fn from(error: InlineError) -> Obstacle {
        Obstacle::Other(error)
    }
}

impl From<Refusal> for Obstacle {
    fn from(refusal: Refusal) -> Obstacle {
        match refusal {
            Refusal::Differs(tag) => Obstacle::Differs(tag),
            other => Obstacle::Other(other.into()),
        }
    }
}

/// What is read for a page.
#[derive(Drop)]
struct Source<'a> {
    text: &'a str,
    page: Page<'a>,
    /// Whether each start tag is one too where scripts run.
    shared: Vec<bool>,
    elements: Elements,
    /// The `style` elements that are style sheets.
    styles: Vec<PageStyle<'a>>,
    /// How many sheets are given. The sheets of the `style` elements come after them.
    given: usize,
    rules: Rules<'a>,
}

/// Reads the rules of sheets, and after them those of `style` elements.
fn read_rules<'a>(
    alloc: Global,
    sheets: &[&'a str],
    styles: &[PageStyle<'a>],
) -> Result<Rules<'a>, AllocError> {
    let mut found = Sheets::new(alloc)?;
    for (number, sheet) in sheets.iter().enumerate() {
        found.read(alloc, *sheet, number, true)?;
    }
    for (index, style) in styles.iter().enumerate() {
        if style.is_raw {
            let number = sheets.len().saturating_add(index);
            found.read(alloc, style.text, number, style.may_go)?;
        } else {
            found.read_unknown(alloc)?;
        }
    }
    found.into_rules(alloc)
}

/// Reads a page as browsers do where scripts run or not.
fn read_text(alloc: Global, text: &str, has_scripts: bool) -> Result<Page<'_>, Fault> {
    let options = Reading {
        has_scripts,
        context: None,
    };
    read_page(alloc, text.as_bytes(), &options)
}

/// Returns for each of some tags whether it begins where one of others does.
fn shared_tags(
    alloc: Global,
    tags: &[Token<'_>],
    others: &[Token<'_>],
) -> Result<Vec<bool>, AllocError> {
    let mut places = BTreeSet::new(alloc);
    for tag in others {
        places.insert(tag.from.len())?;
    }
    let mut shared = Vec::with_capacity(alloc, tags.len())?;
    for tag in tags {
        shared.push(places.contains(&tag.from.len()))?;
    }
    Ok(shared)
}

/// Reads a page and sheets for it.
fn read<'a>(alloc: Global, text: &'a str, sheets: &[&'a str]) -> Result<Source<'a>, InlineError> {
    let page = read_text(alloc, text, false)?;
    if page.is_doubtful {
        return Err(InlineError::Doubtful);
    }
    let scripted = read_text(alloc, text, true)?;
    let shared = shared_tags(alloc, page.tags.as_slice(), scripted.tags.as_slice())?;
    let elements = Elements::read(alloc, &page, shared.as_slice())?;
    let styles = page_styles(alloc, text, &page, shared.as_slice())?;
    let rules = read_rules(alloc, sheets, styles.as_slice())?;
    Ok(Source {
        text,
        page,
        shared,
        elements,
        styles,
        given: sheets.len(),
        rules,
    })
}

/// Returns how the selectors of a page are read.
fn mode_of(page: &Page<'_>) -> HtmlMode {
    if page.is_quirky {
        HtmlMode::Quirks
    } else {
        HtmlMode::NoQuirks
    }
}

/// Decides what is written into the attributes of a page.
fn decided(
    alloc: Global,
    source: &Source<'_>,
    excluded: &[usize],
    options: &Options,
) -> Result<Decided, InlineError> {
    let tree = match source.elements.tree(alloc) {
        Ok(tree) => tree,
        Err(error) => return Err(Failure::from(error).into()),
    };
    let mut numbered = source.elements.numbered(alloc, &source.page, &tree)?;
    let selectors = source.rules.selectors.as_slice();
    let selectors = html_selectors(alloc, mode_of(&source.page), selectors)?;
    let asked = Asked {
        rules: &source.rules,
        elements: &source.elements,
        excluded,
        room: options.limit,
    };
    let tags = source.page.tags.len();
    Ok(decide(alloc, &mut numbered, selectors, &asked, tags)?)
}

/// Whether something of a statement stays.
fn stays(statement: &SheetStatement<'_>, index: usize, decided: &Decided) -> bool {
    let is_left = decided.left.get(index).copied().unwrap_or(true);
    let is_matched = decided.matched.get(index).copied().unwrap_or(true);
    statement.stays || is_left || statement.is_of_client && !is_matched
}

/// What stays of a sheet.
#[derive(Drop)]
pub(crate) struct Kept {
    /// The statements that stay, one a line.
    pub(crate) text: String,
    /// Whether all do.
    pub(crate) is_whole: bool,
}

/// Appends a statement to what stays of its sheet, if it stays.
fn keep(kept: &mut Kept, statement: &SheetStatement<'_>, stays: bool) -> Result<(), AllocError> {
    if !stays {
        kept.is_whole = false;
        return Ok(());
    }
    if kept.text.is_empty() {
        kept.text.push_str("\n")?;
    }
    kept.text.push_str(statement.text)?;
    kept.text.push_str("\n")
}

/// Returns for each of so many sheets that nothing of it stays yet.
fn nothing_kept(alloc: Global, count: usize) -> Result<Vec<Kept>, AllocError> {
    let mut found = Vec::with_capacity(alloc, count)?;
    for _ in 0..count {
        found.push(Kept {
            text: String::new(alloc),
            is_whole: true,
        })?;
    }
    Ok(found)
}

/// Returns what stays of each sheet.
fn kept_of(alloc: Global, source: &Source<'_>, decided: &Decided) -> Result<Vec<Kept>, AllocError> {
    let count = source.given.saturating_add(source.styles.len());
    let mut found = nothing_kept(alloc, count)?;
    for (index, statement) in source.rules.statements.iter().enumerate() {
        if let Some(kept) = found.get_mut(statement.sheet) {
            keep(kept, statement, stays(statement, index, decided))?;
        }
    }
    Ok(found)
}

/// Whether a node of the head comes after what is put in: a sheet, and what would take it in.
fn comes_after(row: &Row<'_>) -> bool {
    let is_open = row.start >= row.end;
    let is_void = matches!(
        row.name,
        Name::Base | Name::Basefont | Name::Bgsound | Name::Meta
    );
    matches!(
        row.name,
        Name::Style | Name::Link | Name::Noscript | Name::Template
    ) || is_open && !is_void
}

/// Whether a node is in the head.
fn is_in_head(page: &Page<'_>, row: &Row<'_>) -> bool {
    let Some(index) = row.parent else {
        return false;
    };
    match page.rows.get(index) {
        Some(parent) => parent.space == Space::Html && parent.name == Name::Head,
        None => false,
    }
}

/// Returns where a tag begins that is one whether scripts run or not.
fn start_of_tag(source: &Source<'_>, tag: usize) -> Option<usize> {
    if !source.shared.get(tag).copied().unwrap_or(false) {
        return None;
    }
    match source.page.tags.get(tag) {
        Some(token) => Some(tag_start(source.text, token)),
        None => None,
    }
}

/// Returns where what stays of the sheets that are given is put in, if there is such a place.
fn place_of(source: &Source<'_>) -> Option<usize> {
    for row in source.page.rows.iter() {
        if let Some(tag) = row.tag {
            if row.kind == NodeKind::Element && is_in_head(&source.page, row) && comes_after(row) {
                return start_of_tag(source, tag);
            }
        }
    }
    source.page.head_end
}

/// Writes a page with these tags left out. The page is read again, and its tree is the same.
fn attempt(
    alloc: Global,
    text: &str,
    source: &Source<'_>,
    excluded: &[usize],
    options: &Options,
) -> Result<Vec<u8>, Obstacle>
    ensures { IfOk result (λ styled. IsStyled text.now styled.items) }
{
    let decided = decided(alloc, source, excluded, options)?;
    let kept = kept_of(alloc, source, &decided)?;
    let changes = changes_of(alloc, &decided)?;
    let (own, given) = split(kept.as_slice(), source.given);
    let planned = Planned {
        text: source.text,
        tags: source.page.tags.as_slice(),
        texts: decided.texts.as_slice(),
        changes: changes.as_slice(),
        styles: source.styles.as_slice(),
        kept: own,
        given,
        place: place_of(source),
        keep_style: options.keep_style,
    };
    let edits = edits_of(alloc, &planned)?;
    Ok(edited(alloc, Language::Html, text.as_bytes(), edits.as_slice())?)
}

/// Writes a page, where its tree stays the same: tags that would change it are left out.
fn written(
    alloc: Global,
    text: &str,
    source: &Source<'_>,
    options: &Options,
) -> Result<Vec<u8>, InlineError>
    ensures { IfOk result (λ styled. IsStyled text.now styled.items) }
{
    let mut excluded = Vec::new(alloc);
    for _ in 0..MOST_TRIES {
        match attempt(alloc, text, source, excluded.as_slice(), options) {
            Ok(styled) => return Ok(styled),
            Err(Obstacle::Differs(tag)) => excluded.push(tag)?,
            Err(Obstacle::Other(error)) => return Err(error),
        }
    }
    Err(InlineError::Differs)
}

/// Returns a page with style sheets in the `style` attributes of its elements.
///
/// The sheets are those that are given, and then those of the page's own `style` elements. What cannot be
/// written into attributes stays in `style` elements. The result is the page with edits of `style` attributes
/// and of `style` elements, and is read as the same tree.
pub fn inline(
    alloc: Global,
    page: &str,
    sheets: &[&str],
    options: &Options,
) -> Result<Vec<u8>, InlineError>
    ensures { IfOk result (λ text. IsStyled page.now text.items) }
{
    let source = read(alloc, page, sheets)?;
    written(alloc, page, &source, options)
}
