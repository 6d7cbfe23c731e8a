//! Modern selectors: what each call answers.

ghost use Rattle.std.specs.Prelude.{◌≡◌, ◌<◌, ◌^◌, All, None, Some, Err, MatchResult, length, map, string_bytes};
ghost use Rattle.std.specs.Str.{IsUtf8};
ghost use Rattle.css_selectors.specs.MarkedLists.{list_of};
ghost use Rattle.css_selectors.specs.Numberings.{no_lists, numbered_selectors};
ghost use Rattle.css_tree.specs.Answered.{SelectorIsAnswered};
ghost use Rattle.call_answers.specs.Calls.{FailsLonger, FailsWithin, passed_of, passed_tree};
ghost use Rattle.call_answers.specs.Elements.{attributes_by, named_states};
ghost use Rattle.call_answers.specs.internal.Attributes.{placed_attribute_of};
ghost use Rattle.page_calls.specs.MarkedPages.{AreOnMarked};
ghost use Rattle.page_calls.specs.ModernLines.{page_with};
ghost use Rattle.page_calls.specs.ModernCalls.{IsModernRefusalCall, AreLinesOn, AreNumberedLines, AreReadLines};
ghost use Rattle.page_calls.specs.ModernCalls.{IsModernMatchCall};
ghost use Rattle.call_answers.specs.Outcomes.{outcome_of};

mod document_kind;
mod lists;
mod pages;
mod ranges;

use crate::marks::mark;
use crate::tree_names::names_in;
use call_answers::answer::CallError;
use call_answers::elements::{PassedTree, ReadTree, TreeElement, read_named_tree};
use call_answers::pages::LineContent;
use call_answers::texts::{text_of, texts_of};
use css_selectors::{MarkedList, Numbering, Selector};
use css_tree::NumberedTree;
pub use document_kind::{DocumentKind, html_rule_selectors};
use pages::lines;
pub use pages::page_of;
pub use ranges::{ElementRange, select_range};
use std::alloc::Global;

/// Where a text is no list of selectors, and why, or nothing where it is one, where a tree declares names.
pub fn refusal(alloc: Global, text: &[u8], tree: PassedTree<'_>) -> Result<String, CallError>
    ensures { IsModernRefusalCall text.now (passed_of tree.entry) (outcome_of result) }
{
    let text = text_of(text)?;
    let read = read_named_tree(alloc, tree)?;
    lists::refusal(alloc, &names_in(&read), text)
}

/// The lines of the elements of a page, by selectors with these numbers, after the lists of the numbers are
/// answered on it.
fn marked_lines(
    alloc: Global,
    content: LineContent,
    kind: DocumentKind,
    selectors: &[Selector<'_>],
    lists: &[MarkedList<'_>],
    page: NumberedTree<'_, '_>,
    most: usize,
) -> Result<String, CallError>
    requires few { length selectors.now < 2 ^ 63 }
    requires answered { All (SelectorIsAnswered (length lists.now)) selectors.now }
    ensures { let are = AreOnMarked most kind (map list_of lists.now) page.entry
        (AreLinesOn most content kind selectors.now) in
        MatchResult result (λ text. are (Some (string_bytes text))) (FailsLonger (are None)) }
{
    let mut page = page;
    mark(alloc, lists, kind, &mut page, most)?;
    lines(alloc, content, kind, selectors, &page, most)
}

/// The lines of the elements of a page, by which selectors match each as a document reads them.
fn numbered_lines(
    alloc: Global,
    content: LineContent,
    kind: DocumentKind,
    selectors: Vec<Selector<'_>>,
    page: NumberedTree<'_, '_>,
    most: usize,
) -> Result<String, CallError>
    ensures { let are = AreNumberedLines most content kind
        (numbered_selectors no_lists selectors.entry.items) page.entry in
        MatchResult result (λ text. are (Some (string_bytes text))) (FailsLonger (are None)) }
{
    let mut numbering = Numbering::new(alloc);
    let selectors = numbering.number_all(alloc, selectors)?;
    marked_lines(
        alloc,
        content,
        kind,
        &selectors,
        numbering.lists(),
        page,
        most,
    )
}

/// The lines of the elements of a tree that was read, by which selectors match each as a document reads them.
fn read_lines(
    alloc: Global,
    content: LineContent,
    kind: DocumentKind,
    selectors: Vec<Selector<'_>>,
    read: &ReadTree<'_>,
    elements: &[TreeElement],
    most: usize,
) -> Result<String, CallError>
    requires { length elements.now ≡ length read.now.rows }
    ensures { let states = named_states (map (λ name. name.now) read.now.states.items) elements.now in
        let attributes = attributes_by (length elements.now)
        (map placed_attribute_of read.now.attributes.items) in
        let are = AreNumberedLines most content kind
        (numbered_selectors no_lists selectors.entry.items)
        (page_with kind states attributes elements.now read.now.rows) in
        MatchResult result (λ text. are (Some (string_bytes text))) (FailsLonger (are None)) }
{
    let page = page_of(alloc, kind, read, elements)?;
    numbered_lines(alloc, content, kind, selectors, page, most)
}

/// The lines of the elements of a tree, by which selectors match each as a document reads them.
fn page_lines(
    alloc: Global,
    content: LineContent,
    kind: DocumentKind,
    selectors: Vec<Selector<'_>>,
    tree: PassedTree<'_>,
    most: usize,
) -> Result<String, CallError>
    ensures { MatchResult result (λ text. AreReadLines most content kind selectors.entry.items
        (passed_of tree.entry) (Some (string_bytes text)))
        (FailsWithin ⊥ (λ fault. passed_tree (passed_of tree.entry) ≡ Err fault)
        (¬ (IsUtf8 (passed_of tree.entry).strings)) ⊥
        (AreReadLines most content kind selectors.entry.items (passed_of tree.entry) None)) }
{
    let read = read_named_tree(alloc, tree)?;
    read_lines(alloc, content, kind, selectors, &read, tree.elements, most)
}

/// The numbers of the selectors that match each element of a tree.
pub fn match_selectors(
    alloc: Global,
    buffer: &[u8],
    ends: &[usize],
    kind: DocumentKind,
    tree: PassedTree<'_>,
    most: usize,
) -> Result<String, CallError>
    ensures { IsModernMatchCall most buffer.now ends.now kind (passed_of tree.entry)
        (outcome_of result) }
{
    let texts = texts_of(alloc, buffer, ends)?;
    let selectors = lists::read_selectors(alloc, &texts)?;
    page_lines(alloc, LineContent::Numbers, kind, selectors, tree, most)
}
