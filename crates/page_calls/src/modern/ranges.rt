//! The numbers of the elements of a range that selectors match.

ghost use Rattle.std.specs.Prelude.{◌≡◌, ◌+◌, ◌^◌, ◌<◌, ◌↔◌, ◌++◌, [], ℕ, All, IsTrue, List, OnOk, MatchResult, None, Some, length, map};
ghost use Rattle.css_selector_text.specs.NameViews.{names_of};
ghost use Rattle.css_selectors.specs.MarkedLists.{list_of};
ghost use Rattle.css_selectors.specs.Numberings.{no_lists, numbered_selectors};
ghost use Rattle.css_index.specs.Found.{MatchesAt};
ghost use Rattle.css_tree.specs.Answered.{IsMarkedFor, SelectorIsAnswered};
ghost use Rattle.css_tree.specs.Marks.{with_marks};
ghost use Rattle.css_tree.specs.Pages.{page_document};
ghost use Rattle.call_answers.specs.Calls.{FailsLonger};
ghost use Rattle.call_answers.specs.Outcomes.{numbers_outcome};
ghost use Rattle.page_calls.specs.MarkedPages.{AreOnMarked};
ghost use Rattle.page_calls.specs.Ranges.{AreNumbered, AreNumbersIn, AreNumbersOn, IsNumberAt, IsRangeSelected};
ghost use Rattle.page_calls.specs.Readings.{selector_as};

use super::document_kind::DocumentKind;
use super::lists::read_list;
use crate::marks::mark;
use call_answers::answer::{CallError, check_count};
use call_answers::texts::text_of;
use css_selectors::on_marked::matches_counted;
use css_selectors::{MarkedList, Names, Numbering, Selector, Tests};
use css_tree::html::html_selectors;
use css_tree::{NumberedNode, NumberedTree, TreeWalk};
use std::alloc::{AllocError, Global};

/// So many selectors are tested on each element: an index pays only for more.
const FEW: usize = 4;

/// Elements that are next to each other in document order, by their indices.
#[derive(Clone, Copy, Debug)]
pub struct ElementRange {
    /// The index of the first.
    pub from: usize,
    /// The index of the first one after them. There may be none.
    pub to: usize,
}

/// Appends the number of an element, which is given by its index, if a selector of the walk matches it. What was in
/// `indices` is dropped.
fn push_number(
    out: &mut Vec<usize>,
    walk: &mut TreeWalk<'_, '_, '_, '_>,
    element: usize,
    indices: &mut Vec<usize>,
) -> Result<(), AllocError>
    requires element { element < length walk.old.page.rows }
    requires number { element + 1 < 2 ^ 64 }
    ensures written { OnOk result ((numbers : List ℕ)
        × IsNumberAt walk.old.walk.selectors walk.old.page element numbers
        × (out.new.items ≡ out.old.items ++ numbers)) }
    ensures page { walk.new.page ≡ walk.old.page }
    ensures selectors { walk.new.walk.selectors ≡ walk.old.walk.selectors }
{
    walk.matching(element, indices, &mut Tests::new())?;
    if !indices.is_empty() {
        out.push(element + 1)?;
    }
    Ok(())
}

/// The numbers of the elements of a range, by a walk.
fn numbers_by(
    alloc: Global,
    walk: &mut TreeWalk<'_, '_, '_, '_>,
    range: ElementRange,
    most: usize,
) -> Result<Vec<usize>, CallError>
    ensures { let are = AreNumbersIn most range walk.old.walk.selectors walk.old.page in
        MatchResult result (λ numbers. are (Some numbers.items)) (FailsLonger (are None)) }
{
    let mut indices = Vec::new(alloc);
    let mut numbers = Vec::new(alloc);
    let count = range
        .to
        .min(walk.element_count())
        .saturating_sub(range.from);
    for index in 0..count {
        push_number(&mut numbers, walk, range.from + index, &mut indices)?;
        check_count(&numbers, most)?;
    }
    Ok(numbers)
}

/// Whether one of the selectors matches an element of a page.
fn is_matched(selectors: &[Selector<'_>], node: &NumberedNode<'_, '_, '_>) -> bool
    ensures { IsTrue result ↔ ((index : ℕ) × MatchesAt page_document node.now selectors.now index) }
{
    for selector in selectors {
        if matches_counted(selector, node, &mut Tests::new()) {
            return true;
        }
    }
    false
}

/// Appends the number of an element, which is given by its index, if one of the selectors matches it.
fn push_tested(
    out: &mut Vec<usize>,
    selectors: &[Selector<'_>],
    page: &NumberedTree<'_, '_>,
    element: usize,
) -> Result<(), AllocError>
    requires element { element < length page.now.rows }
    requires number { element + 1 < 2 ^ 64 }
    ensures { OnOk result ((numbers : List ℕ)
        × IsNumberAt selectors.now page.now element numbers
        × (out.new.items ≡ out.old.items ++ numbers)) }
{
    let node = page.node(element).unwrap();
    if is_matched(selectors, &node) {
        out.push(element + 1)?;
    }
    Ok(())
}

/// The numbers of the elements of a range, by testing each selector on each of them.
fn tested_numbers(
    alloc: Global,
    selectors: &[Selector<'_>],
    page: &NumberedTree<'_, '_>,
    range: ElementRange,
    most: usize,
) -> Result<Vec<usize>, CallError>
    ensures { let are = AreNumbersIn most range selectors.now page.now in
        MatchResult result (λ numbers. are (Some numbers.items)) (FailsLonger (are None)) }
{
    let mut numbers = Vec::new(alloc);
    let count = range.to.min(page.len()).saturating_sub(range.from);
    for index in 0..count {
        push_tested(&mut numbers, selectors, page, range.from + index)?;
        check_count(&numbers, most)?;
    }
    Ok(numbers)
}

/// The numbers of the elements of a range that selectors match.
fn numbers_as_written(
    alloc: Global,
    selectors: &[Selector<'_>],
    page: &NumberedTree<'_, '_>,
    range: ElementRange,
    most: usize,
) -> Result<Vec<usize>, CallError>
    requires { IsMarkedFor selectors.now page.now }
    ensures { let are = AreNumbersIn most range selectors.now page.now in
        MatchResult result (λ numbers. are (Some numbers.items)) (FailsLonger (are None)) }
{
    if selectors.len() <= FEW {
        return tested_numbers(alloc, selectors, page, range, most);
    }
    let mut walk = TreeWalk::new(alloc, selectors, page)?;
    numbers_by(alloc, &mut walk, range, most)
}

/// The numbers of the elements of a range that selectors match as a document reads them.
fn range_numbers(
    alloc: Global,
    kind: DocumentKind,
    selectors: &[Selector<'_>],
    page: &NumberedTree<'_, '_>,
    range: ElementRange,
    most: usize,
) -> Result<Vec<usize>, CallError>
    requires { IsMarkedFor (map (selector_as kind) selectors.now) page.now }
    ensures { let are = AreNumbersOn most range kind selectors.now page.now in
        MatchResult result (λ numbers. are (Some numbers.items)) (FailsLonger (are None)) }
{
    match kind {
        DocumentKind::AsWritten => numbers_as_written(alloc, selectors, page, range, most),
        DocumentKind::Html(mode) => {
            let selectors = html_selectors(alloc, mode, selectors)?;
            numbers_as_written(alloc, &selectors, page, range, most)
        }
    }
}

/// The numbers of the elements of a range that selectors with these numbers match, after the lists of the numbers are
/// answered on the page.
fn marked_numbers(
    alloc: Global,
    kind: DocumentKind,
    selectors: &[Selector<'_>],
    lists: &[MarkedList<'_>],
    page: &mut NumberedTree<'_, '_>,
    range: ElementRange,
    most: usize,
) -> Result<Vec<usize>, CallError>
    requires { All (SelectorIsAnswered (length lists.now)) selectors.now }
    ensures answer { let are = AreOnMarked most kind (map list_of lists.now) page.old
        (AreNumbersOn most range kind selectors.now) in
        MatchResult result (λ numbers. are (Some numbers.items)) (FailsLonger (are None)) }
    ensures kept { with_marks page.new [] ≡ with_marks page.old [] }
{
    mark(alloc, lists, kind, page, most)?;
    range_numbers(alloc, kind, selectors, page, range, most)
}

/// The numbers of the elements of a range that selectors match as a document reads them.
fn numbered(
    alloc: Global,
    kind: DocumentKind,
    selectors: Vec<Selector<'_>>,
    page: &mut NumberedTree<'_, '_>,
    range: ElementRange,
    most: usize,
) -> Result<Vec<usize>, CallError>
    ensures answer { let are = AreNumbered most range kind (numbered_selectors no_lists selectors.entry.items)
        page.old in
        MatchResult result (λ numbers. are (Some numbers.items)) (FailsLonger (are None)) }
    ensures kept { with_marks page.new [] ≡ with_marks page.old [] }
{
    let mut numbering = Numbering::new(alloc);
    let selectors = numbering.number_all(alloc, selectors)?;
    marked_numbers(
        alloc,
        kind,
        &selectors,
        numbering.lists(),
        page,
        range,
        most,
    )
}

/// The numbers of the elements of a range that one of the selectors of a list matches, where these names are
/// declared. Of the page only the marks change.
///
/// The time grows as the range and the depth of its first element, and with the page only where lists have numbers:
/// that of `:has()`, that of `:nth-child()`, and `&`.
pub fn select_range(
    alloc: Global,
    kind: DocumentKind,
    names: &Names<'_>,
    page: &mut NumberedTree<'_, '_>,
    text: &[u8],
    range: ElementRange,
    most: usize,
) -> Result<Vec<usize>, CallError>
    ensures answer { IsRangeSelected most range kind (names_of names.now) text.now page.old (numbers_outcome result) }
    ensures kept { with_marks page.new [] ≡ with_marks page.old [] }
{
    let text = text_of(text)?;
    let selectors = read_list(alloc, names, text)?;
    numbered(alloc, kind, selectors, page, range, most)
}
