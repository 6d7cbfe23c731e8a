//! Pages on whose elements the lists are answered that selectors ask by numbers.

ghost use Rattle.std.specs.Prelude.{◌≡◌, ◌≤◌, ◌<◌, ◌^◌, [], IfOk, MatchResult, length, map};
ghost use Rattle.css_selectors.specs.MarkedLists.{list_of};
ghost use Rattle.css_tree.specs.Html.{list_in};
ghost use Rattle.css_tree.specs.Marks.{AreMarked, with_marks};
ghost use Rattle.call_answers.specs.Calls.{FailsLonger};
ghost use Rattle.page_calls.specs.MarkedPages.{IsMarkedPage, list_size as list_size_of, tests_on};
ghost use Rattle.call_answers.specs.declared.answer.CallError.TheVariants.{AnswerTooLong, Memory};

use crate::modern::DocumentKind;
use call_answers::answer::CallError;
use css_selectors::{Complex, MarkedList};
use css_tree::NumberedTree;
use css_tree::html::{HtmlMode, html_marked};
use std::alloc::{AllocError, Global};

/// Returns how many selectors a list has.
fn list_size(list: &MarkedList<'_>) -> usize
    ensures size { result ≡ list_size_of (list_of list.now) }
    ensures few { result < 2 ^ 63 }
{
    match list {
        MarkedList::Matched(selectors) => selectors.len(),
        MarkedList::Tested(_, selectors) => selectors.len(),
    }
}

/// Fails if lists need more than `most` tests on this number of elements.
fn check_tests(lists: &[MarkedList<'_>], elements: usize, most: usize) -> Result<(), CallError>
    ensures { MatchResult result
        (λ _. tests_on elements (map list_of lists.now) ≤ most)
        (λ failure. (failure ≡ AnswerTooLong)
        × (most < tests_on elements (map list_of lists.now))) }
{
    let mut room = most;
    let mut left = lists;
    'lists: while let [list, others @ ..] = left {
        match elements.checked_mul(list_size(list) + 1) {
            Some(tests) if tests <= room => room -= tests,
            _ => return Err(CallError::AnswerTooLong),
        }
        left = others;
    }
    Ok(())
}

/// Gives lists their numbers on a page, as they are read.
fn mark_lists(
    alloc: Global,
    lists: &[MarkedList<'_>],
    page: &mut NumberedTree<'_, '_>,
) -> Result<(), CallError>
    ensures answers { MatchResult result
        (λ _. (page.new ≡ with_marks page.old page.new.marks)
        × AreMarked (map list_of lists.now) page.new)
        (λ failure. failure ≡ Memory) }
    ensures kept { with_marks page.new [] ≡ with_marks page.old [] }
{
    Ok(page.mark(alloc, lists, usize::MAX)?)
}

/// Returns lists as an HTML document in this mode reads them.
fn html_lists<'s>(
    alloc: Global,
    mode: HtmlMode,
    lists: &'s [MarkedList<'_>],
) -> Result<Vec<MarkedList<'s>>, AllocError>
    ensures { IfOk result (λ read. map list_of read.items
        ≡ map (list_in mode) (map list_of lists.now)) }
{
    let mut read = Vec::with_capacity(alloc, lists.len())?;
    for list in lists {
        read.push(html_marked(alloc, mode, list)?)?;
    }
    Ok(read)
}

/// Gives lists their numbers on a page, as a document reads them.
fn mark_as(
    alloc: Global,
    lists: &[MarkedList<'_>],
    kind: DocumentKind,
    page: &mut NumberedTree<'_, '_>,
) -> Result<(), CallError>
    ensures answers { MatchResult result
        (λ _. IsMarkedPage kind (map list_of lists.now) page.old page.new)
        (λ failure. failure ≡ Memory) }
    ensures kept { with_marks page.new [] ≡ with_marks page.old [] }
{
    match kind {
        DocumentKind::AsWritten => mark_lists(alloc, lists, page),
        DocumentKind::Html(mode) => {
            let lists = html_lists(alloc, mode, lists)?;
            mark_lists(alloc, &lists, page)
        }
    }
}

/// Gives lists their numbers on a page, as a document reads them, if they need at most this
/// number of tests.
pub fn mark(
    alloc: Global,
    lists: &[MarkedList<'_>],
    kind: DocumentKind,
    page: &mut NumberedTree<'_, '_>,
    most: usize,
) -> Result<(), CallError>
    ensures answers { let all = map list_of lists.now in
        let tests = tests_on (length page.old.rows) all in
        MatchResult result (λ _. IsMarkedPage kind all page.old page.new × (tests ≤ most))
        (FailsLonger (most < tests)) }
    ensures kept { with_marks page.new [] ≡ with_marks page.old [] }
{
    check_tests(lists, page.len(), most)?;
    mark_as(alloc, lists, kind, page)
}
