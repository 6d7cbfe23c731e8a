//! What each call answers.

ghost use Rattle.std.specs.Prelude.{◌≡◌, None, Err, MatchResult};
ghost use Rattle.call_answers.specs.Answers.{IsFaultSet, status_of};
ghost use Rattle.call_answers.specs.Calls.{passed_of};
ghost use Rattle.kept_pages.specs.PageCalls.{AnswersOfPage, IsMade};
ghost use Rattle.kept_pages.specs.Pages.{IsNoPage, question_of};
ghost use Rattle.kept_pages.specs.Sources.{page_source};

use crate::handle::PageHandle;
use crate::page::KeptPage;
use crate::read_page::Selection;
use call_answers::answer::{CallError, TreeFault, hand_over_numbers};
use call_answers::elements::PassedTree;
use page_calls::modern::DocumentKind;
use std::alloc::Global;

/// The status of a call that is done.
const DONE: u32 = 0;
/// The status of a tree by no grammar.
const REFUSED: u32 = 1;
/// The status of a question to a handle that has no page.
const CLOSED: u32 = 8;

/// The page of a tree, on the heap, or why there is none.
fn keep(alloc: Global, kind: DocumentKind, tree: PassedTree<'_>) -> Result<Box<KeptPage>, CallError>
    ensures { let source = page_source kind (passed_of tree.entry) in
        MatchResult result (λ whole. whole.value ≡ source) (IsNoPage source) }
{
    let page = KeptPage::new(alloc, kind, tree)?;
    Ok(Box::new(alloc, page)?)
}

/// The status of a call that fails, whose fault of a tree is set, if that is why.
fn failed(failure: CallError, fault: &mut TreeFault) -> u32
    ensures status { result ≡ status_of failure }
    ensures faulty { IsFaultSet (Err failure) fault.old fault.new }
{
    if let CallError::Tree(found) = failure {
        fault.fault = found.number();
        fault.element = found.element();
    }
    failure.status()
}

/// Keeps a copy of a tree, which is read and counted. What the handle had before is let go.
pub fn page_new(
    alloc: Global,
    tree: PassedTree<'_>,
    kind: Option<DocumentKind>,
    out: &mut PageHandle,
    fault: &mut TreeFault,
) -> u32
    ensures { IsMade kind (passed_of tree.entry) result out.new.value fault.old fault.new }
{
    *out = PageHandle::none(alloc);
    let Some(kind) = kind else {
        return REFUSED;
    };
    match keep(alloc, kind, tree) {
        Ok(whole) => {
            *out = PageHandle::of(whole);
            DONE
        }
        Err(failure) => failed(failure, fault),
    }
}

/// Hands over the numbers of the elements of a range that a list of selectors matches.
pub fn page_select(
    alloc: Global,
    page: &mut PageHandle,
    asked: Selection<'_>,
    out: &mut [usize],
    len: &mut usize,
) -> u32
    ensures answer { AnswersOfPage (question_of asked.entry) page.old.value result out.old out.new len.new }
    ensures kept { page.new.value ≡ page.old.value }
{
    match page.select(alloc, asked) {
        Some(outcome) => hand_over_numbers(outcome, out, len),
        None => {
            *len = 0;
            CLOSED
        }
    }
}

/// Lets a page go, where the handle has one.
pub fn page_free(alloc: Global, page: &mut PageHandle)
    ensures { page.new.value ≡ None }
{
    *page = PageHandle::none(alloc);
}
