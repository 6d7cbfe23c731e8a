//! What is read of a tree and counted of it, and questions on it.

ghost use Rattle.std.specs.Prelude.{◌≡◌, MatchResult, Some};
ghost use Rattle.css_tree.specs.TreeNumbers.{AreNumbersOf, page_by};
ghost use Rattle.call_answers.specs.Calls.{passed_of};
ghost use Rattle.call_answers.specs.Outcomes.{numbers_outcome};
ghost use Rattle.kept_pages.specs.Pages.{IsNoPage, IsPageOf, IsSelectedOn, question_of, scope_of as scope_of_number};
ghost use Rattle.kept_pages.specs.ReadPages.{page_text};
ghost use Rattle.kept_pages.specs.Sources.{page_source};

use call_answers::answer::CallError;
use call_answers::elements::{PassedTree, ReadTree, read_named_tree};
use css_tree::TreeNumbers;
use page_calls::modern::{DocumentKind, ElementRange, page_of, select_range};
use page_calls::tree_names::names_in;
use std::alloc::Global;
use std::marker::Model;
use std::mem::replace;

/// A tree that was read, which borrows what was passed of it, and what was counted of it.
#[derive(Drop)]
pub struct ReadPage<'a> {
    /// How its document reads the names of selectors.
    kind: DocumentKind,
    /// The tree.
    read: ReadTree<'a>,
    /// What was counted of it.
    numbers: Option<TreeNumbers<'a>>,
}

impl<'a> Model for ReadPage<'a> {
    ghost use Rattle.kept_pages.specs.Pages.{PageText};
    ghost use Rattle.kept_pages.specs.ReadPages.{AreCounted, page_text};

    ghost Value = { PageText };

    ghost view = { λ p. page_text p.kind p.read p.numbers };

    ghost invariant = { λ p. AreCounted p.read.rows p.numbers };
}

/// Which elements of a page a list of selectors is asked for.
#[derive(Clone, Copy, Debug)]
pub struct Selection<'q> {
    /// The text of the list.
    pub selectors: &'q [u8],
    /// The number, from 1, of the element that `:scope` matches, or 0: then it matches the root.
    pub scope: usize,
    /// The elements that are asked for.
    pub range: ElementRange,
    /// How many numbers there may be at most, and how many tests that take a pass of the page.
    pub most: usize,
}

/// The index of the element of a number, if it is that of one.
fn scope_of(number: usize) -> Option<usize>
    ensures { result ≡ scope_of_number number }
{
    number.checked_sub(1)
}

/// The numbers of the elements of a range that a list of selectors matches, on a tree with what was counted of it, which
/// is handed back.
fn select_on<'a>(
    alloc: Global,
    kind: DocumentKind,
    read: &ReadTree<'a>,
    numbers: TreeNumbers<'a>,
    asked: Selection<'_>,
) -> (TreeNumbers<'a>, Result<Vec<usize>, CallError>)
    requires { AreNumbersOf read.now.rows numbers }
    ensures counted { AreNumbersOf read.now.rows result.0 }
    ensures kept { page_by read.now.rows result.0 ≡ page_by read.now.rows numbers.entry }
    ensures answer { IsSelectedOn (question_of asked.entry) (page_text kind read.now (Some numbers.entry))
        (numbers_outcome result.1) }
{
    let mut page = numbers.on(alloc, &read.rows);
    page.set_scope(scope_of(asked.scope));
    let outcome = select_range(
        alloc,
        kind,
        &names_in(read),
        &mut page,
        asked.selectors,
        asked.range,
        asked.most,
    );
    (page.into_numbers(), outcome)
}

impl<'a> ReadPage<'a> {
    /// Reads a tree that is passed, and counts it.
    pub fn new(
        alloc: Global,
        kind: DocumentKind,
        tree: PassedTree<'a>,
    ) -> Result<ReadPage<'a>, CallError>
        ensures { let source = page_source kind (passed_of tree.entry) in
            MatchResult result (IsPageOf source) (IsNoPage source) }
    {
        let read = read_named_tree(alloc, tree)?;
        let numbers = page_of(alloc, kind, &read, tree.elements)?.into_numbers();
        Ok(ReadPage {
            kind,
            read,
            numbers: Some(numbers),
        })
    }

    /// The numbers of the elements of a range that a list of selectors matches.
    pub fn select(&mut self, alloc: Global, asked: Selection<'_>) -> Result<Vec<usize>, CallError>
        ensures kept { self.new ≡ self.old }
        ensures answer { IsSelectedOn (question_of asked.entry) self.old (numbers_outcome result) }
    {
        let kind = self.kind;
        let Some(numbers) = replace(&mut self.numbers, None) else {
            unreachable!()
        };
        let (numbers, outcome) = select_on(alloc, kind, &self.read, numbers, asked);
        self.numbers = Some(numbers);
        outcome
    }
}
