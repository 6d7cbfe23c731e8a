//! The numbers of the elements of a range of a page: what wins on each, which rules match it, or what applies.

ghost use Rattle.std.specs.Prelude.{◌≡◌, [], None, Some, MatchResult, map};
ghost use Rattle.css_tree.specs.Marks.{AreMarked, with_marks};
ghost use Rattle.call_answers.specs.Calls.{FailsLonger};
ghost use Rattle.page_calls.specs.MarkedPages.{AreOnMarked, list_as};
ghost use Rattle.call_answers.specs.Outcomes.{numbers_outcome};
ghost use Rattle.page_calls.specs.Readings.{selector_as};
ghost use Rattle.simplecss_calls.specs.internal.Contents.{content_of};
ghost use Rattle.simplecss_calls.specs.Asked.{AreNumbers, IsAskedOf};

use crate::contents::{Content, ElementContent, read_content};
use crate::explained::range_explained;
use crate::matches::range_matches;
use crate::winners::range_winners;
use call_answers::answer::CallError;
use css_styles::StyleRules;
use css_tree::NumberedTree;
use page_calls::marks::mark;
use page_calls::modern::{DocumentKind, ElementRange};
use std::alloc::Global;

/// The numbers of each element of a range, where a document reads selectors in this way, and the lists that they ask.
fn range_numbers<'a>(
    alloc: Global,
    content: &Content<'_>,
    rules: &StyleRules<'a>,
    own: &[&'a str],
    kind: DocumentKind,
    page: &NumberedTree<'_, '_>,
    range: ElementRange,
    most: usize,
) -> Result<Vec<usize>, CallError>
    requires { AreMarked (map (list_as kind) rules.now.lists) page.now }
    ensures { let are = AreNumbers (content_of content.now) (map (λ text. text.now) own.now) most range
        (selector_as kind) rules.now.rules page.now in
        MatchResult result (λ out. are (Some out.items)) (FailsLonger (are None)) }
{
    match content {
        Content::Won(asked) => {
            range_winners(alloc, rules, kind, page, own, asked.as_ref(), range, most)
        }
        Content::Matched => range_matches(alloc, rules, kind, page, range, most),
        Content::Explained(names) => {
            range_explained(alloc, rules, kind, page, own, names, range, most)
        }
    }
}

/// The numbers of each element of a range, after the lists that selectors ask by numbers are answered on the page.
fn marked_numbers<'a>(
    alloc: Global,
    content: &Content<'_>,
    rules: &StyleRules<'a>,
    own: &[&'a str],
    kind: DocumentKind,
    page: &mut NumberedTree<'_, '_>,
    range: ElementRange,
    most: usize,
) -> Result<Vec<usize>, CallError>
    ensures answer { let are = AreOnMarked most kind rules.now.lists page.old
        (AreNumbers (content_of content.now) (map (λ text. text.now) own.now) most range (selector_as kind)
        rules.now.rules) in
        MatchResult result (λ out. are (Some out.items)) (FailsLonger (are None)) }
    ensures kept { with_marks page.new [] ≡ with_marks page.old [] }
{
    mark(alloc, rules.lists(), kind, page, most)?;
    range_numbers(alloc, content, rules, own, kind, page, range, most)
}

/// The numbers of what is asked of each element of a range of a page. Of the page only the marks change.
pub fn asked_numbers<'a>(
    alloc: Global,
    asked: ElementContent<'_>,
    rules: &StyleRules<'a>,
    own: &[&'a str],
    kind: DocumentKind,
    page: &mut NumberedTree<'_, '_>,
    range: ElementRange,
    most: usize,
) -> Result<Vec<usize>, CallError>
    ensures answer { IsAskedOf asked.entry most range kind rules.now.rules rules.now.lists
        (map (λ text. text.now) own.now) page.old (numbers_outcome result) }
    ensures kept { with_marks page.new [] ≡ with_marks page.old [] }
{
    let content = read_content(alloc, asked)?;
    marked_numbers(alloc, &content, rules, own, kind, page, range, most)
}
