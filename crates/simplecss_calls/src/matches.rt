//! Which rules match the elements of a page, as numbers.

ghost use Rattle.std.specs.Prelude.{◌≡◌, ◌<◌, ◌++◌, OnOk, MatchResult, ℕ, List, None, Some, length, map};
ghost use Rattle.css_tree.specs.Marks.{AreMarked};
ghost use Rattle.call_answers.specs.Calls.{FailsLonger};
ghost use Rattle.page_calls.specs.MarkedPages.{list_as};
ghost use Rattle.page_calls.specs.Readings.{selector_as};
ghost use Rattle.simplecss_calls.specs.WinnerNumbers.{AreMatched, AreMatchedBy, IsMatchedBy};

use call_answers::answer::{CallError, check_count};
use css_selectors::Tests;
use css_styles::StyleRules;
use css_tree::{NumberedTree, TreeWalk};
use page_calls::modern::{DocumentKind, ElementRange, html_rule_selectors};
use std::alloc::{AllocError, Global};

/// Appends how many rules match the element at an index, and the index of each, by a walk. What was in
/// `indices` is dropped.
fn push_matched(
    out: &mut Vec<usize>,
    walk: &mut TreeWalk<'_, '_, '_, '_>,
    element: usize,
    indices: &mut Vec<usize>,
) -> Result<(), AllocError>
    requires { element < length walk.old.page.rows }
    ensures written { OnOk result ((line : List ℕ)
        × IsMatchedBy walk.old.walk.selectors walk.old.page element line
        × (out.new.items ≡ out.old.items ++ line)) }
    ensures page { walk.new.page ≡ walk.old.page }
    ensures selectors { walk.new.walk.selectors ≡ walk.old.walk.selectors }
{
    walk.matching(element, indices, &mut Tests::new())?;
    out.push(indices.len())?;
    out.extend_from_slice(indices)?;
    Ok(())
}

/// The numbers of the rules that match each element of a range, by a walk, within a limit.
fn matched_by(
    alloc: Global,
    walk: &mut TreeWalk<'_, '_, '_, '_>,
    range: ElementRange,
    most: usize,
) -> Result<Vec<usize>, CallError>
    ensures { let are = AreMatchedBy most range walk.old.walk.selectors walk.old.page in
        MatchResult result (λ out. are (Some out.items)) (FailsLonger (are None)) }
{
    let mut indices = Vec::new(alloc);
    let mut out = Vec::new(alloc);
    let count = range
        .to
        .min(walk.element_count())
        .saturating_sub(range.from);
    for index in 0..count {
        push_matched(&mut out, walk, range.from + index, &mut indices)?;
        check_count(&out, most)?;
    }
    Ok(out)
}

/// The numbers of the rules that match each element of a range, where a document reads selectors in this way.
pub fn range_matches(
    alloc: Global,
    rules: &StyleRules<'_>,
    kind: DocumentKind,
    page: &NumberedTree<'_, '_>,
    range: ElementRange,
    most: usize,
) -> Result<Vec<usize>, CallError>
    requires { AreMarked (map (list_as kind) rules.now.lists) page.now }
    ensures { let are = AreMatched most range (selector_as kind) rules.now.rules page.now in
        MatchResult result (λ out. are (Some out.items)) (FailsLonger (are None)) }
{
    match kind {
        DocumentKind::AsWritten => {
            let mut walk = rules.walk(alloc, page)?;
            matched_by(alloc, &mut walk, range, most)
        }
        DocumentKind::Html(mode) => {
            let selectors = html_rule_selectors(alloc, mode, rules.as_slice())?;
            let mut walk = rules.walk_in_html(alloc, &selectors, page)?;
            matched_by(alloc, &mut walk, range, most)
        }
    }
}
