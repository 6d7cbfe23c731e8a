//! The declarations of a property that apply to the elements of a page, as numbers.

ghost use Rattle.std.specs.Prelude.{◌≡◌, ◌<◌, ◌++◌, ◌^◌, ℕ, List, OnOk, MatchResult, None, Some, length, map};
ghost use Rattle.css_explain.specs.ExplainViews.{explained_of};
ghost use Rattle.css_sheet.specs.SheetRuleViews.{sheet_rule_of};
ghost use Rattle.css_tree.specs.Marks.{AreMarked};
ghost use Rattle.call_answers.specs.Calls.{FailsLonger};
ghost use Rattle.page_calls.specs.MarkedPages.{list_as};
ghost use Rattle.page_calls.specs.Readings.{selector_as};
ghost use Rattle.simplecss_calls.specs.ExplainNumbers.{AreExplained, AreExplainedBy, IsExplainedBy};
ghost use Rattle.simplecss_calls.specs.ExplainNumbers.{criterion_number as criterion_number_of, explained_line, explained_numbers};
ghost use Rattle.simplecss_calls.specs.WinnerNumbers.{selectors_read};
ghost use Rattle.simplecss_calls.specs.internal.Contents.{names_of_asked, own_of_asked};

use crate::contents::own_at;
use crate::tested::find_matching;
use crate::winners::source_number;
use call_answers::answer::{CallError, check_count};
use css_explain::{Criterion, Explained};
use css_selectors::Tests;
use css_sheet::SheetRule;
use css_styles::StyleRules;
use css_tree::{NumberedTree, TreeWalk};
use page_calls::modern::{DocumentKind, ElementRange, html_rule_selectors};
use std::alloc::{AllocError, Global};

/// Of so few elements each is asked about all rules: an index pays only for more.
const FEW: usize = 4;

/// Returns the number of a criterion, or 0 if there is none.
fn criterion_number(criterion: Option<Criterion>) -> usize
    ensures { result ≡ criterion_number_of criterion }
{
    match criterion {
        None => 0,
        Some(Criterion::OriginAndImportance) => 1,
        Some(Criterion::StyleAttribute) => 2,
        Some(Criterion::Layers) => 3,
        Some(Criterion::Specificity) => 4,
        Some(Criterion::Order) => 5,
    }
}

/// Appends the numbers of a declaration.
fn push_one(out: &mut Vec<usize>, rules: usize, one: &Explained<'_>) -> Result<(), AllocError>
    requires { rules < 2 ^ 63 }
    ensures { OnOk result (out.new.items ≡ out.old.items ++ explained_numbers rules (explained_of one.now)) }
{
    out.push(source_number(rules, one.winner.source))?;
    out.push(one.winner.place)?;
    out.push(criterion_number(one.lost_by))?;
    Ok(())
}

/// Appends how many declarations there are, and the numbers of each.
fn push_line(out: &mut Vec<usize>, rules: usize, all: &[Explained<'_>]) -> Result<(), AllocError>
    requires { rules < 2 ^ 63 }
    ensures { OnOk result (out.new.items ≡ out.old.items ++ explained_line rules (map explained_of all.now)) }
{
    out.push(all.len())?;
    let mut left = all;
    'all: while let [one, more @ ..] = left {
        push_one(out, rules, one)?;
        left = more;
    }
    Ok(())
}

/// What is asked of the elements: the declarations of the property of these names, with two texts for each element.
#[derive(Clone, Copy)]
struct ExplainAsked<'w, 't, 'n> {
    own: &'w [&'t str],
    names: &'w [&'n str],
}

/// Appends the numbers of the declarations that apply to the element at an index, by a walk. What was in `indices` is
/// dropped.
fn push_explained<'a>(
    out: &mut Vec<usize>,
    alloc: Global,
    walk: &mut TreeWalk<'_, '_, '_, '_>,
    rules: &[SheetRule<'a>],
    element: usize,
    asked: ExplainAsked<'_, 'a, '_>,
    indices: &mut Vec<usize>,
) -> Result<(), AllocError>
    requires element { element < length walk.old.page.rows }
    requires few { length rules.now < 2 ^ 63 }
    ensures written { OnOk result ((line : List ℕ)
        × IsExplainedBy (names_of_asked asked.entry) (own_of_asked asked.entry) walk.old.walk.selectors
        (map sheet_rule_of rules.now) walk.old.page element line
        × (out.new.items ≡ out.old.items ++ line)) }
    ensures page { walk.new.page ≡ walk.old.page }
    ensures selectors { walk.new.walk.selectors ≡ walk.old.walk.selectors }
{
    walk.matching(element, indices, &mut Tests::new())?;
    let own = own_at(asked.own, element);
    let all = css_explain::explain(alloc, rules, indices, own, asked.names)?;
    push_line(out, rules.len(), &all)
}

/// The same of each element of a range, within a limit.
fn explained_by<'a>(
    alloc: Global,
    walk: &mut TreeWalk<'_, '_, '_, '_>,
    rules: &[SheetRule<'a>],
    asked: ExplainAsked<'_, 'a, '_>,
    range: ElementRange,
    most: usize,
) -> Result<Vec<usize>, CallError>
    requires { length rules.now < 2 ^ 63 }
    ensures { let are = AreExplainedBy (names_of_asked asked.entry) (own_of_asked asked.entry) most range
        walk.old.walk.selectors (map sheet_rule_of rules.now) walk.old.page in
        MatchResult result (λ out. are (Some out.items)) (FailsLonger (are None)) }
{
    let mut indices = Vec::new(alloc);
    let mut out = Vec::new(alloc);
    let count = range
        .to
        .min(walk.element_count())
        .saturating_sub(range.from);
    for index in 0..count {
        push_explained(
            &mut out,
            alloc,
            walk,
            rules,
            range.from + index,
            asked,
            &mut indices,
        )?;
        check_count(&out, most)?;
    }
    Ok(out)
}

/// The numbers of the declarations of the property of these names that apply to each element of a range, by a walk.
fn explained_by_walk<'a>(
    alloc: Global,
    rules: &StyleRules<'a>,
    kind: DocumentKind,
    page: &NumberedTree<'_, '_>,
    own: &[&'a str],
    names: &[&str],
    range: ElementRange,
    most: usize,
) -> Result<Vec<usize>, CallError>
    requires { AreMarked (map (list_as kind) rules.now.lists) page.now }
    ensures { let are = AreExplained (map (λ name. name.now) names.now) (map (λ text. text.now) own.now) most range
        (selector_as kind) rules.now.rules page.now in
        MatchResult result (λ out. are (Some out.items)) (FailsLonger (are None)) }
{
    let asked = ExplainAsked { own, names };
    let all = rules.as_slice();
    match kind {
        DocumentKind::AsWritten => {
            let mut walk = rules.walk(alloc, page)?;
            explained_by(alloc, &mut walk, all, asked, range, most)
        }
        DocumentKind::Html(mode) => {
            let selectors = html_rule_selectors(alloc, mode, all)?;
            let mut walk = rules.walk_in_html(alloc, &selectors, page)?;
            explained_by(alloc, &mut walk, all, asked, range, most)
        }
    }
}

/// Appends the numbers of the declarations that apply to the element at an index, which is asked about all rules. What
/// was in `indices` is dropped.
fn push_tested<'a>(
    out: &mut Vec<usize>,
    alloc: Global,
    kind: DocumentKind,
    rules: &[SheetRule<'a>],
    page: &NumberedTree<'_, '_>,
    element: usize,
    asked: ExplainAsked<'_, 'a, '_>,
    indices: &mut Vec<usize>,
) -> Result<(), AllocError>
    requires element { element < length page.now.rows }
    requires few { length rules.now < 2 ^ 63 }
    ensures { OnOk result ((line : List ℕ)
        × IsExplainedBy (names_of_asked asked.entry) (own_of_asked asked.entry)
        (selectors_read (selector_as kind) (map sheet_rule_of rules.now)) (map sheet_rule_of rules.now) page.now
        element line
        × (out.new.items ≡ out.old.items ++ line)) }
{
    find_matching(alloc, kind, rules, page, element, indices)?;
    let own = own_at(asked.own, element);
    let all = css_explain::explain(alloc, rules, indices, own, asked.names)?;
    push_line(out, rules.len(), &all)
}

/// The same of each element of a range, within a limit, by asking each about all rules.
fn explained_in<'a>(
    alloc: Global,
    kind: DocumentKind,
    rules: &[SheetRule<'a>],
    page: &NumberedTree<'_, '_>,
    asked: ExplainAsked<'_, 'a, '_>,
    range: ElementRange,
    most: usize,
) -> Result<Vec<usize>, CallError>
    requires few { length rules.now < 2 ^ 63 }
    ensures { let are = AreExplained (names_of_asked asked.entry) (own_of_asked asked.entry) most range
        (selector_as kind) (map sheet_rule_of rules.now) page.now in
        MatchResult result (λ out. are (Some out.items)) (FailsLonger (are None)) }
{
    let mut indices = Vec::new(alloc);
    let mut out = Vec::new(alloc);
    let count = range.to.min(page.len()).saturating_sub(range.from);
    for index in 0..count {
        push_tested(
            &mut out,
            alloc,
            kind,
            rules,
            page,
            range.from + index,
            asked,
            &mut indices,
        )?;
        check_count(&out, most)?;
    }
    Ok(out)
}

/// The numbers of the declarations of the property of these names that apply to each element of a range, where a
/// document reads selectors in this way.
pub fn range_explained<'a>(
    alloc: Global,
    rules: &StyleRules<'a>,
    kind: DocumentKind,
    page: &NumberedTree<'_, '_>,
    own: &[&'a str],
    names: &[&str],
    range: ElementRange,
    most: usize,
) -> Result<Vec<usize>, CallError>
    requires { AreMarked (map (list_as kind) rules.now.lists) page.now }
    ensures { let are = AreExplained (map (λ name. name.now) names.now) (map (λ text. text.now) own.now) most range
        (selector_as kind) rules.now.rules page.now in
        MatchResult result (λ out. are (Some out.items)) (FailsLonger (are None)) }
{
    if range.to.saturating_sub(range.from) > FEW {
        return explained_by_walk(alloc, rules, kind, page, own, names, range, most);
    }
    let asked = ExplainAsked { own, names };
    explained_in(alloc, kind, rules.as_slice(), page, asked, range, most)
}
