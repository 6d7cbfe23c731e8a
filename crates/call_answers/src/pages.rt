//! What is written of the elements of a tree, a line for each.

ghost use Rattle.std.specs.Prelude.{◌≡◌, ◌+◌, ◌^◌, ◌<◌, ◌++◌, All, OnOk, MatchResult, List, ℕ, None, Some};
ghost use Rattle.std.specs.Prelude.{length, map, string_bytes};
ghost use Rattle.simplecss.specs.ListTrees.{spot};
ghost use Rattle.simplecss.specs.Matching.{AreMatches};
ghost use Rattle.simplecss.specs.RuleViews.{rules_of};
ghost use Rattle.call_answers.specs.AnswerLines.{selected_line, indices_line, IsLineOf, AreLinesOf};
ghost use Rattle.call_answers.specs.AnswerLines.{IsWonLine, AreWonLines};
ghost use Rattle.call_answers.specs.Calls.{FailsLonger};
ghost use Rattle.css_elements.specs.Rows.{Row};
ghost use Rattle.simplecss_tree.specs.TreeNodes.{element_tree};
ghost use Rattle.simplecss_tree.specs.Walks.{IsAlong};

use crate::answer::{CallError, check_length};
use crate::port_texts::push_counted;
use cssq::cascade::{winners_among, winning_among};
use cssq::runs::{push_numbers, push_winner};
use simplecss::{HasSelector, Rule, Tests};
use simplecss_tree::{Node, RuleWalk, Tree};
use std::alloc::{AllocError, Global};
use std::fmt::Write as _;

/// What is written of an element that some rules match.
#[derive(Clone, Copy)]
pub enum LineContent {
    /// The element's number, and the numbers of the rules.
    Numbers,
    /// The element's number, if there is a rule.
    Selected,
}

/// What is written of the declarations that win on an element.
#[derive(Clone, Copy)]
pub enum WonContent<'n> {
    /// The element's number, and the declaration of this name.
    Named(&'n str),
    /// All, each text after its length.
    All,
}

/// Appends an element's number, if there is an index.
fn push_selected(out: &mut String, number: usize, indices: &[usize]) -> Result<(), AllocError>
    ensures { OnOk result
        (string_bytes out.new ≡ string_bytes out.old ++ selected_line number indices.now) }
{
    if indices.is_empty() {
        return Ok(());
    }
    writeln!(out, "{number}")
}

/// Appends what is written of an element of this number that the selectors with these indices match.
pub fn push_indices(
    out: &mut String,
    content: LineContent,
    number: usize,
    indices: &[usize],
) -> Result<(), AllocError>
    requires { All (λ index. index + 1 < 2 ^ 64) indices.now }
    ensures { OnOk result (string_bytes out.new
        ≡ string_bytes out.old ++ indices_line content number indices.now) }
{
    match content {
        LineContent::Numbers => push_numbers(out, number, indices),
        LineContent::Selected => push_selected(out, number, indices),
    }
}

/// Appends the line of an element, which is given by its index, by a walk. What was in `indices` is
/// dropped.
fn push_line<'a, T: HasSelector<'a>>(
    out: &mut String,
    content: LineContent,
    walk: &mut RuleWalk<'a>,
    rules: &[T],
    tree: &Tree<'_>,
    element: usize,
    indices: &mut Vec<usize>,
) -> Result<(), AllocError>
    requires rules { walk.old.selectors ≡ map T.selector_in rules.now }
    requires fits { length rules.now < 2 ^ 63 }
    requires element { element < length tree.now }
    requires number { element + 1 < 2 ^ 64 }
    requires along { IsAlong tree.now walk.old }
    ensures written { OnOk result ((line : List ℕ) × IsLineOf content
        (map T.selector_in rules.now) tree.now element line
        × (string_bytes out.new ≡ string_bytes out.old ++ line)) }
    ensures along { OnOk result (IsAlong tree.now walk.new) }
    ensures selectors { walk.new.selectors ≡ walk.old.selectors }
{
    walk.matching(rules, tree, element, indices, &mut Tests::new())?;
    push_indices(out, content, element + 1, indices.as_slice())
}

/// The lines of the elements of a tree, by which rules or selectors match each, in at most this number
/// of bytes.
pub fn lines<'a, T: HasSelector<'a>>(
    alloc: Global,
    content: LineContent,
    rules: &[T],
    tree: &Tree<'_>,
    most: usize,
) -> Result<String, CallError>
    requires { length rules.now < 2 ^ 63 }
    ensures { MatchResult result
        (λ text. AreLinesOf most content (map T.selector_in rules.now) tree.now
        (Some (string_bytes text)))
        (FailsLonger (AreLinesOf most content (map T.selector_in rules.now) tree.now None)) }
{
    let mut walk = RuleWalk::new(alloc, rules)?;
    let mut indices = Vec::new(alloc);
    let mut text = String::new(alloc);
    for element in 0..tree.len() {
        push_line(
            &mut text,
            content,
            &mut walk,
            rules,
            tree,
            element,
            &mut indices,
        )?;
        check_length(&text, most)?;
    }
    Ok(text)
}

/// Appends what is written of the declarations that win on an element of this number, by the indices of the
/// rules that match it.
fn push_among(
    out: &mut String,
    alloc: Global,
    content: WonContent<'_>,
    number: usize,
    rules: &[Rule<'_>],
    indices: &[usize],
) -> Result<(), AllocError>
    requires { All (λ index. index < length rules.now) indices.now }
    ensures { (tree : List Row) (element : ℕ) → number ≡ element + 1
        → AreMatches element_tree (spot tree element) (map (λ rule. rule.selector) rules.now)
        indices.now
        → OnOk result ((line : List ℕ) × IsWonLine content.entry (rules_of rules.now) tree element line
        × (string_bytes out.new ≡ string_bytes out.old ++ line)) }
{
    match content {
        WonContent::Named(name) => {
            let winner = winning_among::<Node<'_, '_>>(rules, indices, name);
            push_winner(out, number, winner)
        }
        WonContent::All => {
            let winners = winners_among::<Node<'_, '_>>(alloc, rules, indices)?;
            push_counted(out, &winners)
        }
    }
}

/// Appends what is written of an element, which is given by its index, by a walk. What was in `indices` is
/// dropped.
fn push_won<'a>(
    out: &mut String,
    alloc: Global,
    content: WonContent<'_>,
    walk: &mut RuleWalk<'a>,
    rules: &[Rule<'a>],
    tree: &Tree<'_>,
    element: usize,
    indices: &mut Vec<usize>,
) -> Result<(), AllocError>
    requires rules { walk.old.selectors ≡ map (λ rule. rule.selector) rules.now }
    requires element { element < length tree.now }
    requires number { element + 1 < 2 ^ 64 }
    requires along { IsAlong tree.now walk.old }
    ensures written { OnOk result
        ((line : List ℕ) × IsWonLine content.entry (rules_of rules.now) tree.now element line
        × (string_bytes out.new ≡ string_bytes out.old ++ line)) }
    ensures along { OnOk result (IsAlong tree.now walk.new) }
    ensures selectors { walk.new.selectors ≡ walk.old.selectors }
{
    walk.matching(rules, tree, element, indices, &mut Tests::new())?;
    push_among(out, alloc, content, element + 1, rules, indices.as_slice())
}

/// What is written of what wins on each element of a tree, in at most this number of bytes.
pub fn won_lines(
    alloc: Global,
    content: WonContent<'_>,
    rules: &[Rule<'_>],
    tree: &Tree<'_>,
    most: usize,
) -> Result<String, CallError>
    ensures { MatchResult result
        (λ text. AreWonLines most content.entry (rules_of rules.now) tree.now
        (Some (string_bytes text)))
        (FailsLonger (AreWonLines most content.entry (rules_of rules.now) tree.now None)) }
{
    let mut walk = RuleWalk::new(alloc, rules)?;
    let mut indices = Vec::new(alloc);
    let mut text = String::new(alloc);
    for element in 0..tree.len() {
        push_won(
            &mut text,
            alloc,
            content,
            &mut walk,
            rules,
            tree,
            element,
            &mut indices,
        )?;
        check_length(&text, most)?;
    }
    Ok(text)
}
