//! The calls of the port: CSS 2.1, as the Rust crate reads it.

ghost use Rattle.std.specs.Prelude.{◌≡◌, ◌<◌, map, MatchResult, string_bytes, None, Some};
ghost use Rattle.simplecss.specs.DeclarationCounts.{kept_in_all};
ghost use Rattle.simplecss.specs.ThisEdition.{this_edition};
ghost use Rattle.simplecss.specs.RuleViews.{rules_in};
ghost use Rattle.cssq.specs.SelectorRuns.{selector_in};
ghost use Rattle.call_answers.specs.Outcomes.{outcome_of};
ghost use Rattle.call_answers.specs.AnswerLines.{AreMatchLines};
ghost use Rattle.call_answers.specs.Calls.{FailsWithin, FailsLonger, IsReadWithin};
ghost use Rattle.call_answers.specs.Calls.{IsSheetCall, IsPrinted, IsMatchCall};
ghost use Rattle.call_answers.specs.Calls.{IsPortMatchSelectorsCall, AreSelectorsIn, HasNoSelector, FailsFor};
ghost use Rattle.call_answers.specs.Calls.{FailsOnPage, IsReadPage, IsPortSelectCall, passed_of};
ghost use Rattle.call_answers.specs.Calls.{AreRuleTexts, IsSkippedCall, IsPortRefusalCall, IsStylesCall};
ghost use Rattle.port_calls.specs.PortCalls.{IsPortCall, question_of as question_of_number};

use crate::lists;
use crate::lists::selectors_of;
use call_answers::answer::CallError;
use call_answers::elements::{PassedTree, read_tree};
use call_answers::pages::{LineContent, WonContent, lines, won_lines};
use call_answers::port_texts::{rule_texts, skipped_texts};
use call_answers::texts::{text_of, texts_of};
use cssq::runs::sheet_text;
use log::sink::Discard;
use simplecss::{Reading, Selector, Silent, StyleSheet, find_skipped};
use simplecss_tree::Tree;
use std::alloc::Global;

/// The style sheet of texts, whose rules may hold at most this number of declarations.
fn read_sheet<'a>(
    alloc: Global,
    texts: &[&'a str],
    limit: usize,
) -> Result<StyleSheet<'a>, CallError>
    ensures { MatchResult result (λ read. IsReadWithin limit (map (λ text. text.now) texts.now)
        (rules_in read)) (λ failure. FailsWithin ⊥ (λ fault. ⊥) ⊥
        (limit < kept_in_all this_edition (map (λ text. text.now) texts.now)) ⊥ failure) }
{
    let mut sheet = StyleSheet::new(alloc);
    let how = Reading {
        report: &mut Silent,
        most: limit,
    };
    sheet.read(how, alloc, texts)?;
    Ok(sheet)
}

/// The printed sheet.
fn sheet(alloc: Global, buffer: &[u8], ends: &[usize], limit: usize) -> Result<String, CallError>
    ensures { IsSheetCall IsPrinted buffer.now ends.now limit (outcome_of result) }
{
    let texts = texts_of(alloc, buffer, ends)?;
    let sheet = read_sheet(alloc, &texts, limit)?;
    let text = sheet_text(alloc, &sheet)?;
    Ok(text)
}

/// What is written of the rules of a sheet.
fn rules(alloc: Global, buffer: &[u8], ends: &[usize], limit: usize) -> Result<String, CallError>
    ensures { IsSheetCall AreRuleTexts buffer.now ends.now limit (outcome_of result) }
{
    let texts = texts_of(alloc, buffer, ends)?;
    let sheet = read_sheet(alloc, &texts, limit)?;
    Ok(rule_texts(alloc, &sheet.rules)?)
}

/// What is written of the pieces of a style sheet's text that are skipped.
fn skipped(alloc: Global, text: &[u8]) -> Result<String, CallError>
    ensures { IsSkippedCall text.now (outcome_of result) }
{
    let text = text_of(text)?;
    let skipped = find_skipped(alloc, text)?;
    Ok(skipped_texts(alloc, text, &skipped)?)
}

/// Where a text is no list of selectors, and why, or nothing where it is one.
pub fn refusal(alloc: Global, text: &[u8]) -> Result<String, CallError>
    ensures { IsPortRefusalCall text.now (outcome_of result) }
{
    lists::refusal(alloc, text_of(text)?)
}

/// The numbers of the elements of a tree that one of the selectors of a list matches.
fn select(
    alloc: Global,
    text: &[u8],
    tree: PassedTree<'_>,
    most: usize,
) -> Result<String, CallError>
    ensures { IsPortSelectCall most text.now (passed_of tree.entry) (outcome_of result) }
{
    let text = text_of(text)?;
    let selectors = selectors_of(alloc, text)?;
    let tree = read_tree(alloc, tree)?;
    lines(alloc, LineContent::Selected, &selectors, &tree, most)
}

/// The style sheet of texts, whose rules may hold at most this number of declarations, and a tree.
fn read_page<'a>(
    alloc: Global,
    buffer: &'a [u8],
    ends: &[usize],
    limit: usize,
    tree: PassedTree<'a>,
) -> Result<(StyleSheet<'a>, Tree<'a>), CallError>
    ensures { MatchResult result (λ page. IsReadPage buffer.now ends.now limit (passed_of tree.entry)
        (rules_in page.0) page.1)
        (FailsOnPage buffer.now ends.now limit (passed_of tree.entry) ⊥) }
{
    let texts = texts_of(alloc, buffer, ends)?;
    let tree = read_tree(alloc, tree)?;
    let sheet = read_sheet(alloc, &texts, limit)?;
    Ok((sheet, tree))
}

/// What is written of all that wins on each element of a tree.
fn styles(
    alloc: Global,
    buffer: &[u8],
    ends: &[usize],
    limit: usize,
    tree: PassedTree<'_>,
    most: usize,
) -> Result<String, CallError>
    ensures { IsStylesCall most buffer.now ends.now limit (passed_of tree.entry) (outcome_of result) }
{
    let (sheet, tree) = read_page(alloc, buffer, ends, limit, tree)?;
    won_lines(alloc, WonContent::All, &sheet.rules, &tree, most)
}

/// The numbers of the rules of a sheet that match each element of a tree.
fn match_lines(
    alloc: Global,
    sheet: &StyleSheet<'_>,
    tree: &Tree<'_>,
    most: usize,
) -> Result<String, CallError>
    ensures { MatchResult result
        (λ text. AreMatchLines most (rules_in sheet.now) tree.now (Some (string_bytes text)))
        (FailsLonger (AreMatchLines most (rules_in sheet.now) tree.now None)) }
{
    lines(alloc, LineContent::Numbers, &sheet.rules, tree, most)
}

/// The numbers of the rules that match each element of a tree.
fn matches(
    alloc: Global,
    buffer: &[u8],
    ends: &[usize],
    limit: usize,
    tree: PassedTree<'_>,
    most: usize,
) -> Result<String, CallError>
    ensures { IsMatchCall most buffer.now ends.now limit (passed_of tree.entry) (outcome_of result) }
{
    let (sheet, tree) = read_page(alloc, buffer, ends, limit, tree)?;
    match_lines(alloc, &sheet, &tree, most)
}

/// The selectors of texts, or the refusal.
fn read_selectors<'a>(alloc: Global, texts: &[&'a str]) -> Result<Vec<Selector<'a>>, CallError>
    ensures { MatchResult result
        (λ selectors. AreSelectorsIn selector_in (map (λ text. text.now) texts.now) selectors.items)
        (λ failure. FailsFor (HasNoSelector selector_in (map (λ text. text.now) texts.now)) (λ fault. ⊥) ⊥
        failure) }
{
    let mut selectors = Vec::new(alloc);
    for text in texts {
        let Some(selector) = Selector::parse(&Discard, alloc, text)? else {
            return Err(CallError::Refused);
        };
        selectors.push(selector)?;
    }
    Ok(selectors)
}

/// The numbers of the selectors that match each element of a tree.
pub fn match_selectors(
    alloc: Global,
    buffer: &[u8],
    ends: &[usize],
    tree: PassedTree<'_>,
    most: usize,
) -> Result<String, CallError>
    ensures { IsPortMatchSelectorsCall most buffer.now ends.now (passed_of tree.entry) (outcome_of result) }
{
    let texts = texts_of(alloc, buffer, ends)?;
    let selectors = read_selectors(alloc, &texts)?;
    let tree = read_tree(alloc, tree)?;
    lines(alloc, LineContent::Numbers, &selectors, &tree, most)
}

/// What is asked of texts, and of a tree beside them.
#[derive(Clone, Copy, Debug, PartialEq)]
pub enum PortQuestion {
    /// The printed sheet.
    Sheet,
    /// The rules of the sheet.
    Rules,
    /// What is skipped of the buffer, which is one text.
    Skipped,
    /// The rules that match each element.
    Matches,
    /// What wins on each element.
    Styles,
    /// The elements that the list of selectors matches which the buffer is.
    Selected,
}

/// What is asked by a number.
fn question_of(asked: usize) -> Option<PortQuestion>
    ensures { result ≡ question_of_number asked }
{
    match asked {
        0 => Some(PortQuestion::Sheet),
        1 => Some(PortQuestion::Rules),
        2 => Some(PortQuestion::Skipped),
        3 => Some(PortQuestion::Matches),
        4 => Some(PortQuestion::Styles),
        5 => Some(PortQuestion::Selected),
        _ => None,
    }
}

/// What is asked by a number of texts, and of a tree beside them. Another number is refused.
pub fn ask(
    alloc: Global,
    buffer: &[u8],
    ends: &[usize],
    limit: usize,
    asked: usize,
    tree: PassedTree<'_>,
    most: usize,
) -> Result<String, CallError>
    ensures { IsPortCall (question_of_number asked) most buffer.now ends.now limit (passed_of tree.entry)
        (outcome_of result) }
{
    match question_of(asked) {
        Some(PortQuestion::Sheet) => sheet(alloc, buffer, ends, limit),
        Some(PortQuestion::Rules) => rules(alloc, buffer, ends, limit),
        Some(PortQuestion::Skipped) => skipped(alloc, buffer),
        Some(PortQuestion::Matches) => matches(alloc, buffer, ends, limit, tree, most),
        Some(PortQuestion::Styles) => styles(alloc, buffer, ends, limit, tree, most),
        Some(PortQuestion::Selected) => select(alloc, buffer, tree, most),
        None => Err(CallError::Refused),
    }
}
