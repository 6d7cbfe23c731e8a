//! The calls that allocate nothing, on a sheet and a page that were made before.

use cssq::cascade::winning;
use cssq::command::Command;
use cssq::runs::RunFault;
use cssq::tree::{Node, Page, TreeFault};
use log::sink::Discard;
use simplecss::stream::{Stream, is_name_char, is_name_start};
use simplecss::{
    AttributeOperator, DeclarationTokenizer, Element, Error, Keyed, PseudoClass, Rule,
    SelectorToken, SelectorTokenizer, StyleSheet, Tests, TextPos,
};
use std::alloc::Global;

/// The text of the sheet, from which tokens are read, too.
const SHEET: &str = "#a .b:first-child + [c] { d:e !important } a > b { d:f }";

/// The text of the page.
const PAGE: &str = "0\ta\tid=a\n1\tb\tclass=b\n1\tc\tc=\n";

/// A sheet and a page.
#[derive(Drop)]
pub(crate) struct Made<'t> {
    alloc: Global,
    sheet: StyleSheet<'t>,
    page: Page<'t>,
}

/// What the calls return.
#[derive(Clone, Copy, Debug)]
pub(crate) struct Answers {
    /// The number of steps of the cursor that are right.
    stream: usize,
    /// The numbers of tokens and errors, and of declarations, that are read.
    tokens: (usize, usize),
    /// How many tests of elements, of selectors and of rules are true.
    elements: usize,
    /// The number of rules that match elements, by both calls.
    matches: usize,
    /// How many winning declarations have the value `e`, and how many `f`.
    winners: (usize, usize),
    /// How many equalities are true.
    equalities: usize,
    /// Whether a new sheet has no rule.
    is_empty: bool,
    /// What tables return: the status and the numbers of faults, and whether words are a command.
    tables: (u8, u8, usize, bool),
}

/// Returns how many of the answers are true.
fn yes(answers: &[bool]) -> usize {
    answers.iter().filter(|answer| **answer).count()
}

/// Makes the calls that look at what is to be read next.
fn looks(text: &str) -> usize {
    let mut s = Stream::new(text);
    let first = [
        s.curr_byte() == Ok(b'a'),
        s.next_byte() == Ok(b'b'),
        !s.at_end(),
    ];
    let is_consumed = s.consume_byte(b'a').is_ok();
    s.try_consume_byte(b'b');
    let second = [
        is_consumed,
        s.pos() == 2,
        s.slice_tail().len() < text.len(),
        s.gen_text_pos() == TextPos::new(1, 3),
    ];
    yes(&first).saturating_add(yes(&second))
}

/// Makes the calls that read a piece.
fn pieces(text: &str) -> usize {
    let mut s = Stream::from(text);
    let is_named = s.consume_ident() == Ok("ab");
    s.skip_spaces();
    let is_comment = s.skip_comment().is_ok();
    let is_blank = s.skip_spaces_and_comments().is_ok();
    let is_string = s.consume_string() == Ok("c");
    let is_space = s.consume_bytes(|byte| byte == b' ').len() == 1;
    s.skip_bytes(|byte| byte == b'd');
    s.jump_to_end();
    yes(&[
        is_named,
        is_comment,
        is_blank,
        is_string,
        is_space,
        s.at_end(),
    ])
}

/// Makes the calls that have offsets as arguments.
fn offsets() -> usize {
    let mut s = Stream::new("abc");
    s.advance(2);
    yes(&[
        s.curr_byte_unchecked() == b'c',
        s.gen_text_pos_from(1) == TextPos::new(1, 2),
        s.slice_range(0, 1) == "a",
        s.slice_back(1) == "b",
        is_name_start('a'),
        is_name_char('-'),
    ])
}

/// Returns how many tests of an element and its relatives are true.
fn element_answers(node: &Node<'_, '_>) -> usize {
    yes(&[
        node.parent_element().is_some(),
        node.prev_sibling_element().is_some(),
        node.has_local_name("b"),
        node.attribute_matches("class", AttributeOperator::Contains("b")),
        node.pseudo_class_matches(PseudoClass::FirstChild),
        node.local_name() == "c",
        node.id_value() == Some("a"),
        node.class_value() == Some("b"),
    ])
}

/// Returns how many of two calls say that a rule matches an element.
fn match_count(rule: &Rule<'_>, node: &Node<'_, '_>) -> usize {
    let is_matched = rule.selector.matches(node);
    let is_counted = rule.selector.matches_counted(node, &mut Tests::new());
    yes(&[is_matched, is_counted])
}

/// Whether a declaration of the name `d` with this value wins on an element.
fn wins(sheet: &StyleSheet<'_>, node: &Node<'_, '_>, value: &str) -> bool {
    match winning(sheet, node, "d") {
        Some(declaration) => declaration.value == value,
        None => false,
    }
}

/// Returns how many values of a rule are equal to themselves, and have a specificity.
fn rule_equalities(rule: &Rule<'_>) -> usize {
    yes(&[
        *rule == *rule,
        rule.selector == rule.selector,
        rule.declarations == rule.declarations,
        rule.selector.key() == rule.selector.key(),
        rule.selector.specificity() > [0, 0, 0],
    ])
}

/// Returns how many values of errors, faults and words are equal.
fn other_equalities() -> usize {
    let pos = TextPos::new(1, 2);
    yes(&[
        pos == TextPos::new(1, 2),
        Error::InvalidIdent(pos) == Error::InvalidIdent(pos),
        TreeFault::NoEquals(1) == TreeFault::NoEquals(1),
        RunFault::Refused == RunFault::Refused,
        Command::Selector("a") == Command::Selector("a"),
        AttributeOperator::Exists == AttributeOperator::Exists,
        PseudoClass::Lang("a") == PseudoClass::Lang("a"),
        SelectorToken::TypeSelector("a") == SelectorToken::TypeSelector("a"),
        Stream::new("a") == Stream::new("a"),
    ])
}

impl<'t> Made<'t> {
    /// Reads the sheet and the page.
    pub(crate) fn new(alloc: Global) -> Result<Made<'t>, RunFault> {
        let page = match Page::read(alloc, PAGE) {
            Ok(page) => page,
            Err(fault) => return Err(RunFault::Tree(fault)),
        };
        match StyleSheet::parse(&Discard, alloc, SHEET) {
            Ok(sheet) => Ok(Made { alloc, sheet, page }),
            Err(_) => Err(RunFault::Memory),
        }
    }

    /// Returns the answers of the elements of the page: about themselves, to the rules, and what
    /// wins on them.
    fn page_answers(&self) -> (usize, usize, (usize, usize)) {
        let (mut elements, mut matches, mut e, mut f) = (0_usize, 0_usize, 0_usize, 0_usize);
        for index in 0..self.page.len() {
            let Some(node) = self.page.node(index) else {
                break;
            };
            elements = elements.saturating_add(element_answers(&node));
            for rule in &self.sheet.rules {
                matches = matches.saturating_add(match_count(rule, &node));
            }
            e = e.saturating_add(yes(&[wins(&self.sheet, &node, "e")]));
            f = f.saturating_add(yes(&[wins(&self.sheet, &node, "f")]));
        }
        (elements, matches, (e, f))
    }

    /// Returns how many values are equal.
    fn equalities(&self) -> usize {
        let mut equal = other_equalities();
        for rule in &self.sheet.rules {
            equal = equal.saturating_add(rule_equalities(rule));
        }
        equal
    }

    /// Makes all the calls.
    pub(crate) fn answers(&self) -> Answers {
        let text = "ab/**/ /**/'c' d";
        let (elements, matches, winners) = self.page_answers();
        let fault = TreeFault::RepeatedKey(7);
        Answers {
            stream: looks(text)
                .saturating_add(pieces(text))
                .saturating_add(offsets()),
            tokens: (
                SelectorTokenizer::from(SHEET).count(),
                DeclarationTokenizer::from("a:b; c:d").count(),
            ),
            elements,
            matches,
            winners,
            equalities: self.equalities(),
            is_empty: StyleSheet::new(self.alloc).rules.is_empty(),
            tables: (
                RunFault::Output.status(),
                fault.number(),
                fault.line(),
                Command::of(&[]).is_some(),
            ),
        }
    }
}
