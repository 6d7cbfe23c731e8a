//! What is read of a page and of style sheets, and questions on both.

ghost use Rattle.std.specs.Prelude.{◌≡◌, MatchResult, Some, map};
ghost use Rattle.css_tree.specs.TreeNumbers.{AreNumbersOf, page_by};
ghost use Rattle.call_answers.specs.Outcomes.{numbers_outcome, outcome_of};
ghost use Rattle.simplecss_calls.specs.Asked.{IsAskedOf};
ghost use Rattle.simplecss_calls.specs.RuleTexts.{AreRuleTexts};
ghost use Rattle.kept_queries.specs.Queries.{AreElementNumbers, AreRuleNumbers, IsNoQuery, IsQueryOf};
ghost use Rattle.kept_queries.specs.Sources.{source_of};

use crate::arrays::PassedQuery;
use call_answers::answer::CallError;
use call_answers::elements::{ReadTree, read_named_tree};
use call_answers::texts::texts_of;
use css_styles::StyleRules;
use css_tree::TreeNumbers;
use page_calls::modern::{DocumentKind, ElementRange, page_of};
use simplecss_calls::contents::ElementContent;
use simplecss_calls::element_numbers::asked_numbers;
use simplecss_calls::rule_texts::rule_texts;
use simplecss_calls::winners::{read_rules, rules_numbers};
use std::alloc::Global;
use std::marker::Model;
use std::mem::replace;

/// A page, the rules of style sheets, and elements' own declarations, which borrow what was passed.
#[derive(Drop)]
pub struct ReadQuery<'a> {
    /// How the document reads the names of selectors.
    kind: DocumentKind,
    /// The tree.
    read: ReadTree<'a>,
    /// What was counted of it.
    numbers: Option<TreeNumbers<'a>>,
    /// The rules.
    rules: StyleRules<'a>,
    /// Two texts of declarations for each element.
    own: Vec<&'a str>,
}

impl<'a> Model for ReadQuery<'a> {
    ghost use Rattle.std.specs.Coded.{Coded, codes};
    ghost use Rattle.css_selector_text.specs.Codes.{condition_code, selectors_code};
    ghost use Rattle.css_selector_text.specs.Components.{Simple};
    ghost use Rattle.kept_pages.specs.ReadPages.{AreCounted};
    ghost use Rattle.kept_queries.specs.Queries.{QueryText};
    ghost use Rattle.kept_queries.specs.ReadQueries.{query_text};

    ghost Value = { QueryText };

    ghost coded = { let simples : Coded Simple = Prim.hlevel codes in
        Prim.hlevel (codes, condition_code simples, selectors_code simples) };

    ghost view = { λ q. query_text q.kind q.read q.numbers q.rules q.own };

    ghost invariant = { λ q. AreCounted q.read.rows q.numbers };
}

/// What is asked of the elements of a range.
#[derive(Clone, Copy)]
pub struct ElementNumbers<'q> {
    /// What is to be written of each.
    pub content: ElementContent<'q>,
    /// The elements that are asked for.
    pub range: ElementRange,
    /// How many numbers there may be at most, and how many tests that take a pass of the page.
    pub most: usize,
}

/// What is asked in numbers.
#[derive(Clone, Copy)]
pub enum NumbersAsked<'q> {
    /// What wins on the elements of a range, or which rules match them.
    Elements(ElementNumbers<'q>),
    /// The rules, in the order of the cascade.
    Rules,
}

/// What the texts of the selectors of the rules are, in at most this number of bytes.
#[derive(Clone, Copy)]
pub struct RuleTexts {
    /// How many bytes they may have.
    pub most: usize,
}

/// A question on a query.
pub trait Question {
    /// The answer to it.
    type Answer;

    ghost use Rattle.kept_queries.specs.Queries.{QueryText};

    ghost is_answer: { Self → QueryText → Self.Answer → Type 0 };

    /// The answer of a query, which stays.
    fn ask<'a>(self, alloc: Global, query: &mut ReadQuery<'a>) -> Self::Answer
        ensures kept { query.new ≡ query.old }
        ensures answer { is_answer self query.old result };
}

/// What is asked of the elements of a range, on a tree with what was counted of it, which is handed back.
fn numbers_on<'a>(
    alloc: Global,
    kind: DocumentKind,
    read: &ReadTree<'a>,
    numbers: TreeNumbers<'a>,
    rules: &StyleRules<'a>,
    own: &[&'a str],
    asked: ElementNumbers<'_>,
) -> (TreeNumbers<'a>, Result<Vec<usize>, CallError>)
    requires { AreNumbersOf read.now.rows numbers }
    ensures counted { AreNumbersOf read.now.rows result.0 }
    ensures kept { page_by read.now.rows result.0 ≡ page_by read.now.rows numbers.entry }
    ensures answer { let asks = asked.entry in IsAskedOf asks.content asks.most asks.range kind rules.now.rules
        rules.now.lists (map (λ text. text.now) own.now) (page_by read.now.rows numbers.entry) (numbers_outcome result.1) }
{
    let mut page = numbers.on(alloc, &read.rows);
    let ElementNumbers {
        content,
        range,
        most,
    } = asked;
    let outcome = asked_numbers(alloc, content, rules, own, kind, &mut page, range, most);
    (page.into_numbers(), outcome)
}

impl<'a> ReadQuery<'a> {
    /// Reads what is passed, and counts the tree.
    pub fn new(alloc: Global, passed: PassedQuery<'a>) -> Result<ReadQuery<'a>, CallError>
        ensures { let source = source_of passed.entry in
            MatchResult result (IsQueryOf source) (IsNoQuery source) }
    {
        let kind = passed.kind;
        let tree = passed.tree;
        let rules = read_rules(alloc, passed.sheets, passed.limit)?;
        let own = texts_of(alloc, passed.own.texts, passed.own.ends)?;
        let read = read_named_tree(alloc, tree)?;
        let numbers = page_of(alloc, kind, &read, tree.elements)?.into_numbers();
        Ok(ReadQuery {
            kind,
            read,
            numbers: Some(numbers),
            rules,
            own,
        })
    }

    /// What is asked of the elements of a range.
    pub fn element_numbers(
        &mut self,
        alloc: Global,
        asked: ElementNumbers<'_>,
    ) -> Result<Vec<usize>, CallError>
        ensures kept { self.new ≡ self.old }
        ensures answer { AreElementNumbers asked.entry self.old (numbers_outcome result) }
    {
        let kind = self.kind;
        let Some(numbers) = replace(&mut self.numbers, None) else {
            unreachable!()
        };
        let (numbers, outcome) = numbers_on(
            alloc,
            kind,
            &self.read,
            numbers,
            &self.rules,
            &self.own,
            asked,
        );
        self.numbers = Some(numbers);
        outcome
    }

    /// The numbers of the rules, in the order of the cascade.
    pub fn rule_numbers(&self, alloc: Global) -> Result<Vec<usize>, CallError>
        ensures { AreRuleNumbers self.now (numbers_outcome result) }
    {
        Ok(rules_numbers(alloc, self.rules.as_slice())?)
    }
    /// The texts of the selectors of the rules, in the order of the cascade, in at most this number of bytes.
    pub fn rule_texts(&self, alloc: Global, most: usize) -> Result<String, CallError>
        ensures { AreRuleTexts most self.now.rules (outcome_of result) }
    {
        rule_texts(alloc, &self.rules, most)
    }
}
