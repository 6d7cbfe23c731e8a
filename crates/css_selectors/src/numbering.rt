//! Numbers lists of selectors, and puts the numbers in place of pseudo-classes with lists.
ghost use Rattle.std.specs.Prelude.{◌≡◌, ◌++◌, IfOk, List, map, option_map};
ghost use Rattle.std.specs.List.{list_all};
ghost use Rattle.css_selectors.specs.MarkedLists.{ListText, list_of};
ghost use Rattle.css_selectors.specs.Numberings.{number_of, numbered_simple, numbered_condition, numbered_conditions};
ghost use Rattle.css_selectors.specs.Numberings.{numbered_parts, numbered_element, numbered_each};
ghost use Rattle.css_selectors.specs.internal.PlainParts.{is_plain_condition, is_plain_part};
ghost use Rattle.css_selector_text.specs.Views.{simple_of, condition_of, part_of, complex_of, pseudo_element_of};

use crate::{Complex, Condition, MarkedList, Nesting, Part, PseudoElement, Selector, Simple};
use css_selector_text::{greatest, of_test};
use std::alloc::{AllocError, Global};
use std::marker::Model;

/// The number of no list.
const NO_LIST: usize = usize::MAX;

/// Returns the number of the list that `&` denotes, which was the one of this number among those for
/// `&`. Number 0 is that of the scoping root.
fn number_in(numbers: &[usize], number: usize) -> usize
    ensures { result ≡ number_of numbers.now number }
{
    let Some(index) = number.checked_sub(1) else {
        return 0;
    };
    match numbers.get(index) {
        Some(number) => *number,
        None => NO_LIST,
    }
}

/// Returns the simple selector in which `&` denotes its list by the new number.
fn number_simple<'a>(numbers: &[usize], simple: Simple<'a>) -> Simple<'a>
    ensures { simple_of result ≡ numbered_simple numbers.now (simple_of simple.entry) }
{
    match simple {
        Simple::Nesting(list) => Simple::Nesting(Nesting {
            number: number_in(numbers, list.number),
            specificity: list.specificity,
        }),
        other => other,
    }
}

/// Whether the condition has no list, and is not `&`.
fn is_plain(condition: &Condition<'_>) -> bool
    ensures { result ≡ is_plain_condition (condition_of condition.now) }
{
    match condition {
        Condition::Simple(Simple::Nesting(_)) => false,
        Condition::Simple(_) => true,
        Condition::Not(_) | Condition::Is(_) | Condition::Where(_) | Condition::Tested(..) => false,
    }
}

/// Whether each of the conditions has no list, and is not `&`.
fn are_plain(conditions: &[Condition<'_>]) -> bool
    ensures { result ≡ list_all is_plain_condition (map condition_of conditions.now) }
{
    let mut rest = conditions;
    'conditions: while let [condition, after @ ..] = rest {
        if !is_plain(condition) {
            return false;
        }
        rest = after;
    }
    true
}

/// Whether there is nothing to number in the parts.
fn are_plain_parts(parts: &[Part<'_>]) -> bool
    ensures { result ≡ list_all is_plain_part (map part_of parts.now) }
{
    let mut rest = parts;
    'parts: while let [part, after @ ..] = rest {
        if !are_plain(part.conditions.as_slice()) {
            return false;
        }
        rest = after;
    }
    true
}

/// Returns the selectors of a list with numbers in place of pseudo-classes with lists, which are
/// appended.
#[cycle(numbering)]
fn number_selectors<'a>(
    alloc: Global,
    numbers: &[usize],
    lists: &mut Vec<MarkedList<'a>>,
    selectors: Vec<Complex<'a>>,
) -> Result<Vec<Complex<'a>>, AllocError>
    ensures { IfOk result (λ numbered.
        numbered_each (numbered_parts numbers.now) (map list_of lists.old.items)
        (map complex_of selectors.entry.items)
        ≡ (map complex_of numbered.items, map list_of lists.new.items)) }
{
    let mut numbered = Vec::with_capacity(alloc, selectors.len())?;
    for selector in selectors {
        let parts = number_parts(alloc, numbers, lists, selector.parts)?;
        numbered.push(Complex { parts })?;
    }
    Ok(numbered)
}

/// Returns the condition with a number in place of a pseudo-class with a list, which is appended.
#[cycle(numbering)]
fn number_condition<'a>(
    alloc: Global,
    numbers: &[usize],
    lists: &mut Vec<MarkedList<'a>>,
    condition: Condition<'a>,
) -> Result<Condition<'a>, AllocError>
    ensures { IfOk result (λ numbered.
        numbered_condition numbers.now (map list_of lists.old.items) (condition_of condition.entry)
        ≡ (condition_of numbered, map list_of lists.new.items)) }
{
    match condition {
        Condition::Simple(simple) => Ok(Condition::Simple(number_simple(numbers, simple))),
        Condition::Not(all) => {
            let all = number_selectors(alloc, numbers, lists, all)?;
            Ok(Condition::Not(all))
        }
        Condition::Is(all) => {
            let all = number_selectors(alloc, numbers, lists, all)?;
            Ok(Condition::Is(all))
        }
        Condition::Where(all) => {
            let all = number_selectors(alloc, numbers, lists, all)?;
            Ok(Condition::Where(all))
        }
        Condition::Tested(test, all) => {
            let specificity = of_test(test, greatest(all.as_slice()));
            let all = number_selectors(alloc, numbers, lists, all)?;
            lists.push(MarkedList::Tested(test, all))?;
            let number = lists.len();
            let list = Nesting {
                number,
                specificity,
            };
            Ok(Condition::Simple(Simple::Nesting(list)))
        }
    }
}

/// Returns the conditions with numbers in place of pseudo-classes with lists, which are appended.
#[cycle(numbering)]
fn number_conditions<'a>(
    alloc: Global,
    numbers: &[usize],
    lists: &mut Vec<MarkedList<'a>>,
    conditions: Vec<Condition<'a>>,
) -> Result<Vec<Condition<'a>>, AllocError>
    ensures { IfOk result (λ numbered.
        numbered_conditions numbers.now (map list_of lists.old.items)
        (map condition_of conditions.entry.items)
        ≡ (map condition_of numbered.items, map list_of lists.new.items)) }
{
    let mut numbered = Vec::with_capacity(alloc, conditions.len())?;
    for condition in conditions {
        numbered.push(number_condition(alloc, numbers, lists, condition)?)?;
    }
    Ok(numbered)
}

/// Returns the parts with numbers in place of pseudo-classes with lists, which are appended. Parts without
/// such stay where they are.
#[cycle(numbering)]
fn number_parts<'a>(
    alloc: Global,
    numbers: &[usize],
    lists: &mut Vec<MarkedList<'a>>,
    parts: Vec<Part<'a>>,
) -> Result<Vec<Part<'a>>, AllocError>
    ensures { IfOk result (λ numbered.
        numbered_parts numbers.now (map list_of lists.old.items) (map part_of parts.entry.items)
        ≡ (map part_of numbered.items, map list_of lists.new.items)) }
{
    if are_plain_parts(parts.as_slice()) {
        return Ok(parts);
    }
    let mut numbered = Vec::with_capacity(alloc, parts.len())?;
    for part in parts {
        let conditions = number_conditions(alloc, numbers, lists, part.conditions)?;
        numbered.push(Part {
            combinator: part.combinator,
            conditions,
        })?;
    }
    Ok(numbered)
}

/// Returns the pseudo-element with numbers in place of pseudo-classes with lists after it, which are
/// appended.
fn number_element<'a>(
    alloc: Global,
    numbers: &[usize],
    lists: &mut Vec<MarkedList<'a>>,
    element: Option<PseudoElement<'a>>,
) -> Result<Option<PseudoElement<'a>>, AllocError>
    ensures { IfOk result (λ numbered.
        numbered_element numbers.now (map list_of lists.old.items)
        (option_map pseudo_element_of element.entry)
        ≡ (option_map pseudo_element_of numbered, map list_of lists.new.items)) }
{
    let Some(PseudoElement { element, after }) = element else {
        return Ok(None);
    };
    let after = number_conditions(alloc, numbers, lists, after)?;
    Ok(Some(PseudoElement { element, after }))
}

/// Lists of selectors, each of which has its place among them as its number, from 1 on. After an error
/// there may be further lists, which nothing that was numbered asks.
#[derive(Drop)]
pub struct Numbering<'a> {
    /// The lists.
    lists: Vec<MarkedList<'a>>,
    /// The numbers of those that `&` denotes.
    numbers: Vec<usize>,
}

impl<'a> Model for Numbering<'a> {
    ghost use Rattle.std.specs.Prelude.{map};
    ghost use Rattle.std.specs.Coded.{Coded, codes};
    ghost use Rattle.css_selector_text.specs.Codes.{condition_code, selectors_code};
    ghost use Rattle.css_selector_text.specs.Components.{Simple};
    ghost use Rattle.css_selectors.specs.MarkedLists.{list_of};
    ghost use Rattle.css_selectors.specs.Numberings.{NumberingText};

    ghost Value = { NumberingText };

    ghost coded = { let simples : Coded Simple = Prim.hlevel codes in
        Prim.hlevel (codes, condition_code simples, selectors_code simples) };

    ghost view = { λ n. record { lists = map list_of n.lists.items; numbers = n.numbers.items } };
}

impl<'a> Numbering<'a> {
    ghost use Rattle.std.specs.Prelude.{◌≡◌, [], IfOk, map};
    ghost use Rattle.css_selectors.specs.MarkedLists.{list_of};
    ghost use Rattle.css_selectors.specs.Numberings.{no_lists, numbered_selector, numbered_selectors, with_list, with_each_list};

    /// Returns a numbering of no lists.
    pub fn new(alloc: Global) -> Numbering<'a>
        ensures lists { result.lists ≡ [] }
        ensures numbers { result.numbers ≡ [] }
    {
        Numbering {
            lists: Vec::new(alloc),
            numbers: Vec::new(alloc),
        }
    }

    /// Appends a list that `&` denotes. Among the lists for `&` it has its place as its number, from 1 on,
    /// and selectors that are numbered from now on denote it so.
    pub fn push_list(&mut self, list: Vec<Selector<'a>>) -> Result<(), AllocError>
        ensures { IfOk result (λ _. self.new ≡ with_list self.old list.entry.items) }
    {
        let number = self.lists.len() + 1;
        self.lists.push(MarkedList::Matched(list))?;
        self.numbers.push(number)?;
        Ok(())
    }

    /// Returns the selector with numbers in place of pseudo-classes with lists, which are appended, those
    /// within others before these. An `&` denotes its list by the number that the list has here, and
    /// none, by the greatest number, if it was not appended yet.
    pub fn number(
        &mut self,
        alloc: Global,
        selector: Selector<'a>,
    ) -> Result<Selector<'a>, AllocError>
        ensures { IfOk result (λ numbered.
            numbered_selector self.old selector.entry ≡ (numbered, self.new)) }
    {
        let (parts, pseudo_element) = selector.into_parts();
        let numbers = self.numbers.as_slice();
        let parts = number_parts(alloc, numbers, &mut self.lists, parts)?;
        let pseudo_element = number_element(alloc, numbers, &mut self.lists, pseudo_element)?;
        Ok(Selector::new(parts, pseudo_element))
    }

    /// Returns selectors with numbers, one after another, as [`number`](Numbering::number) does.
    pub fn number_all(
        &mut self,
        alloc: Global,
        selectors: Vec<Selector<'a>>,
    ) -> Result<Vec<Selector<'a>>, AllocError>
        ensures { IfOk result (λ numbered.
            numbered_selectors self.old selectors.entry.items ≡ (numbered.items, self.new)) }
    {
        let mut numbered = Vec::with_capacity(alloc, selectors.len())?;
        'selectors: for selector in selectors {
            numbered.push(self.number(alloc, selector)?)?;
        }
        Ok(numbered)
    }

    /// Returns a numbering of lists that `&` denotes, each with numbers in its selectors. In a list `&`
    /// denotes one before it.
    pub fn of_lists(
        alloc: Global,
        lists: Vec<Vec<Selector<'a>>>,
    ) -> Result<Numbering<'a>, AllocError>
        ensures { IfOk result (λ numbering. numbering
            ≡ with_each_list no_lists (map (λ list. list.items) lists.entry.items)) }
    {
        let mut numbering = Numbering::new(alloc);
        'lists: for list in lists {
            let list = numbering.number_all(alloc, list)?;
            numbering.push_list(list)?;
        }
        Ok(numbering)
    }

    /// Returns the lists, in the order of their numbers.
    pub fn lists(&self) -> &[MarkedList<'a>]
        ensures { map list_of result.now ≡ self.now.lists }
    {
        self.lists.as_slice()
    }

    /// Returns the lists, in the order of their numbers.
    pub fn into_lists(self) -> Vec<MarkedList<'a>>
        ensures { map list_of result.items ≡ self.entry.lists }
    {
        self.lists
    }
}
