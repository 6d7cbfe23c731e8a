//! The selectors of lists, as numbers.

ghost use Rattle.std.specs.Prelude.{◌≡◌, ◌<◌, ◌^◌, IfOk, map, option_map};
ghost use Rattle.css_sheet.specs.RuleViews.{rule_selector_of};
ghost use Rattle.css_selector_text.specs.reading.ReadViews.{placed_of};
ghost use Rattle.call_answers.specs.SelectorNumbers.{read_numbers as read_numbers_of};
ghost use Rattle.call_answers.specs.SelectorNumbers.{is_of_any as is_of_any_of};
ghost use Rattle.call_answers.specs.SelectorNumbers.{element_numbers as element_numbers_of};
ghost use Rattle.call_answers.specs.SelectorNumbers.{selector_row as selector_row_of};
ghost use Rattle.call_answers.specs.SelectorNumbers.{selector_numbers as selector_numbers_of};

use crate::items::{count_between, offset_of};
use css_selectors::{Listed, Selector};
use css_sheet::{RuleSelector, rule_selector};
use std::alloc::{AllocError, Global};

/// Returns whether a selector is supported, and its specificity with its pseudo-element.
fn read_numbers(read: &RuleSelector<'_>) -> [usize; 4]
    ensures { result ≡ read_numbers_of (rule_selector_of read.now) }
{
    let counts = read.specificity();
    [
        usize::from(read.selector.is_some()),
        counts.ids as usize,
        counts.classes as usize,
        counts.names as usize,
    ]
}

/// Whether the last compound selector has no condition.
fn is_of_any(selector: &Selector<'_>) -> bool
    ensures { result ≡ is_of_any_of selector.now }
{
    match selector.parts().last() {
        Some(part) => part.conditions.is_empty(),
        None => false,
    }
}

/// Returns where the pseudo-element that a selector has at its end begins, where its name does, and whether it
/// is one of any element.
fn element_numbers(
    end: usize,
    element: &str,
    to: &str,
    is_any: bool,
    pseudo_element: Option<&str>,
) -> [usize; 3]
    requires { end < 2 ^ 63 }
    ensures { result ≡ element_numbers_of end element.now to.now is_any
        (option_map (λ name. name.now) pseudo_element.entry) }
{
    let past = offset_of(end, to);
    match pseudo_element {
        Some(name) => [
            offset_of(end, element),
            past.saturating_sub(name.len()),
            usize::from(is_any),
        ],
        None => [past, past, 0],
    }
}

/// Returns the numbers of a selector of a list whose text ends at this offset.
pub fn selector_row(alloc: Global, listed: Listed<'_>, end: usize) -> Result<[usize; 9], AllocError>
    requires { end < 2 ^ 63 }
    ensures { IfOk result (λ row. row ≡ selector_row_of end (placed_of listed.entry)) }
{
    let start = offset_of(end, listed.from);
    let count = count_between(listed.from, listed.to);
    let (element, to) = (listed.element, listed.to);
    let is_any = is_of_any(&listed.selector);
    let read = rule_selector(alloc, listed)?;
    let [is_read, ids, classes, names] = read_numbers(&read);
    let [at, name, is_any] = element_numbers(end, element, to, is_any, read.pseudo_element);
    Ok([start, count, is_read, ids, classes, names, at, name, is_any])
}

/// Returns the numbers of the selectors of a list whose text ends at this offset.
pub fn selector_numbers(
    alloc: Global,
    all: Vec<Listed<'_>>,
    end: usize,
) -> Result<Vec<usize>, AllocError>
    requires { end < 2 ^ 63 }
    ensures { IfOk result (λ out. out.items
        ≡ selector_numbers_of end (map placed_of all.entry.items)) }
{
    let mut out = Vec::new(alloc);
    'selectors: for listed in all {
        out.extend_from_slice(&selector_row(alloc, listed, end)?)?;
    }
    Ok(out)
}
