//! Lists of modern selectors.

ghost use Rattle.std.specs.Prelude.{◌≡◌, ◌<◌, ◌^◌, ◌++◌, IfOk, OnOk, MatchResult};
ghost use Rattle.std.specs.Prelude.{None, Some, length, map, option_map, string_bytes};
ghost use Rattle.css_selector_text.specs.reading.ReadViews.{placed_of};
ghost use Rattle.call_answers.specs.Calls.{FailsFor};
ghost use Rattle.call_answers.specs.SelectorNumbers.{listed_row, listed_numbers as listed_numbers_of};
ghost use Rattle.call_answers.specs.SelectorNumbers.{printed_texts as printed_texts_of};
ghost use Rattle.kept_lists.specs.Lists.{listed_in};
ghost use Rattle.list_calls.specs.ListCalls.{failure_of};

use crate::calls::failure_of;
use call_answers::answer::CallError;
use call_answers::selector_numbers::selector_row;
use css_selector_text::Listed;
use kept_lists::read_modern;
use std::alloc::{AllocError, Global};
use std::fmt::Write as _;

/// Appends the numbers of a selector of a list whose text ends at this offset.
fn push_listed(
    out: &mut Vec<usize>,
    alloc: Global,
    listed: Listed<'_>,
    end: usize,
) -> Result<(), AllocError>
    requires { end < 2 ^ 63 }
    ensures { OnOk result (out.new.items ≡ out.old.items ++ listed_row end (placed_of listed.entry)) }
{
    let printed = format!(in alloc; "{}", listed.selector)?;
    let row = selector_row(alloc, listed, end)?;
    out.extend_from_slice(&row)?;
    out.extend_from_slice(&[printed.len()])
}

/// Returns the numbers of the selectors of a list whose text ends at this offset.
fn listed_numbers(alloc: Global, all: Vec<Listed<'_>>, end: usize) -> Result<Vec<usize>, AllocError>
    requires { end < 2 ^ 63 }
    ensures { IfOk result (λ out. out.items ≡ listed_numbers_of end (map placed_of all.entry.items)) }
{
    let mut out = Vec::new(alloc);
    'selectors: for listed in all {
        push_listed(&mut out, alloc, listed, end)?;
    }
    Ok(out)
}

/// Returns the numbers of the selectors of a list.
pub fn numbers(alloc: Global, text: &str) -> Result<Vec<usize>, CallError>
    ensures { MatchResult result
        (λ out. option_map (listed_numbers_of (length text.now)) (listed_in text.now) ≡ Some out.items)
        (FailsFor (listed_in text.now ≡ None) (λ fault. ⊥) ⊥) }
{
    match read_modern(alloc, text) {
        Ok(all) => Ok(listed_numbers(alloc, all, text.len())?),
        Err(error) => Err(failure_of(error)),
    }
}

/// Returns the printed texts of the selectors of a list, one after another.
pub fn texts(alloc: Global, all: &[Listed<'_>]) -> Result<String, AllocError>
    ensures { IfOk result (λ out. string_bytes out ≡ printed_texts_of (map placed_of all.now)) }
{
    let mut out = String::new(alloc);
    let mut left = all;
    'selectors: while let [listed, others @ ..] = left {
        write!(out, "{}", listed.selector)?;
        left = others;
    }
    Ok(out)
}
