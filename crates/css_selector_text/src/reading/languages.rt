//! Reads language ranges.
ghost use Rattle.std.specs.Prelude.{◌≡◌, ◌∷◌, [], map};
ghost use Rattle.std.specs.Cow.{cow_str_bytes};
ghost use Rattle.css_selector_text.specs.reading.Grammar.{next_range as next_range_of, language_ranges};
ghost use Rattle.css_selector_text.specs.reading.Readings.{items, found_before};
ghost use Rattle.css_selector_text.specs.internal.Reads.{Reads, Finds};

use crate::reading::attribute_selectors::read_value;
use crate::reading::texts::split_ascii;
use crate::reading::words::{read_closing, read_gap};
use crate::refusal::Refusal;
use std::alloc::Global;
use std::borrow::CowStr;

/// Reads a comma and a further language range, if there is a comma.
#[tactic(auto, unfolding(crate::specs::reading::Grammar::next_range))]
fn next_range<'a>(
    alloc: Global,
    text: &'a str,
) -> Result<Option<(CowStr<'a>, &'a str)>, Refusal<'a>>
    ensures { Finds cow_str_bytes result (next_range_of text.now) }
{
    let (_, rest) = read_gap(text);
    let Some((b',', rest)) = split_ascii(rest) else {
        return Ok(None);
    };
    let (_, rest) = read_gap(rest);
    Ok(Some(read_value(alloc, rest)?))
}

/// Reads the language ranges after the first.
fn read_more<'a>(
    alloc: Global,
    first: CowStr<'a>,
    text: &'a str,
) -> Result<(Vec<CowStr<'a>>, &'a str), Refusal<'a>>
    ensures { Reads (λ v. map cow_str_bytes v.items) result
        (found_before (cow_str_bytes first.entry ∷ []) (items next_range_of text.now)) }
{
    let mut ranges = Vec::new(alloc);
    ranges.push(first)?;
    let mut rest = text;
    let mut left = text.len();
    'languages: while left > 0 {
        match next_range(alloc, rest)? {
            Some((range, after)) => {
                ranges.push(range)?;
                rest = after;
            }
            None => return Ok((ranges, rest)),
        }
        left -= 1;
    }
    Ok((ranges, rest))
}

/// Reads the ranges of `:lang()`, from after its parenthesis.
#[tactic(auto, unfolding(crate::specs::reading::Grammar::language_ranges))]
pub(crate) fn read_ranges<'a>(
    alloc: Global,
    text: &'a str,
) -> Result<(Vec<CowStr<'a>>, &'a str), Refusal<'a>>
    ensures { Reads (λ v. map cow_str_bytes v.items) result (language_ranges text.now) }
{
    let (_, rest) = read_gap(text);
    let (first, rest) = read_value(alloc, rest)?;
    let (ranges, rest) = read_more(alloc, first, rest)?;
    let (_, rest) = read_gap(rest);
    let (_, rest) = read_closing(b')', rest)?;
    Ok((ranges, rest))
}
