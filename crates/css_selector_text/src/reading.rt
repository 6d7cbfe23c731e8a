//! Reads selectors.
ghost use Rattle.std.specs.Prelude.{◌≡◌, ◌<◌, ◌∷◌, [], IfErr, IfOk, length, map, option_map};
ghost use Rattle.css_selector_text.specs.reading.Grammar.{next_part as next_part_of, parts as parts_of};
ghost use Rattle.css_selector_text.specs.NameViews.{names_of};
ghost use Rattle.css_selector_text.specs.reading.Readings.{items, found_before};
ghost use Rattle.css_selector_text.specs.internal.Reads.{Reads, Finds};
ghost use Rattle.css_selector_text.specs.Views.{part_of};
ghost use Rattle.css_selector_text.specs.reading.Grammar.{nesting_part as nesting_part_of, relative_parts, start_parts};
ghost use Rattle.css_selector_text.specs.reading.Grammar.{placed_by, next_placed as next_placed_of, placed_list_by};
ghost use Rattle.css_selector_text.specs.reading.ReadSelectors.{ParsesList, ParsesPlaced};
ghost use Rattle.css_selector_text.specs.reading.ReadViews.{read_of, placed_of};
ghost use Rattle.css_selector_text.specs.reading.Supported.{first_unsupported as first_unsupported_of, if_all};
ghost use Rattle.css_selector_text.specs.declared.refusal.Why.TheVariants.{Memory};

pub(crate) mod arguments;
pub(crate) mod attribute_selectors;
pub(crate) mod compounds;
pub(crate) mod defaults;
pub(crate) mod directions;
pub(crate) mod joins;
pub(crate) mod known_names;
pub(crate) mod languages;
pub mod laws;
pub(crate) mod namespaces;
pub(crate) mod nested;
pub(crate) mod nesting;
pub(crate) mod numbers;
pub(crate) mod pseudo_classes;
pub(crate) mod pseudo_elements;
pub(crate) mod read;
pub(crate) mod room;
pub(crate) mod support;
pub(crate) mod texts;
pub(crate) mod words;

use crate::components::{Condition, Nesting, OUTERMOST, Part, Simple};
use crate::names::{NO_NAMES, Names};
use crate::reading::compounds::read_conditions;
use crate::reading::defaults::in_default;
use crate::reading::joins::{begins_compound, take_sign};
use crate::reading::pseudo_elements::read_pseudo_element;
use crate::reading::read::Read;
use crate::reading::texts::split_ascii;
use crate::reading::words::{past_comments, read_gap};
use crate::refusal::{Refusal, Why};
use crate::{Combinator, Listed, Selector};
use std::alloc::{AllocError, Global};

/// How a selector may begin.
#[derive(Clone, Copy)]
pub(crate) enum Start {
    /// By a compound selector.
    Plain,
    /// By a combinator, too, before which there is an `&`.
    Relative,
}

/// Reads a combinator and the compound selector after it, if there is one.
#[tactic(auto, unfolding(crate::specs::reading::Grammar::next_part))]
fn next_part<'a>(
    alloc: Global,
    names: &Names<'_>,
    text: &'a str,
) -> Result<Option<(Part<'a>, &'a str)>, Refusal<'a>>
    ensures { Finds part_of result (next_part_of (names_of names.now) text.now) }
{
    let (spaced, rest) = read_gap(text);
    if let Some((combinator, rest)) = take_sign(rest) {
        let (_, rest) = read_gap(rest);
        let (conditions, rest) = read_conditions(alloc, names, rest)?;
        let part = Part {
            combinator,
            conditions,
        };
        return Ok(Some((part, rest)));
    }
    if !(spaced && begins_compound(rest)) {
        return Ok(None);
    }
    let (conditions, rest) = read_conditions(alloc, names, rest)?;
    let part = Part {
        combinator: Combinator::Descendant,
        conditions,
    };
    Ok(Some((part, rest)))
}

/// Reads the compound selectors after the first.
fn read_more<'a>(
    alloc: Global,
    names: &Names<'_>,
    first: Part<'a>,
    text: &'a str,
) -> Result<(Vec<Part<'a>>, &'a str), Refusal<'a>>
    ensures reads { Reads (λ v. map part_of v.items) result
        (found_before (part_of first.entry ∷ [])
        (items (next_part_of (names_of names.now)) text.now)) }
    ensures some { IfOk result (λ it. 0 < length it.0.items) }
{
    let mut parts = Vec::with_capacity(alloc, 2)?;
    parts.push(first)?;
    let mut rest = text;
    let mut left = text.len();
    'parts: while left > 0 {
        match next_part(alloc, names, rest)? {
            Some((part, after)) => {
                parts.push(part)?;
                rest = after;
            }
            None => return Ok((parts, rest)),
        }
        left -= 1;
    }
    Ok((parts, rest))
}

/// Reads the compound selectors of a selector.
#[tactic(auto, unfolding(crate::specs::reading::Grammar::parts))]
fn read_parts<'a>(
    alloc: Global,
    names: &Names<'_>,
    text: &'a str,
) -> Result<(Vec<Part<'a>>, &'a str), Refusal<'a>>
    ensures reads { Reads (λ v. map part_of v.items) result
        (parts_of (names_of names.now) text.now) }
    ensures some { IfOk result (λ it. 0 < length it.0.items) }
{
    let (_, rest) = read_gap(text);
    let (conditions, rest) = read_conditions(alloc, names, rest)?;
    let first = Part {
        combinator: Combinator::Descendant,
        conditions,
    };
    read_more(alloc, names, first, rest)
}

/// Returns `&` as the first compound selector, which stands for this list.
pub(crate) fn nesting_part<'a>(alloc: Global, list: Nesting) -> Result<Part<'a>, AllocError>
    ensures { IfOk result (λ part. part_of part ≡ nesting_part_of list) }
{
    let mut conditions = Vec::new(alloc);
    conditions.push(Condition::Simple(Simple::Nesting(list)))?;
    Ok(Part {
        combinator: Combinator::Descendant,
        conditions,
    })
}

/// Reads the compound selectors of a relative selector.
#[tactic(auto, unfolding(crate::specs::reading::Grammar::relative_parts))]
fn read_relative_parts<'a>(
    alloc: Global,
    names: &Names<'_>,
    text: &'a str,
) -> Result<(Vec<Part<'a>>, &'a str), Refusal<'a>>
    ensures reads { Reads (λ v. map part_of v.items) result
        (relative_parts (names_of names.now) text.now) }
    ensures some { IfOk result (λ it. 0 < length it.0.items) }
{
    match take_sign(text) {
        None => read_parts(alloc, names, text),
        Some(_) => {
            let first = nesting_part(alloc, OUTERMOST)?;
            read_more(alloc, names, first, text)
        }
    }
}

/// Reads the compound selectors of a selector that may begin so.
fn read_first_parts<'a>(
    alloc: Global,
    names: &Names<'_>,
    start: Start,
    text: &'a str,
) -> Result<(Vec<Part<'a>>, &'a str), Refusal<'a>>
    ensures reads { Reads (λ v. map part_of v.items) result
        (start_parts (names_of names.now) start text.now) }
    ensures some { IfOk result (λ it. 0 < length it.0.items) }
{
    match start {
        Start::Plain => read_parts(alloc, names, text),
        Start::Relative => read_relative_parts(alloc, names, text),
    }
}

/// Reads a selector and the gaps round it.
#[tactic(auto, unfolding(crate::specs::reading::Grammar::placed_by))]
fn read_placed<'a>(
    alloc: Global,
    names: &Names<'_>,
    start: Start,
    text: &'a str,
) -> Result<(Read<'a>, &'a str), Refusal<'a>>
    ensures { Reads read_of result (placed_by (names_of names.now) start text.now) }
{
    let (_, from) = read_gap(text);
    let (written, end) = read_first_parts(alloc, names, start, from)?;
    let parts = in_default(alloc, names.default_namespace, written)?;
    let at = past_comments(end);
    let (pseudo_element, after) = read_pseudo_element(alloc, names, at)?;
    let (_, rest) = read_gap(after);
    let (element, to) = if pseudo_element.is_some() {
        (at, after)
    } else {
        (end, end)
    };
    let read = Read {
        parts,
        pseudo_element,
        from,
        element,
        to,
    };
    Ok((read, rest))
}

/// Returns the selector that was read, with where it is.
fn listed_of<'a>(read: Read<'a>) -> Listed<'a>
    ensures { placed_of result ≡ read_of read.entry }
{
    Listed {
        selector: Selector::new(read.parts, read.pseudo_element),
        from: read.from,
        element: read.element,
        to: read.to,
    }
}

/// Reads a comma and a further selector, if there is a comma.
#[tactic(auto, unfolding(crate::specs::reading::Grammar::next_placed))]
fn next_placed<'a>(
    alloc: Global,
    names: &Names<'_>,
    start: Start,
    text: &'a str,
) -> Result<Option<(Read<'a>, &'a str)>, Refusal<'a>>
    ensures { Finds read_of result (next_placed_of (names_of names.now) start text.now) }
{
    let Some((b',', rest)) = split_ascii(text) else {
        return Ok(None);
    };
    Ok(Some(read_placed(alloc, names, start, rest)?))
}

/// Reads the selectors after the first.
fn read_others<'a>(
    alloc: Global,
    names: &Names<'_>,
    start: Start,
    first: Read<'a>,
    text: &'a str,
) -> Result<(Vec<Listed<'a>>, &'a str), Refusal<'a>>
    ensures { Reads (λ v. map placed_of v.items) result
        (found_before (read_of first.entry ∷ [])
        (items (next_placed_of (names_of names.now) start) text.now)) }
{
    let mut selectors = Vec::new(alloc);
    selectors.push(listed_of(first))?;
    let mut rest = text;
    let mut left = text.len();
    'selectors: while left > 0 {
        match next_placed(alloc, names, start, rest)? {
            Some((read, after)) => {
                selectors.push(listed_of(read))?;
                rest = after;
            }
            None => return Ok((selectors, rest)),
        }
        left -= 1;
    }
    Ok((selectors, rest))
}

/// Reads a text that is a list of selectors, each of which may begin so.
#[tactic(auto, unfolding(crate::specs::reading::Grammar::placed_list_by))]
pub(crate) fn read_listed<'a>(
    alloc: Global,
    names: &Names<'_>,
    start: Start,
    text: &'a str,
) -> Result<Vec<Listed<'a>>, Refusal<'a>>
    ensures { ParsesPlaced result (placed_list_by (names_of names.now) start text.now) }
{
    let (first, rest) = read_placed(alloc, names, start, text)?;
    match read_others(alloc, names, start, first, rest) {
        Ok((selectors, rest)) if rest.is_empty() => Ok(selectors),
        Ok((_, rest)) => Err(Refusal::new(Why::Unexpected, rest)),
        Err(refusal) => Err(refusal),
    }
}

/// Returns what is left of the text where the first selector begins that is unsupported.
fn first_unsupported<'a>(list: &[Listed<'a>]) -> Option<&'a str>
    ensures { option_map (λ from. from.now) result
        ≡ first_unsupported_of (map placed_of list.now) }
{
    let mut rest = list;
    'selectors: while let [listed, after @ ..] = rest {
        if !listed.selector.is_supported() {
            return Some(listed.from);
        }
        rest = after;
    }
    None
}

/// Returns the selectors of a list.
fn selectors_of<'a>(alloc: Global, list: Vec<Listed<'a>>) -> Result<Vec<Selector<'a>>, Refusal<'a>>
    ensures all { IfOk result (λ all. all.items
        ≡ map (λ p. p.selector) (map placed_of list.entry.items)) }
    ensures memory { IfErr result (λ refusal. refusal.why ≡ Memory) }
{
    let mut selectors = Vec::new(alloc);
    'selectors: for listed in list {
        selectors.push(listed.selector)?;
    }
    Ok(selectors)
}

/// Returns the selectors of a list, if all are supported.
pub(crate) fn all_supported<'a>(
    alloc: Global,
    list: Vec<Listed<'a>>,
) -> Result<Vec<Selector<'a>>, Refusal<'a>>
    ensures { ParsesList result (if_all (map placed_of list.entry.items) []
        (first_unsupported_of (map placed_of list.entry.items))) }
{
    match first_unsupported(list.as_slice()) {
        Some(from) => Err(Refusal::new(Why::Unsupported, from)),
        None => selectors_of(alloc, list),
    }
}

impl<'a> Selector<'a> {
    ghost use Rattle.css_selector_text.specs.reading.Grammar.{placed_list};
    ghost use Rattle.css_selector_text.specs.Names.{no_names};
    ghost use Rattle.css_selector_text.specs.NameViews.{names_of};
    ghost use Rattle.css_selector_text.specs.reading.Supported.{supported_selector, supported_list};
    ghost use Rattle.css_selector_text.specs.reading.ReadSelectors.{Parses, ParsesList, ParsesPlaced};

    /// Reads a text that is a selector. One that is unsupported is refused.
    #[tactic(auto, unfolding(crate::specs::reading::Grammar::placed_selector))]
    pub fn parse(alloc: Global, text: &'a str) -> Result<Selector<'a>, Refusal<'a>>
        ensures { Parses result (supported_selector no_names text.now) }
    {
        let (read, rest) = read_placed(alloc, &NO_NAMES, Start::Plain, text)?;
        if !rest.is_empty() {
            return Err(Refusal::new(Why::Unexpected, rest));
        }
        let from = read.from;
        let selector = Selector::new(read.parts, read.pseudo_element);
        if !selector.is_supported() {
            return Err(Refusal::new(Why::Unsupported, from));
        }
        Ok(selector)
    }

    /// Reads a text that is a list of selectors with commas between them, each with where it is. A
    /// list of which one selector is refused is refused. Unsupported ones are not: what has no meaning
    /// in them is satisfied by no element, and so `:not(:has(a))` by each.
    pub fn read_list(alloc: Global, text: &'a str) -> Result<Vec<Listed<'a>>, Refusal<'a>>
        ensures { ParsesPlaced result (placed_list no_names text.now) }
    {
        Selector::read_list_in(alloc, text, &NO_NAMES)
    }

    /// Reads a text that is a list of selectors as `read_list` does, where these names are declared.
    pub fn read_list_in(
        alloc: Global,
        text: &'a str,
        names: &Names<'_>,
    ) -> Result<Vec<Listed<'a>>, Refusal<'a>>
        ensures { ParsesPlaced result (placed_list (names_of names.now) text.now) }
    {
        read_listed(alloc, names, Start::Plain, text)
    }

    /// Reads a text that is a list of selectors with commas between them. A list of which one selector
    /// is refused or unsupported is refused.
    pub fn parse_list(alloc: Global, text: &'a str) -> Result<Vec<Selector<'a>>, Refusal<'a>>
        ensures { ParsesList result (supported_list no_names text.now) }
    {
        Selector::parse_list_in(alloc, text, &NO_NAMES)
    }

    /// Reads a text that is a list of selectors as `parse_list` does, where these names are declared.
    pub fn parse_list_in(
        alloc: Global,
        text: &'a str,
        names: &Names<'_>,
    ) -> Result<Vec<Selector<'a>>, Refusal<'a>>
        ensures { ParsesList result (supported_list (names_of names.now) text.now) }
    {
        match Selector::read_list_in(alloc, text, names) {
            Ok(list) => all_supported(alloc, list),
            Err(refusal) => Err(refusal),
        }
    }
}
