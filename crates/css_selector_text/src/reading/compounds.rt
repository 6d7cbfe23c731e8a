//! Reads compound selectors and lists of them.
ghost use Rattle.std.specs.Prelude.{◌≡◌, ◌∷◌, ◌++◌, [], ℕ, List, map, IfOk, option_map, option_to_list};
ghost use Rattle.css_selector_text.specs.reading.Grammar.{next_simple as next_simple_of, compound as compound_of_text};
ghost use Rattle.css_selector_text.specs.reading.Grammar.{next_part_in as next_part_of, complex_by, complex as complex_of_text};
ghost use Rattle.css_selector_text.specs.reading.Grammar.{ends_part as ends_part_of, past_part as past_part_of, is_lasting as is_lasting_of, no_selector as no_selector_of, part_end, gap};
ghost use Rattle.css_selector_text.specs.reading.Grammar.{listed_part, next_listed as next_listed_of, selectors_after, is_forgiving as is_forgiving_of, list_by, listed as listed_as};
ghost use Rattle.css_selector_text.specs.reading.Grammar.{list_kind as list_kind_of, function_named as function_of, of_list, after_progression, list_test as list_test_for, functional};
ghost use Rattle.std.specs.Cow.{cow_str_bytes};
ghost use Rattle.css_selector_text.specs.reading.Grammar.{name as name_of, list_within, with_argument, pseudo_condition, begins_pseudo_class as begins_pseudo_class_of};
ghost use Rattle.css_selector_text.specs.reading.Grammar.{next_condition as next_condition_of, conditions as conditions_of};
ghost use Rattle.css_selector_text.specs.Components.Condition.{simple};
ghost use Rattle.css_selector_text.specs.reading.Readings.{step_after, items, found_before};
ghost use Rattle.css_selector_text.specs.internal.Reads.{Reads, Finds};
ghost use Rattle.css_selector_text.specs.NameViews.{names_of, room_seen};
ghost use Rattle.css_selector_text.specs.Views.{list_test_of, progression_of, simple_of, condition_of, part_of, complex_of};

use crate::Combinator;
use crate::components::{
    Complex, Condition, Function, FunctionCall, ListKind, ListTest, Numbering, OUTERMOST, Part,
    Progression, Simple,
};
use crate::names::Names;
use crate::reading::attribute_selectors::read_attribute;
use crate::reading::joins::{begins_compound, take_leading, take_sign};
use crate::reading::languages::read_ranges;
use crate::reading::namespaces::read_type;
use crate::reading::numbers::read_progression;
use crate::reading::pseudo_classes::{
    function_named, is_old_element, list_kind, list_test, numbered_by, plain_pseudo,
    read_argument_of,
};
use crate::reading::room::{Room, may_open, outside, within};
use crate::reading::texts::split_ascii;
use crate::reading::words::{
    begins_name, past_comments, read_closing, read_gap, read_ident_sequence, read_name,
};
use crate::refusal::{Refusal, Why};
use css_syntax::texts::{past_ascii, read_value};
use css_text::readers;
use std::alloc::{AllocFailed, Global};
use std::borrow::CowStr;

/// Reads the next simple selector of a compound selector, if one is next that is no pseudo-class.
#[tactic(auto, unfolding(crate::specs::reading::Grammar::next_simple))]
fn next_simple<'a>(
    alloc: Global,
    names: &Names<'_>,
    text: &'a str,
) -> Result<Option<(Simple<'a>, &'a str)>, Refusal<'a>>
    ensures { Finds simple_of result (next_simple_of (names_of names.now) text.now) }
{
    match split_ascii(text) {
        Some((b'.', rest)) => {
            let (name, rest) = read_name(alloc, past_comments(rest))?;
            Ok(Some((Simple::Class(name), rest)))
        }
        Some((b'#', rest)) => {
            let (name, rest) = read_ident_sequence(alloc, rest)?;
            Ok(Some((Simple::Id(name), rest)))
        }
        Some((b'[', rest)) => Ok(Some(read_attribute(alloc, names, rest)?)),
        Some((b'&', rest)) => Ok(Some((Simple::Nesting(OUTERMOST), rest))),
        _ => Ok(None),
    }
}

/// Returns the condition of this kind with the list.
fn listed<'a>(kind: ListKind, selectors: Vec<Complex<'a>>) -> Condition<'a>
    ensures { condition_of result ≡ listed_as kind (map complex_of selectors.entry.items) }
{
    match kind {
        ListKind::Not => Condition::Not(selectors),
        ListKind::Is => Condition::Is(selectors),
        ListKind::Where => Condition::Where(selectors),
        ListKind::Has => Condition::Tested(ListTest::Has, selectors),
    }
}

/// Whether a part of a list ends here.
fn ends_part(text: &str) -> bool
    ensures { result ≡ ends_part_of text.now }
{
    match text.as_bytes() {
        [] => true,
        [byte, ..] => *byte == b',' || *byte == b')',
    }
}

/// Returns the rest after a part of a list, whatever it is.
fn past_part(text: &str) -> &str
    ensures { result.now ≡ past_part_of text.now }
{
    let mut rest = text;
    'values: while !ends_part(rest) {
        rest = read_value(rest).rest;
    }
    rest
}

/// Whether a list with a part that is refused for this is refused, even if it is forgiving.
fn is_lasting(why: Why) -> bool
    ensures { result ≡ is_lasting_of why }
{
    match why {
        Why::TooDeep => true,
        Why::Memory
        | Why::NoSelector
        | Why::NoName
        | Why::BrokenString
        | Why::NoOperator
        | Why::NoValue
        | Why::UnknownFlag
        | Why::NoProgression
        | Why::UnknownName
        | Why::UnknownFunction
        | Why::UnknownPrefix
        | Why::Unsupported
        | Why::Unexpected => false,
    }
}

/// Leaves a part that is no selector out of a forgiving list. In another list, and where lists are too
/// deep, it is refused.
fn leave_out<'a>(
    forgiving: bool,
    text: &'a str,
    refusal: Refusal<'a>,
) -> Result<(Option<Complex<'a>>, &'a str), Refusal<'a>>
    ensures { Reads (option_map complex_of) result
        (no_selector_of forgiving text.now refusal.entry.why refusal.entry.rest.now) }
{
    if forgiving && !is_lasting(refusal.why) {
        return Ok((None, past_part(text)));
    }
    Err(refusal)
}

/// Ends a part of a list after the selector that was read of it.
fn end_part<'a>(
    forgiving: bool,
    text: &'a str,
    selector: Complex<'a>,
    rest: &'a str,
) -> Result<(Option<Complex<'a>>, &'a str), Refusal<'a>>
    ensures { Reads (option_map complex_of) result
        (part_end forgiving text.now (complex_of selector.entry) (gap rest.now)) }
{
    let (_, rest) = read_gap(rest);
    if ends_part(rest) {
        return Ok((Some(selector), rest));
    }
    leave_out(forgiving, text, Refusal::new(Why::Unexpected, rest))
}

/// Whether a list of this kind leaves out what is no selector.
fn is_forgiving(kind: ListKind) -> bool
    ensures { result ≡ is_forgiving_of kind }
{
    match kind {
        ListKind::Not | ListKind::Has => false,
        ListKind::Is | ListKind::Where => true,
    }
}

/// Keeps a selector of a list, if the part is one.
fn keep<'a>(
    selectors: &mut Vec<Complex<'a>>,
    selector: Option<Complex<'a>>,
) -> Result<(), AllocFailed<Complex<'a>>>
    ensures { IfOk result (λ _. map complex_of selectors.new.items
        ≡ map complex_of selectors.old.items ++ option_to_list (option_map complex_of selector.entry)) }
{
    match selector {
        Some(selector) => selectors.push(selector),
        None => Ok(()),
    }
}

/// Whether one colon is next, and not two.
fn begins_pseudo_class(text: &str) -> bool
    ensures { result ≡ begins_pseudo_class_of text.now }
{
    match split_ascii(text) {
        Some((b':', rest)) => !readers::starts(past_comments(rest), b':'),
        _ => false,
    }
}

/// Reads a compound selector in a list, in which these lists may be open.
#[cycle(lists)]
#[tactic(auto, unfolding(crate::specs::reading::Grammar::compound))]
fn read_compound<'a>(
    alloc: Global,
    room: Room<'_>,
    text: &'a str,
) -> Result<(Vec<Condition<'a>>, &'a str), Refusal<'a>>
    ensures { Reads (λ v. map condition_of v.items) result
        (compound_of_text (names_of room.entry.names.now) (next_condition_of (room_seen room.entry))
        text.now) }
{
    let (conditions, rest) = match read_type(alloc, room.names, text)? {
        Some((simple, rest)) => read_more(alloc, room, Some(simple), rest)?,
        None => read_more(alloc, room, None, text)?,
    };
    if conditions.is_empty() {
        return Err(Refusal::new(Why::NoSelector, text));
    }
    Ok((conditions, rest))
}

/// Reads a combinator and the compound selector after it, if there is one.
#[cycle(lists)]
#[tactic(auto, unfolding(crate::specs::reading::Grammar::next_part_in))]
fn next_part<'a>(
    alloc: Global,
    room: Room<'_>,
    text: &'a str,
) -> Result<Option<(Part<'a>, &'a str)>, Refusal<'a>>
    ensures { Finds part_of result
        (next_part_of (names_of room.entry.names.now) (next_condition_of (room_seen room.entry)) text.now) }
{
    let (spaced, rest) = read_gap(text);
    if let Some((combinator, rest)) = take_sign(rest) {
        let (_, rest) = read_gap(rest);
        let (conditions, rest) = read_compound(alloc, room, rest)?;
        let part = Part {
            combinator,
            conditions,
        };
        return Ok(Some((part, rest)));
    }
    if !(spaced && begins_compound(rest)) {
        return Ok(None);
    }
    let (conditions, rest) = read_compound(alloc, room, rest)?;
    let part = Part {
        combinator: Combinator::Descendant,
        conditions,
    };
    Ok(Some((part, rest)))
}

/// Reads the compound selectors after the first.
#[cycle(lists)]
fn read_parts<'a>(
    alloc: Global,
    room: Room<'_>,
    first: Part<'a>,
    text: &'a str,
) -> Result<(Vec<Part<'a>>, &'a str), Refusal<'a>>
    ensures { Reads (λ v. map part_of v.items) result
        (found_before (part_of first.entry ∷ [])
        (items (next_part_of (names_of room.entry.names.now) (next_condition_of (room_seen room.entry)))
        text.now)) }
{
    let mut parts = Vec::new(alloc);
    parts.push(first)?;
    let mut rest = text;
    let mut left = text.len();
    'parts: while left > 0 {
        match next_part(alloc, room, rest)? {
            Some((part, after)) => {
                parts.push(part)?;
                rest = after;
            }
            None => return Ok((parts, rest)),
        }
        left -= 1;
    }
    Ok((parts, rest))
}

/// Reads a complex selector in a list, of which the first compound selector is joined so to what is
/// before it.
#[cycle(lists)]
#[tactic(auto, unfolding(crate::specs::reading::Grammar::complex_by))]
fn read_joined<'a>(
    alloc: Global,
    room: Room<'_>,
    combinator: Combinator,
    text: &'a str,
) -> Result<(Complex<'a>, &'a str), Refusal<'a>>
    ensures { Reads complex_of result
        (complex_by (names_of room.entry.names.now) combinator (next_condition_of (room_seen room.entry))
        text.now) }
{
    let (conditions, rest) = read_compound(alloc, room, text)?;
    let first = Part {
        combinator,
        conditions,
    };
    let (parts, rest) = read_parts(alloc, room, first, rest)?;
    Ok((Complex { parts }, rest))
}

/// Reads a complex selector in a list of this kind.
#[cycle(lists)]
#[tactic(auto, unfolding(crate::specs::reading::Grammar::complex))]
fn read_complex<'a>(
    alloc: Global,
    room: Room<'_>,
    kind: ListKind,
    text: &'a str,
) -> Result<(Complex<'a>, &'a str), Refusal<'a>>
    ensures { Reads complex_of result
        (complex_of_text (names_of room.entry.names.now) kind (next_condition_of (room_seen room.entry))
        text.now) }
{
    match take_leading(kind, text) {
        Some((combinator, rest)) => {
            let (_, rest) = read_gap(rest);
            read_joined(alloc, room, combinator, rest)
        }
        None => read_joined(alloc, room, Combinator::Descendant, text),
    }
}

/// Reads a part of a list of this kind. In a forgiving list it may be no selector.
#[cycle(lists)]
#[tactic(auto, unfolding(crate::specs::reading::Grammar::listed_part))]
fn read_listed<'a>(
    alloc: Global,
    room: Room<'_>,
    kind: ListKind,
    text: &'a str,
) -> Result<(Option<Complex<'a>>, &'a str), Refusal<'a>>
    ensures { Reads (option_map complex_of) result
        (listed_part (names_of room.entry.names.now) kind (next_condition_of (room_seen room.entry))
        text.now) }
{
    let (_, start) = read_gap(text);
    match read_complex(alloc, room, kind, start) {
        Ok((selector, rest)) => end_part(is_forgiving(kind), text, selector, rest),
        Err(refusal) if refusal.why == Why::Memory => Err(refusal),
        Err(refusal) => leave_out(is_forgiving(kind), text, refusal),
    }
}

/// Reads a comma and a further part of a list, if there is a comma.
#[cycle(lists)]
#[tactic(auto, unfolding(crate::specs::reading::Grammar::next_listed))]
fn next_listed<'a>(
    alloc: Global,
    room: Room<'_>,
    kind: ListKind,
    text: &'a str,
) -> Result<Option<(Option<Complex<'a>>, &'a str)>, Refusal<'a>>
    ensures { Finds (option_map complex_of) result
        (next_listed_of (names_of room.entry.names.now) kind (next_condition_of (room_seen room.entry))
        text.now) }
{
    match split_ascii(text) {
        Some((b',', rest)) => Ok(Some(read_listed(alloc, room, kind, rest)?)),
        _ => Ok(None),
    }
}

/// Reads further parts of a list, and returns its selectors.
#[cycle(lists)]
fn read_selectors<'a>(
    alloc: Global,
    room: Room<'_>,
    kind: ListKind,
    first: Option<Complex<'a>>,
    text: &'a str,
) -> Result<(Vec<Complex<'a>>, &'a str), Refusal<'a>>
    ensures { Reads (λ v. map complex_of v.items) result
        (selectors_after (names_of room.entry.names.now) kind (next_condition_of (room_seen room.entry))
        (option_map complex_of first.entry) text.now) }
{
    let mut selectors = Vec::new(alloc);
    keep(&mut selectors, first)?;
    let mut rest = text;
    let mut left = text.len();
    'selectors: while left > 0 {
        match next_listed(alloc, room, kind, rest)? {
            Some((selector, after)) => {
                keep(&mut selectors, selector)?;
                rest = after;
            }
            None => return Ok((selectors, rest)),
        }
        left -= 1;
    }
    Ok((selectors, rest))
}

/// Reads the list of a pseudo-class, from after its parenthesis. It is one of those that may be
/// open. `opened` is the text from its colon on.
#[cycle(lists)]
#[tactic(auto, unfolding(crate::specs::reading::Grammar::complex_list))]
fn read_list<'a>(
    alloc: Global,
    room: Room<'_>,
    kind: ListKind,
    opened: &'a str,
    text: &'a str,
) -> Result<(Vec<Complex<'a>>, &'a str), Refusal<'a>>
    ensures { Reads (λ v. map complex_of v.items) result
        (list_within (room_seen room.entry) kind opened.now text.now) }
{
    if room.depth == 0 {
        return Err(Refusal::new(Why::TooDeep, opened));
    }
    if !may_open(kind, room.in_has) {
        return Err(Refusal::new(Why::Unexpected, opened));
    }
    let inner = within(kind, room);
    let (first, rest) = read_listed(alloc, inner, kind, text)?;
    let (selectors, rest) = read_selectors(alloc, inner, kind, first, rest)?;
    let (_, rest) = read_closing(b')', rest)?;
    Ok((selectors, rest))
}

/// Reads the list after `of`. `opened` is the text from the colon of the pseudo-class on.
#[cycle(lists)]
fn read_of<'a>(
    alloc: Global,
    room: Room<'_>,
    opened: &'a str,
    test: ListTest,
    text: &'a str,
) -> Result<(Condition<'a>, &'a str), Refusal<'a>>
    ensures { Reads condition_of result
        (of_list (list_within (room_seen room.entry)) (list_test_of test) opened.now text.now) }
{
    let (selectors, rest) = read_list(alloc, room, ListKind::Not, opened, text)?;
    Ok((Condition::Tested(test, selectors), rest))
}

/// Reads what is after `An+B`. `opened` is the text from the colon of the pseudo-class on.
#[cycle(lists)]
fn read_after_progression<'a>(
    alloc: Global,
    room: Room<'_>,
    opened: &'a str,
    numbering: Numbering,
    progression: Progression,
    text: &'a str,
) -> Result<(Condition<'a>, &'a str), Refusal<'a>>
    ensures { Reads condition_of result
        (after_progression (list_within (room_seen room.entry)) opened.now numbering
        (progression_of progression)
        (list_test_for numbering (progression_of progression)) text.now) }
{
    match list_test(numbering, progression) {
        Some(test) if begins_name(text) => {
            let (word, rest) = read_name(alloc, text)?;
            if word.as_str().eq_ignore_ascii_case("of") {
                read_of(alloc, room, opened, test, rest)
            } else {
                Err(Refusal::new(Why::Unexpected, text))
            }
        }
        _ => {
            let (_, rest) = read_closing(b')', text)?;
            let structure = numbered_by(numbering, progression);
            Ok((Condition::Simple(Simple::Structure(structure)), rest))
        }
    }
}

/// Reads the argument of a functional pseudo-class without a list of its own. `opened` is the text from
/// its colon on.
#[cycle(lists)]
fn read_functional<'a>(
    alloc: Global,
    room: Room<'_>,
    opened: &'a str,
    name: CowStr<'a>,
    function: Option<Function>,
    text: &'a str,
) -> Result<(Condition<'a>, &'a str), Refusal<'a>>
    ensures { Reads condition_of result
        (functional (names_of room.entry.names.now) (list_within (room_seen room.entry)) opened.now
        (cow_str_bytes name.entry) function text.now) }
{
    match function {
        None => {
            let (argument, rest) = read_argument_of(room.names, opened, name.as_str(), text)?;
            let call = FunctionCall { name, argument };
            Ok((Condition::Simple(Simple::Function(call)), rest))
        }
        Some(Function::Language) => {
            let (ranges, rest) = read_ranges(alloc, text)?;
            Ok((Condition::Simple(Simple::Language(ranges)), rest))
        }
        Some(Function::Numbered(numbering)) => {
            let (_, rest) = read_gap(text);
            let (progression, rest) = read_progression(alloc, rest)?;
            let (_, rest) = read_gap(rest);
            read_after_progression(alloc, room, opened, numbering, progression, rest)
        }
    }
}

/// Reads the argument of a functional pseudo-class of this name. `opened` is the text from its colon
/// on.
#[cycle(lists)]
fn read_argument<'a>(
    alloc: Global,
    room: Room<'_>,
    opened: &'a str,
    name: CowStr<'a>,
    text: &'a str,
) -> Result<(Condition<'a>, &'a str), Refusal<'a>>
    ensures { Reads condition_of result
        (let n : List ℕ = cow_str_bytes name.entry in
        with_argument (names_of room.entry.names.now) (list_within (room_seen room.entry)) opened.now n
        (list_kind_of n) (function_of n) text.now) }
{
    match list_kind(name.as_str()) {
        Some(kind) => {
            let (selectors, rest) = read_list(alloc, room, kind, opened, text)?;
            Ok((listed(kind, selectors), rest))
        }
        None => {
            let function = function_named(name.as_str());
            read_functional(alloc, room, opened, name, function, text)
        }
    }
}

/// Reads a pseudo-class, from its name on, unless it is a pseudo-element. `opened` is the text
/// from the colon on.
#[cycle(lists)]
fn read_pseudo_condition<'a>(
    alloc: Global,
    room: Room<'_>,
    opened: &'a str,
    text: &'a str,
) -> Result<Option<(Condition<'a>, &'a str)>, Refusal<'a>>
    ensures { Finds condition_of result
        (step_after (name_of text.now)
        (pseudo_condition (names_of room.entry.names.now) (list_within (room_seen room.entry)) opened.now)) }
{
    let (name, rest) = read_name(alloc, text)?;
    if let Some((b'(', after)) = split_ascii(rest) {
        return Ok(Some(read_argument(alloc, room, opened, name, after)?));
    }
    if is_old_element(name.as_str()) {
        return Ok(None);
    }
    let (simple, rest) = plain_pseudo(room.names, opened, name, rest)?;
    Ok(Some((Condition::Simple(simple), rest)))
}

/// Reads the next condition of a compound selector, if there is one, in which these lists may
/// be open.
#[cycle(lists)]
pub(crate) fn next_condition<'a>(
    alloc: Global,
    room: Room<'_>,
    text: &'a str,
) -> Result<Option<(Condition<'a>, &'a str)>, Refusal<'a>>
    ensures { Finds condition_of result (next_condition_of (room_seen room.entry) text.now) }
{
    let text = past_comments(text);
    if begins_pseudo_class(text) {
        return read_pseudo_condition(alloc, room, text, past_comments(past_ascii(text)));
    }
    match next_simple(alloc, room.names, text)? {
        Some((simple, rest)) => Ok(Some((Condition::Simple(simple), rest))),
        None => Ok(None),
    }
}

/// Reads conditions after those that were found.
#[cycle(lists)]
fn read_more<'a>(
    alloc: Global,
    room: Room<'_>,
    first: Option<Simple<'a>>,
    text: &'a str,
) -> Result<(Vec<Condition<'a>>, &'a str), Refusal<'a>>
    ensures { Reads (λ v. map condition_of v.items) result
        (found_before (map (λ s. simple (simple_of s)) (option_to_list first.entry))
        (items (next_condition_of (room_seen room.entry)) text.now)) }
{
    let mut conditions = Vec::with_capacity(alloc, 2)?;
    if let Some(simple) = first {
        conditions.push(Condition::Simple(simple))?;
    }
    let mut rest = text;
    let mut left = text.len();
    'conditions: while left > 0 {
        match next_condition(alloc, room, rest)? {
            Some((condition, after)) => {
                conditions.push(condition)?;
                rest = after;
            }
            None => return Ok((conditions, rest)),
        }
        left -= 1;
    }
    Ok((conditions, rest))
}

/// Reads a compound selector, which may be empty before a pseudo-element: a colon that begins no
/// condition.
#[tactic(auto, unfolding(crate::specs::reading::Grammar::conditions))]
pub(crate) fn read_conditions<'a>(
    alloc: Global,
    names: &Names<'_>,
    text: &'a str,
) -> Result<(Vec<Condition<'a>>, &'a str), Refusal<'a>>
    ensures { Reads (λ v. map condition_of v.items) result
        (conditions_of (names_of names.now) text.now) }
{
    let room = outside(names);
    let (conditions, rest) = match read_type(alloc, names, text)? {
        Some((simple, rest)) => read_more(alloc, room, Some(simple), rest)?,
        None => read_more(alloc, room, None, text)?,
    };
    if conditions.is_empty() && !readers::starts(text, b':') {
        return Err(Refusal::new(Why::NoSelector, text));
    }
    Ok((conditions, rest))
}
