//! Reads pseudo-elements and what follows them.
ghost use Rattle.std.specs.Prelude.{◌≡◌, map, option_map};
ghost use Rattle.std.specs.Cow.{cow_str_bytes};
ghost use Rattle.css_selector_text.specs.reading.Grammar.{past_colon as past_colon_of, element_argument, element_name, after_element, pseudo_element as pseudo_element_of_text};
ghost use Rattle.css_selector_text.specs.NameViews.{names_of};
ghost use Rattle.css_selector_text.specs.reading.Readings.{items};
ghost use Rattle.css_selector_text.specs.internal.Reads.{Reads, Finds};
ghost use Rattle.css_selector_text.specs.Views.{condition_of, element_name_of, pseudo_element_of};

use crate::components::{Condition, ElementName, PseudoElement, Simple};
use crate::names::Names;
use crate::reading::arguments::read_kept;
use crate::reading::compounds::next_condition;
use crate::reading::known_names::{is_element, is_element_function};
use crate::reading::room::outside;
use crate::reading::texts::split_ascii;
use crate::reading::words::{past_comments, read_name};
use crate::refusal::{Refusal, Why};
use std::alloc::Global;
use std::borrow::CowStr;

/// Skips a second colon, if there is one, and comments.
fn past_colon(text: &str) -> &str
    ensures { result.now ≡ past_colon_of text.now }
{
    match split_ascii(text) {
        Some((b':', rest)) => past_comments(rest),
        _ => past_comments(text),
    }
}

/// Reads the argument of a pseudo-element of this name, if it has one. `opened` is the text from its
/// first colon on.
#[tactic(auto, unfolding(crate::specs::reading::Grammar::element_argument))]
fn read_element_argument<'a>(
    names: &Names<'_>,
    opened: &'a str,
    name: &str,
    text: &'a str,
) -> Result<(Option<CowStr<'a>>, &'a str), Refusal<'a>>
    ensures { Reads (λ a. option_map cow_str_bytes a) result
        (element_argument (names_of names.now) opened.now name.now text.now) }
{
    let Some((b'(', rest)) = split_ascii(text) else {
        if !is_element(names, name) {
            return Err(Refusal::new(Why::UnknownName, opened));
        }
        return Ok((None, text));
    };
    if !is_element_function(names, name) {
        return Err(Refusal::new(Why::UnknownFunction, opened));
    }
    let (argument, rest) = read_kept(rest)?;
    Ok((Some(CowStr::Borrowed(argument)), rest))
}

/// Reads the name of a pseudo-element, from after its first colon, and its argument. `opened` is the text
/// from that colon on.
#[tactic(auto, unfolding(crate::specs::reading::Grammar::element_name))]
fn read_element_name<'a>(
    alloc: Global,
    names: &Names<'_>,
    opened: &'a str,
    text: &'a str,
) -> Result<(ElementName<'a>, &'a str), Refusal<'a>>
    ensures { Reads element_name_of result (element_name (names_of names.now) opened.now text.now) }
{
    let (name, rest) = read_name(alloc, past_colon(past_comments(text)))?;
    let (argument, rest) = read_element_argument(names, opened, name.as_str(), rest)?;
    Ok((ElementName { name, argument }, rest))
}

/// Reads a pseudo-class or a pseudo-element, if one is next.
#[tactic(auto, unfolding(crate::specs::reading::Grammar::after_element))]
fn next_after_element<'a>(
    alloc: Global,
    names: &Names<'_>,
    text: &'a str,
) -> Result<Option<(Condition<'a>, &'a str)>, Refusal<'a>>
    ensures { Finds condition_of result (after_element (names_of names.now) text.now) }
{
    let text = past_comments(text);
    let Some((b':', rest)) = split_ascii(text) else {
        return Ok(None);
    };
    if let Some((condition, rest)) = next_condition(alloc, outside(names), text)? {
        return Ok(Some((condition, rest)));
    }
    let (element, rest) = read_element_name(alloc, names, text, rest)?;
    Ok(Some((Condition::Simple(Simple::Element(element)), rest)))
}

/// Reads what follows a pseudo-element.
fn read_after_element<'a>(
    alloc: Global,
    names: &Names<'_>,
    text: &'a str,
) -> Result<(Vec<Condition<'a>>, &'a str), Refusal<'a>>
    ensures { Reads (λ v. map condition_of v.items) result
        (items (after_element (names_of names.now)) text.now) }
{
    let mut conditions = Vec::new(alloc);
    let mut rest = text;
    let mut left = text.len();
    'conditions: while left > 0 {
        match next_after_element(alloc, names, rest)? {
            Some((condition, after)) => {
                conditions.push(condition)?;
                rest = after;
            }
            None => return Ok((conditions, rest)),
        }
        left -= 1;
    }
    Ok((conditions, rest))
}

/// Reads the pseudo-element after the compound selectors, if there is one, and what follows it.
#[tactic(auto, unfolding(crate::specs::reading::Grammar::pseudo_element))]
pub(crate) fn read_pseudo_element<'a>(
    alloc: Global,
    names: &Names<'_>,
    text: &'a str,
) -> Result<(Option<PseudoElement<'a>>, &'a str), Refusal<'a>>
    ensures { Reads (λ e. option_map pseudo_element_of e) result
        (pseudo_element_of_text (names_of names.now) text.now) }
{
    let Some((b':', rest)) = split_ascii(text) else {
        return Ok((None, text));
    };
    let (element, rest) = read_element_name(alloc, names, text, rest)?;
    let (after, rest) = read_after_element(alloc, names, rest)?;
    Ok((Some(PseudoElement { element, after }), rest))
}
