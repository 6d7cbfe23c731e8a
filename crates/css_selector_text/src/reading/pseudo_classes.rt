//! Reads pseudo-classes.
ghost use Rattle.std.specs.Prelude.{◌≡◌, ℕ, List, option_map};
ghost use Rattle.css_selector_text.specs.reading.Grammar.{plain_structure, numbering as numbering_of, numbered_by as numbered_by_of};
ghost use Rattle.css_selector_text.specs.reading.Grammar.{list_kind as list_kind_of, list_test as list_test_for};
ghost use Rattle.css_selector_text.specs.reading.Grammar.{is_old_element as is_old_element_of, argument_of};
ghost use Rattle.css_selector_text.specs.reading.KnownNames.{functions};
ghost use Rattle.css_selector_text.specs.NameViews.{names_of};
ghost use Rattle.css_selector_text.specs.internal.Reads.{Reads};
ghost use Rattle.std.specs.Cow.{cow_str_bytes};
ghost use Rattle.css_selector_text.specs.reading.Grammar.{function_named as function_named_of, plain_pseudo as plain_pseudo_of};
ghost use Rattle.css_selector_text.specs.Views.{list_test_of, structure_of, progression_of, simple_of};

use crate::components::{
    Function, FunctionCall, ListKind, ListTest, Numbering, Progression, Simple, Structure,
};
use crate::names::Names;
use crate::reading::arguments::read_kept;
use crate::reading::known_names::{is_function, is_state};
use crate::reading::languages::read_ranges;
use crate::reading::numbers::read_progression;
use crate::reading::words::{read_closing, read_gap};
use crate::refusal::{Refusal, Why};
use std::alloc::Global;
use std::borrow::CowStr;

/// Returns the structural pseudo-class without an argument of this name, or `:scope`, if there is one.
fn structure_named(name: &str) -> Option<Structure>
    ensures { option_map structure_of result ≡ plain_structure name.now }
{
    if name.eq_ignore_ascii_case("root") {
        Some(Structure::Root)
    } else if name.eq_ignore_ascii_case("scope") {
        Some(Structure::Scope)
    } else if name.eq_ignore_ascii_case("empty") {
        Some(Structure::Empty)
    } else if name.eq_ignore_ascii_case("first-child") {
        Some(Structure::FirstChild)
    } else if name.eq_ignore_ascii_case("last-child") {
        Some(Structure::LastChild)
    } else if name.eq_ignore_ascii_case("only-child") {
        Some(Structure::OnlyChild)
    } else if name.eq_ignore_ascii_case("first-of-type") {
        Some(Structure::FirstOfType)
    } else if name.eq_ignore_ascii_case("last-of-type") {
        Some(Structure::LastOfType)
    } else if name.eq_ignore_ascii_case("only-of-type") {
        Some(Structure::OnlyOfType)
    } else {
        None
    }
}

/// Returns what siblings the pseudo-class of this name numbers.
fn numbering(name: &str) -> Option<Numbering>
    ensures { result ≡ numbering_of name.now }
{
    if name.eq_ignore_ascii_case("nth-child") {
        Some(Numbering::Child)
    } else if name.eq_ignore_ascii_case("nth-last-child") {
        Some(Numbering::LastChild)
    } else if name.eq_ignore_ascii_case("nth-of-type") {
        Some(Numbering::OfType)
    } else if name.eq_ignore_ascii_case("nth-last-of-type") {
        Some(Numbering::LastOfType)
    } else {
        None
    }
}

/// Returns which functional pseudo-class without a list has this name.
pub(crate) fn function_named(name: &str) -> Option<Function>
    ensures { result ≡ function_named_of name.now }
{
    if name.eq_ignore_ascii_case("lang") {
        return Some(Function::Language);
    }
    Some(Function::Numbered(numbering(name)?))
}

/// Returns the structural pseudo-class that numbers these siblings.
pub(crate) fn numbered_by(numbering: Numbering, progression: Progression) -> Structure
    ensures { structure_of result ≡ numbered_by_of numbering (progression_of progression) }
{
    match numbering {
        Numbering::Child => Structure::NthChild(progression),
        Numbering::LastChild => Structure::NthLastChild(progression),
        Numbering::OfType => Structure::NthOfType(progression),
        Numbering::LastOfType => Structure::NthLastOfType(progression),
    }
}

/// Returns which pseudo-class with a list has this name.
pub(crate) fn list_kind(name: &str) -> Option<ListKind>
    ensures { result ≡ list_kind_of name.now }
{
    if name.eq_ignore_ascii_case("not") {
        Some(ListKind::Not)
    } else if name.eq_ignore_ascii_case("is") {
        Some(ListKind::Is)
    } else if name.eq_ignore_ascii_case("where") {
        Some(ListKind::Where)
    } else if name.eq_ignore_ascii_case("has") {
        Some(ListKind::Has)
    } else {
        None
    }
}

/// Whether this is the name of one of the four pseudo-elements that may have one colon.
pub(crate) fn is_old_element(name: &str) -> bool
    ensures { result ≡ is_old_element_of name.now }
{
    name.eq_ignore_ascii_case("before")
        || name.eq_ignore_ascii_case("after")
        || name.eq_ignore_ascii_case("first-line")
        || name.eq_ignore_ascii_case("first-letter")
}

/// Reads the argument of a functional pseudo-class without a meaning here, which is kept as it is
/// written. `opened` is the text from its colon on.
pub(crate) fn read_argument_of<'a>(
    names: &Names<'_>,
    opened: &'a str,
    name: &str,
    text: &'a str,
) -> Result<(CowStr<'a>, &'a str), Refusal<'a>>
    ensures { Reads cow_str_bytes result
        (argument_of (functions (names_of names.now)) opened.now name.now text.now) }
{
    if !is_function(names, name) {
        return Err(Refusal::new(Why::UnknownFunction, opened));
    }
    let (argument, rest) = read_kept(text)?;
    Ok((CowStr::Borrowed(argument), rest))
}

/// Returns the pseudo-class without an argument of this name. `opened` is the text from its colon on.
pub(crate) fn plain_pseudo<'a>(
    names: &Names<'_>,
    opened: &'a str,
    name: CowStr<'a>,
    rest: &'a str,
) -> Result<(Simple<'a>, &'a str), Refusal<'a>>
    ensures { Reads simple_of result
        (let n : List ℕ = cow_str_bytes name.entry in
        plain_pseudo_of (names_of names.now) opened.now n (plain_structure n) rest.now) }
{
    match structure_named(name.as_str()) {
        Some(structure) => Ok((Simple::Structure(structure), rest)),
        None if is_state(names, name.as_str()) => Ok((Simple::State(name), rest)),
        None => Err(Refusal::new(Why::UnknownName, opened)),
    }
}

/// Returns what is asked of a list after `An+B`, if one may be there: only where all siblings are
/// numbered.
pub(crate) fn list_test(numbering: Numbering, progression: Progression) -> Option<ListTest>
    ensures { option_map list_test_of result
        ≡ list_test_for numbering (progression_of progression) }
{
    match numbering {
        Numbering::Child => Some(ListTest::NthChild(progression)),
        Numbering::LastChild => Some(ListTest::NthLastChild(progression)),
        Numbering::OfType | Numbering::LastOfType => None,
    }
}
