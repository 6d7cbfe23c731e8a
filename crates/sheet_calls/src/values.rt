//! What values mean as far as names go: references, shorthands, and what is inherited.

ghost use Rattle.std.specs.Prelude.{◌≡◌, ◌||◌, IfOk, MatchResult, None, Some, drop, map, string_bytes, take};
ghost use Rattle.css_text.specs.AsciiBytes.{hyphen};
ghost use Rattle.css_text.specs.Bytes.{starts_two};
ghost use Rattle.css_values.specs.Names.{is_named_in as is_named_in_of};
ghost use Rattle.css_values.specs.Lines.{properties_in as properties_in_of};
ghost use Rattle.css_values.specs.Views.{stated_of};
ghost use Rattle.call_answers.specs.Calls.{FailsFor};
ghost use Rattle.call_answers.specs.Outcomes.{outcome_of, truth_outcome};
ghost use Rattle.sheet_calls.specs.Values.{AreLinesOf, AreValues, FailsPairs, IsInheritedCall, IsLonghandsCall, IsResolveCall};
ghost use Rattle.sheet_calls.specs.Values.{IsPropertyCall, IsShorthandsCall, IsValidCall, truth_of as truth_for};
ghost use Rattle.sheet_calls.specs.Values.{question_of as question_of_number};

use call_answers::answer::{CallError, check_length};
use call_answers::texts::{text_of, texts_of};
use css_conditions::Truth;
use css_values::{
    INHERITED, LOGICAL, Property, SHORTHANDS, is_named_in, is_valid, longhands_in, name_lines,
    properties_in, read_registrations, resolve, shorthands_in, value_lines,
};
use std::alloc::{AllocError, Global};

/// Returns the properties of texts, which are the name and the value of each.
fn properties_of<'t>(alloc: Global, texts: &[&'t str]) -> Result<Vec<Property<'t>>, CallError>
    ensures { MatchResult result
        (λ found. properties_in_of (map (λ text. text.now) texts.now)
        ≡ Some (map stated_of found.items))
        (FailsFor (properties_in_of (map (λ text. text.now) texts.now) ≡ None) (λ fault. ⊥) ⊥) }
{
    match properties_in(alloc, texts)? {
        None => Err(CallError::Refused),
        Some(found) => Ok(found),
    }
}

/// Returns the first of properties, at most this many.
fn first_properties<'p, 't>(properties: &'p [Property<'t>], count: usize) -> &'p [Property<'t>]
    ensures { map stated_of result.now ≡ take count (map stated_of properties.now) }
{
    &properties[..count.min(properties.len())]
}

/// Returns the properties after this many.
fn later_properties<'p, 't>(properties: &'p [Property<'t>], count: usize) -> &'p [Property<'t>]
    ensures { map stated_of result.now ≡ drop count (map stated_of properties.now) }
{
    &properties[count.min(properties.len())..]
}

/// Returns the lines of the values of properties: of these this many are those that an element declares, and
/// this many `@property` rules.
fn values_lines(
    alloc: Global,
    properties: &[Property<'_>],
    wanted: usize,
    registered: usize,
    limit: usize,
) -> Result<String, AllocError>
    ensures { IfOk result (λ out.
        AreLinesOf wanted registered limit (map stated_of properties.now) (string_bytes out)) }
{
    let others = later_properties(properties, wanted);
    let registrations = read_registrations(alloc, first_properties(others, registered))?;
    let own = first_properties(properties, wanted);
    let handed = later_properties(others, registered);
    let values = resolve(alloc, limit, &registrations, own, handed)?;
    value_lines(alloc, &values)
}

/// Returns the lines of the values of the first `wanted` of the pairs of a buffer.
fn lines_of(
    alloc: Global,
    texts: &[u8],
    ends: &[usize],
    wanted: usize,
    registered: usize,
    limit: usize,
) -> Result<String, CallError>
    ensures { MatchResult result
        (λ out. AreValues wanted registered limit texts.now ends.now (string_bytes out))
        (FailsPairs texts.now ends.now ⊥) }
{
    let pairs = texts_of(alloc, texts, ends)?;
    let properties = properties_of(alloc, &pairs)?;
    let out = values_lines(alloc, &properties, wanted, registered, limit)?;
    Ok(out)
}

/// The values of the first `wanted` of properties, where this many after them are `@property` rules.
pub fn values(
    alloc: Global,
    texts: &[u8],
    ends: &[usize],
    wanted: usize,
    registered: usize,
    limit: usize,
    most: usize,
) -> Result<String, CallError>
    ensures { IsResolveCall wanted registered limit most texts.now ends.now (outcome_of result) }
{
    let out = lines_of(alloc, texts, ends, wanted, registered, limit)?;
    check_length(&out, most)?;
    Ok(out)
}

/// Returns a truth value.
fn truth(holds: bool) -> Truth
    ensures { result ≡ truth_for holds }
{
    if holds { Truth::True } else { Truth::False }
}

/// Whether the references of a value are valid.
pub fn is_valid_value(alloc: Global, value: &[u8]) -> Result<Truth, CallError>
    ensures { IsValidCall value.now (truth_outcome result) }
{
    let text = text_of(value)?;
    Ok(truth(is_valid(alloc, text)?))
}

/// What is asked of a property.
#[derive(Clone, Copy, Debug, PartialEq)]
pub enum PropertyQuestion {
    /// The longhands that a shorthand sets.
    Longhands,
    /// The shorthands that set a longhand.
    Shorthands,
    /// The other name of a longhand that has a logical and a physical one, where text is horizontal, from left to
    /// right.
    Counterpart,
    /// Whether it is inherited.
    IsInherited,
}

/// What is asked by a number.
fn question_of(asked: usize) -> Option<PropertyQuestion>
    ensures { result ≡ question_of_number asked }
{
    match asked {
        0 => Some(PropertyQuestion::Longhands),
        1 => Some(PropertyQuestion::Shorthands),
        2 => Some(PropertyQuestion::Counterpart),
        3 => Some(PropertyQuestion::IsInherited),
        _ => None,
    }
}

/// What a name stands for in a table.
fn names_in(alloc: Global, table: &str, name: &[u8]) -> Result<String, CallError>
    ensures { IsLonghandsCall table.now name.now (outcome_of result) }
{
    let text = text_of(name)?;
    match longhands_in(table, text) {
        None => Err(CallError::Refused),
        Some(names) => Ok(names.to_string(alloc)?),
    }
}

/// The shorthands that set a longhand, each with a newline after it.
fn shorthands(alloc: Global, name: &[u8]) -> Result<String, CallError>
    ensures { IsShorthandsCall SHORTHANDS.now name.now (outcome_of result) }
{
    let text = text_of(name)?;
    let found = shorthands_in(alloc, SHORTHANDS, text)?;
    Ok(name_lines(alloc, &found)?)
}

/// Whether the name begins with two hyphens, as that of each custom property does.
fn begins_custom(name: &str) -> bool
    ensures { result ≡ starts_two hyphen hyphen name.now }
{
    matches!(name.as_bytes(), [b'-', b'-', ..])
}

/// Whether parents hand down the property of this name.
fn is_handed_down(name: &str) -> bool
    ensures { result ≡ (starts_two hyphen hyphen name.now || is_named_in_of INHERITED.now name.now) }
{
    if begins_custom(name) {
        return true;
    }
    is_named_in(INHERITED, name)
}

/// Whether a property is inherited, as a word.
fn inherited(alloc: Global, name: &[u8]) -> Result<String, CallError>
    ensures { IsInheritedCall INHERITED.now name.now (outcome_of result) }
{
    let text = text_of(name)?;
    let word = if is_handed_down(text) {
        "true"
    } else {
        "false"
    };
    Ok(word.to_string(alloc)?)
}

/// What is asked of a property by a number. Another number is refused.
pub fn property(alloc: Global, name: &[u8], asked: usize) -> Result<String, CallError>
    ensures { IsPropertyCall SHORTHANDS.now LOGICAL.now INHERITED.now (question_of_number asked) name.now
        (outcome_of result) }
{
    match question_of(asked) {
        Some(PropertyQuestion::Longhands) => names_in(alloc, SHORTHANDS, name),
        Some(PropertyQuestion::Shorthands) => shorthands(alloc, name),
        Some(PropertyQuestion::Counterpart) => names_in(alloc, LOGICAL, name),
        Some(PropertyQuestion::IsInherited) => inherited(alloc, name),
        None => Err(CallError::Refused),
    }
}
