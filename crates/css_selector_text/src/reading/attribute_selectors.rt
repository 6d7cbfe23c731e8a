//! Reads attribute selectors.
ghost use Rattle.std.specs.Prelude.{◌≡◌, option_map};
ghost use Rattle.css_text.specs.Bytes.{starts_by};
ghost use Rattle.css_selector_text.specs.reading.Grammar.{is_sign_byte, two_bytes as two_bytes_of, comparison as comparison_of_text};
ghost use Rattle.css_selector_text.specs.reading.Grammar.{value as value_of, flag as flag_of, compared, attribute_from_name, attribute_selector};
ghost use Rattle.css_selector_text.specs.internal.Reads.{reading_of, Reads};
ghost use Rattle.std.specs.Cow.{cow_str_bytes};
ghost use Rattle.css_selector_text.specs.NameViews.{names_of};
ghost use Rattle.css_selector_text.specs.Views.{comparison_of, local_of, simple_of};

use crate::components::{AttributeTest, Comparison, Local, Simple};
use crate::names::Names;
use crate::reading::namespaces::{in_namespace, read_namespace};
use crate::reading::texts::split_ascii;
use crate::reading::words::{read_closing, read_gap, read_name, read_string};
use crate::refusal::{Refusal, Why};
use css_text::readers;
use std::alloc::Global;
use std::borrow::CowStr;

/// Returns the operator of two bytes, by its first.
fn two_bytes(byte: u8) -> Option<Comparison>
    ensures { option_map comparison_of result ≡ two_bytes_of byte }
{
    match byte {
        b'~' => Some(Comparison::HasWord),
        b'|' => Some(Comparison::HasSubtag),
        b'^' => Some(Comparison::Starts),
        b'$' => Some(Comparison::Ends),
        b'*' => Some(Comparison::Contains),
        _ => None,
    }
}

/// Whether a sign that no value begins with is next.
fn begins_sign(text: &str) -> bool
    ensures { result ≡ starts_by is_sign_byte text.now }
{
    matches!(text.as_bytes(), [b'=' | b'>' | b'<', ..])
}

/// Reads an operator, if the attribute selector does not end here.
#[tactic(auto, unfolding(crate::specs::reading::Grammar::comparison))]
fn read_comparison(text: &str) -> Result<(Option<Comparison>, &str), Refusal<'_>>
    ensures { reading_of (λ o. option_map comparison_of o) result ≡ comparison_of_text text.now }
{
    if text.is_empty() {
        return Ok((None, text));
    }
    let Some((byte, rest)) = split_ascii(text) else {
        return Err(Refusal::new(Why::NoOperator, text));
    };
    if byte == b']' {
        return Ok((None, text));
    }
    if byte == b'=' {
        return if begins_sign(rest) {
            Err(Refusal::new(Why::NoOperator, text))
        } else {
            Ok((Some(Comparison::Equals), rest))
        };
    }
    match (two_bytes(byte), split_ascii(rest)) {
        (Some(comparison), Some((b'=', after))) => Ok((Some(comparison), after)),
        _ => Err(Refusal::new(Why::NoOperator, text)),
    }
}

/// Reads a string or a name.
#[tactic(auto, unfolding(crate::specs::reading::Grammar::value))]
pub(crate) fn read_value<'a>(
    alloc: Global,
    text: &'a str,
) -> Result<(CowStr<'a>, &'a str), Refusal<'a>>
    ensures { Reads cow_str_bytes result (value_of text.now) }
{
    if text.is_empty() {
        return Err(Refusal::new(Why::NoValue, text));
    }
    match split_ascii(text) {
        Some((quote @ (b'\'' | b'"'), rest)) => read_string(alloc, text, quote, rest),
        _ => read_name(alloc, text),
    }
}

/// Reads a flag, if there is one, and returns whether case is ignored.
#[tactic(auto, unfolding(crate::specs::reading::Grammar::flag))]
fn read_flag<'a>(alloc: Global, text: &'a str) -> Result<(bool, &'a str), Refusal<'a>>
    ensures { Reads (λ f. f) result (flag_of text.now) }
{
    if text.is_empty() || readers::starts(text, b']') {
        return Ok((false, text));
    }
    let (word, rest) = read_name(alloc, text)?;
    let word = word.as_str();
    if word.eq_ignore_ascii_case("i") {
        Ok((true, rest))
    } else if word.eq_ignore_ascii_case("s") {
        Ok((false, rest))
    } else {
        Err(Refusal::new(Why::UnknownFlag, text))
    }
}

/// Reads what follows an operator.
#[tactic(auto, unfolding(crate::specs::reading::Grammar::compared))]
fn read_compared<'a>(
    alloc: Global,
    name: CowStr<'a>,
    comparison: Comparison,
    text: &'a str,
) -> Result<(Local<'a>, &'a str), Refusal<'a>>
    ensures { Reads local_of result
        (compared (cow_str_bytes name.entry) (comparison_of comparison) text.now) }
{
    let (_, rest) = read_gap(text);
    let (value, rest) = read_value(alloc, rest)?;
    let (_, rest) = read_gap(rest);
    let (ignores_case, rest) = read_flag(alloc, rest)?;
    let (_, rest) = read_gap(rest);
    let (_, rest) = read_closing(b']', rest)?;
    let test = AttributeTest {
        name,
        comparison,
        text: value,
        ignores_case,
    };
    Ok((Local::Attribute(test), rest))
}

/// Reads an attribute selector, from its name on.
#[tactic(auto, unfolding(crate::specs::reading::Grammar::attribute_from_name))]
fn read_from_name<'a>(alloc: Global, text: &'a str) -> Result<(Local<'a>, &'a str), Refusal<'a>>
    ensures { Reads local_of result (attribute_from_name text.now) }
{
    let (name, rest) = read_name(alloc, text)?;
    let (_, rest) = read_gap(rest);
    let (comparison, rest) = read_comparison(rest)?;
    match comparison {
        None => {
            let (_, rest) = read_closing(b']', rest)?;
            Ok((Local::HasAttribute(name), rest))
        }
        Some(comparison) => read_compared(alloc, name, comparison, rest),
    }
}

/// Reads an attribute selector, from after its bracket.
#[tactic(auto, unfolding(crate::specs::reading::Grammar::attribute_selector))]
pub(crate) fn read_attribute<'a>(
    alloc: Global,
    names: &Names<'_>,
    text: &'a str,
) -> Result<(Simple<'a>, &'a str), Refusal<'a>>
    ensures { Reads simple_of result (attribute_selector (names_of names.now) text.now) }
{
    let (_, rest) = read_gap(text);
    let (namespace, rest) = read_namespace(alloc, names, rest)?;
    let (local, rest) = read_from_name(alloc, rest)?;
    Ok((in_namespace(namespace, local), rest))
}
