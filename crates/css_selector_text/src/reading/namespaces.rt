//! Reads type selectors, and namespaces before names.
ghost use Rattle.std.specs.Prelude.{◌≡◌, true, false, IfNone, IfOk, IfSome, option_map};
ghost use Rattle.css_text.specs.Bytes.{past_one};
ghost use Rattle.css_selector_text.specs.reading.Grammar.{is_bar, past_any_name as past_any_name_of, at_bar as at_bar_of, prefix as prefix_of};
ghost use Rattle.css_selector_text.specs.reading.Grammar.{namespace as namespace_here, in_namespace as in_namespace_of};
ghost use Rattle.css_selector_text.specs.reading.Grammar.{any_or_name, type_after, type_selector};
ghost use Rattle.css_selector_text.specs.internal.Reads.{Reads, Finds};
ghost use Rattle.css_selector_text.specs.Components.{is_absent as is_absent_of};
ghost use Rattle.css_selector_text.specs.NameViews.{names_of};
ghost use Rattle.css_selector_text.specs.Views.{namespace_of, local_of, simple_of};

use crate::components::{Local, Namespace, Namespaced, Simple};
use crate::names::{Names, number_of};
use crate::reading::texts::split_ascii;
use crate::reading::words::{begins_name, past_comments, read_name};
use crate::refusal::{Refusal, Why};
use css_syntax::decode;
use css_syntax::texts::{front, past_word};
use css_text::readers;
use std::alloc::{AllocError, Global};

/// Whether the namespace is none.
pub fn is_absent(namespace: &Namespace<'_>) -> bool
    ensures { result ≡ is_absent_of (namespace_of namespace.now) }
{
    match namespace {
        Namespace::Absent => true,
        Namespace::Any | Namespace::Prefix(_, _) | Namespace::Default(_) => false,
    }
}

/// Returns the rest after a bar, if one is next that is none of `|=`.
fn take_bar(text: &str) -> Option<&str>
    ensures none { IfNone result (is_bar text.now ≡ false) }
    ensures some { IfSome result
        (λ rest. (is_bar text.now ≡ true) × (rest.now ≡ past_one text.now)) }
{
    match split_ascii(text) {
        Some((b'|', rest)) if !readers::starts(rest, b'=') => Some(rest),
        _ => None,
    }
}

/// Skips `*` or a name, if one is next.
fn past_any_name(text: &str) -> &str
    ensures { result.now ≡ past_any_name_of text.now }
{
    match split_ascii(text) {
        Some((b'*', rest)) => rest,
        _ if begins_name(text) => past_word(text),
        _ => text,
    }
}

/// Skips `*` or a name, if one is next, and comments.
#[tactic(auto, unfolding(crate::specs::reading::Grammar::at_bar))]
fn at_bar(text: &str) -> &str
    ensures { result.now ≡ at_bar_of text.now }
{
    past_comments(past_any_name(text))
}

/// Returns the namespace that is before a bar, unless it is a prefix that is not declared.
#[tactic(auto, using(css_syntax::proofs::PartTexts::word_ends), unfolding(crate::specs::reading::Grammar::prefix))]
fn prefix<'a>(
    alloc: Global,
    names: &Names<'_>,
    text: &'a str,
) -> Result<Option<Namespace<'a>>, AllocError>
    ensures { IfOk result (λ namespace. option_map namespace_of namespace
        ≡ prefix_of (names_of names.now) text.now) }
{
    match split_ascii(text) {
        Some((b'*', _)) => Ok(Some(Namespace::Any)),
        _ if begins_name(text) => {
            let name = decode(alloc, front(text, past_word(text)))?;
            match number_of(names, name.as_str()) {
                Some(number) => Ok(Some(Namespace::Prefix(name, number))),
                None => Ok(None),
            }
        }
        _ => Ok(Some(Namespace::Absent)),
    }
}

/// Reads a namespace and its bar, if they are next. A prefix that is not declared is refused.
#[tactic(auto, unfolding(crate::specs::reading::Grammar::namespace))]
pub(crate) fn read_namespace<'a>(
    alloc: Global,
    names: &Names<'_>,
    text: &'a str,
) -> Result<(Option<Namespace<'a>>, &'a str), Refusal<'a>>
    ensures { Reads (λ n. option_map namespace_of n) result
        (namespace_here (names_of names.now) text.now) }
{
    let Some(rest) = take_bar(at_bar(text)) else {
        return Ok((None, text));
    };
    match prefix(alloc, names, text)? {
        Some(namespace) => Ok((Some(namespace), past_comments(rest))),
        None => Err(Refusal::new(Why::UnknownPrefix, text)),
    }
}

/// Returns the type or attribute selector with the namespace before its name.
pub(crate) fn in_namespace<'a>(namespace: Option<Namespace<'a>>, local: Local<'a>) -> Simple<'a>
    ensures { simple_of result
        ≡ in_namespace_of (option_map namespace_of namespace.entry) (local_of local.entry) }
{
    let Some(namespace) = namespace else {
        return match local {
            Local::Universal | Local::Implied => Simple::Universal,
            Local::TypeName(name) => Simple::TypeName(name),
            Local::HasAttribute(name) => Simple::HasAttribute(name),
            Local::Attribute(test) => Simple::Attribute(test),
        };
    };
    Simple::Namespaced(Namespaced { namespace, local })
}

/// Reads `*` or a name.
#[tactic(auto, unfolding(crate::specs::reading::Grammar::any_or_name))]
fn read_any_or_name<'a>(alloc: Global, text: &'a str) -> Result<(Local<'a>, &'a str), Refusal<'a>>
    ensures { Reads local_of result (any_or_name text.now) }
{
    if let Some((b'*', rest)) = split_ascii(text) {
        return Ok((Local::Universal, rest));
    }
    let (name, rest) = read_name(alloc, text)?;
    Ok((Local::TypeName(name), rest))
}

/// Reads `*` or a name, which must be there after a namespace.
fn read_type_after<'a>(
    alloc: Global,
    namespace: Option<Namespace<'a>>,
    text: &'a str,
) -> Result<Option<(Simple<'a>, &'a str)>, Refusal<'a>>
    ensures { Finds simple_of result
        (type_after (option_map namespace_of namespace.entry) text.now) }
{
    if namespace.is_none() && !readers::starts(text, b'*') && !begins_name(text) {
        return Ok(None);
    }
    let (local, rest) = read_any_or_name(alloc, text)?;
    Ok(Some((in_namespace(namespace, local), rest)))
}

/// Reads `*` or a name with a namespace or without one, if one is next.
#[tactic(auto, unfolding(crate::specs::reading::Grammar::type_selector))]
pub(crate) fn read_type<'a>(
    alloc: Global,
    names: &Names<'_>,
    text: &'a str,
) -> Result<Option<(Simple<'a>, &'a str)>, Refusal<'a>>
    ensures { Finds simple_of result (type_selector (names_of names.now) text.now) }
{
    let (namespace, rest) = read_namespace(alloc, names, text)?;
    read_type_after(alloc, namespace, rest)
}
