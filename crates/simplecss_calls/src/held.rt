//! The group rules that hold, which are passed as pairs of a keyword and a prelude.

ghost use Rattle.std.specs.Prelude.{◌≡◌, ℕ, List, IfOk, OnOk, bytes_eq, map, string_bytes};
ghost use Rattle.simplecss_calls.specs.WinnerNumbers.{is_held as is_held_of};
ghost use Rattle.simplecss_calls.specs.WinnerNumbers.{first_text as first_text_of, later_texts as later_texts_of};
ghost use Rattle.simplecss_calls.specs.internal.Held.{is_among as is_among_of, names_at, with_name};

use std::alloc::{AllocError, Global};
use std::collections::BTreeMap;

/// Returns the first of some texts, or an empty one if there are none.
fn first_text<'a>(texts: &[&'a str]) -> &'a str
    ensures { result.now ≡ first_text_of (map (λ text. text.now) texts.now) }
{
    match texts {
        [] => "",
        [text, ..] => text,
    }
}

/// Returns the texts after the first.
fn later_texts<'t, 'a>(texts: &'t [&'a str]) -> &'t [&'a str]
    ensures { map (λ text. text.now) result.now ≡ later_texts_of (map (λ text. text.now) texts.now) }
{
    match texts {
        [] => texts,
        [_, later @ ..] => later,
    }
}

/// Adds a keyword to those of a prelude.
fn add_keyword<'a>(
    held: &mut BTreeMap<String, Vec<&'a str>>,
    prelude: String,
    keyword: &'a str,
) -> Result<(), AllocError>
    ensures { OnOk result ((text : List ℕ) → names_at held.new text
        ≡ with_name (bytes_eq text (string_bytes prelude)) (names_at held.old text) keyword.now) }
{
    held.entry(prelude)?.or_default().push(keyword)?;
    Ok(())
}

/// Returns the keywords of the group rules that hold by their preludes.
pub fn read_held<'a>(
    alloc: Global,
    groups: &[&'a str],
) -> Result<BTreeMap<String, Vec<&'a str>>, AllocError>
    ensures { IfOk result (λ held. (keyword prelude : List ℕ)
        → is_among_of (names_at held prelude) keyword
        ≡ is_held_of (map (λ text. text.now) groups.now) keyword prelude) }
{
    let mut held: BTreeMap<String, Vec<&'a str>> = BTreeMap::new(alloc);
    let mut left = groups;
    'pairs: while let [name, others @ ..] = left {
        let prelude = first_text(others).to_string(alloc)?;
        add_keyword(&mut held, prelude, *name)?;
        left = later_texts(others);
    }
    Ok(held)
}

/// Whether a keyword is among some names.
fn is_among(names: &[&str], keyword: &str) -> bool
    ensures { result ≡ is_among_of (map (λ name. name.now) names.now) keyword.now }
{
    let mut left = names;
    'names: while let [name, others @ ..] = left {
        if *name == keyword {
            return true;
        }
        left = others;
    }
    false
}

/// Whether a group rule is one of those that hold.
pub fn is_held(held: &BTreeMap<String, Vec<&str>>, keyword: &str, prelude: &str) -> bool
    ensures { result ≡ is_among_of (names_at held.now prelude.now) keyword.now }
{
    match held.get(prelude) {
        Some(names) => is_among(names, keyword),
        None => false,
    }
}
