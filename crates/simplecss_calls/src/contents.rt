//! What is to be written of the elements of a page: what wins on each, which rules match it, or what applies.

ghost use Rattle.std.specs.Prelude.{◌≡◌, IfOk, MatchResult, map, take, drop};
ghost use Rattle.css_styles.specs.StyleViews.{names_of, own_of};
ghost use Rattle.call_answers.specs.Calls.{FailsFor};
ghost use Rattle.simplecss_calls.specs.Asked.{IsContent, HasBadContent, IsBrokenContent};
ghost use Rattle.simplecss_calls.specs.WinnerNumbers.{groups_in};
ghost use Rattle.simplecss_calls.specs.WinnerNumbers.{own_at as own_at_of, text_at as text_at_of};
ghost use Rattle.simplecss_calls.specs.internal.Contents.{asked_in, content_of};
ghost use Rattle.simplecss_calls.specs.declared.contents.ElementContent.TheVariants as passed;

use call_answers::answer::CallError;
use call_answers::texts::texts_of;
use css_styles::Own;
use std::alloc::{AllocError, Global};

/// The texts of declarations that are in no rule, two for each element, as the caller of a function passes
/// them: of its style attribute, and of its presentation declarations.
#[repr(C)]
#[derive(Clone, Copy)]
pub struct OwnTexts<'t> {
    /// The texts, one after another.
    pub texts: &'t [u8],
    /// Where each ends.
    pub ends: &'t [usize],
}

/// The names of properties, as the caller of a function passes them.
#[repr(C)]
#[derive(Clone, Copy)]
pub struct AskedNames<'t> {
    /// The names, one after another.
    pub names: &'t [u8],
    /// Where each ends.
    pub ends: &'t [usize],
    /// How many names each property has.
    pub counts: &'t [usize],
}

/// What is to be written of an element, in numbers, as it is passed.
#[derive(Clone, Copy)]
pub enum ElementContent<'n> {
    /// The declarations that win.
    Winners,
    /// For each of some properties the declaration that wins.
    Named(AskedNames<'n>),
    /// The rules that match.
    Matches,
    /// All declarations of the property of these names that apply, and by what each loses.
    Explained(AskedNames<'n>),
}

/// The names of properties: each of `counts` is how many names the next property has.
#[derive(Drop)]
pub struct AskedProperties<'t> {
    /// The names.
    names: Vec<&'t str>,
    /// How many of them each property has.
    counts: &'t [usize],
}

/// What is to be written of an element.
#[derive(Drop)]
pub enum Content<'n> {
    /// The declarations that win, of these properties if only some are asked for.
    Won(Option<AskedProperties<'n>>),
    /// The rules that match.
    Matched,
    /// All declarations of the property of these names that apply.
    Explained(Vec<&'n str>),
}

/// Returns the text of a number, which is empty if there is none.
pub fn text_at<'t>(texts: &[&'t str], number: usize) -> &'t str
    ensures { result.now ≡ text_at_of (map (λ text. text.now) texts.now) number }
{
    match texts.get(number) {
        Some(text) => *text,
        None => "",
    }
}

/// Returns the texts of the element at an index.
pub fn own_at<'t>(texts: &[&'t str], index: usize) -> Own<'t>
    ensures { own_of result ≡ own_at_of (map (λ text. text.now) texts.now) index }
{
    if index >= texts.len() {
        return Own {
            style: "",
            presentation: "",
        };
    }
    Own {
        style: text_at(texts, 2 * index),
        presentation: text_at(texts, 2 * index + 1),
    }
}

/// Returns the first names, so many if they are there.
fn first_names<'n, 't>(names: &'n [&'t str], count: usize) -> &'n [&'t str]
    ensures { map (λ name. name.now) result.now ≡ take count (map (λ name. name.now) names.now) }
{
    if count < names.len() {
        &names[..count]
    } else {
        names
    }
}

/// Returns the names after these.
fn later_names<'n, 't>(names: &'n [&'t str], count: usize) -> &'n [&'t str]
    ensures { map (λ name. name.now) result.now ≡ drop count (map (λ name. name.now) names.now) }
{
    if count < names.len() {
        &names[count..]
    } else {
        &[]
    }
}

/// Returns the names of each property, of which these are how many it has.
fn groups_of<'n, 't>(
    alloc: Global,
    names: &'n [&'t str],
    counts: &[usize],
) -> Result<Vec<&'n [&'t str]>, AllocError>
    ensures { IfOk result (λ groups. names_of groups.items
        ≡ groups_in counts.now (map (λ name. name.now) names.now)) }
{
    let mut groups = Vec::new(alloc);
    let mut rest = names;
    let mut left = counts;
    'counts: while let [count, others @ ..] = left {
        groups.push(first_names(rest, *count))?;
        rest = later_names(rest, *count);
        left = others;
    }
    Ok(groups)
}

impl<'t> AskedProperties<'t> {
    /// Returns the names of each property.
    pub fn groups(&self, alloc: Global) -> Result<Vec<&[&'t str]>, AllocError>
        ensures { IfOk result (λ groups. names_of groups.items ≡ asked_in self.now) }
    {
        groups_of(alloc, &self.names, self.counts)
    }
}

/// Reads what wins of properties with these names.
fn read_asked<'n>(alloc: Global, asked: AskedNames<'n>) -> Result<Content<'n>, CallError>
    ensures { let asks = passed.Named asked.entry in
        MatchResult result (λ read. IsContent asks (content_of read))
        (FailsFor (HasBadContent asks) (λ fault. ⊥) (IsBrokenContent asks)) }
{
    let names = texts_of(alloc, asked.names, asked.ends)?;
    let counts = asked.counts;
    Ok(Content::Won(Some(AskedProperties { names, counts })))
}

/// The same of what applies of the property of these names.
fn read_explained<'n>(alloc: Global, asked: AskedNames<'n>) -> Result<Content<'n>, CallError>
    ensures { let asks = passed.Explained asked.entry in
        MatchResult result (λ read. IsContent asks (content_of read))
        (FailsFor (HasBadContent asks) (λ fault. ⊥) (IsBrokenContent asks)) }
{
    let names = texts_of(alloc, asked.names, asked.ends)?;
    Ok(Content::Explained(names))
}

/// Reads what is to be written.
pub fn read_content<'n>(
    alloc: Global,
    content: ElementContent<'n>,
) -> Result<Content<'n>, CallError>
    ensures { MatchResult result (λ read. IsContent content.entry (content_of read))
        (FailsFor (HasBadContent content.entry) (λ fault. ⊥) (IsBrokenContent content.entry)) }
{
    match content {
        ElementContent::Winners => Ok(Content::Won(None)),
        ElementContent::Named(asked) => read_asked(alloc, asked),
        ElementContent::Matches => Ok(Content::Matched),
        ElementContent::Explained(asked) => read_explained(alloc, asked),
    }
}
