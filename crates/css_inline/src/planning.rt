//! The edits of a page that write its sheets.
ghost use Rattle.std.specs.Prelude.{◌≡◌, IfOk, OnOk};
ghost use Rattle.std.specs.List.{All};
ghost use Rattle.css_inline.specs.Inlining.{IsOfStyle};

use crate::deciding::Decided;
use crate::inlining::{InlineError, Kept};
use crate::page_styles::{PageStyle, tag_start};
use css_html::tokenizer::Token;
use html_edits::edits::{Change, Edit, NewValue};
use std::alloc::{AllocError, Global};

const STYLE: &[u8] = b"style";

/// What is written into a page.
#[derive(Clone, Copy)]
pub(crate) struct Planned<'c, 'a> {
    /// The page.
    pub(crate) text: &'a str,
    /// Its start tags.
    pub(crate) tags: &'c [Token<'a>],
    /// What is written into the attribute of each.
    pub(crate) texts: &'c [Option<String>],
    /// The changes that write these, in order.
    pub(crate) changes: &'c [Change<'c>],
    /// Its `style` elements, in order.
    pub(crate) styles: &'c [PageStyle<'a>],
    /// What stays of each of them.
    pub(crate) kept: &'c [Kept],
    /// What stays of the sheets that are given.
    pub(crate) given: &'c [Kept],
    /// Where that is put in, if there is such a place.
    pub(crate) place: Option<usize>,
    /// Whether the `style` elements stay as they are.
    pub(crate) keep_style: bool,
}

/// Returns what is from a place on in a list, and what is before it.
pub(crate) fn split(kept: &[Kept], place: usize) -> (&[Kept], &[Kept]) {
    (
        kept.get(place..).unwrap_or(&[]),
        kept.get(..place).unwrap_or(&[]),
    )
}

/// Returns the changes that write texts into the attributes of tags, in order.
pub(crate) fn changes_of(alloc: Global, decided: &Decided) -> Result<Vec<Change<'_>>, AllocError> {
    let mut found = Vec::new(alloc);
    for text in decided.texts.iter() {
        if let Some(text) = text {
            found.push(Change {
                name: STYLE,
                value: NewValue::Before(text.as_bytes()),
            })?;
        }
    }
    Ok(found)
}

/// Appends the edit of the `style` attribute of a tag by a change.
fn push_tag<'c>(
    edits: &mut Vec<Edit<'c>>,
    tag: usize,
    changes: &'c [Change<'c>],
) -> Result<(), InlineError>
    requires { All IsOfStyle edits.old.items }
    ensures { OnOk result (All IsOfStyle edits.new.items) }
{
    match changes {
        [change] if change.name == STYLE => {
            edits.push(Edit::Tag(tag, changes))?;
            Ok(())
        }
        _ => Err(InlineError::Misplaced),
    }
}

/// Appends the edit of a `style` element of which this stays, if not all does.
fn push_style<'c>(
    edits: &mut Vec<Edit<'c>>,
    style: &PageStyle<'_>,
    kept: &'c Kept,
) -> Result<(), InlineError>
    requires { All IsOfStyle edits.old.items }
    ensures { OnOk result (All IsOfStyle edits.new.items) }
{
    if kept.is_whole {
        return Ok(());
    }
    if kept.text.is_empty() && style.may_vanish {
        edits.push(Edit::TakeOut(style.tag, style.end))?;
    } else {
        edits.push(Edit::Text(style.tag, style.text_end, kept.text.as_bytes()))?;
    }
    Ok(())
}

/// Appends the edit that puts in what stays of a sheet at a place, if something does.
fn push_kept<'c>(
    edits: &mut Vec<Edit<'c>>,
    place: Option<usize>,
    kept: &'c Kept,
) -> Result<(), InlineError>
    requires { All IsOfStyle edits.old.items }
    ensures { OnOk result (All IsOfStyle edits.new.items) }
{
    if kept.text.is_empty() {
        return Ok(());
    }
    match place {
        Some(at) => {
            edits.push(Edit::PutIn(at, b"", kept.text.as_bytes()))?;
            Ok(())
        }
        None => Err(InlineError::Misplaced),
    }
}

/// Appends the edits that put in what stays of sheets at a place.
fn push_given<'c>(
    edits: &mut Vec<Edit<'c>>,
    place: Option<usize>,
    given: &'c [Kept],
) -> Result<(), InlineError>
    requires { All IsOfStyle edits.old.items }
    ensures { OnOk result (All IsOfStyle edits.new.items) }
{
    for kept in given {
        push_kept(edits, place, kept)?;
    }
    Ok(())
}

/// The edits of a page so far.
#[derive(Drop)]
struct Edits<'c> {
    found: Vec<Edit<'c>>,
    /// How many changes of attributes there are.
    changes: usize,
    /// How many `style` elements were looked at.
    styles: usize,
    /// Whether what stays of the sheets that are given was put in.
    is_put: bool,
}

impl<'c> Edits<'c> {
    /// Appends what is put in before a tag, or at the end.
    fn put_before(
        &mut self,
        planned: &Planned<'c, '_>,
        start: Option<usize>,
    ) -> Result<(), InlineError>
        requires { All IsOfStyle self.old.found.items }
        ensures { OnOk result (All IsOfStyle self.new.found.items) }
    {
        let is_here = match (planned.place, start) {
            (Some(place), Some(start)) => place <= start,
            (_, None) => true,
            (None, Some(_)) => false,
        };
        if is_here && !self.is_put {
            push_given(&mut self.found, planned.place, planned.given)?;
            self.is_put = true;
        }
        Ok(())
    }

    /// Appends the edit of a tag, if it has one.
    fn edit_tag(&mut self, planned: &Planned<'c, '_>, tag: usize) -> Result<(), InlineError>
        requires { All IsOfStyle self.old.found.items }
        ensures { OnOk result (All IsOfStyle self.new.found.items) }
    {
        if let Some(Some(_)) = planned.texts.get(tag) {
            let end = self.changes.saturating_add(1);
            let changes = planned.changes.get(self.changes..end).unwrap_or(&[]);
            push_tag(&mut self.found, tag, changes)?;
            self.changes = end;
        }
        Ok(())
    }

    /// Appends the edit of the `style` element of a tag, if it is one.
    fn edit_style(&mut self, planned: &Planned<'c, '_>, tag: usize) -> Result<(), InlineError>
        requires { All IsOfStyle self.old.found.items }
        ensures { OnOk result (All IsOfStyle self.new.found.items) }
    {
        let (Some(style), Some(kept)) = (
            planned.styles.get(self.styles),
            planned.kept.get(self.styles),
        ) else {
            return Ok(());
        };
        if style.tag == tag {
            self.styles = self.styles.saturating_add(1);
            if !planned.keep_style {
                push_style(&mut self.found, style, kept)?;
            }
        }
        Ok(())
    }

    /// Appends the edits at a tag.
    fn push_at(&mut self, planned: &Planned<'c, '_>, tag: usize) -> Result<(), InlineError>
        requires { All IsOfStyle self.old.found.items }
        ensures { OnOk result (All IsOfStyle self.new.found.items) }
    {
        if let Some(token) = planned.tags.get(tag) {
            self.put_before(planned, Some(tag_start(planned.text, token)))?;
        }
        self.edit_tag(planned, tag)?;
        self.edit_style(planned, tag)
    }
}

/// Returns the edits of a page.
pub(crate) fn edits_of<'c>(
    alloc: Global,
    planned: &Planned<'c, '_>,
) -> Result<Vec<Edit<'c>>, InlineError>
    ensures { IfOk result (λ edits. All IsOfStyle edits.items) }
{
    let mut edits = Edits {
        found: Vec::new(alloc),
        changes: 0,
        styles: 0,
        is_put: false,
    };
    for tag in 0..planned.tags.len() {
        edits.push_at(planned, tag)?;
    }
    edits.put_before(planned, None)?;
    Ok(edits.found)
}
