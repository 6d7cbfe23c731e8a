//! What may follow what in a document (XML 1.0, section 2.1).
ghost use Rattle.std.specs.Prelude.{◌≡◌, true, OnOk, map};
ghost use Rattle.css_html.specs.Views.{token_of};
ghost use Rattle.css_xml.specs.Documents.{state_of, may_begin as may_begin_at, may_have_type as may_have_type_at};
ghost use Rattle.css_xml.specs.Documents.{is_inside as is_inside_of, stage_of, stage_after as stage_after_stage, opened};
ghost use Rattle.css_xml.specs.Tags.{is_start_tag as is_start_tag_of};
ghost use Rattle.css_xml.specs.Tokens.{tag_name as tag_name_of};
ghost use Rattle.css_xml.specs.Documents.{begun, after_start, IsEnd, is_text as is_text_at, after_other, StepOf};

use crate::characters::are_blank;
use crate::faults::{Reason, Wrong};
use crate::instructions::{is_doctype_front, is_fine_instruction};
use crate::tags::{is_end_tag, is_said, is_start_tag};
use crate::tokenizer::{is_empty_tag, is_instruction, tag_name};
use css_html::marks::text_between;
use css_html::tokenizer::{Token, TokenKind};
use std::alloc::{AllocError, Global};

/// How far a document is read.
#[derive(Clone, Copy, Debug, PartialEq)]
pub enum Stage {
    /// Nothing is read.
    Start,
    /// No document type and no element is read.
    Front,
    /// A document type is read.
    Typed,
    /// The root is open.
    Inside,
    /// The root is closed.
    After,
}

/// What is read of a document.
#[derive(Drop)]
pub struct Nesting<'a> {
    /// The tags of the elements that are open, the innermost last.
    pub unclosed: Vec<Token<'a>>,
    /// All start tags.
    pub tags: Vec<Token<'a>>,
    /// How far it is read.
    pub stage: Stage,
}

/// Whether an element may begin.
fn may_begin(stage: Stage) -> bool
    ensures { result ≡ may_begin_at stage }
{
    !matches!(stage, Stage::After)
}

/// Whether a document type may be there.
fn may_have_type(stage: Stage) -> bool
    ensures { result ≡ may_have_type_at stage }
{
    matches!(stage, Stage::Start | Stage::Front)
}

/// Whether the root is open.
fn is_inside(stage: Stage) -> bool
    ensures { result ≡ is_inside_of stage }
{
    matches!(stage, Stage::Inside)
}

/// Returns how far a document is after what is no document type, and no tag.
fn stage_after(stage: Stage) -> Stage
    ensures { result ≡ stage_after_stage stage }
{
    match stage {
        Stage::Start => Stage::Front,
        stage => stage,
    }
}

/// Whether a text may be where it is.
fn is_text(stage: Stage, token: &Token<'_>) -> bool
    ensures { result ≡ is_text_at stage (token_of token.now) }
{
    let text = text_between(token.from, token.rest);
    if is_inside(stage) {
        is_said(false, text)
    } else {
        are_blank(text)
    }
}

/// Whether two tags have the same name.
fn is_same_name(one: &Token<'_>, other: &Token<'_>) -> bool
    ensures { result ≡ true → tag_name_of (token_of one.now)
        ≡ tag_name_of (token_of other.now) }
{
    tag_name(one) == tag_name(other)
}

/// Returns how far a document is when these elements are open, of which one was.
fn stage_of_open(unclosed: &[Token<'_>]) -> Stage
    ensures { result ≡ stage_of (map token_of unclosed.now) }
{
    match unclosed {
        [] => Stage::After,
        [_, ..] => Stage::Inside,
    }
}

/// Adds the tag of an element with content to those of elements that are open.
fn open_element<'a>(unclosed: &mut Vec<Token<'a>>, tag: &Token<'a>) -> Result<(), AllocError>
    ensures { OnOk result (map token_of unclosed.new.items
        ≡ opened (map token_of unclosed.old.items) (token_of tag.now)) }
{
    if !is_empty_tag(tag) {
        unclosed.push(*tag)?;
    }
    Ok(())
}

/// The front of a document type.
const DOCTYPE: &[u8] = b"<!DOCTYPE";

/// Returns what is wrong with a token that is cut off.
fn cut_reason(token: &Token<'_>) -> Reason {
    if token.from.starts_with(DOCTYPE) {
        Reason::Doctype
    } else {
        Reason::Unclosed
    }
}

impl<'a> Nesting<'a> {
    /// Creates the state before a document.
    pub(crate) fn new(alloc: Global) -> Nesting<'a>
        ensures { state_of result ≡ begun }
    {
        Nesting {
            unclosed: Vec::new(alloc),
            tags: Vec::new(alloc),
            stage: Stage::Start,
        }
    }

    /// Reads a start tag.
    fn take_start(&mut self, tag: &Token<'a>) -> Result<(), Wrong>
        ensures tag { OnOk result (is_start_tag_of (token_of tag.now) ≡ true) }
        ensures begins { OnOk result (may_begin_at self.old.stage ≡ true) }
        ensures state { OnOk result (state_of self.new ≡ after_start (state_of self.old) (token_of tag.now)) }
    {
        if !may_begin(self.stage) {
            return Err(Wrong::Because(Reason::SecondRoot));
        }
        if !is_start_tag(tag) {
            return Err(Wrong::Because(Reason::Tag));
        }
        self.tags.push(*tag)?;
        open_element(&mut self.unclosed, tag)?;
        self.stage = stage_of_open(self.unclosed.as_slice());
        Ok(())
    }

    /// Reads an end tag.
    fn take_end(&mut self, tag: &Token<'a>) -> Result<(), Wrong>
        ensures { OnOk result (IsEnd (state_of self.old) (token_of tag.now) (state_of self.new)) }
    {
        let Some(top) = self.unclosed.pop() else {
            return Err(Wrong::Because(Reason::EndTag));
        };
        if !is_same_name(&top, tag) || !is_end_tag(tag) {
            return Err(Wrong::Because(Reason::EndTag));
        }
        self.stage = stage_of_open(self.unclosed.as_slice());
        Ok(())
    }

    /// Reads a text, which may be where it is, or else is refused.
    fn take_text(&mut self, token: &Token<'a>) -> Result<(), Wrong>
        ensures text { OnOk result (is_text_at self.old.stage (token_of token.now) ≡ true) }
        ensures state { OnOk result (state_of self.new
            ≡ after_other (state_of self.old) (stage_after_stage self.old.stage)) }
    {
        if !is_text(self.stage, token) {
            return Err(Wrong::Because(Reason::Text));
        }
        self.stage = stage_after(self.stage);
        Ok(())
    }

    /// Reads a comment or a processing instruction.
    fn take_comment(&mut self, token: &Token<'a>) -> Result<(), Wrong>
        ensures { OnOk result (state_of self.new
            ≡ after_other (state_of self.old) (stage_after_stage self.old.stage)) }
    {
        if is_instruction(token) && !is_fine_instruction(token, self.stage == Stage::Start) {
            return Err(Wrong::Because(Reason::Instruction));
        }
        self.stage = stage_after(self.stage);
        Ok(())
    }

    /// Reads a document type.
    fn take_doctype(&mut self, token: &Token<'a>) -> Result<(), Wrong>
        ensures fits { OnOk result (may_have_type_at self.old.stage ≡ true) }
        ensures state { OnOk result (state_of self.new ≡ after_other (state_of self.old) Stage.Typed) }
    {
        if !may_have_type(self.stage) || !is_doctype_front(token) {
            return Err(Wrong::Because(Reason::Doctype));
        }
        self.stage = Stage::Typed;
        Ok(())
    }

    /// Reads a CDATA section.
    fn take_cdata(&mut self) -> Result<(), Wrong>
        ensures inside { OnOk result (is_inside_of self.old.stage ≡ true) }
        ensures state { OnOk result (state_of self.new
            ≡ after_other (state_of self.old) (stage_after_stage self.old.stage)) }
    {
        if !is_inside(self.stage) {
            return Err(Wrong::Because(Reason::Text));
        }
        self.stage = stage_after(self.stage);
        Ok(())
    }

    /// Reads a token after what was read before it.
    pub(crate) fn take(&mut self, token: &Token<'a>) -> Result<(), Wrong>
        ensures { OnOk result (StepOf token.now.kind (state_of self.old) (token_of token.now) (state_of self.new)) }
    {
        match token.kind {
            TokenKind::StartTag => self.take_start(token),
            TokenKind::EndTag => self.take_end(token),
            TokenKind::Text => self.take_text(token),
            TokenKind::Comment => self.take_comment(token),
            TokenKind::Cdata => self.take_cdata(),
            TokenKind::Doctype => self.take_doctype(token),
            TokenKind::Nothing | TokenKind::Cut => Err(Wrong::Because(cut_reason(token))),
        }
    }
}
