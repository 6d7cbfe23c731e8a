//! Mistakes in declarations.

use crate::findings::Finding;
use crate::kinds::Kind;
use crate::known_values::Judged;
use crate::linter::Linter;
use crate::texts::{
    Opening, Piece, after_bytes, first_bytes, inner_size_of, is_gap, is_sign, is_space, is_whole,
    opened, place_in,
};
use crate::vocabulary::{Near, is_of_others, is_slip};
use css_syntax::places::declaration_value;
use css_syntax::tokenizer::read_next;
use css_syntax::{Declaration, Fault, TokenKind, decode};
use std::alloc::AllocError;

/// How many bytes of a declaration are read again as two.
const MOST_READ: usize = 2000;
/// The word after the exclamation mark.
const IMPORTANT: &str = "important";

/// The last exclamation mark of a text, as offsets in it: where it is, where what is before it and those
/// directly before it ends, and where what is after it begins.
#[derive(Clone, Copy)]
struct Mark {
    last: usize,
    before: usize,
    after: usize,
}

/// Which block something is in.
#[derive(Clone, Copy, PartialEq)]
pub(crate) enum Place {
    /// That of a rule.
    Rule,
    /// That of an at-rule.
    AtRule,
}

/// Whether the name is that of a custom property.
pub(crate) fn is_custom(name: &str) -> bool {
    matches!(name.as_bytes(), [b'-', b'-', ..])
}

/// Returns the last exclamation mark of a text.
fn mark_in(text: &str) -> Option<Mark> {
    let mut rest = text.as_bytes();
    let mut found = None;
    let (mut end, mut first) = (0, 0);
    let mut is_mark = false;
    for _ in 0..rest.len() {
        let Some(token) = read_next(rest) else {
            break;
        };
        rest = token.rest;
        if is_gap(&token) {
            continue;
        }
        let was_mark = is_mark;
        is_mark = is_sign(&token, b'!');
        let after = text.len().saturating_sub(rest.len());
        if is_mark {
            if !was_mark {
                first = end;
            }
            found = Some(Mark {
                last: place_in(text, &token),
                before: first,
                after,
            });
        }
        end = after;
    }
    found
}

/// Whether the words of a text, one directly after another, are nearly `important`.
fn is_nearly_important(linter: &Linter<'_>, text: &str) -> Result<bool, AllocError> {
    let mut word = String::new(linter.alloc);
    let mut rest = text.as_bytes();
    for _ in 0..rest.len() {
        let Some(token) = read_next(rest) else {
            break;
        };
        if !is_gap(&token) && word.len() <= MOST_READ {
            let at = text.len().saturating_sub(token.inside.len());
            word.push_str(first_bytes(after_bytes(text, at), inner_size_of(&token)))?;
        }
        rest = token.rest;
    }
    let denoted = decode(linter.alloc, word.as_str())?;
    let lower = denoted.as_str().to_ascii_lowercase(linter.alloc)?;
    let bytes = lower.as_str().as_bytes();
    Ok(bytes == IMPORTANT.as_bytes() || is_slip(bytes, IMPORTANT.as_bytes()))
}

/// Returns the last word of a value, if it has more than one.
fn last_of_words(value: &str) -> Option<&str> {
    let mut start = None;
    for (at, byte) in value.as_bytes().iter().enumerate() {
        if is_space(*byte) {
            start = Some(at.saturating_add(1));
        }
    }
    Some(after_bytes(value, start?))
}

/// The place of the word before the second colon of a text, and of what is before that.
#[derive(Clone, Copy)]
struct SecondColon {
    /// The offset at which what is before the word ends.
    before: usize,
    /// The offset at which the word begins.
    name: usize,
    /// The offset after it.
    name_end: usize,
}

/// Returns where a second declaration may begin: the word directly before the second colon, if two tokens
/// at least are between the colons.
fn second_colon(text: &str) -> Option<SecondColon> {
    let mut rest = text.as_bytes();
    let (mut colons, mut between) = (0usize, 0usize);
    let mut is_name = false;
    let mut place = SecondColon {
        before: 0,
        name: 0,
        name_end: 0,
    };
    for _ in 0..rest.len() {
        let Some(token) = read_next(rest) else {
            break;
        };
        rest = token.rest;
        if is_gap(&token) {
            continue;
        }
        if is_sign(&token, b':') {
            if colons == 1 {
                return if between >= 2 && is_name {
                    Some(place)
                } else {
                    None
                };
            }
            colons = 1;
            between = 0;
        } else {
            between = between.saturating_add(1);
        }
        is_name = matches!(token.kind, TokenKind::Ident);
        place = SecondColon {
            before: place.name_end,
            name: place_in(text, &token),
            name_end: text.len().saturating_sub(rest.len()),
        };
    }
    None
}

/// Returns the value of a declaration, whose text this is.
fn value_of<'t>(one: &Declaration<'t>, piece: Piece<'t>) -> Piece<'t> {
    let start = piece.offset(declaration_value(piece.text).len());
    Piece {
        text: one.value,
        end: start.saturating_add(one.value.len()),
    }
}

/// Whether a text has two colons, as that of two declarations has.
fn has_two_colons(text: &str) -> bool {
    match text.split_once(':') {
        Some((_, rest)) => rest.contains(':'),
        None => false,
    }
}

impl<'t> Linter<'t> {
    /// Reports the first of two declarations without a semicolon between them: the word before the second
    /// colon is a property, and what is before it and from it on are declarations. Returns whether it did.
    fn merged(&mut self, piece: Piece<'_>) -> Result<bool, AllocError> {
        let text = piece.text;
        if text.len() > MOST_READ || !has_two_colons(text) {
            return Ok(false);
        }
        let Some(place) = second_colon(text) else {
            return Ok(false);
        };
        let name = first_bytes(
            after_bytes(text, place.name),
            place.name_end.saturating_sub(place.name),
        );
        let denoted = decode(self.alloc, name)?;
        let lower = denoted.as_str().to_ascii_lowercase(self.alloc)?;
        let first = first_bytes(text, place.before);
        if self.words.properties.find(lower.as_str()).is_none()
            || !is_whole(first)
            || !is_whole(after_bytes(text, place.name))
        {
            return Ok(false);
        }
        let start = piece.start();
        self.found.push(Finding::unseparated(start, start.saturating_add(first.len())))?;
        Ok(true)
    }

    /// Reports a value whose last word is `important` without an exclamation mark.
    fn unmarked(&mut self, one: &Declaration<'_>, piece: Piece<'_>) -> Result<(), AllocError> {
        if one.important || !one.closed {
            return Ok(());
        }
        match last_of_words(one.value) {
            Some(word) if word.eq_ignore_ascii_case(IMPORTANT) => {
                let start = piece.end.saturating_sub(word.len());
                self.report_corrected(Kind::MisspeltImportant, start, piece.end, "!", IMPORTANT)
            }
            _ => Ok(()),
        }
    }

    /// Reports the component that a value of a property can't have.
    fn known_value(&mut self, name: &str, value: Piece<'_>) -> Result<(), AllocError> {
        let Some(number) = self.words.properties.find(name) else {
            return Ok(());
        };
        let Some(row) = self.table.row(number) else {
            return Ok(());
        };
        let Judged::Invalid(wrong) = row.judge(value.text) else {
            return Ok(());
        };
        let size = wrong.end.saturating_sub(wrong.start);
        let word = first_bytes(after_bytes(value.text, wrong.start), size);
        let start = value.start().saturating_add(wrong.start);
        let end = start.saturating_add(size);
        if wrong.has_no_unit {
            return self.report(Kind::UnitMissing, start, end);
        }
        if word.eq_ignore_ascii_case(IMPORTANT) {
            return Ok(());
        }
        let near = row.nearest(self.alloc, word)?;
        self.found
            .push(Finding::named(Kind::InvalidValue, start, end, "", near))?;
        Ok(())
    }

    /// Whether a name is that of a known property or, in the block of an at-rule, descriptor.
    fn has_property(&self, name: &str, place: Place) -> bool {
        self.words.properties.find(name).is_some()
            || place == Place::AtRule && self.words.descriptors.find(name).is_some()
    }

    /// Reports the name of a declaration, in lower case, if it is unknown.
    fn property_name(
        &mut self,
        name: &str,
        piece: Piece<'_>,
        place: Place,
    ) -> Result<(), AllocError> {
        let start = piece.start();
        if matches!(name.as_bytes(), [b'_', ..]) && self.has_property(after_bytes(name, 1), place) {
            return self.report_all(Kind::UnsupportedHack, start, piece.end);
        }
        if self.has_property(name, place) || is_of_others(name) {
            return Ok(());
        }
        let every = self.words.nearest_descriptor(self.alloc, name)?;
        let near = if place == Place::Rule {
            self.words.properties.nearest(self.alloc, name)?
        } else {
            every
        };
        let near = match (near, every) {
            (Some(one), Some(any)) => Some(Near {
                name: one.name,
                is_only: any.is_only,
            }),
            _ => near,
        };
        let end = start.saturating_add(name.len());
        self.found.push(Finding::named(Kind::UnknownProperty, start, end, "", near))?;
        Ok(())
    }

    /// Reports what the end of the text closes of a declaration: a comment, a string or a bracket.
    fn not_closed(&mut self, piece: Piece<'_>) -> Result<(), AllocError> {
        let (text, start) = (piece.text, piece.start());
        if let Some(token) = opened(Opening::Comment, text) {
            let closed = format!(in self.alloc; "{text}*/")?;
            if is_whole(closed.as_str()) {
                let at = start.saturating_add(place_in(text, &token));
                return self.report(Kind::CommentNotClosed, at, piece.end);
            }
        }
        let mut at = start;
        if let Some(token) = opened(Opening::AnyString, text) {
            let place = place_in(text, &token);
            let quote = first_bytes(after_bytes(text, place), 1);
            let closed = format!(in self.alloc; "{text}{quote}")?;
            if is_whole(closed.as_str()) {
                at = start.saturating_add(place);
            }
        }
        self.report(Kind::ValueNotClosed, at, piece.end)
    }

    /// Reports the mistakes of a declaration, whose text this is. Its name is in lower case, unless it is
    /// that of a custom property.
    pub(crate) fn declaration(
        &mut self,
        one: &Declaration<'t>,
        name: &str,
        piece: Piece<'t>,
        place: Place,
    ) -> Result<(), AllocError> {
        if !one.closed {
            self.not_closed(piece)?;
        }
        self.property_name(name, piece, place)?;
        self.value(name, value_of(one, piece))?;
        if is_custom(name) {
            return Ok(());
        }
        if one.closed {
            if place == Place::Rule {
                self.known_value(name, value_of(one, piece))?;
            } else {
                self.descriptor(name, value_of(one, piece))?;
            }
        }
        self.unmarked(one, piece)?;
        self.merged(piece)?;
        Ok(())
    }

    /// Reports why a declaration is broken, as far as that is known.
    fn broken(&mut self, piece: Piece<'_>) -> Result<(), AllocError> {
        let text = piece.text;
        if let Some(mark) = mark_in(text) {
            if is_whole(first_bytes(text, mark.before))
                && is_nearly_important(self, after_bytes(text, mark.after))?
            {
                let start = piece.start().saturating_add(mark.last);
                return self.report_corrected(
                    Kind::MisspeltImportant,
                    start,
                    piece.end,
                    "!",
                    IMPORTANT,
                );
            }
        }
        if matches!(text.as_bytes(), [b'*', ..]) && is_whole(after_bytes(text, 1)) {
            return self.report_all(Kind::UnsupportedHack, piece.start(), piece.end);
        }
        if !self.merged(piece)? {
            self.report(Kind::BrokenDeclaration, piece.start(), piece.end)?;
        }
        Ok(())
    }

    /// Reports the string without an end for which what is after its line is read as a rule in this one, or
    /// the rule.
    fn nested(&mut self, piece: Piece<'_>) -> Result<(), AllocError> {
        let (text, start) = (piece.text, piece.start());
        if let Some(token) = opened(Opening::BadString, text) {
            let at = place_in(text, &token);
            let end = text.len().saturating_sub(token.rest.len());
            let before = first_bytes(text, end);
            let quote = first_bytes(after_bytes(text, at), 1);
            let closed = format!(in self.alloc; "{before}{quote}")?;
            if at > 0 && is_whole(closed.as_str()) {
                let first = start.saturating_add(at);
                return self.report(Kind::BadString, first, start.saturating_add(end));
            }
        }
        self.report_all(Kind::UnsupportedNestedRule, start, piece.end)
    }

    /// Reports what is skipped from its first token of this kind on that has no end.
    fn from_open(
        &mut self,
        kind: Kind,
        opening: Opening,
        piece: Piece<'_>,
    ) -> Result<(), AllocError> {
        let at = match opened(opening, piece.text) {
            Some(token) => place_in(piece.text, &token),
            None => 0,
        };
        self.report(kind, piece.start().saturating_add(at), piece.end)
    }

    /// Reports what is skipped, whose text this is.
    pub(crate) fn fault(&mut self, fault: Fault, piece: Piece<'_>) -> Result<(), AllocError> {
        let (start, end) = (piece.start(), piece.end);
        match fault {
            Fault::NestedRule => self.nested(piece),
            Fault::BrokenDeclaration => self.broken(piece),
            Fault::BadString => self.from_open(Kind::BadString, Opening::AnyString, piece),
            Fault::BadUrl => self.from_open(Kind::BadUrl, Opening::Url, piece),
            Fault::StrayBracket => self.report(Kind::StrayBracket, start, end),
            Fault::TooDeep => self.report(Kind::TooDeep, start, end),
            Fault::NoBlock => self.report(Kind::NoBlock, start, end),
            Fault::InvalidSelector => self.report(Kind::InvalidSelector, start, end),
        }
    }
}
