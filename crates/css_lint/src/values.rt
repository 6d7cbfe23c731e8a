//! Mistakes in values, as far as no grammar of the property is needed.

use crate::blocks::is_among;
use crate::findings::Finding;
use crate::kinds::Kind;
use crate::linter::Linter;
use crate::texts::{
    Piece, after_bytes, first_bytes, inner_size_of, is_gap, is_sign, is_space, next_token,
    place_in, size_of,
};
use crate::vocabulary::is_of_others;
use css_syntax::tokenizer::read_next;
use css_syntax::{Token, TokenKind};
use std::alloc::AllocError;

/// How many fonts of a list are compared with one another.
const MOST_FONTS: usize = 16;
/// The properties whose values may have names with two hyphens at their start, beside those of anchors and timelines.
const DASHED: &str =
    "animation animation-timeline anchor-name anchor-scope container container-name counter-increment counter-reset \
    counter-set font-palette grid grid-area grid-column grid-column-end grid-column-start grid-row grid-row-end grid-row-start \
    grid-template grid-template-areas grid-template-columns grid-template-rows list-style list-style-type page \
    position-anchor position-area position-try position-try-fallbacks scroll-timeline scroll-timeline-name timeline-scope \
    transition transition-property view-timeline view-timeline-name view-transition-class view-transition-name will-change";

/// A custom property that a value names.
#[derive(Clone, Copy)]
pub(crate) struct Reference<'t> {
    /// Its name.
    pub(crate) name: &'t str,
    /// Whether it is in `var()`.
    pub(crate) is_var: bool,
    /// The offset of its first byte.
    pub(crate) start: usize,
}

/// What is directly before a token in a calculation.
#[derive(Clone, Copy, PartialEq)]
enum Before {
    /// Nothing, a comma or an operator and a blank.
    Nothing,
    /// A number, a name or what is in parentheses.
    Operand,
    /// The same, and a blank.
    OperandBlank,
    /// A plus or a minus.
    Sign,
}

/// Returns the text of a token of a text.
pub(crate) fn text_of<'t>(text: &'t str, token: &Token<'_>) -> &'t str {
    first_bytes(after_bytes(text, place_in(text, token)), size_of(token))
}

/// Returns what is in a token of a text: the name of a function, or the unit of a dimension.
pub(crate) fn inside_of<'t>(text: &'t str, token: &Token<'_>) -> &'t str {
    let at = text.len().saturating_sub(token.inside.len());
    first_bytes(after_bytes(text, at), inner_size_of(token))
}

/// Whether this many bytes are a colour in hexadecimal digits.
pub(crate) fn is_color(text: &str) -> bool {
    matches!(text.len(), 3 | 4 | 6 | 8)
        && text.as_bytes().iter().all(|byte| byte.is_ascii_hexdigit())
}

/// Whether a token is a number, with a unit or without.
fn is_number(token: &Token<'_>) -> bool {
    matches!(
        token.kind,
        TokenKind::Number | TokenKind::Percentage | TokenKind::Dimension
    )
}

/// Whether a unit is one with an operator and a number after it, as in `2px-1px`.
fn has_operator(unit: &str) -> bool {
    match unit.split_once('-') {
        Some((_, rest)) => matches!(rest.as_bytes(), [b'0'..=b'9', ..]),
        None => false,
    }
}

/// Returns what is before the next token after one in a calculation, and whether the one is a sign without blanks
/// or a number after an operand.
fn step(before: Before, token: &Token<'_>) -> (Before, bool) {
    let is_signed = matches!(token.from, [b'+' | b'-', ..]);
    match token.kind {
        TokenKind::Whitespace | TokenKind::Comment => match before {
            Before::Operand | Before::OperandBlank => (Before::OperandBlank, false),
            _ => (Before::Nothing, false),
        },
        TokenKind::Number | TokenKind::Percentage | TokenKind::Dimension => {
            let is_after = matches!(before, Before::Operand | Before::OperandBlank);
            (
                Before::Operand,
                before == Before::Sign || is_after && is_signed,
            )
        }
        TokenKind::Delim => match token.from {
            [b'+' | b'-', ..] => (Before::Sign, before == Before::Operand),
            [b')', ..] => (Before::Operand, false),
            [b'(', ..] => (Before::Nothing, before == Before::Sign),
            _ => (Before::Nothing, false),
        },
        TokenKind::Function => (Before::Nothing, before == Before::Sign),
        _ => (Before::Operand, false),
    }
}

/// Returns how many cells the row of a grid has.
fn cells_in(row: &str) -> usize {
    let mut count = 0usize;
    let mut was_blank = true;
    let mut was_dot = false;
    for byte in row.as_bytes() {
        let is_blank = is_space(*byte);
        let is_dot = *byte == b'.';
        if !is_blank && (was_blank || is_dot != was_dot) {
            count = count.saturating_add(1);
        }
        was_blank = is_blank;
        was_dot = is_dot;
    }
    count
}

/// Whether the values of a property with this name may have names with two hyphens at their start.
fn takes_dashed(name: &str) -> bool {
    is_of_others(name) || is_among(name, DASHED)
}

/// Whether a name is that of a gradient along a line.
fn is_linear(name: &str) -> bool {
    is_among(name, "linear-gradient repeating-linear-gradient")
}

/// Whether a name is that of a property whose functions are those of old browsers.
fn is_filter(name: &str) -> bool {
    is_among(name, "-ms-filter behavior filter")
}

impl<'t> Linter<'t> {
    /// Reports the unit of a dimension, if it is unknown.
    fn unit(
        &mut self,
        piece: Piece<'t>,
        token: &Token<'_>,
        in_math: bool,
    ) -> Result<(), AllocError> {
        let unit = inside_of(piece.text, token);
        let (start, end) = (
            piece.offset(token.inside.len()),
            piece.offset(token.rest.len()),
        );
        if in_math && has_operator(unit) {
            return self.report(Kind::UnspacedOperator, piece.offset(token.from.len()), end);
        }
        let lower = unit.to_ascii_lowercase(self.alloc)?;
        if self.words.units.find(lower.as_str()).is_some() || is_of_others(lower.as_str()) {
            return Ok(());
        }
        let near = self.words.units.nearest(self.alloc, lower.as_str())?;
        self.found
            .push(Finding::named(Kind::UnknownUnit, start, end, "", near))?;
        Ok(())
    }

    /// Reports the name of a function, if it is unknown, and the direction of a gradient without `to`. Returns whether
    /// there are calculations in the function.
    fn function(&mut self, piece: Piece<'t>, token: &Token<'_>) -> Result<bool, AllocError> {
        let name = inside_of(piece.text, token);
        let lower = name.to_ascii_lowercase(self.alloc)?;
        if self.words.math.find(lower.as_str()).is_some() {
            return Ok(true);
        }
        let (start, end) = (
            piece.offset(token.from.len()),
            piece.offset(token.inside_end.len()),
        );
        if self.words.functions.find(lower.as_str()).is_none() && !is_of_others(lower.as_str()) {
            let near = self.words.functions.nearest(self.alloc, lower.as_str())?;
            self.found.push(Finding::named(Kind::UnknownFunction, start, end, "", near))?;
        }
        if is_linear(name) {
            if let Some(first) = next_token(token.rest) {
                if is_among(text_of(piece.text, &first), "top bottom left right") {
                    let (at, past) = (
                        piece.offset(first.from.len()),
                        piece.offset(first.rest.len()),
                    );
                    self.report(Kind::GradientDirection, at, past)?;
                }
            }
        }
        Ok(false)
    }

    /// Reports the mistakes of the tokens of a value.
    fn tokens(&mut self, piece: Piece<'t>, has_functions: bool) -> Result<(), AllocError> {
        let mut rest = piece.text.as_bytes();
        let mut before = Before::Nothing;
        let mut around: Vec<bool> = Vec::new(self.alloc);
        let mut in_math = false;
        for _ in 0..rest.len() {
            let Some(token) = read_next(rest) else {
                break;
            };
            rest = token.rest;
            let (next, is_wrong) = step(before, &token);
            before = next;
            if in_math && is_wrong {
                self.report(
                    Kind::UnspacedOperator,
                    piece.offset(token.from.len()),
                    piece.offset(token.rest.len()),
                )?;
            }
            if matches!(token.kind, TokenKind::Dimension) {
                self.unit(piece, &token, in_math)?;
            } else if matches!(token.kind, TokenKind::Function) {
                around.push(in_math)?;
                in_math = has_functions && self.function(piece, &token)?;
            } else if matches!(token.kind, TokenKind::Hash | TokenKind::IdHash) {
                self.hash(piece, &token)?;
            } else if is_sign(&token, b'(') {
                around.push(in_math)?;
            } else if is_sign(&token, b')') {
                in_math = around.pop().unwrap_or(false);
            }
        }
        Ok(())
    }

    /// Reports a hash that is no colour.
    fn hash(&mut self, piece: Piece<'t>, token: &Token<'_>) -> Result<(), AllocError> {
        let digits = inside_of(piece.text, token);
        if is_color(digits) || digits.contains('\\') {
            return Ok(());
        }
        let (start, end) = (
            piece.offset(token.from.len()),
            piece.offset(token.rest.len()),
        );
        self.report(Kind::InvalidColor, start, end)
    }

    /// Remembers the custom properties that the value of a property with this name names.
    fn references(&mut self, name: &str, piece: Piece<'t>) -> Result<(), AllocError> {
        if !piece.text.contains('-') {
            return Ok(());
        }
        let mut rest = piece.text.as_bytes();
        let mut in_var = false;
        for _ in 0..rest.len() {
            let Some(token) = read_next(rest) else {
                break;
            };
            rest = token.rest;
            if is_gap(&token) {
                continue;
            }
            if matches!(token.kind, TokenKind::Ident) && matches!(token.from, [b'-', b'-', ..]) {
                let has_no_other = match next_token(token.rest) {
                    Some(next) => is_sign(&next, b')'),
                    None => true,
                };
                if in_var && has_no_other || !in_var && !takes_dashed(name) {
                    self.references.push(Reference {
                        name: text_of(piece.text, &token),
                        is_var: in_var,
                        start: piece.offset(token.from.len()),
                    })?;
                }
            }
            in_var = matches!(token.kind, TokenKind::Function)
                && inside_of(piece.text, &token).eq_ignore_ascii_case("var");
        }
        Ok(())
    }

    /// Reports rows of a grid of which one has another number of cells than the first.
    fn grid_rows(&mut self, piece: Piece<'t>) -> Result<(), AllocError> {
        let mut rest = piece.text.as_bytes();
        let mut first = None;
        for _ in 0..rest.len() {
            let Some(token) = read_next(rest) else {
                break;
            };
            rest = token.rest;
            if matches!(token.kind, TokenKind::String) {
                let count = cells_in(inside_of(piece.text, &token));
                let wanted = first.unwrap_or(count);
                first = Some(wanted);
                if count != wanted || count == 0 {
                    let start = piece.offset(token.from.len());
                    return self.report(Kind::GridAreas, start, piece.offset(token.rest.len()));
                }
            }
        }
        Ok(())
    }

    /// Reports fonts that are in a list again.
    fn fonts(&mut self, piece: Piece<'t>) -> Result<(), AllocError> {
        if piece.text.contains('(') || piece.text.contains('\\') {
            return Ok(());
        }
        let mut fonts: Vec<&'t str> = Vec::new(self.alloc);
        let mut rest = piece.text;
        for _ in 0..MOST_FONTS {
            if rest.is_empty() {
                break;
            }
            let (one, more) = rest.split_once(',').unwrap_or((rest, ""));
            let font = one.trim();
            // `monospace, monospace` is written for the size that browsers give the one.
            if is_among(font, "monospace") {
                rest = more;
                continue;
            }
            if fonts.iter().any(|other| other.eq_ignore_ascii_case(font)) {
                let end = piece.offset(more.len());
                let past = if more.is_empty() {
                    end
                } else {
                    end.saturating_sub(1)
                };
                self.report(Kind::RepeatedFont, past.saturating_sub(font.len()), past)?;
            } else {
                fonts.push(font)?;
            }
            rest = more;
        }
        Ok(())
    }

    /// Reports the mistakes of the value of a property with this name.
    pub(crate) fn value(&mut self, name: &str, piece: Piece<'t>) -> Result<(), AllocError> {
        self.references(name, piece)?;
        if matches!(name.as_bytes(), [b'-', b'-', ..]) {
            return Ok(());
        }
        if name == "unicode-range" || is_filter(name) && piece.text.contains(':') {
            return Ok(());
        }
        self.tokens(piece, !is_filter(name))?;
        match name {
            "grid-template-areas" => self.grid_rows(piece),
            "font-family" => self.fonts(piece),
            _ => Ok(()),
        }
    }
}
