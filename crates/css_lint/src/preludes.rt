//! Mistakes in what is before the blocks of at-rules.

use crate::blocks::is_among;
use crate::findings::Finding;
use crate::kinds::Kind;
use crate::linter::Linter;
use crate::texts::{
    Piece, after_bytes, first_bytes, is_gap, is_sign, next_token, place_in, size_of,
};
use crate::vocabulary::is_of_others;
use css_syntax::tokenizer::read_next;
use css_syntax::{Token, TokenKind};
use std::alloc::AllocError;

/// The types of devices that Media Queries 4 deprecates.
const DEPRECATED: &str = "aural braille embossed handheld projection speech tty tv";
/// The media features whose values are lengths.
const LENGTHS: &str =
    "device-height device-width height max-device-height max-device-width max-height max-width \
    min-device-height min-device-width min-height min-width width";

/// Returns the text of a token of a text.
fn text_of<'t>(text: &'t str, token: &Token<'_>) -> &'t str {
    first_bytes(after_bytes(text, place_in(text, token)), size_of(token))
}

/// Returns the token after the colon that is next, if one is.
fn after_colon(rest: &[u8]) -> Option<Token<'_>> {
    let colon = next_token(rest)?;
    if !is_sign(&colon, b':') {
        return None;
    }
    next_token(colon.rest)
}

impl Linter<'_> {
    /// Reports the number of a media feature that is a length, if it has no unit.
    fn unit_missing(
        &mut self,
        piece: Piece<'_>,
        name: &str,
        rest: &[u8],
    ) -> Result<(), AllocError> {
        if !is_among(name, LENGTHS) {
            return Ok(());
        }
        let Some(value) = after_colon(rest) else {
            return Ok(());
        };
        let is_zero = matches!(value.from, [b'0', ..]) && size_of(&value) == 1;
        if matches!(value.kind, TokenKind::Number) && !is_zero {
            let (start, end) = (
                piece.offset(value.from.len()),
                piece.offset(value.rest.len()),
            );
            self.report(Kind::UnitMissing, start, end)?;
        }
        Ok(())
    }

    /// Reports the mistakes of media queries whose names are known or not near to any.
    pub(crate) fn media_queries(&mut self, piece: Piece<'_>) -> Result<(), AllocError> {
        let mut rest = piece.text.as_bytes();
        let mut depth = 0usize;
        let mut is_first = false;
        for _ in 0..rest.len() {
            let Some(token) = read_next(rest) else {
                break;
            };
            rest = token.rest;
            if is_gap(&token) {
                continue;
            }
            let (start, end) = (piece.offset(token.from.len()), piece.offset(rest.len()));
            let text = text_of(piece.text, &token);
            if matches!(token.kind, TokenKind::Function) {
                depth = depth.saturating_add(1);
                if is_among(text, "and( or( not( only(") {
                    self.report(Kind::InvalidMediaQuery, start, end)?;
                }
            } else if is_first && matches!(token.kind, TokenKind::Ident) {
                self.unit_missing(piece, text, rest)?;
            } else if depth == 0
                && matches!(token.kind, TokenKind::Ident)
                && is_among(text, DEPRECATED)
            {
                self.report(Kind::DeprecatedMediaType, start, end)?;
            } else if is_sign(&token, b')') {
                depth = depth.saturating_sub(1);
            } else if is_sign(&token, b'(') {
                depth = depth.saturating_add(1);
            }
            is_first = is_sign(&token, b'(');
        }
        Ok(())
    }

    /// Reports the properties in a condition of `@supports` that are unknown.
    pub(crate) fn supports(&mut self, piece: Piece<'_>) -> Result<(), AllocError> {
        let mut rest = piece.text.as_bytes();
        let mut is_first = false;
        for _ in 0..rest.len() {
            let Some(token) = read_next(rest) else {
                break;
            };
            rest = token.rest;
            if is_gap(&token) {
                continue;
            }
            if is_first && matches!(token.kind, TokenKind::Ident) && after_colon(rest).is_some() {
                self.supported_name(piece, &token)?;
            }
            is_first = is_sign(&token, b'(');
        }
        Ok(())
    }

    /// Reports the name of a property in a condition of `@supports`, if it is unknown.
    fn supported_name(&mut self, piece: Piece<'_>, token: &Token<'_>) -> Result<(), AllocError> {
        let name = text_of(piece.text, token).to_ascii_lowercase(self.alloc)?;
        if self.words.properties.find(name.as_str()).is_some() || is_of_others(name.as_str()) {
            return Ok(());
        }
        let near = self.words.properties.nearest(self.alloc, name.as_str())?;
        let (start, end) = (
            piece.offset(token.from.len()),
            piece.offset(token.rest.len()),
        );
        self.found.push(Finding::named(Kind::UnknownProperty, start, end, "", near))?;
        Ok(())
    }

    /// Reports a rule `@property` whose name is not that of a custom property.
    pub(crate) fn property_rule(&mut self, piece: Piece<'_>) -> Result<(), AllocError> {
        if matches!(piece.text.as_bytes(), [b'-', b'-', ..]) {
            return Ok(());
        }
        self.report(Kind::InvalidPropertyRule, piece.start(), piece.end)
    }
}
