//! White space that is none of CSS.

use crate::kinds::Kind;
use crate::linter::Linter;
use crate::texts::{Piece, after_bytes, first_bytes, place_in, size_of};
use css_syntax::tokenizer::read_next;
use css_syntax::{Token, TokenKind};
use std::alloc::AllocError;

/// Whether a character looks like a blank, and is a part of names.
fn is_irregular(character: char) -> bool {
    matches!(
        character,
        '\u{85}' | '\u{a0}' | '\u{1680}' | '\u{2000}'..='\u{200a}'
            | '\u{2028}'
            | '\u{2029}'
            | '\u{202f}'
            | '\u{205f}'
            | '\u{3000}'
    )
}

/// Whether names are in a token.
fn has_name(token: &Token<'_>) -> bool {
    matches!(
        token.kind,
        TokenKind::Ident
            | TokenKind::Function
            | TokenKind::Dimension
            | TokenKind::Hash
            | TokenKind::IdHash
    )
}

impl Linter<'_> {
    /// Reports the names of a text in which characters look like blanks.
    pub(crate) fn irregular_whitespace(&mut self, piece: Piece<'_>) -> Result<(), AllocError> {
        if piece.text.is_ascii() {
            return Ok(());
        }
        let mut rest = piece.text.as_bytes();
        for _ in 0..rest.len() {
            let Some(token) = read_next(rest) else {
                break;
            };
            rest = token.rest;
            let text = first_bytes(
                after_bytes(piece.text, place_in(piece.text, &token)),
                size_of(&token),
            );
            if has_name(&token) && text.chars().any(is_irregular) {
                let (start, end) = (piece.offset(token.from.len()), piece.offset(rest.len()));
                self.report(Kind::IrregularWhitespace, start, end)?;
            }
        }
        Ok(())
    }
}
