//! Whether a value can be declared.
ghost use Rattle.std.specs.Prelude.{◌≡◌, IfOk};
ghost use Rattle.css_syntax.specs.Escapes.{decoded};
ghost use Rattle.css_values.specs.Substitution.{is_custom_name as is_custom_name_of};
ghost use Rattle.css_values.specs.Resolution.{deepest_fallback};
ghost use Rattle.css_values.specs.Validity.{is_valid as is_valid_of, piece_valid as piece_valid_of};
ghost use Rattle.css_values.specs.Views.{piece_of};

use crate::pieces::{Piece, read_piece};
use crate::readings::DEEPEST_FALLBACK;
use crate::table::is_custom_name;
use css_syntax::decode;
use std::alloc::{AllocError, Global};

/// Whether a name as written is that of a custom property.
fn names_custom(alloc: Global, name: &str) -> Result<bool, AllocError>
    ensures { IfOk result (λ b. is_custom_name_of (decoded name.now) ≡ b) }
{
    let decoded = decode(alloc, name)?;
    Ok(is_custom_name(decoded.as_bytes()))
}

/// Whether a piece is no invalid reference.
#[cycle(references_valid)]
fn piece_valid(alloc: Global, depth: usize, piece: Piece<'_>) -> Result<bool, AllocError>
    ensures { IfOk result (λ b. piece_valid_of (is_valid_of depth) (piece_of piece.entry) ≡ b) }
{
    match piece {
        Piece::Plain(_) => Ok(true),
        Piece::Broken => Ok(false),
        Piece::Reference(name, fallback) => {
            if !names_custom(alloc, name)? {
                return Ok(false);
            }
            match fallback {
                None => Ok(true),
                Some(inner) => references_valid(alloc, depth, inner),
            }
        }
    }
}

/// Whether each reference of a value is valid, with fallbacks nested less than `depth` deep.
#[cycle(references_valid)]
fn references_valid(alloc: Global, depth: usize, text: &str) -> Result<bool, AllocError>
    ensures { IfOk result (λ b. is_valid_of depth text.now ≡ b) }
{
    if depth == 0 {
        return Ok(false);
    }
    let mut rest = text;
    'pieces: while let Some(read) = read_piece(rest) {
        if !piece_valid(alloc, depth - 1, read.piece)? {
            return Ok(false);
        }
        rest = read.rest;
    }
    Ok(true)
}

/// Whether each reference `var(..)` of a value names a custom property, and has nothing but the name and
/// a fallback, in which this holds too. A declaration of another value is invalid. Fails only if an
/// allocation fails.
pub fn is_valid(alloc: Global, text: &str) -> Result<bool, AllocError>
    ensures { IfOk result (λ b. is_valid_of deepest_fallback text.now ≡ b) }
{
    references_valid(alloc, DEEPEST_FALLBACK, text)
}
