//! The pieces of a value.
ghost use Rattle.std.specs.Prelude.{◌≡◌, option_map};
ghost use Rattle.css_text.specs.Bytes.{starts_by};
ghost use Rattle.css_syntax.specs.ComponentValues.{is_opener};
ghost use Rattle.css_syntax.specs.Views.{parts_of};
ghost use Rattle.css_values.specs.Pieces.{after_var as after_var_of, piece, reference as reference_to};
ghost use Rattle.css_values.specs.Pieces.{reference_from, closed_here as closed_here_of};
ghost use Rattle.css_values.specs.Pieces.{with_fallback as with_fallback_of};
ghost use Rattle.css_values.specs.Pieces.{past_piece as past_piece_of, as_written as as_written_of};
ghost use Rattle.css_values.specs.Views.{piece_of, read_of};

use css_syntax::parts::{Parts, Stops, read_parts};
use css_syntax::quality::is_whole;
use css_syntax::texts::{front, past_ascii, past_byte, past_gap, past_word, read_token, spells};
use css_text::readers;

/// A piece of a value.
#[derive(Clone, Copy)]
pub(crate) enum Piece<'a> {
    /// A token, a blank or a bracket, as written.
    Plain(&'a str),
    /// A reference: its name as written, and its fallback.
    Reference(&'a str, Option<&'a str>),
    /// `var(` with something else in it.
    Broken,
}

/// A piece that was read, and the rest.
#[derive(Clone, Copy)]
pub(crate) struct PieceAndRest<'a> {
    /// The piece.
    pub piece: Piece<'a>,
    /// The rest after it.
    pub rest: &'a str,
}

/// What ends a fallback.
const IN_FALLBACK: Stops = Stops {
    semicolon: true,
    open_brace: false,
    close_brace: true,
    comma: false,
    in_value: true,
};

/// Returns the rest after `var(`, if it begins here.
#[tactic(auto, using(crate::proofs::PieceLemmas::word_ends), unfolding(crate::specs::Pieces::after_var))]
fn after_var(text: &str) -> Option<&str>
    ensures { after_var_of text.now ≡ option_map (λ rest. rest.now) result }
{
    let rest = past_word(text);
    if spells("var", front(text, rest)) && readers::starts(rest, b'(') {
        Some(past_byte(rest, b'('))
    } else {
        None
    }
}

/// Ends a reference with its parenthesis.
fn closed_here<'a>(piece: Piece<'a>, rest: &'a str) -> PieceAndRest<'a>
    ensures { closed_here_of (piece_of piece.entry) rest.now ≡ read_of result }
{
    if readers::starts(rest, b')') {
        PieceAndRest {
            piece,
            rest: past_byte(rest, b')'),
        }
    } else {
        PieceAndRest {
            piece: Piece::Broken,
            rest: "",
        }
    }
}

/// Ends a reference with a fallback.
fn with_fallback<'a>(name: &'a str, read: Parts<'a>) -> PieceAndRest<'a>
    ensures { with_fallback_of name.now (parts_of read.entry, read.entry.rest.now) ≡ read_of result }
{
    if is_whole(read.quality) {
        closed_here(Piece::Reference(name, Some(read.text)), read.rest)
    } else {
        PieceAndRest {
            piece: Piece::Broken,
            rest: "",
        }
    }
}

/// Reads a reference, from after `var(`.
#[tactic(auto, using(crate::proofs::PieceLemmas::word_ends), unfolding(crate::specs::Pieces::reference_from))]
fn read_reference(text: &str) -> PieceAndRest<'_>
    ensures { reference_from text.now ≡ read_of result }
{
    let from = past_gap(text);
    let end = past_word(from);
    let name = front(from, end);
    let next = past_gap(end);
    if readers::starts(next, b',') {
        with_fallback(
            name,
            read_parts(IN_FALLBACK, past_gap(past_byte(next, b','))),
        )
    } else {
        closed_here(Piece::Reference(name, None), next)
    }
}

/// Whether a bracket opens here.
fn starts_opener(bytes: &[u8]) -> bool
    ensures { result ≡ starts_by is_opener bytes.now }
{
    match bytes {
        [] => false,
        [byte, ..] => matches!(*byte, b'(' | b'[' | b'{'),
    }
}

/// Returns the rest after a bracket that opens here, or after the token.
#[tactic(auto, using(crate::proofs::PieceLemmas::opener_ascii))]
fn past_piece(text: &str) -> &str
    ensures { result.now ≡ past_piece_of text.now }
{
    if starts_opener(text.as_bytes()) {
        past_ascii(text)
    } else {
        read_token(text).rest
    }
}

/// Reads a bracket or a token as it is.
#[tactic(auto, using(crate::proofs::PieceLemmas::piece_ends))]
fn as_written(text: &str) -> PieceAndRest<'_>
    ensures { as_written_of text.now ≡ read_of result }
{
    let rest = past_piece(text);
    PieceAndRest {
        piece: Piece::Plain(front(text, rest)),
        rest,
    }
}

/// Reads the piece at the start.
#[tactic(auto, unfolding(crate::specs::Pieces::piece))]
pub(crate) fn read_piece(text: &str) -> Option<PieceAndRest<'_>>
    ensures { piece text.now ≡ option_map read_of result }
{
    if text.is_empty() {
        return None;
    }
    match after_var(text) {
        Some(inside) => Some(read_reference(inside)),
        None => Some(as_written(text)),
    }
}
