//! Prints style sheets.
ghost use Rattle.std.specs.Prelude.{◌≡◌, ◌<◌, ◌+◌, ◌^◌, ◌++◌, true, false, List, ℕ, OnOk, IfOk, IfSome, IfNone, map, string_bytes};
ghost use Rattle.css_sheet.specs.Pieces.{piece_of};
ghost use Rattle.css_sheet.specs.Said.{says as says_of};
ghost use Rattle.css_sheet.specs.PrintedSheets.{piece_text, is_semicolon as is_semicolon_piece, written};
ghost use Rattle.css_sheet.specs.PrintedSheets.{is_closing as is_closing_piece, is_opening as is_opening_piece};
ghost use Rattle.css_sheet.specs.PrintedSheets.{semicolon_text, named_space, value_space, word_space, short_space};
ghost use Rattle.css_sheet.specs.PrintedSheets.{is_comma as is_comma_word, is_important as is_important_piece, line_start, line_space, space};
ghost use Rattle.css_sheet.specs.PrintedSheets.{ends_line as ends_line_piece, depth_past as depth_past_piece};
ghost use Rattle.css_sheet.specs.PrintedSheets.{end_text, pieces_text, ReadsBack, IsPrinted};

use crate::pieces::Piece;
use crate::said::says;
use std::alloc::{AllocError, Global};

/// How a style sheet is laid out.
#[derive(Clone, Copy, Debug, PartialEq)]
pub enum Layout {
    /// With no more bytes than are needed.
    Short,
    /// With a line for each declaration and each rule, indented by two blanks for each of at most 16 rules that
    /// it is in.
    Lines,
}

/// How many levels are indented at most.
const MOST_LEVELS: usize = 16;
/// Two blanks for each of them.
const BLANKS: &[u8] = b"                                ";

/// Appends a piece, but no semicolon.
fn push_text(out: &mut Vec<u8>, piece: &Piece<'_>) -> Result<(), AllocError>
    ensures { OnOk result (out.new.items ≡ out.old.items ++ piece_text (piece_of piece.now)) }
{
    match piece {
        Piece::Word(text) => out.extend_from_slice(*text),
        Piece::Verbatim(text) => out.extend_from_slice(*text),
        Piece::AtRule(name) => {
            out.extend_from_slice(b"@")?;
            out.extend_from_slice(*name)
        }
        Piece::Colon => out.extend_from_slice(b":"),
        Piece::Semicolon => Ok(()),
        Piece::Opens => out.extend_from_slice(b"{"),
        Piece::Closes => out.extend_from_slice(b"}"),
    }
}

/// Whether a piece is a semicolon.
fn is_semicolon(piece: &Piece<'_>) -> bool
    ensures { result ≡ is_semicolon_piece (piece_of piece.now) }
{
    matches!(piece, Piece::Semicolon)
}

/// Whether a piece is the end of a block.
fn is_closing(piece: &Piece<'_>) -> bool
    ensures { result ≡ is_closing_piece (piece_of piece.now) }
{
    matches!(piece, Piece::Closes)
}

/// Whether a piece is the start of a block.
fn is_opening(piece: &Piece<'_>) -> bool
    ensures { result ≡ is_opening_piece (piece_of piece.now) }
{
    matches!(piece, Piece::Opens)
}

/// Returns the semicolon after a piece, if it is written before the next one.
fn semicolon_after(layout: Layout, last: &Piece<'_>, next: &Piece<'_>) -> &'static [u8]
    ensures { result.now ≡ semicolon_text layout (piece_of last.now) (piece_of next.now) }
{
    if !is_semicolon(last) {
        return b"";
    }
    match layout {
        Layout::Short if is_closing(next) => b"",
        Layout::Short => b";",
        Layout::Lines => b";",
    }
}

/// Returns what is between the name of an at-rule and the next piece.
fn space_after_name(layout: Layout, next: &Piece<'_>) -> &'static [u8]
    ensures { result.now ≡ named_space layout (piece_of next.now) }
{
    match (layout, next) {
        (Layout::Short, Piece::Word([b'(', ..])) => b"",
        (_, Piece::Word(_)) => b" ",
        _ => b"",
    }
}

/// Returns what is between a colon and the next piece.
fn space_after_colon(layout: Layout, next: &Piece<'_>) -> &'static [u8]
    ensures { result.now ≡ value_space layout (piece_of next.now) }
{
    match layout {
        Layout::Short if is_semicolon(next) => b" ",
        Layout::Short => b"",
        Layout::Lines => b" ",
    }
}

/// Whether a word is a comma.
fn is_comma(text: &[u8]) -> bool
    ensures { result ≡ is_comma_word text.now }
{
    matches!(text, [b','])
}

/// Whether a piece is what follows the value of an important declaration.
fn is_important(piece: &Piece<'_>) -> bool
    ensures { result ≡ is_important_piece (piece_of piece.now) }
{
    match piece {
        Piece::Word(text) => matches!(*text, [b'!', b'i', ..]),
        _ => false,
    }
}

/// Returns what is between a word and the next piece.
fn space_after_word(layout: Layout, text: &[u8], next: &Piece<'_>) -> &'static [u8]
    ensures { result.now ≡ word_space layout text.now (piece_of next.now) }
{
    match layout {
        Layout::Short => b"",
        Layout::Lines => {
            if is_comma(text) || is_important(next) {
                b" "
            } else {
                b""
            }
        }
    }
}

/// Returns what is between two pieces in a line.
fn space_after(layout: Layout, last: &Piece<'_>, next: &Piece<'_>) -> &'static [u8]
    ensures { result.now ≡ short_space layout (piece_of last.now) (piece_of next.now) }
{
    match last {
        Piece::Word(text) => space_after_word(layout, *text, next),
        Piece::AtRule(_) => space_after_name(layout, next),
        Piece::Colon => space_after_colon(layout, next),
        _ => b"",
    }
}

/// Begins a line, in `depth` rules.
fn push_line(out: &mut Vec<u8>, depth: usize) -> Result<(), AllocError>
    ensures { OnOk result (out.new.items ≡ out.old.items ++ line_start depth) }
{
    out.extend_from_slice(b"\n")?;
    out.extend_from_slice(&BLANKS[..2 * depth.min(MOST_LEVELS)])
}

/// Whether the next piece begins a line.
fn ends_line(piece: &Piece<'_>) -> bool
    ensures { result ≡ ends_line_piece (piece_of piece.now) }
{
    matches!(piece, Piece::Semicolon | Piece::Opens | Piece::Closes)
}

/// Appends what is between two pieces, where `depth` rules are open.
fn push_line_space(
    out: &mut Vec<u8>,
    depth: usize,
    last: &Piece<'_>,
    next: &Piece<'_>,
) -> Result<(), AllocError>
    ensures { OnOk result (out.new.items
        ≡ out.old.items ++ line_space depth (piece_of last.now) (piece_of next.now)) }
{
    if is_closing(next) {
        push_line(out, depth.saturating_sub(1))
    } else if ends_line(last) {
        push_line(out, depth)
    } else if is_opening(next) {
        out.extend_from_slice(b" ")
    } else {
        out.extend_from_slice(space_after(Layout::Lines, last, next))
    }
}

/// Appends what is between two pieces in a layout, where `depth` rules are open.
fn push_space(
    out: &mut Vec<u8>,
    layout: Layout,
    depth: usize,
    last: &Piece<'_>,
    next: &Piece<'_>,
) -> Result<(), AllocError>
    ensures { OnOk result (out.new.items
        ≡ out.old.items ++ space layout depth (piece_of last.now) (piece_of next.now)) }
{
    match layout {
        Layout::Short => out.extend_from_slice(space_after(layout, last, next)),
        Layout::Lines => push_line_space(out, depth, last, next),
    }
}

/// Appends a piece and what is before it, where `depth` rules are open.
fn push_piece(
    out: &mut Vec<u8>,
    layout: Layout,
    depth: usize,
    last: &Piece<'_>,
    next: &Piece<'_>,
) -> Result<(), AllocError>
    ensures { OnOk result (out.new.items ≡ out.old.items
        ++ semicolon_text layout (piece_of last.now) (piece_of next.now)
        ++ space layout depth (piece_of last.now) (piece_of next.now) ++ piece_text (piece_of next.now)) }
{
    out.extend_from_slice(semicolon_after(layout, last, next))?;
    push_space(out, layout, depth, last, next)?;
    push_text(out, next)
}

/// Returns how many rules are open after a piece, where `depth` are open before it.
fn depth_past(depth: usize, piece: &Piece<'_>) -> usize
    requires { depth + 1 < 2 ^ 64 }
    ensures { result ≡ depth_past_piece depth (piece_of piece.now) }
{
    match piece {
        Piece::Opens => depth + 1,
        Piece::Closes => depth.saturating_sub(1),
        _ => depth,
    }
}

/// Returns what ends the text after a piece.
fn end_after(layout: Layout, last: &Piece<'_>) -> &'static [u8]
    ensures { result.now ≡ end_text layout (piece_of last.now) }
{
    match layout {
        Layout::Short if is_semicolon(last) => b";",
        Layout::Short => b"",
        Layout::Lines if is_semicolon(last) => b";\n",
        Layout::Lines if ends_line(last) => b"\n",
        Layout::Lines => b"",
    }
}

/// Returns pieces, printed.
fn print_pieces(alloc: Global, layout: Layout, pieces: &[Piece<'_>]) -> Result<Vec<u8>, AllocError>
    ensures { IfOk result (λ out. out.items ≡ pieces_text layout (map piece_of pieces.now)) }
{
    let mut out = Vec::new(alloc);
    let mut last = Piece::Verbatim(b"");
    let mut depth = 0usize;
    let mut rest = pieces;
    'pieces: while let [next, more @ ..] = rest {
        push_piece(&mut out, layout, depth, &last, next)?;
        depth = depth_past(depth, next);
        last = *next;
        rest = more;
    }
    out.extend_from_slice(end_after(layout, &last))?;
    Ok(out)
}

/// Whether two pieces are the same.
fn is_same(one: &Piece<'_>, other: &Piece<'_>) -> bool
    ensures yes { result ≡ true → piece_of one.now ≡ piece_of other.now }
    ensures no { result ≡ false → piece_of one.now ≡ piece_of other.now → ⊥ }
{
    match (one, other) {
        (Piece::Word(text), Piece::Word(more)) => *text == *more,
        (Piece::Verbatim(text), Piece::Verbatim(more)) => *text == *more,
        (Piece::AtRule(text), Piece::AtRule(more)) => *text == *more,
        (Piece::Colon, Piece::Colon) => true,
        (Piece::Semicolon, Piece::Semicolon) => true,
        (Piece::Opens, Piece::Opens) => true,
        (Piece::Closes, Piece::Closes) => true,
        _ => false,
    }
}

/// Whether two lists have the same pieces.
fn are_same(pieces: &[Piece<'_>], others: &[Piece<'_>]) -> bool
    ensures yes { result ≡ true → map piece_of pieces.now ≡ map piece_of others.now }
    ensures no { result ≡ false → map piece_of pieces.now ≡ map piece_of others.now → ⊥ }
{
    let mut rest = pieces;
    let mut left = others;
    'pieces: while let ([one, more @ ..], [other, after @ ..]) = (rest, left) {
        if !is_same(one, other) {
            return false;
        }
        rest = more;
        left = after;
    }
    rest.is_empty() && left.is_empty()
}

/// Whether a text says just this.
fn says_this(alloc: Global, text: &str, pieces: &[Piece<'_>]) -> Result<bool, AllocError>
    ensures yes { IfOk result (λ same. same ≡ true → says_of text.now ≡ map piece_of pieces.now) }
    ensures no { IfOk result (λ same. same ≡ false → says_of text.now ≡ map piece_of pieces.now → ⊥) }
{
    let said = says(alloc, text)?;
    Ok(are_same(said.as_slice(), pieces))
}

/// Returns what a sheet says, printed, if that reads back.
fn print_said(alloc: Global, text: &str, layout: Layout) -> Result<Option<String>, AllocError>
    ensures some { IfOk result (λ found. IfSome found (λ out.
        ReadsBack layout text.now × (string_bytes out ≡ written layout text.now))) }
    ensures none { IfOk result (λ found. IfNone found (ReadsBack layout text.now → ⊥)) }
{
    let said = says(alloc, text)?;
    let written = print_pieces(alloc, layout, said.as_slice())?;
    let Ok(out) = String::from_utf8(written) else {
        return Ok(None);
    };
    Ok(if says_this(alloc, out.as_str(), said.as_slice())? {
        Some(out)
    } else {
        None
    })
}

/// Prints a style sheet: what it says, without comments, in this layout. Rules that are open at the end of the
/// text are closed. What is printed is read again; where it would not say the same, the text itself is
/// returned. Time and memory are linear in the length of the text. Fails only if an allocation fails.
pub fn print_sheet(alloc: Global, text: &str, layout: Layout) -> Result<String, AllocError>
    ensures printed { IfOk result (λ out. IsPrinted layout text.now (string_bytes out)) }
    ensures says { IfOk result (λ out. says_of (string_bytes out) ≡ says_of text.now) }
    ensures again { IfOk result (λ out. (more : List ℕ)
        → IsPrinted layout (string_bytes out) more → more ≡ string_bytes out) }
{
    match print_said(alloc, text, layout)? {
        Some(out) => Ok(out),
        None => String::from_str(alloc, text),
    }
}
