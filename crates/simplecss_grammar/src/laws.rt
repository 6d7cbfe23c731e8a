//! Laws: contracts of functions that do nothing. Those of the grammar say what the readers of
//! comments and blanks find, by definitions of comments and blanks that do not mention reading.
//! Those of what is skipped say that it is complete, and that it stays in a text read in pieces.
//! Those of equality say when two values are equal.

ghost use Rattle.std.specs.Prelude.{◌≡◌, ℕ, ◌≤◌, ◌↔◌, List, ◌++◌, length, true, false, IsTrue};
ghost use Rattle.std.specs.List.{All};
ghost use Rattle.std.specs.Str.{IsUtf8};
ghost use Rattle.css_text.specs.Reading.{got, before, Ends};
ghost use Rattle.css_text.specs.Comments.{opens_comment, comment, past_blank, blank};
ghost use Rattle.css_text.specs.Comments.{has_space};
ghost use Rattle.simplecss_grammar.specs.Blanks.{IsComment, IsBlank, IsComments};
ghost use Rattle.css_text.specs.Characters.{Edition};
ghost use Rattle.simplecss_grammar.specs.Sheets.{sheet};
ghost use Rattle.simplecss_grammar.specs.Cutting.{StatementEndsAt};
ghost use Rattle.simplecss_grammar.specs.PrintingLaws.{IsNarrow};
ghost use Rattle.simplecss_grammar.specs.SkippedLaws.{PrintsWhole, SkipsAcross};
ghost use Rattle.simplecss_grammar.specs.NothingLost.{LosesNothing};
ghost use Rattle.css_text.specs.Cursor.{text_of, offset_of};

use css_text::stream::Stream;
use css_text::{Error, TextPos};

/// A comment is read exactly if the text that reading consumes is a comment.
pub fn comment_is_closed()
    ensures { (text rest : List ℕ) →
        (comment text ≡ got tt rest) ↔ (Ends text rest × IsComment (before text rest)) }
{}

/// The blank at the start of a text is cut into space bytes and comments.
pub fn blank_is_cut()
    ensures ends { (text : List ℕ) → Ends text (past_blank text) }
    ensures cut { (text : List ℕ) → IsBlank (before text (past_blank text)) }
{}

/// The blank at the start of a text is the longest prefix made of space bytes and comments.
pub fn blank_is_longest()
    ensures { (text front rest : List ℕ) → text ≡ front ++ rest → IsBlank front →
        length front ≤ length (before text (past_blank text)) }
{}

/// The blank at the start of a text has no space byte exactly if it is cut into comments only.
pub fn space_bytes_are_parts()
    ensures { (text : List ℕ) →
        (has_space text ≡ false) ↔ IsComments (before text (past_blank text)) }
{}

/// A comment that opens after a blank is not closed, and reading the blank fails as reading that
/// comment does.
pub fn open_comment_breaks_blank()
    ensures { (text : List ℕ) → opens_comment (past_blank text) ≡ true →
        blank text ≡ comment (past_blank text) }
{}

/// What is skipped of a text is what is skipped of its front up to an offset and then what is
/// skipped from there on, with its reasons, wherever one of its statements ends.
pub fn skips_are_cut()
    ensures { (edition : Edition) (text : List ℕ) (offset : ℕ) → IsUtf8 text →
        StatementEndsAt edition text offset → SkipsAcross edition text offset }
{}

/// Every byte of a text belongs to a blank, to a comma or a brace, to a selector or a declaration
/// that is read, or to something that is skipped. The rules of a statement are its selectors, each
/// with all its declarations, and a statement without a selector has something skipped.
pub fn nothing_is_lost()
    ensures { (edition : Edition) (text : List ℕ) → LosesNothing edition text }
{}

/// A sheet that was read from texts without white space past ASCII, and whose selectors are clean,
/// prints as a text of which nothing is skipped and that reads as the same rules.
pub fn printed_skips_nothing()
    ensures { (edition : Edition) (texts : List (List ℕ)) → All IsNarrow texts →
        PrintsWhole edition (sheet edition texts) }
{}

/// Two positions are equal exactly if their rows and columns are; two errors if they are the same
/// error with the same position and bytes; two cursors if they have the same offset in texts of the
/// same bytes.
pub fn text_equality_laws()
    ensures positions { (a b : TextPos) → IsTrue (⟦<TextPos as PartialEq>⟧.eq a b) ↔ (a ≡ b) }
    ensures errors { (a b : Error) → IsTrue (⟦<Error as PartialEq>⟧.eq a b) ↔ (a ≡ b) }
    ensures cursors { (a b : Stream) → IsTrue (⟦<Stream<'static> as PartialEq>⟧.eq a b)
        ↔ ((text_of a ≡ text_of b) × (offset_of a ≡ offset_of b)) }
{}
