//! Readers that return no error value, for callers that report none: no position is computed for an
//! error that would be dropped.
ghost use Rattle.std.specs.Prelude.{◌≡◌, ◌<◌, ◌∷◌, true, [], None, Some, MatchOption};
ghost use Rattle.std.specs.Prelude.{if◌then◌else◌};
ghost use Rattle.css_text.specs.Reading.{no_name, no_comment, ended};
ghost use Rattle.css_text.specs.Bytes.{past_one, past_byte, starts, starts_by, is_ascii};
ghost use Rattle.css_text.specs.Comments.{past_blank, blank, gap as gap_read};
ghost use Rattle.css_text.specs.Names.{name as name_read};
ghost use Rattle.css_text.specs.Bytes.{from_brace};
ghost use Rattle.css_text.specs.Strings.{string_after};
ghost use Rattle.css_text.specs.ThisEdition.{this_edition};
ghost use Rattle.css_text.specs.Errors.{Gives, GivesOrNone};
ghost use Rattle.css_text.specs.Cursor.{text_of, rest_of};

use crate::stream::Stream;
use crate::{Error, scan};

/// Returns the byte at the cursor, or `None` at the end of the text.
#[inline(always)]
pub fn peek(s: &Stream<'_>) -> Option<u8>
    ensures { MatchOption result (rest_of s.now ≡ [])
        (λ b. rest_of s.now ≡ b ∷ past_one (rest_of s.now)) }
{
    s.slice_tail().as_bytes().first().copied()
}

/// Whether the text begins with the byte.
#[inline(always)]
pub fn starts(text: &str, byte: u8) -> bool
    ensures { result ≡ starts byte text.now }
{
    text.as_bytes().first().copied() == Some(byte)
}

/// Returns the text from its first opening brace on, or the empty text at its end if there is none.
pub fn from_brace(text: &str) -> &str
    ensures { result.now ≡ from_brace text.now }
{
    let mut s = Stream::new(text);
    s.skip_bytes(|byte| byte != b'{');
    s.slice_tail()
}

/// Advances past the byte at the cursor, which is ASCII.
#[tactic(auto, using(crate::proofs::bytes::CutLemmas::boundary_past_ascii))]
#[inline(always)]
pub fn skip_ascii(s: &mut Stream<'_>)
    requires { starts_by is_ascii (rest_of s.old) ≡ true }
    ensures text { text_of s.new ≡ text_of s.old }
    ensures rest { rest_of s.new ≡ past_one (rest_of s.old) }
{
    s.advance(1);
}

/// Advances past the byte, which is ASCII, if it is next, and returns whether it was.
#[inline(always)]
pub fn skip_byte(s: &mut Stream<'_>, byte: u8) -> bool
    requires { byte < 128 }
    ensures text { text_of s.new ≡ text_of s.old }
    ensures occurs { result ≡ starts byte (rest_of s.old) }
    ensures rest { rest_of s.new ≡ past_byte byte (rest_of s.old) }
{
    let occurs = peek(s) == Some(byte);
    s.try_consume_byte(byte);
    occurs
}

/// Consumes a name and returns it. If none begins at the cursor, a hyphen there is consumed.
#[inline(always)]
pub fn take_name<'a>(s: &mut Stream<'a>) -> Option<&'a str>
    ensures text { text_of s.new ≡ text_of s.old }
    ensures reads { GivesOrNone (λ found. found.now) (no_name (rest_of s.old))
        (name_read this_edition (rest_of s.old)) result (rest_of s.new) }
{
    let text = s.slice_tail();
    match scan::name_len(text) {
        Some(len) => {
            s.advance(len);
            Some(&text[..len])
        }
        None => {
            s.try_consume_byte(b'-');
            None
        }
    }
}

/// Consumes the rest of a string after its opening quote, and returns the text before the closing
/// quote. A string that is not closed consumes the whole text.
#[inline(always)]
pub fn take_string<'a>(s: &mut Stream<'a>, quote: u8) -> Option<&'a str>
    requires { quote < 128 }
    ensures text { text_of s.new ≡ text_of s.old }
    ensures reads { GivesOrNone (λ value. value.now) ended (string_after quote (rest_of s.old))
        result (rest_of s.new) }
{
    let text = s.slice_tail();
    match scan::string_len(text, quote) {
        Some(closing) => {
            s.advance(closing + 1);
            Some(&text[..closing])
        }
        None => {
            s.jump_to_end();
            None
        }
    }
}

/// Skips a blank, and returns whether no open comment follows it; an open comment consumes the
/// whole text.
#[tactic(auto, unfolding(crate::specs::Comments::blank))]
#[inline(always)]
pub fn skip_blank(s: &mut Stream<'_>) -> bool
    ensures text { text_of s.new ≡ text_of s.old }
    ensures reads { GivesOrNone (λ u. u) (no_comment (past_blank (rest_of s.old))) (blank (rest_of s.old))
        (if result then Some tt else None) (rest_of s.new) }
{
    let gap = scan::find_gap(s.slice_tail());
    s.advance(gap.len);
    if gap.unclosed {
        s.jump_to_end();
    }
    !gap.unclosed
}

/// Skips a blank and returns whether it has a space byte, which matters in the gap before a piece
/// of a selector. An open comment after it is `InvalidComment` with the position of its start, and
/// then the cursor is at the end of the text.
#[tactic(auto, using(crate::proofs::bytes::GapLemmas::gap_is_closed, crate::proofs::bytes::GapLemmas::gap_is_open))]
#[inline(always)]
pub fn consume_gap(s: &mut Stream<'_>) -> Result<bool, Error>
    ensures text { text_of s.new ≡ text_of s.old }
    ensures reads { Gives (λ spaced. spaced) (text_of s.old) (gap_read (rest_of s.old))
        result (rest_of s.new) }
{
    let gap = scan::find_gap(s.slice_tail());
    s.advance(gap.len);
    if gap.unclosed {
        let start = s.gen_text_pos();
        s.jump_to_end();
        return Err(Error::InvalidComment(start));
    }
    Ok(gap.spaced)
}
