//! A cursor over a text, and the characters of names.
ghost use Rattle.std.specs.Prelude.{◌≡◌, ◌+◌, ◌<◌, ◌≤◌, ◌↔◌, length, slice_range, min, drop, []};
ghost use Rattle.std.specs.Prelude.{◌∷◌, IsTrue, MatchResult};
ghost use Rattle.std.specs.Str.{IsUtf8, IsCharBoundary};
ghost use Rattle.css_text.specs.Characters.{is_name_start, is_name_char};
ghost use Rattle.css_text.specs.ThisEdition.{this_edition};

use crate::position::position_after;
use crate::{Error, TextPos, readers, scan};

/// The first character past ASCII that a name may have: U+00A0, which is octal 240.
const FIRST_WIDE: u32 = 0xA0;

/// Whether the character may begin a name: an underscore, an ASCII letter, or a character from
/// U+00A0 on. (CSS 2.1 section 4.1.1 writes that limit in octal, as 240.)
#[inline(always)]
pub fn is_name_start(c: char) -> bool
    ensures { result ≡ is_name_start this_edition c }
{
    c.is_ascii_alphabetic() || c == '_' || u32::from(c) >= FIRST_WIDE
}

/// Whether the character may continue a name: one that may begin it, an ASCII digit or a hyphen
/// (CSS 2.1 section 4.1.1).
#[inline(always)]
pub fn is_name_char(c: char) -> bool
    ensures { result ≡ is_name_char this_edition c }
{
    is_name_start(c) || c.is_ascii_digit() || c == '-'
}

/// A cursor: a text and an offset in bytes, which is at most the text's length and is a character
/// boundary.
#[derive(Clone, Copy, PartialEq, Debug)]
pub struct Stream<'a> {
    /// The text.
    text: &'a str,
    /// The offset.
    pos: usize,
    pub ghost utf8: { ∥ IsUtf8 text.now ∥₁ },
    pub ghost boundary: { IsCharBoundary text.now pos },
}

impl<'a> From<&'a str> for Stream<'a> {
    ghost use Rattle.css_text.specs.Cursor.{text_of, offset_of};

    ghost from_gives = { λ text s. (text_of s ≡ text.now) × (offset_of s ≡ 0) };

    /// Returns a cursor at the start of the text.
    fn from(text: &'a str) -> Stream<'a> {
        Stream::new(text)
    }
}

impl<'a> Stream<'a> {
    ghost use Rattle.css_text.specs.Cursor.{text_of, offset_of, rest_of};
    ghost use Rattle.css_text.specs.Bytes.{byte as byte_read, past, past_one, past_byte};
    ghost use Rattle.css_text.specs.Characters.{is_space};
    ghost use Rattle.css_text.specs.Comments.{comment, blank};
    ghost use Rattle.css_text.specs.Names.{name as name_read};
    ghost use Rattle.css_text.specs.Strings.{string_or_name};
    ghost use Rattle.css_text.specs.Positions.{position};
    ghost use Rattle.css_text.specs.Errors.{Gives, position_of};
    ghost use Rattle.css_text.specs.ByteTests.{IsByteTest, PassesUpTo};

    /// Returns a cursor at the start of the text.
    #[tactic(auto, using(crate::proofs::bytes::CutLemmas::boundary_at_start))]
    pub fn new(text: &'a str) -> Stream<'a>
        ensures text { text_of result ≡ text.now }
        ensures offset { offset_of result ≡ 0 }
    {
        Stream { text, pos: 0 }
    }

    /// Returns the offset, in bytes from the start of the text.
    pub fn pos(&self) -> usize
        ensures { result ≡ offset_of self.now }
    {
        let Stream { pos, .. } = *self;
        pos
    }

    /// Advances to the end of the text.
    pub fn jump_to_end(&mut self)
        ensures text { text_of self.new ≡ text_of self.old }
        ensures rest { rest_of self.new ≡ [] }
    {
        self.pos = self.text.len();
    }

    /// Whether the cursor is at the end of the text.
    pub fn at_end(&self) -> bool
        ensures { IsTrue result ↔ (rest_of self.now ≡ []) }
    {
        self.pos == self.text.len()
    }

    /// Returns the byte at the cursor, or `UnexpectedEndOfStream` at the end of the text.
    #[inline(always)]
    pub fn curr_byte(&self) -> Result<u8, Error>
        ensures { MatchResult result (λ b. rest_of self.now ≡ b ∷ past_one (rest_of self.now))
            (λ e. (rest_of self.now ≡ []) × (e ≡ Error.UnexpectedEndOfStream)) }
    {
        readers::peek(self).ok_or(Error::UnexpectedEndOfStream)
    }

    /// Returns the byte at the cursor, which is not at the end of the text.
    pub fn curr_byte_unchecked(&self) -> u8
        requires { 0 < length (rest_of self.now) }
        ensures { rest_of self.now ≡ result ∷ past_one (rest_of self.now) }
    {
        self.text.as_bytes()[self.pos]
    }

    /// Returns the byte after the one at the cursor, or `UnexpectedEndOfStream` if there is none.
    pub fn next_byte(&self) -> Result<u8, Error>
        ensures { MatchResult result
            (λ b. past_one (rest_of self.now) ≡ b ∷ past_one (past_one (rest_of self.now)))
            (λ e. (past_one (rest_of self.now) ≡ []) × (e ≡ Error.UnexpectedEndOfStream)) }
    {
        match &self.text.as_bytes()[self.pos..] {
            [_, byte, ..] => Ok(*byte),
            _ => Err(Error::UnexpectedEndOfStream),
        }
    }

    /// Advances `n` bytes, which must end on a character boundary.
    #[inline(always)]
    pub fn advance(&mut self, n: usize)
        requires { IsCharBoundary (rest_of self.old) n }
        ensures text { text_of self.new ≡ text_of self.old }
        ensures rest { rest_of self.new ≡ drop n (rest_of self.old) }
    {
        self.pos += n;
    }

    /// Consumes the byte, which is ASCII. Another byte is `InvalidByte` with the position there,
    /// and the end of the text `UnexpectedEndOfStream`; both leave the cursor unchanged.
    #[inline(always)]
    pub fn consume_byte(&mut self, c: u8) -> Result<(), Error>
        requires { c < 128 }
        ensures text { text_of self.new ≡ text_of self.old }
        ensures reads { Gives (λ u. u) (text_of self.old) (byte_read c (rest_of self.old))
            result (rest_of self.new) }
    {
        match readers::peek(self) {
            Some(actual) if actual != c => Err(Error::InvalidByte {
                expected: c,
                actual,
                pos: self.gen_text_pos(),
            }),
            Some(_) => {
                readers::skip_ascii(self);
                Ok(())
            }
            None => Err(Error::UnexpectedEndOfStream),
        }
    }

    /// Consumes the byte, which is ASCII, if it is next.
    #[inline(always)]
    pub fn try_consume_byte(&mut self, c: u8)
        requires { c < 128 }
        ensures text { text_of self.new ≡ text_of self.old }
        ensures rest { rest_of self.new ≡ past_byte c (rest_of self.old) }
    {
        if readers::peek(self) == Some(c) {
            readers::skip_ascii(self);
        }
    }

    /// Skips the longest run of bytes for which the test returns true. The test must return the
    /// same for all bytes past ASCII, so that the run ends on a character boundary.
    pub fn skip_bytes<F: Fn(u8) -> bool>(&mut self, f: F)
        requires { IsByteTest (F.pre f) (F.post f) (text_of self.old) }
        ensures text { text_of self.new ≡ text_of self.old }
        ensures run { PassesUpTo (F.post f) (text_of self.old) (offset_of self.old)
            (offset_of self.new) }
    {
        let bytes = self.text.as_bytes();
        let mut end = self.pos;
        while end < bytes.len() && f(bytes[end]) {
            end += 1;
        }
        self.pos = end;
    }

    /// Consumes the longest run of bytes for which the test returns true, as `skip_bytes` does, and
    /// returns that run.
    pub fn consume_bytes<F: Fn(u8) -> bool>(&mut self, f: F) -> &'a str
        requires { IsByteTest (F.pre f) (F.post f) (text_of self.old) }
        ensures text { text_of self.new ≡ text_of self.old }
        ensures run { PassesUpTo (F.post f) (text_of self.old) (offset_of self.old)
            (offset_of self.new) }
        ensures value { result.now
            ≡ slice_range (text_of self.old) (offset_of self.old) (offset_of self.new) }
    {
        let begin = self.pos;
        self.skip_bytes(f);
        self.slice_back(begin)
    }

    /// Returns the text between two offsets.
    pub fn slice_range(&self, start: usize, end: usize) -> &'a str
        requires ordered { start ≤ end }
        requires start { IsCharBoundary (text_of self.now) start }
        requires end { IsCharBoundary (text_of self.now) end }
        ensures { result.now ≡ slice_range (text_of self.now) start end }
    {
        &self.text[start..end]
    }

    /// Returns the text from an earlier offset to the cursor.
    pub fn slice_back(&self, pos: usize) -> &'a str
        requires ordered { pos ≤ offset_of self.now }
        requires start { IsCharBoundary (text_of self.now) pos }
        ensures { result.now ≡ slice_range (text_of self.now) pos (offset_of self.now) }
    {
        &self.text[pos..self.pos]
    }

    /// Returns the text from the cursor to the end.
    #[inline(always)]
    pub fn slice_tail(&self) -> &'a str
        ensures { result.now ≡ rest_of self.now }
    {
        &self.text[self.pos..]
    }

    /// Skips the longest run of space bytes (CSS 2.1 section 4.1.1): spaces, tabs, newlines,
    /// carriage returns and form feeds.
    pub fn skip_spaces(&mut self)
        ensures text { text_of self.new ≡ text_of self.old }
        ensures rest { rest_of self.new ≡ past is_space (rest_of self.old) }
    {
        self.advance(scan::spaces_len(self.slice_tail()));
    }

    /// Skips a blank: the longest run of space bytes and comments (CSS 2.1 sections 4.1.1 and
    /// 4.1.9). An open comment after it is `InvalidComment` with the position of its start, and
    /// then the cursor is at the end of the text.
    #[tactic(auto, using(crate::proofs::bytes::GapLemmas::blank_where_gap_is_got, crate::proofs::bytes::GapLemmas::blank_where_gap_fails))]
    pub fn skip_spaces_and_comments(&mut self) -> Result<(), Error>
        ensures text { text_of self.new ≡ text_of self.old }
        ensures reads { Gives (λ u. u) (text_of self.old) (blank (rest_of self.old))
            result (rest_of self.new) }
    {
        readers::consume_gap(self).and(Ok(()))
    }

    /// Consumes a name and returns it (CSS 2.1 section 4.1.3): an optional hyphen, a character that
    /// may begin a name, and characters that may continue it. A hyphen that ends the text is a name
    /// too. If none begins at the cursor, the error is `InvalidIdent` with the position there, and
    /// a hyphen there is consumed.
    #[inline(always)]
    pub fn consume_ident(&mut self) -> Result<&'a str, Error>
        ensures text { text_of self.new ≡ text_of self.old }
        ensures reads { Gives (λ found. found.now) (text_of self.old)
            (name_read this_edition (rest_of self.old)) result (rest_of self.new) }
    {
        let start = *self;
        match readers::take_name(self) {
            Some(name) => Ok(name),
            None => Err(Error::InvalidIdent(start.gen_text_pos())),
        }
    }

    /// Consumes a string or a name, and returns the text between the quotes or the name. A string
    /// ends at the first quote like its opening one that does not directly follow a backslash (CSS
    /// 2.1 section 4.3.7), and its backslashes stay. At the end of the text, and for a string that
    /// is not closed, the error is `UnexpectedEndOfStream` and the cursor is at the end of the
    /// text. If neither a string nor a name begins at the cursor, the error is that of
    /// `consume_ident`.
    #[tactic(auto, unfolding(crate::specs::Strings::string_or_name))]
    #[inline(always)]
    pub fn consume_string(&mut self) -> Result<&'a str, Error>
        ensures text { text_of self.new ≡ text_of self.old }
        ensures reads { Gives (λ value. value.now) (text_of self.old)
            (string_or_name this_edition (rest_of self.old)) result (rest_of self.new) }
    {
        match readers::peek(self) {
            Some(quote @ (b'\'' | b'"')) => {
                readers::skip_ascii(self);
                readers::take_string(self, quote).ok_or(Error::UnexpectedEndOfStream)
            }
            Some(_) => self.consume_ident(),
            None => Err(Error::UnexpectedEndOfStream),
        }
    }

    /// Consumes a comment (CSS 2.1 section 4.1.9). If none begins at the cursor, the error is
    /// `InvalidComment` with the position there, and a `/` there is consumed. An open comment is
    /// the same error, and then the cursor is at the end of the text.
    #[tactic(auto, unfolding(crate::specs::Comments::comment))]
    pub fn skip_comment(&mut self) -> Result<(), Error>
        ensures text { text_of self.new ≡ text_of self.old }
        ensures reads { Gives (λ u. u) (text_of self.old) (comment (rest_of self.old))
            result (rest_of self.new) }
    {
        let start = *self;
        let text = self.slice_tail();
        if !scan::opens_comment(text) {
            self.try_consume_byte(b'/');
        } else if let Some(len) = scan::close_len(&text[2..]) {
            self.advance(2 + len);
            return Ok(());
        } else {
            self.jump_to_end();
        }
        Err(Error::InvalidComment(start.gen_text_pos()))
    }

    /// Returns the position of the cursor, as row and column.
    #[cold]
    #[inline(never)]
    pub fn gen_text_pos(&self) -> TextPos
        ensures { result ≡ position_of (text_of self.now) (rest_of self.now) }
    {
        self.gen_text_pos_from(self.pos)
    }

    /// Returns the position of another offset, or of the end of the text if that is less.
    #[tactic(auto, unfolding(crate::specs::Positions::position))]
    pub fn gen_text_pos_from(&self, pos: usize) -> TextPos
        requires { IsCharBoundary (text_of self.now) (min pos (length (text_of self.now))) }
        ensures { result ≡ position (text_of self.now) (min pos (length (text_of self.now))) }
    {
        position_after(&self.text[..pos.min(self.text.len())])
    }
}
