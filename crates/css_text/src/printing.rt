//! Prints positions and errors. No option of the formatter changes the text.
ghost use Rattle.std.specs.Prelude.{◌++◌, IsOk};
ghost use Rattle.std.specs.Fmt.{WritesStyledOnOk};
ghost use Rattle.std.specs.Fmt.InlineText.{AppendsIfIntact};
ghost use Rattle.css_text.specs.Errors.{position_text, error_text};

use crate::{Error, TextPos};
use std::fmt;
use std::fmt::{InlineText, Write};

/// Prints the row, a colon and the column, both in decimal digits. The formatter's width, fill and
/// flags change nothing.
impl fmt::Display for TextPos {
    ghost use Rattle.std.specs.Prelude.{Some};
    ghost use Rattle.css_text.specs.Errors.{position_text};

    ghost output = { λ pos. Some (position_text pos) };

    ghost styled_output = { λ pos _. Some (position_text pos) };

    fn fmt<W: fmt::Write>(&self, f: &mut fmt::Formatter<W>) -> fmt::Result {
        let mut position = Text::new();
        append_at(&mut position, "", *self)?;
        f.write_str(position.as_str())
    }
}

/// Prints the error in a few words, with its position if it has one. An `InvalidByte` shows its two
/// bytes as the characters with their numbers. The formatter's width, fill and flags change
/// nothing.
impl fmt::Display for Error {
    ghost use Rattle.std.specs.Prelude.{Some};
    ghost use Rattle.css_text.specs.Errors.{error_text};

    ghost output = { λ e. Some (error_text e) };

    ghost styled_output = { λ e _. Some (error_text e) };

    fn fmt<W: fmt::Write>(&self, f: &mut fmt::Formatter<W>) -> fmt::Result {
        let mut text = Text::new();
        append_error(&mut text, *self)?;
        f.write_str(text.as_str())
    }
}

/// A printed error. It has at most 47 bytes: an `InvalidByte` has 22 bytes of words, two characters
/// of at most two bytes, two numbers of at most ten digits and a colon.
type Text = InlineText<47>;

/// Appends the printed error.
fn append_error(text: &mut Text, error: Error) -> fmt::Result
    ensures { IsOk result → AppendsIfIntact text.old (error_text error) text.new }
{
    match error {
        Error::UnexpectedEndOfStream => text.write_str("unexpected end of stream"),
        Error::InvalidIdent(pos) => append_at(text, "invalid ident at ", pos),
        Error::InvalidComment(pos) => append_at(text, "invalid comment at ", pos),
        Error::InvalidValue(pos) => append_at(text, "invalid value at ", pos),
        Error::InvalidByte {
            expected,
            actual,
            pos,
        } => append_invalid_byte(text, expected, actual, pos),
        Error::SelectorMissing => text.write_str("selector missing"),
        Error::UnexpectedSelector => text.write_str("unexpected selector"),
        Error::UnexpectedCombinator => text.write_str("unexpected combinator"),
        Error::InvalidAttributeSelector => text.write_str(
            "invalid or unsupported attribute selector",
        ),
        Error::InvalidLanguagePseudoClass => text.write_str("invalid language pseudo-class"),
    }
}

/// Appends a printed `InvalidByte`. Each byte is shown as the character with its number.
fn append_invalid_byte(text: &mut Text, expected: u8, actual: u8, pos: TextPos) -> fmt::Result
    ensures { IsOk result →
        AppendsIfIntact text.old (error_text (Error.InvalidByte expected actual pos)) text.new }
{
    let expected = char::from(expected);
    let actual = char::from(actual);
    write!(
        text,
        "expected '{expected}' not '{actual}' at {}:{}",
        pos.row, pos.col
    )
}

/// Appends the words, the row, a colon and the column.
fn append_at(text: &mut Text, words: &str, pos: TextPos) -> fmt::Result
    ensures { IsOk result → AppendsIfIntact text.old (words.now ++ position_text pos) text.new }
{
    write!(text, "{words}{}:{}", pos.row, pos.col)
}

/// Writes three texts one after another.
pub fn write_three<W: fmt::Write>(
    f: &mut fmt::Formatter<W>,
    a: &str,
    b: &str,
    c: &str,
) -> fmt::Result
    ensures { WritesStyledOnOk W.write_str_gives f.old result (a.now ++ b.now ++ c.now) f.new }
{
    f.write_str(a)?;
    f.write_str(b)?;
    f.write_str(c)
}
