//! Writes identifiers and strings.
ghost use Rattle.std.specs.Prelude.{◌≡◌, ◌≤◌, ◌<◌, ◌++◌, true, false, IfOk, Some, None, length};
ghost use Rattle.std.specs.Fmt.{WritesStyledOnOk, HasWrittenStyled, IsFlush};
ghost use Rattle.std.specs.Fmt.InlineText.{AppendsIfIntact};
ghost use Rattle.std.specs.List.{flat_map, prefix_len};
ghost use Rattle.std.specs.Result.{IsOk};
ghost use Rattle.std.specs.Option.{ForSome};
ghost use Rattle.css_text.specs.Bytes.{past};
ghost use Rattle.css_selector_text.specs.Runs.{run};
ghost use Rattle.css_selector_text.specs.printing.Printing.{is_control as is_control_byte, is_kept as is_kept_byte, code_point_text, escape_text};
ghost use Rattle.css_selector_text.specs.printing.Printing.{byte_text, start_text, after_hyphen, identifier_text, string_text};

use crate::reading::texts::split_ascii;
use css_syntax::tokens::is_name_byte;
use std::fmt;
use std::fmt::{InlineText, Write as _};

/// Whether the byte is a control character other than U+0000.
fn is_control(byte: u8) -> bool
    ensures { result ≡ is_control_byte byte }
{
    matches!(byte, 1..=31 | 127)
}

/// Whether a name has the byte as it is, or a string with this quote.
fn is_kept(quote: Option<u8>, byte: u8) -> bool
    ensures { result ≡ is_kept_byte quote byte }
{
    match quote {
        None => is_name_byte(byte) && byte != 0,
        Some(quote) => !(byte == quote || byte == b'\\' || is_control(byte) || byte == 0),
    }
}

/// Returns the number of bytes at the start that are written as they are.
fn kept_len(quote: Option<u8>, bytes: &[u8]) -> usize
    ensures count { result ≡ prefix_len (is_kept_byte quote) bytes.now }
    ensures within { result ≤ length bytes.now }
{
    bytes
        .iter()
        .take_while(|byte| is_kept(quote, **byte))
        .count()
}

/// Returns the longest run of bytes that are written as they are, and the rest after it.
fn split_kept(quote: Option<u8>, text: &str) -> (&str, &str)
    requires { ForSome quote (λ q. q < 128) }
    ensures front { result.0.now ≡ run (is_kept_byte quote) text.now }
    ensures rest { result.1.now ≡ past (is_kept_byte quote) text.now }
{
    let len = kept_len(quote, text.as_bytes());
    (&text[..len], &text[len..])
}

/// An escape by number of an ASCII character: a backslash, two digits and a blank.
type CodePoint = InlineText<4>;

/// Appends an escape by number.
fn append_code_point(text: &mut CodePoint, byte: u8) -> fmt::Result
    ensures { IsOk result → AppendsIfIntact text.old (code_point_text byte) text.new }
{
    write!(text, "\\{byte:x} ")
}

/// Writes an escape by number.
fn write_code_point<W: fmt::Write>(f: &mut fmt::Formatter<W>, byte: u8) -> fmt::Result
    ensures { WritesStyledOnOk W.write_str_gives f.old result (code_point_text byte) f.new }
{
    let mut text = CodePoint::new();
    append_code_point(&mut text, byte)?;
    f.write_str(text.as_str())
}

/// Writes the escape of an ASCII character; of U+0000 it is U+FFFD.
fn write_escape<W: fmt::Write>(f: &mut fmt::Formatter<W>, byte: u8) -> fmt::Result
    requires { byte < 128 }
    ensures { WritesStyledOnOk W.write_str_gives f.old result (escape_text byte) f.new }
{
    if byte == 0 {
        return f.write_char('\u{FFFD}');
    }
    if is_control(byte) {
        return write_code_point(f, byte);
    }
    f.write_str("\\")?;
    f.write_char(char::from(byte))
}

/// Writes what is written as it is at the start, and the escape after it, and returns the rest.
fn write_run<'a, W: fmt::Write>(
    f: &mut fmt::Formatter<W>,
    quote: Option<u8>,
    text: &'a str,
) -> Result<&'a str, fmt::Error>
    requires low { ForSome quote (λ q. q < 128) }
    requires some { 0 < length text.now }
    ensures less { IfOk result (λ rest. length rest.now < length text.now) }
    ensures written { IfOk result (λ rest. IsFlush f.old → (front : _)
        × HasWrittenStyled W.write_str_gives f.old front f.new
        × (front ++ flat_map (byte_text quote) rest.now ≡ flat_map (byte_text quote) text.now)) }
{
    let (front, after) = split_kept(quote, text);
    f.write_str(front)?;
    match split_ascii(after) {
        Some((byte, rest)) => {
            write_escape(f, byte)?;
            Ok(rest)
        }
        None => Ok(after),
    }
}

/// Writes the bytes of a name after its start, or of a string with this quote.
fn write_bytes<W: fmt::Write>(
    f: &mut fmt::Formatter<W>,
    quote: Option<u8>,
    text: &str,
) -> fmt::Result
    requires { ForSome quote (λ q. q < 128) }
    ensures { WritesStyledOnOk W.write_str_gives f.old result
        (flat_map (byte_text quote) text.now) f.new }
{
    let mut rest = text;
    'runs: while !rest.is_empty() {
        rest = write_run(f, quote, rest)?;
    }
    Ok(())
}

/// Writes the start of a name, where a digit is escaped, and what follows.
fn write_start<W: fmt::Write>(f: &mut fmt::Formatter<W>, name: &str) -> fmt::Result
    ensures { WritesStyledOnOk W.write_str_gives f.old result (start_text name.now) f.new }
{
    match split_ascii(name) {
        Some((byte, rest)) if byte.is_ascii_digit() => {
            write_code_point(f, byte)?;
            write_bytes(f, None, rest)
        }
        _ => write_bytes(f, None, name),
    }
}

/// Writes a name that begins with a hyphen, given what follows that.
fn write_after_hyphen<W: fmt::Write>(f: &mut fmt::Formatter<W>, name: &str) -> fmt::Result
    ensures { WritesStyledOnOk W.write_str_gives f.old result (after_hyphen name.now) f.new }
{
    if name.is_empty() {
        return f.write_str("\\-");
    }
    f.write_str("-")?;
    write_start(f, name)
}

/// Writes a name as an identifier.
pub(crate) fn write_identifier<W: fmt::Write>(f: &mut fmt::Formatter<W>, name: &str) -> fmt::Result
    ensures { WritesStyledOnOk W.write_str_gives f.old result (identifier_text name.now) f.new }
{
    match split_ascii(name) {
        Some((b'-', rest)) => write_after_hyphen(f, rest),
        _ => write_start(f, name),
    }
}

/// Writes a value as a string.
pub(crate) fn write_string<W: fmt::Write>(f: &mut fmt::Formatter<W>, value: &str) -> fmt::Result
    ensures { WritesStyledOnOk W.write_str_gives f.old result (string_text value.now) f.new }
{
    f.write_str("\"")?;
    write_bytes(f, Some(b'"'), value)?;
    f.write_str("\"")
}
