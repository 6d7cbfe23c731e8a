//! Values of attributes, as they are written in quotes.
ghost use Rattle.std.specs.Prelude.{◌≡◌, ◌<◌, ◌++◌, OnOk};
ghost use Rattle.html_edits.specs.Values.{escaped_byte, escaped_value, number_reference, digit_of, is_control as is_control_byte};
ghost use Rattle.html_edits.specs.Values.{is_numbered as is_numbered_byte};

use crate::edits::Language;
use std::alloc::AllocError;

const AMPERSAND: &[u8] = b"&amp;";

const LESS_THAN: &[u8] = b"&lt;";

const DOUBLE_QUOTE: &[u8] = b"&quot;";

const SINGLE_QUOTE: &[u8] = b"&#39;";

/// Whether a byte is a control character but for those that are spaces, of which a return is one that HTML
/// would read as a newline.
fn is_control(byte: u8) -> bool
    ensures { result ≡ is_control_byte byte }
{
    byte == 127 || byte < 32 && byte != b'\t' && byte != b'\n' && byte != 12
}

/// Whether a byte is written as a reference by its number: in XML also one that would be read as a space.
fn is_numbered(language: Language, byte: u8) -> bool
    ensures { result ≡ is_numbered_byte language byte }
{
    match language {
        Language::Html => is_control(byte),
        Language::Xml => is_control(byte) || byte == b'\t' || byte == b'\n',
    }
}

/// Appends a digit of a number, if the number has it.
fn push_digit(out: &mut Vec<u8>, byte: u8, least: u8) -> Result<(), AllocError>
    requires { 0 < least }
    ensures { OnOk result (out.new.items ≡ out.old.items ++ digit_of byte least) }
{
    if byte >= least {
        out.push(b'0' + byte / least % 10)?;
    }
    Ok(())
}

/// Appends a control character as a reference by its number.
fn write_number(out: &mut Vec<u8>, byte: u8) -> Result<(), AllocError>
    ensures { OnOk result (out.new.items ≡ out.old.items ++ number_reference byte) }
{
    out.push(b'&')?;
    out.push(b'#')?;
    push_digit(out, byte, 100)?;
    push_digit(out, byte, 10)?;
    out.push(b'0' + byte % 10)?;
    out.push(b';')?;
    Ok(())
}

/// Appends a byte as it is written in quotes.
fn write_byte(out: &mut Vec<u8>, language: Language, quote: u8, byte: u8) -> Result<(), AllocError>
    ensures { OnOk result (out.new.items ≡ out.old.items ++ escaped_byte language quote byte) }
{
    if byte == b'&' {
        out.extend_from_slice(AMPERSAND)
    } else if byte == b'<' {
        out.extend_from_slice(LESS_THAN)
    } else if byte == b'"' && byte == quote {
        out.extend_from_slice(DOUBLE_QUOTE)
    } else if byte == b'\'' && byte == quote {
        out.extend_from_slice(SINGLE_QUOTE)
    } else if is_numbered(language, byte) {
        write_number(out, byte)
    } else {
        out.push(byte)?;
        Ok(())
    }
}

/// Appends a value as it is written in quotes.
pub(crate) fn write_value(
    out: &mut Vec<u8>,
    language: Language,
    quote: u8,
    value: &[u8],
) -> Result<(), AllocError>
    ensures { OnOk result (out.new.items ≡ out.old.items ++ escaped_value language quote value.now) }
{
    let mut rest = value;
    'value: while let [byte, after @ ..] = rest {
        write_byte(out, language, quote, *byte)?;
        rest = after;
    }
    Ok(())
}
