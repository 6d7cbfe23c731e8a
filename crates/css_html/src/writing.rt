//! Writing attributes.
ghost use Rattle.std.specs.Prelude.{◌≡◌, ◌++◌, OnOk};
ghost use Rattle.css_html.specs.Written.{escaped_byte as escaped_byte_of, escaped_value as escaped_value_of};
ghost use Rattle.css_html.specs.Written.{written};

use std::alloc::AllocError;

const AMPERSAND: &[u8] = b"&amp;";

const QUOTE: &[u8] = b"&quot;";

const RETURN: &[u8] = b"&#13;";

/// Adds a byte as it is written between double quotes.
fn write_byte(out: &mut Vec<u8>, byte: u8) -> Result<(), AllocError>
    ensures { OnOk result (out.new.items ≡ out.old.items ++ escaped_byte_of byte) }
{
    if byte == b'&' {
        out.extend_from_slice(AMPERSAND)
    } else if byte == b'"' {
        out.extend_from_slice(QUOTE)
    } else if byte == b'\r' {
        out.extend_from_slice(RETURN)
    } else {
        out.push(byte)?;
        Ok(())
    }
}

/// Adds a value as it is written between double quotes.
pub fn write_value(out: &mut Vec<u8>, value: &[u8]) -> Result<(), AllocError>
    ensures { OnOk result (out.new.items ≡ out.old.items ++ escaped_value_of value.now) }
{
    let mut rest = value;
    'value: while let [byte, after @ ..] = rest {
        write_byte(out, *byte)?;
        rest = after;
    }
    Ok(())
}

/// Adds an attribute, with a space before it.
pub fn write_attribute(out: &mut Vec<u8>, name: &[u8], value: &[u8]) -> Result<(), AllocError>
    ensures { OnOk result (out.new.items ≡ out.old.items ++ written name.now value.now) }
{
    out.push(b' ')?;
    out.extend_from_slice(name)?;
    out.push(b'=')?;
    out.push(b'"')?;
    write_value(out, value)?;
    out.push(b'"')?;
    Ok(())
}
