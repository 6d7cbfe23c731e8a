//! Where two tokens would join.
ghost use Rattle.std.specs.Prelude.{◌≡◌};
ghost use Rattle.css_text.specs.Bytes.{starts_by, is_digit};
ghost use Rattle.css_values.specs.Seams.{begins_word as begins_word_of, starts_fraction as starts_fraction_of};
ghost use Rattle.css_values.specs.Seams.{starts_unsigned as starts_unsigned_of, starts_signed as starts_signed_of};
ghost use Rattle.css_values.specs.Seams.{starts_word as starts_word_of, starts_number as starts_number_of};
ghost use Rattle.css_values.specs.Seams.{joins as joins_of};

use css_syntax::tokens::is_name_byte;
use css_text::readers;

/// Whether a name or a number begins with the byte.
fn begins_word(byte: u8) -> bool
    ensures { result ≡ begins_word_of byte }
{
    is_name_byte(byte) || byte == b'\\'
}

/// Whether a digit is next.
fn starts_digit(bytes: &[u8]) -> bool
    ensures { result ≡ starts_by is_digit bytes.now }
{
    match bytes {
        [] => false,
        [byte, ..] => byte.is_ascii_digit(),
    }
}

/// Whether a point and a digit are next.
fn starts_fraction(bytes: &[u8]) -> bool
    ensures { result ≡ starts_fraction_of bytes.now }
{
    match bytes {
        [] => false,
        [byte, rest @ ..] => *byte == b'.' && starts_digit(rest),
    }
}

/// Whether a number without a sign is next.
fn starts_unsigned(bytes: &[u8]) -> bool
    ensures { result ≡ starts_unsigned_of bytes.now }
{
    starts_digit(bytes) || starts_fraction(bytes)
}

/// Whether a number with this sign is next.
fn starts_signed(bytes: &[u8], sign: u8) -> bool
    ensures { result ≡ starts_signed_of sign bytes.now }
{
    match bytes {
        [] => false,
        [byte, rest @ ..] => *byte == sign && starts_unsigned(rest),
    }
}

/// Whether a word begins with this byte.
fn starts_name(bytes: &[u8]) -> bool
    ensures { result ≡ starts_by begins_word_of bytes.now }
{
    match bytes {
        [] => false,
        [byte, ..] => begins_word(*byte),
    }
}

/// Whether a name, a number or a function is next, or `-->`.
fn starts_word(bytes: &[u8]) -> bool
    ensures { result ≡ starts_word_of bytes.now }
{
    starts_name(bytes) || starts_fraction(bytes) || starts_signed(bytes, b'+')
}

/// Whether a number is next.
fn starts_number(bytes: &[u8]) -> bool
    ensures { result ≡ starts_number_of bytes.now }
{
    starts_unsigned(bytes) || starts_signed(bytes, b'+') || starts_signed(bytes, b'-')
}

/// Whether a token that begins with this byte would join with the text, if it followed.
pub(crate) fn joins(last: u8, text: &str) -> bool
    ensures { result ≡ joins_of last text.now }
{
    let bytes = text.as_bytes();
    if last.is_ascii_digit() {
        starts_word(bytes) || readers::starts(text, b'%')
    } else if begins_word(last) {
        starts_word(bytes) || readers::starts(text, b'(')
    } else if last == b'#' || last == b'@' {
        starts_word(bytes)
    } else if last == b'.' || last == b'+' {
        starts_number(bytes)
    } else if last == b'/' {
        readers::starts(text, b'*')
    } else {
        last == b'<' && readers::starts(text, b'!')
    }
}
