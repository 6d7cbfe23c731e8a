//! The encoding that an XML declaration names (HTML Standard, section 13.2.3.2).
ghost use Rattle.std.specs.Prelude.{◌≡◌, ◌≤◌, length, option_map};
ghost use Rattle.std.specs.List.{prefix_len};
ghost use Rattle.css_text.specs.Bytes.{past};
ghost use Rattle.html_encodings.specs.Words.{is_control as is_control_of};
ghost use Rattle.html_encodings.specs.Declaration.{past_encoding as past_encoding_of};
ghost use Rattle.html_encodings.specs.Declaration.{quoted_label as quoted_label_of, declared_label as declared_label_of};
ghost use Rattle.html_encodings.specs.Declaration.{is_visible as is_visible_of, encoding_of_visible as encoding_of_visible_of};
ghost use Rattle.html_encodings.specs.Declaration.{encoding_in_declaration as encoding_in_declaration_of};
ghost use Rattle.html_encodings.specs.Declaration.{declared_encoding as declared_encoding_of};
ghost use Rattle.html_encodings.specs.Declaration.{wide_declaration as wide_declaration_of};

use crate::bytes::{past_sign, up_to_byte};
use crate::content::{is_quote, readable};
use crate::encoding::{Encoding, encoding_of_label};

/// Returns the rest after the first word `encoding`.
#[tactic(auto, unfolding(crate::specs::Declaration::past_encoding))]
fn past_encoding(bytes: &[u8]) -> Option<&[u8]>
    ensures { past_encoding_of bytes.now ≡ option_map (λ rest. rest.now) result }
{
    let mut rest = bytes;
    'encoding: while let [_, after @ ..] = rest {
        if rest.starts_with(b"encoding") {
            return Some(&rest[8..]);
        }
        rest = after;
    }
    None
}

/// Returns the number of spaces and controls at the start.
fn control_count(bytes: &[u8]) -> usize
    ensures count { result ≡ prefix_len is_control_of bytes.now }
    ensures within { result ≤ length bytes.now }
{
    bytes.iter().take_while(|byte| **byte <= b' ').count()
}

/// Returns the rest after spaces and controls.
fn past_controls(bytes: &[u8]) -> &[u8]
    ensures { result.now ≡ past is_control_of bytes.now }
{
    &bytes[control_count(bytes)..]
}

/// Returns a label in quotes, if one begins here.
fn quoted_label(bytes: &[u8]) -> Option<&[u8]>
    ensures { quoted_label_of bytes.now ≡ option_map (λ label. label.now) result }
{
    match bytes {
        [quote, text @ ..] if is_quote(*quote) => up_to_byte(text, *quote),
        _ => None,
    }
}

/// Returns the label after a `=`.
fn declared_label(bytes: &[u8]) -> Option<&[u8]>
    ensures { declared_label_of bytes.now ≡ option_map (λ label. label.now) result }
{
    match past_sign(past_controls(bytes)) {
        Some(value) => quoted_label(past_controls(value)),
        None => None,
    }
}

/// Whether a label has no spaces and controls.
fn is_visible(label: &[u8]) -> bool
    ensures { result ≡ is_visible_of label.now }
{
    let mut rest = label;
    'visible: while let [byte, after @ ..] = rest {
        if *byte <= b' ' {
            return false;
        }
        rest = after;
    }
    true
}

/// Returns the encoding of a label that has no spaces and controls.
fn encoding_of_visible(label: &[u8]) -> Option<Encoding>
    ensures { result ≡ encoding_of_visible_of label.now }
{
    if is_visible(label) {
        encoding_of_label(label)
    } else {
        None
    }
}

/// Returns the encoding that a declaration names, without its `>`.
fn encoding_in_declaration(bytes: &[u8]) -> Option<Encoding>
    ensures { result ≡ encoding_in_declaration_of bytes.now }
{
    let after = past_encoding(bytes)?;
    let label = declared_label(after)?;
    match encoding_of_visible(label) {
        Some(encoding) => Some(readable(encoding)),
        None => None,
    }
}

/// Returns the encoding that an XML declaration at the start names.
pub(crate) fn declared_encoding(bytes: &[u8]) -> Option<Encoding>
    ensures { result ≡ declared_encoding_of bytes.now }
{
    if !bytes.starts_with(b"<?xml") {
        return None;
    }
    encoding_in_declaration(up_to_byte(bytes, b'>')?)
}

/// Returns UTF-16, if the front of an XML declaration in it is at the start.
pub(crate) fn wide_declaration(bytes: &[u8]) -> Option<Encoding>
    ensures { result ≡ wide_declaration_of bytes.now }
{
    if bytes.starts_with(b"<\0?\0x\0") {
        Some(Encoding::Utf16Le)
    } else if bytes.starts_with(b"\0<\0?\0x") {
        Some(Encoding::Utf16Be)
    } else {
        None
    }
}
