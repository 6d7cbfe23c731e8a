//! The text that a page's bytes stand for (HTML Standard, sections 13.2.3.5 and 13.2.5).
ghost use Rattle.std.specs.Prelude.{◌≡◌, ◌++◌, OnOk, IfOk};
ghost use Rattle.css_text.specs.Bytes.{past_byte};
ghost use Rattle.css_text.specs.AsciiBytes.{newline};
ghost use Rattle.css_html.specs.References.{reference as reference_of};
ghost use Rattle.css_html.specs.Decoding.{decoded, part_at, nul_of, or_ampersand};
ghost use Rattle.css_html.specs.Decoding.{has_references as has_references_of, is_value as is_value_of};

use crate::marks::split;
use crate::references::{push_character, push_characters, reference};
use std::alloc::AllocError;

/// What a text of a page is, which decides how it is decoded.
#[derive(Clone, Copy, Debug, PartialEq)]
pub enum TextKind {
    /// The value of an attribute.
    Value,
    /// Text between tags of HTML, where U+0000 is left out.
    Text,
    /// The text of a `title` or a `textarea`, and text between tags of SVG and MathML.
    Escapable,
    /// Text without character references: that of a `style` or a `script`, a comment, a CDATA section.
    Raw,
}

/// Whether the text is the value of an attribute.
fn is_value(kind: TextKind) -> bool
    ensures { result ≡ is_value_of kind }
{
    matches!(kind, TextKind::Value)
}

/// Whether the text may have character references.
fn has_references(kind: TextKind) -> bool
    ensures { result ≡ has_references_of kind }
{
    !matches!(kind, TextKind::Raw)
}

/// Returns the rest after a line feed, if one is next.
fn past_newline(bytes: &[u8]) -> &[u8]
    ensures { result.now ≡ past_byte newline bytes.now }
{
    match bytes {
        [b'\n', rest @ ..] => rest,
        _ => bytes,
    }
}

/// Appends what U+0000 stands for.
fn push_nul(out: &mut Vec<u8>, kind: TextKind) -> Result<(), AllocError>
    ensures { OnOk result (out.new.items ≡ out.old.items ++ nul_of kind) }
{
    match kind {
        TextKind::Text => Ok(()),
        TextKind::Value | TextKind::Escapable | TextKind::Raw => push_character(out, '\u{FFFD}'),
    }
}

/// Appends what an `&` before this text stands for, and returns the rest.
fn push_reference<'a>(
    out: &mut Vec<u8>,
    in_value: bool,
    after: &'a [u8],
) -> Result<&'a [u8], AllocError>
    ensures pushed { OnOk result (out.new.items
        ≡ out.old.items ++ (or_ampersand after.now (reference_of in_value after.now)).0) }
    ensures left { IfOk result (λ rest. rest.now
        ≡ (or_ampersand after.now (reference_of in_value after.now)).1) }
{
    match reference(in_value, after) {
        None => {
            out.push(b'&')?;
            Ok(after)
        }
        Some(found) => {
            push_characters(out, found.characters)?;
            Ok(found.rest)
        }
    }
}

/// Appends what a byte stands for, or the newline or the reference that begins with it, and returns
/// the rest.
#[tactic(auto, unfolding(crate::specs::Decoding::part_at))]
fn push_part<'a>(
    out: &mut Vec<u8>,
    kind: TextKind,
    byte: u8,
    after: &'a [u8],
) -> Result<&'a [u8], AllocError>
    ensures pushed { OnOk result (out.new.items ≡ out.old.items ++ (part_at kind byte after.now).0) }
    ensures left { IfOk result (λ rest. rest.now ≡ (part_at kind byte after.now).1) }
{
    if byte == b'\r' {
        out.push(b'\n')?;
        Ok(past_newline(after))
    } else if byte == 0 {
        push_nul(out, kind)?;
        Ok(after)
    } else if byte == b'&' && has_references(kind) {
        push_reference(out, is_value(kind), after)
    } else {
        out.push(byte)?;
        Ok(after)
    }
}

/// Appends what a text of this kind stands for.
pub fn decode(out: &mut Vec<u8>, kind: TextKind, bytes: &[u8]) -> Result<(), AllocError>
    ensures { OnOk result (out.new.items ≡ out.old.items ++ decoded kind bytes.now) }
{
    let mut rest = bytes;
    'parts: while let Some((byte, after)) = split(rest) {
        rest = push_part(out, kind, byte, after)?;
    }
    Ok(())
}
