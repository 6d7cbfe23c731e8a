//! Texts of `style` elements: whether they stay in them, and how they are written.
ghost use Rattle.std.specs.Prelude.{◌≡◌, true, [], IfOk};
ghost use Rattle.css_html.specs.Written.{HasNoEnd};
ghost use Rattle.css_html.specs.Modes.{letters_of};
ghost use Rattle.html_edits.specs.Placing.{from_style_end as from_style_end_of, is_text as is_text_kind};
ghost use Rattle.html_edits.specs.Placing.{IsOneText, IsPlain, IsStyleText, IsXmlText};

use crate::attributes::decode;
use crate::edits::{Language, Refusal};
use css_html::decoding::TextKind;
use css_html::modes::{Mode, RawName};
use css_html::tokenizer::{TokenKind, read_next as read_html};
use css_xml::tokenizer::read_next as read_xml;
use std::alloc::{AllocError, Global};

const AMPERSAND: &[u8] = b"&amp;";

const LESS_THAN: &[u8] = b"&lt;";

const GREATER_THAN: &[u8] = b"&gt;";

/// Whether tokens of the kind are texts.
fn is_text(kind: TokenKind) -> bool
    ensures { result ≡ is_text_kind kind }
{
    matches!(kind, TokenKind::Text)
}

/// Returns what is left of a text after what is read of it as the text of a `style` of HTML.
pub(crate) fn from_style_end(text: &[u8]) -> &[u8]
    ensures { result.now ≡ from_style_end_of text.now }
{
    match read_html(Mode::Raw(RawName::Style), text) {
        Some(token) if is_text(token.kind) => token.rest,
        _ => text,
    }
}

/// Whether a text does not end the `style` element of HTML that it is in.
fn is_style_text(text: &[u8]) -> bool
    ensures { result ≡ true → HasNoEnd (letters_of RawName.Style) text.now }
{
    from_style_end(text).is_empty()
}

/// Returns what is written of a text in a `style` element of HTML: the text.
fn html_text(alloc: Global, text: &[u8]) -> Result<Vec<u8>, Refusal>
    ensures { IfOk result (λ written. IsStyleText Language.Html text.now written.items) }
{
    if !is_style_text(text) {
        return Err(Refusal::Misplaced);
    }
    Ok(Vec::from_slice(alloc, text)?)
}

/// Whether all of a text of XML is read as one text.
fn is_one_text(text: &[u8]) -> bool
    ensures { result ≡ true → IsOneText text.now }
{
    match read_xml(text) {
        Some(token) => token.kind == TokenKind::Text && token.rest.is_empty(),
        None => false,
    }
}

/// Whether all of a text of XML is read as one text, if there is any.
fn is_plain(text: &[u8]) -> bool
    ensures { result ≡ true → IsPlain text.now }
{
    if is_one_text(text) {
        true
    } else {
        text.is_empty()
    }
}

/// Whether a text of XML says another one.
fn is_xml_text(alloc: Global, text: &[u8], written: &[u8]) -> Result<bool, AllocError>
    ensures { IfOk result (λ holds. holds ≡ true → IsXmlText text.now written.now) }
{
    let mut wanted = Vec::new(alloc);
    decode(&mut wanted, Language::Xml, TextKind::Raw, text)?;
    let mut said = Vec::new(alloc);
    decode(&mut said, Language::Xml, TextKind::Text, written)?;
    Ok(is_plain(written) && said.as_slice() == wanted.as_slice())
}

/// Returns a text with references for what would be markup in XML.
fn escaped(alloc: Global, text: &[u8]) -> Result<Vec<u8>, AllocError> {
    let mut out = Vec::new(alloc);
    let mut brackets: usize = 0;
    for byte in text {
        match *byte {
            b'&' => out.extend_from_slice(AMPERSAND)?,
            b'<' => out.extend_from_slice(LESS_THAN)?,
            b'>' if brackets >= 2 => out.extend_from_slice(GREATER_THAN)?,
            byte => out.push(byte)?,
        }
        brackets = if *byte == b']' {
            brackets.saturating_add(1)
        } else {
            0
        };
    }
    Ok(out)
}

/// Returns what is written of a text in a `style` element of XML.
fn xml_text(alloc: Global, text: &[u8]) -> Result<Vec<u8>, Refusal>
    ensures { IfOk result (λ written. IsStyleText Language.Xml text.now written.items) }
{
    let written = escaped(alloc, text)?;
    if is_xml_text(alloc, text, written.as_slice())? {
        Ok(written)
    } else {
        Err(Refusal::Misplaced)
    }
}

/// Returns what is written of a text in a `style` element.
pub(crate) fn style_text(alloc: Global, language: Language, text: &[u8]) -> Result<Vec<u8>, Refusal>
    ensures { IfOk result (λ written. IsStyleText language text.now written.items) }
{
    match language {
        Language::Html => html_text(alloc, text),
        Language::Xml => xml_text(alloc, text),
    }
}
