//! Where the elements of sheets end, and how new ones are written.
ghost use Rattle.std.specs.Prelude.{◌≡◌, true, [], IfOk, Some};
ghost use Rattle.css_html.specs.Views.{token_of};
ghost use Rattle.css_html.specs.Locality.{style_element as style_element_of};
ghost use Rattle.html_edits.specs.Attributes.{tag_name as tag_name_of};
ghost use Rattle.html_edits.specs.Placing.{IsStyleEnd, EndsSheet, EndsXmlSheet, EndsElement, is_content as is_content_kind};
ghost use Rattle.html_edits.specs.Placing.{style_name as style_name_of, after_tag as after_tag_of, BeginsNamed, IsElementText};
ghost use Rattle.html_edits.specs.Placing.{prefix_of as prefix_of_name, IsSheetInstruction, IsContent, EndsXmlText, EndsText};

use crate::attributes::{from_colon, is_link_tag, is_style_tag, tag_name};
use crate::edits::{Language, Refusal};
use crate::style_texts::from_style_end;
use css_html::marks::text_between;
use css_html::modes::{Mode, RawName};
use css_html::tokenizer::{Token, TokenKind, read_next as read_html};
use css_xml::tokenizer::{is_empty_tag, read_next as read_xml};
use std::alloc::{AllocError, Global};

const OPEN: &[u8] = b"<style>";

const CLOSE: &[u8] = b"</style>";

const STYLE: &[u8] = b"style";

const PREFIXED_STYLE: &[u8] = b":style";

const END_TAG: &[u8] = b"</";

const SHEET_INSTRUCTION: &[u8] = b"<?xml-stylesheet";

/// Whether a text is one end tag of a `style` of HTML.
fn is_style_end(text: &[u8]) -> bool
    ensures { result ≡ true → IsStyleEnd text.now }
{
    match read_html(Mode::Raw(RawName::Style), text) {
        Some(token) => token.kind == TokenKind::EndTag && token.rest.is_empty(),
        None => false,
    }
}

/// Whether this comes between the tag of a sheet of HTML and its end.
fn ends_html_sheet(tag: &Token<'_>, between: &[u8]) -> bool
    ensures { result ≡ true → EndsSheet Language.Html (token_of tag.now) between.now }
{
    if is_style_tag(Language::Html, tag) {
        is_style_end(from_style_end(between))
    } else {
        is_link_tag(Language::Html, tag) && between.is_empty()
    }
}

/// Whether tokens of the kind may be in an element without elements.
fn is_content(kind: TokenKind) -> bool
    ensures { result ≡ is_content_kind kind }
{
    matches!(
        kind,
        TokenKind::Text | TokenKind::Cdata | TokenKind::Comment
    )
}

/// Whether a text is read as content of an element without elements.
fn is_content_text(text: &[u8]) -> bool
    ensures { result ≡ true → IsContent text.now }
{
    let mut rest = text;
    'content: for _ in 0..text.len() {
        let Some(token) = read_xml(rest) else {
            break;
        };
        if !is_content(token.kind) {
            return false;
        }
        rest = token.rest;
    }
    rest.is_empty()
}

/// Whether these are the content of an element of XML with this tag, and what follows it.
fn ends_xml_text(tag: &Token<'_>, between: &[u8], rest: &[u8]) -> bool
    ensures { result ≡ true → EndsXmlText (token_of tag.now) between.now rest.now }
{
    !is_empty_tag(tag) && is_content_text(between) && rest.starts_with(END_TAG)
}

/// Whether these are between the tag of a `style` and a place where its text may end, and from there on.
pub(crate) fn ends_text(language: Language, tag: &Token<'_>, between: &[u8], rest: &[u8]) -> bool
    ensures { result ≡ true → EndsText language (token_of tag.now) between.now rest.now }
{
    match language {
        Language::Html => true,
        Language::Xml => ends_xml_text(tag, between, rest),
    }
}

/// Whether a token is the end tag with a name, and nothing follows it.
fn is_last_end(name: &[u8], token: &Token<'_>) -> bool
    ensures kind { result ≡ true → token.now.kind ≡ TokenKind.EndTag }
    ensures name { result ≡ true → tag_name_of (token_of token.now) ≡ name.now }
    ensures last { result ≡ true → token.now.rest.now ≡ [] }
{
    token.kind == TokenKind::EndTag && tag_name(token) == name && token.rest.is_empty()
}

/// Whether a text is the content of an element without elements, and an end tag with its name.
fn ends_element(name: &[u8], text: &[u8]) -> bool
    ensures { result ≡ true → EndsElement name.now text.now }
{
    let mut rest = text;
    'content: for _ in 0..text.len() {
        let Some(token) = read_xml(rest) else {
            break;
        };
        if !is_content(token.kind) {
            return is_last_end(name, &token);
        }
        rest = token.rest;
    }
    false
}

/// Whether this comes between the tag of an element of XML without elements and its end.
fn ends_xml_sheet(tag: &Token<'_>, between: &[u8]) -> bool
    ensures { result ≡ true → EndsXmlSheet (token_of tag.now) between.now }
{
    if is_empty_tag(tag) {
        between.is_empty()
    } else {
        ends_element(tag_name(tag), between)
    }
}

/// Whether this comes between the tag of a sheet and its end.
pub(crate) fn ends_sheet(language: Language, tag: &Token<'_>, between: &[u8]) -> bool
    ensures { result ≡ true → EndsSheet language (token_of tag.now) between.now }
{
    match language {
        Language::Html => ends_html_sheet(tag, between),
        Language::Xml if is_style_tag(language, tag) => ends_xml_sheet(tag, between),
        Language::Xml => is_link_tag(language, tag) && ends_xml_sheet(tag, between),
    }
}

/// Whether a text is an instruction of XML that names a sheet.
pub(crate) fn is_sheet_instruction(language: Language, text: &[u8]) -> bool
    ensures { result ≡ true → IsSheetInstruction language text.now }
{
    match read_xml(text) {
        Some(token) => {
            language == Language::Xml
                && token.kind == TokenKind::Comment
                && token.rest.is_empty()
                && text.starts_with(SHEET_INSTRUCTION)
        }
        None => false,
    }
}

/// Returns the prefix of a name: in HTML none.
pub(crate) fn prefix_of(language: Language, name: &[u8]) -> &[u8]
    ensures { result.now ≡ prefix_of_name language name.now }
{
    match (language, from_colon(name)) {
        (Language::Xml, rest @ [_, ..]) => text_between(name, rest),
        _ => &[],
    }
}

/// Returns a `style` element of HTML with this content.
fn style_element(alloc: Global, inside: &[u8]) -> Result<Vec<u8>, AllocError>
    ensures { IfOk result (λ found. found.items ≡ style_element_of inside.now) }
{
    let mut out = Vec::new(alloc);
    out.extend_from_slice(OPEN)?;
    out.extend_from_slice(inside)?;
    out.extend_from_slice(CLOSE)?;
    Ok(out)
}

/// Returns the name of a `style` with a prefix, or without one.
fn style_name(alloc: Global, prefix: &[u8]) -> Result<Vec<u8>, AllocError>
    ensures { IfOk result (λ found. found.items ≡ style_name_of prefix.now) }
{
    match prefix {
        [] => Vec::from_slice(alloc, STYLE),
        [_, ..] => {
            let mut out = Vec::from_slice(alloc, prefix)?;
            out.extend_from_slice(PREFIXED_STYLE)?;
            Ok(out)
        }
    }
}

/// Returns what follows the start tag of an element with a name and content.
fn after_tag(alloc: Global, name: &[u8], inside: &[u8]) -> Result<Vec<u8>, AllocError>
    ensures { IfOk result (λ found. found.items ≡ after_tag_of name.now inside.now) }
{
    let mut out = Vec::new(alloc);
    out.extend_from_slice(inside)?;
    out.extend_from_slice(END_TAG)?;
    out.extend_from_slice(name)?;
    out.push(b'>')?;
    Ok(out)
}

/// Whether a text of XML is read as a start tag with a name, and then as a rest.
fn begins_named(name: &[u8], rest: &[u8], text: &[u8]) -> bool
    ensures { result ≡ true → BeginsNamed name.now rest.now text.now }
{
    match read_xml(text) {
        Some(token) => {
            token.kind == TokenKind::StartTag && tag_name(&token) == name && token.rest == rest
        }
        None => false,
    }
}

/// Returns a `style` element of XML with a prefix, and with this content.
fn xml_element(alloc: Global, prefix: &[u8], inside: &[u8]) -> Result<Vec<u8>, Refusal>
    ensures { IfOk result (λ found. IsElementText Language.Xml prefix.now inside.now found.items) }
{
    let name = style_name(alloc, prefix)?;
    let rest = after_tag(alloc, name.as_slice(), inside)?;
    let mut out = Vec::new(alloc);
    out.push(b'<')?;
    out.extend_from_slice(name.as_slice())?;
    out.push(b'>')?;
    out.extend_from_slice(rest.as_slice())?;
    if begins_named(name.as_slice(), rest.as_slice(), out.as_slice()) {
        Ok(out)
    } else {
        Err(Refusal::Misplaced)
    }
}

/// Returns a `style` element with this content, in XML with a prefix.
pub(crate) fn element_text(
    alloc: Global,
    language: Language,
    prefix: &[u8],
    inside: &[u8],
) -> Result<Vec<u8>, Refusal>
    ensures { IfOk result (λ found. IsElementText language prefix.now inside.now found.items) }
{
    match (language, prefix) {
        (Language::Html, []) => Ok(style_element(alloc, inside)?),
        (Language::Html, [_, ..]) => Err(Refusal::Misplaced),
        (Language::Xml, _) => xml_element(alloc, prefix, inside),
    }
}
