//! The names of elements and attributes as a tree has them.
use css_html_tree::names::{Name, SVG_ATTRIBUTES, SVG_NAMES, Space, letters_of, spelled};
use css_html_tree::page::Row;
use std::alloc::AllocError;

/// U+FFFD in UTF-8, which stands for U+0000 in a name.
const REPLACEMENT: &[u8] = &[0xEF, 0xBF, 0xBD];

/// The names of attributes of MathML with capitals (HTML Standard, section 13.2.6.1).
const MATH_ATTRIBUTES: &[&[u8]] = &[b"definitionURL"];

/// Appends letters in lower case.
fn push_lower(out: &mut Vec<u8>, word: &[u8]) -> Result<(), AllocError> {
    for byte in word {
        if *byte == 0 {
            out.extend_from_slice(REPLACEMENT)?;
        } else {
            out.push(byte.to_ascii_lowercase())?;
        }
    }
    Ok(())
}

/// Appends a name: the one of these that it is in any case, or else in lower case.
fn push_name(
    out: &mut Vec<u8>,
    spellings: &[&'static [u8]],
    word: &[u8],
) -> Result<(), AllocError> {
    match spelled(spellings, word) {
        Some(name) => out.extend_from_slice(name),
        None => push_lower(out, word),
    }
}

/// Appends the name of an element.
pub fn push_element_name(out: &mut Vec<u8>, row: &Row<'_>) -> Result<(), AllocError> {
    let word = match row.name {
        Name::Other => row.word,
        name => letters_of(name),
    };
    match row.space {
        Space::Svg => push_name(out, SVG_NAMES, word),
        Space::Html | Space::Math => push_lower(out, word),
    }
}

/// Appends the name of an attribute of an element in this namespace, which its tag has in any case.
pub fn push_attribute_name(out: &mut Vec<u8>, space: Space, word: &[u8]) -> Result<(), AllocError> {
    match space {
        Space::Html => push_lower(out, word),
        Space::Svg => push_name(out, SVG_ATTRIBUTES, word),
        Space::Math => push_name(out, MATH_ATTRIBUTES, word),
    }
}
