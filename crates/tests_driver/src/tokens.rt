//! Tokens of the port.

use simplecss_declaration::DeclarationTokenizer;
use simplecss_selector::SelectorTokenizer;
use std::io;
use std::io::Write;

/// Writes the tokens of a text as those of a selector, then as those of declarations, an item on a
/// line, and the byte 1.
pub(crate) fn write_tokens<W: Write>(out: &mut W, text: &str) -> io::Result<()> {
    for item in SelectorTokenizer::from(text) {
        writeln!(out, "{item:?}")?;
    }
    for declaration in DeclarationTokenizer::from(text) {
        writeln!(out, "{declaration:?}")?;
    }
    out.write_all(b"\x01")
}
