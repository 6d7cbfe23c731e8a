//! Statements one by one, and positions, as a user writes them.

use simplecss::stream::Stream;
use simplecss::{DeclarationTokenizer, Silent, StatementReader, TextPos};
use std::alloc::{AllocError, Global};

/// Returns the text of each statement, and the number of its rules.
pub fn statements<'a>(alloc: Global, text: &'a str) -> Result<Vec<(&'a str, usize)>, AllocError> {
    let mut found = Vec::new(alloc);
    let mut reader = StatementReader::new(text);
    // Each statement has at least one byte.
    for _ in 0..text.len() {
        let Some(statement) = reader.read_next(&mut Silent, alloc)? else {
            break;
        };
        if let Some(part) = text.get(statement.start..statement.end) {
            found.push((part, statement.rules.len()))?;
        }
    }
    Ok(found)
}

/// Returns the offset after the last declaration before the first that is broken.
pub fn declarations_end(text: &str) -> usize {
    let mut declarations = DeclarationTokenizer::from(text);
    let mut end = 0;
    // Each declaration has at least one byte.
    for _ in 0..text.len() {
        if declarations.next().is_none() {
            // Now `declarations.pos()` is the length of the text.
            break;
        }
        end = declarations.pos();
    }
    end
}

/// Returns the row and the column of an offset, if a character begins there.
pub fn position_at(text: &str, offset: usize) -> Option<TextPos> {
    if text.is_char_boundary(offset) {
        Some(Stream::new(text).gen_text_pos_from(offset))
    } else {
        None
    }
}
