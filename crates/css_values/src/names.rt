//! Tables of names of properties, as texts.
ghost use Rattle.std.specs.Prelude.{◌≡◌, ◌++◌, ◌<◌, [], ◌∷◌, OnOk, IfOk, option_map, map};
ghost use Rattle.css_values.specs.Names.{cut as cut_at, is_named_in as is_named_in_of};
ghost use Rattle.css_values.specs.Names.{longhands_in as longhands_in_of, part_before as part_before_of};
ghost use Rattle.css_values.specs.Names.{shorthands_in as shorthands_in_of};
ghost use Rattle.css_values.specs.Names.{rows_with};

use css_text::scan::find_byte;
use std::alloc::{AllocError, Global};

/// Two parts of a text.
#[derive(Clone, Copy)]
pub(crate) struct Parts<'a> {
    /// What is before a byte.
    pub(crate) front: &'a str,
    /// What is after it.
    pub(crate) rest: &'a str,
}

/// Returns the text before the first such byte, and the one after it.
pub(crate) fn cut(text: &str, byte: u8) -> Parts<'_>
    requires { byte < 128 }
    ensures { cut_at byte text.now ≡ (result.front.now, result.rest.now) }
{
    match find_byte(text, byte) {
        None => Parts {
            front: text,
            rest: "",
        },
        Some(at) => Parts {
            front: &text[..at],
            rest: &text[at + 1..],
        },
    }
}

/// Returns the part before the first such byte, and the rest, unless the text is at its end.
pub(crate) fn part_before(text: &str, byte: u8) -> Option<Parts<'_>>
    requires { byte < 128 }
    ensures { part_before_of byte text.now ≡ option_map (λ p. (p.front.now, p.rest.now)) result }
{
    match text.as_bytes() {
        [] => None,
        [_, ..] => Some(cut(text, byte)),
    }
}

/// Whether the name is one of these, between which spaces are.
pub fn is_named_in(names: &str, name: &str) -> bool
    ensures { result ≡ is_named_in_of names.now name.now }
{
    let mut rest = names;
    'names: while let Some(part) = part_before(rest, b' ') {
        if part.front == name {
            return true;
        }
        rest = part.rest;
    }
    false
}

/// Returns the longhands that the shorthand of this name sets, with spaces between them.
pub fn longhands_in<'a>(table: &'a str, name: &str) -> Option<&'a str>
    ensures { longhands_in_of table.now name.now ≡ option_map (λ names. names.now) result }
{
    let mut rest = table;
    'rows: while let Some(row) = part_before(rest, b'\n') {
        let found = cut(row.front, b':');
        if found.front == name {
            return Some(found.rest);
        }
        rest = row.rest;
    }
    None
}

/// Appends the shorthand of a row, if it sets the longhand of this name.
fn push_row<'a>(out: &mut Vec<&'a str>, row: &'a str, name: &str) -> Result<(), AllocError>
    ensures { OnOk result (map (λ text. text.now) out.new.items
        ≡ map (λ text. text.now) out.old.items ++ rows_with (row.now ∷ []) name.now) }
{
    let found = cut(row, b':');
    if is_named_in(found.rest, name) {
        out.push(found.front)?;
    }
    Ok(())
}

/// Returns the shorthands that set the longhand of this name.
pub fn shorthands_in<'a>(
    alloc: Global,
    table: &'a str,
    name: &str,
) -> Result<Vec<&'a str>, AllocError>
    ensures { IfOk result (λ found. map (λ text. text.now) found.items
        ≡ shorthands_in_of table.now name.now) }
{
    let mut found = Vec::new(alloc);
    let mut rest = table;
    'rows: while let Some(row) = part_before(rest, b'\n') {
        push_row(&mut found, row.front, name)?;
        rest = row.rest;
    }
    Ok(found)
}
