//! The parts of a sheet, as numbers.

ghost use Rattle.std.specs.Prelude.{◌≡◌, ◌<◌, ◌^◌, ◌++◌, OnOk, IfOk, length, map};
ghost use Rattle.std.specs.List.{flat_map};
ghost use Rattle.css_syntax.specs.Views.{prelude_of};
ghost use Rattle.css_sheet.specs.ContentViews.{content_of, kind_of};
ghost use Rattle.sheet_calls.specs.ContentNumbers.{style_row as style_row_of, end_row as end_row_of};
ghost use Rattle.sheet_calls.specs.ContentNumbers.{group_row as group_row_of, name_length as name_length_of};
ghost use Rattle.sheet_calls.specs.ContentNumbers.{begun_row as begun_row_of, content_numbers};
ghost use Rattle.sheet_calls.specs.ContentNumbers.{contents_numbers as contents_numbers_of};

use call_answers::items::{count_between, item_numbers, offset_of};
use css_sheet::{Part, PlacedPart, RuleKind, read_contents};
use css_syntax::Prelude;
use css_syntax::places::at_rule_prelude;
use css_syntax::texts::{past_byte, past_word};
use std::alloc::{AllocError, Global};

/// The kind of the beginning of the block of a style rule.
const STYLE: usize = 3;
/// The kind of the beginning of the block of a group rule.
const GROUP: usize = 12;
/// The kind of the end of a block.
const END: usize = 13;

/// Returns the numbers of a style rule, whose contents begin at this offset.
fn style_row(start: usize, contents: usize, prelude: &Prelude<'_>) -> [usize; 10]
    ensures { result ≡ style_row_of start contents (prelude_of prelude.now) }
{
    let count = contents.saturating_sub(start);
    [
        STYLE,
        start,
        count,
        0,
        start,
        prelude.text.len(),
        contents,
        0,
        0,
        0,
    ]
}

/// Returns how long the name of an at-rule is.
fn name_length(from: &str) -> usize
    ensures { result ≡ name_length_of from.now }
{
    let name = past_byte(from, b'@');
    count_between(name, past_word(name))
}

/// Returns the numbers of a group rule, whose contents and whose prelude begin at these offsets.
fn group_row(
    start: usize,
    contents: usize,
    name_length: usize,
    prelude: usize,
    prelude_length: usize,
) -> [usize; 10]
    requires { start < 2 ^ 63 }
    ensures { result ≡ group_row_of start contents name_length prelude prelude_length }
{
    let count = contents.saturating_sub(start);
    [
        GROUP,
        start,
        count,
        0,
        start + 1,
        name_length,
        prelude,
        prelude_length,
        contents,
        0,
    ]
}

/// Returns the numbers of the end of a block, whose brace is between these offsets.
fn end_row(start: usize, end: usize) -> [usize; 10]
    ensures { result ≡ end_row_of start end }
{
    [END, start, end.saturating_sub(start), 0, 0, 0, 0, 0, 0, 0]
}

/// Returns the numbers of a rule that begins in a sheet of this many bytes, from which on `from` is left.
fn begun_row(kind: &RuleKind<'_>, size: usize, from: &str, contents: usize) -> [usize; 10]
    requires { size < 2 ^ 63 }
    ensures { result ≡ begun_row_of size from.now contents (kind_of kind.now) }
{
    let start = offset_of(size, from);
    match kind {
        RuleKind::Style(prelude) => style_row(start, contents, prelude),
        RuleKind::Group(_, prelude) => {
            let at = offset_of(size, at_rule_prelude(from));
            group_row(start, contents, name_length(from), at, prelude.len())
        }
    }
}

/// Appends the numbers of a part of a sheet of this many bytes.
fn push_part(
    out: &mut Vec<usize>,
    alloc: Global,
    found: &PlacedPart<'_>,
    size: usize,
) -> Result<(), AllocError>
    requires { size < 2 ^ 63 }
    ensures { OnOk result (out.new.items
        ≡ out.old.items ++ content_numbers size (content_of size found.now)) }
{
    let end = offset_of(size, found.rest);
    match &found.part {
        Part::States(text) => {
            let items = item_numbers(alloc, text, end, true)?;
            out.extend_from_slice(&items)
        }
        Part::Begins(kind) => out.extend_from_slice(&begun_row(kind, size, found.from, end)),
        Part::Ends => out.extend_from_slice(&end_row(offset_of(size, found.from), end)),
        Part::Stands(_) => Ok(()),
    }
}

/// Returns the numbers of the parts of a sheet of this many bytes.
fn contents_of(
    alloc: Global,
    parts: &[PlacedPart<'_>],
    size: usize,
) -> Result<Vec<usize>, AllocError>
    requires { size < 2 ^ 63 }
    ensures { IfOk result (λ out. out.items
        ≡ flat_map (content_numbers size) (map (content_of size) parts.now)) }
{
    let mut out = Vec::new(alloc);
    for found in parts {
        push_part(&mut out, alloc, found, size)?;
    }
    Ok(out)
}

/// The numbers of the parts of a sheet.
pub fn contents_numbers(alloc: Global, text: &str) -> Result<Vec<usize>, AllocError>
    ensures { IfOk result (λ out. out.items ≡ contents_numbers_of text.now) }
{
    let parts = read_contents(alloc, text)?;
    contents_of(alloc, parts.as_slice(), text.len())
}
