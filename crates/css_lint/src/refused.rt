//! The declarations whose values no browser takes.
ghost use Rattle.std.specs.Prelude.{◌≡◌, ◌++◌, ◌&&◌, IfOk, OnOk, map};
ghost use Rattle.std.specs.List.{flat_map};
ghost use Rattle.std.specs.Str.{str_to_ascii_lowercase};
ghost use Rattle.css_syntax.specs.Views.{item_of};
ghost use Rattle.css_sheet.specs.ContentViews.{content_of};
ghost use Rattle.css_values.specs.Refused.{refuses};
ghost use Rattle.css_lint.specs.Places.{place_of};
ghost use Rattle.css_lint.specs.Refused.{refused_content, refused_in, refused_in_attribute as refused_in_attribute_of};
ghost use Rattle.css_lint.specs.Refused.{refused_item, refused_places};

use crate::findings::Finding;
use crate::kinds::Kind;
use css_sheet::{Part, PlacedPart, read_contents};
use css_syntax::declarations::read_part;
use css_syntax::{Declaration, Item};
use css_values::RefusedValues;
use std::alloc::{AllocError, Global};

/// What is known of values, on pages in quirks mode or on others.
#[derive(Clone, Copy)]
struct Values<'v> {
    known: &'v RefusedValues,
    in_quirks: bool,
}

/// Whether no browser takes the value of a declaration. One that the end of the text closes is taken as it is.
fn is_refused(alloc: Global, values: Values<'_>, one: &Declaration<'_>) -> Result<bool, AllocError>
    ensures { IfOk result (λ refused. refused
        ≡ (one.now.closed && refuses values.entry.in_quirks (str_to_ascii_lowercase one.now.name.now) one.now.value.now)) }
{
    if !one.closed {
        return Ok(false);
    }
    let name = one.name.to_ascii_lowercase(alloc)?;
    Ok(
        values
            .known
            .refuses(&name, one.value.as_bytes(), values.in_quirks),
    )
}

/// Appends an item, which begins at this offset and has as many bytes, if it is a declaration whose value no
/// browser takes.
fn push_item(
    found: &mut Vec<Finding>,
    alloc: Global,
    values: Values<'_>,
    item: &Item<'_>,
    start: usize,
    size: usize,
) -> Result<(), AllocError>
    ensures { OnOk result (map place_of found.new.items
        ≡ map place_of found.old.items ++ refused_item values.entry.in_quirks start size (item_of item.now)) }
{
    if let Item::Declaration(one) = item {
        if is_refused(alloc, values, one)? {
            found.push(Finding::sized(Kind::InvalidValue, start, size))?;
        }
    }
    Ok(())
}

/// Appends those of a style attribute, or of the contents of a block, which ends at this offset.
fn push_items(
    found: &mut Vec<Finding>,
    alloc: Global,
    values: Values<'_>,
    text: &str,
    in_block: bool,
    end: usize,
) -> Result<(), AllocError>
    ensures { OnOk result (map place_of found.new.items
        ≡ map place_of found.old.items ++ refused_in values.entry.in_quirks in_block end text.now) }
{
    let mut rest = text;
    'items: while let Some(part) = read_part(rest, in_block) {
        let start = end.saturating_sub(part.from.len());
        push_item(
            found,
            alloc,
            values,
            &part.part.item,
            start,
            part.part.text.len(),
        )?;
        rest = part.rest;
    }
    Ok(())
}

/// Appends those of a part of a sheet of this many bytes: of declarations in a style rule.
fn push_part(
    found: &mut Vec<Finding>,
    alloc: Global,
    values: Values<'_>,
    part: &PlacedPart<'_>,
    size: usize,
) -> Result<(), AllocError>
    ensures { OnOk result (map place_of found.new.items
        ≡ map place_of found.old.items ++ refused_content values.entry.in_quirks (content_of size part.now)) }
{
    if let Part::States(text) = part.part {
        let end = size.saturating_sub(part.rest.len());
        push_items(found, alloc, values, text, true, end)?;
    }
    Ok(())
}

/// Appends those of the parts of a sheet of this many bytes.
fn push_parts(
    found: &mut Vec<Finding>,
    alloc: Global,
    values: Values<'_>,
    parts: &[PlacedPart<'_>],
    size: usize,
) -> Result<(), AllocError>
    ensures { OnOk result (map place_of found.new.items
        ≡ map place_of found.old.items ++ flat_map (refused_content values.entry.in_quirks) (map (content_of size) parts.now)) }
{
    let mut left = parts;
    'parts: while let [part, others @ ..] = left {
        push_part(found, alloc, values, part, size)?;
        left = others;
    }
    Ok(())
}

/// Returns the declarations of the style rules of a sheet whose values no browser takes, as far as the table of values
/// says ([`RefusedValues`]), in order: on pages in quirks mode, or on others. Fails only if an allocation fails.
pub fn refused_in_sheet(
    alloc: Global,
    text: &str,
    in_quirks: bool,
) -> Result<Vec<Finding>, AllocError>
    ensures { IfOk result (λ found. map place_of found.items ≡ refused_places in_quirks text.now) }
{
    let known = RefusedValues::new(alloc)?;
    let values = Values {
        known: &known,
        in_quirks,
    };
    let parts = read_contents(alloc, text)?;
    let mut found = Vec::new(alloc);
    push_parts(&mut found, alloc, values, &parts, text.len())?;
    Ok(found)
}

/// Returns those of a style attribute, as [`refused_in_sheet`] does.
pub fn refused_in_attribute(
    alloc: Global,
    text: &str,
    in_quirks: bool,
) -> Result<Vec<Finding>, AllocError>
    ensures { IfOk result (λ found. map place_of found.items ≡ refused_in_attribute_of in_quirks text.now) }
{
    let known = RefusedValues::new(alloc)?;
    let values = Values {
        known: &known,
        in_quirks,
    };
    let mut found = Vec::new(alloc);
    push_items(&mut found, alloc, values, text, false, text.len())?;
    Ok(found)
}
