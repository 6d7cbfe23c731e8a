//! The parts of a sheet, in place.
ghost use Rattle.std.specs.Prelude.{◌≡◌, ◌++◌, ◌∷◌, [], IfOk, OnOk, length, map, true};
ghost use Rattle.css_sheet.specs.ContentViews.{content_of, part_of};
ghost use Rattle.css_sheet.specs.SheetContents.{content, contents_of};
ghost use Rattle.css_sheet.specs.internal.PartViews.{placed_last, source_of};

use crate::parts::{Part, SheetParts};
use crate::sheet_rules::Sheet;
use css_cascade::Origin;
use css_selector_text::NO_NAMES;
use std::alloc::{AllocError, Global};

/// A part of a sheet, and where it is.
#[derive(Clone, Copy)]
pub struct PlacedPart<'a> {
    /// The part.
    pub part: Part<'a>,
    /// What is left of the sheet from the part on.
    pub from: &'a str,
    /// What is left of the sheet after the part.
    pub rest: &'a str,
}

/// Appends a part, which was read last.
fn push_part<'a>(
    parts: &mut Vec<PlacedPart<'a>>,
    part: Part<'a>,
    reader: &SheetParts<'_, 'a>,
) -> Result<(), AllocError>
    ensures { let size = (source_of reader.now).size in
        OnOk result (map (content_of size) parts.new.items
        ≡ map (content_of size) parts.old.items
        ++ content (placed_last reader.now (part_of part.entry)) ∷ []) }
{
    parts.push(PlacedPart {
        part,
        from: reader.from,
        rest: reader.rest,
    })?;
    Ok(())
}

/// Reads the parts of a sheet, in order: where its style rules and group rules begin and end, whether they
/// apply or not, the declarations in its style rules, and the items that are in none of these. What is open at
/// the end of the sheet has no end. Time and memory are linear in the length of the sheet. Fails only if an
/// allocation fails.
pub fn read_contents<'a>(alloc: Global, text: &'a str) -> Result<Vec<PlacedPart<'a>>, AllocError>
    ensures { IfOk result (λ parts.
        map (content_of (length text.now)) parts.items ≡ contents_of text.now) }
{
    let mut parts = Vec::new(alloc);
    let sheet = Sheet {
        text,
        origin: Origin::Author,
        around: &[],
        namespaces: &[],
    };
    let mut reader = SheetParts::new(alloc, &sheet, &NO_NAMES, 0);
    'parts: while let Some(part) = reader.next(
        &|_: &str, _: &str| -> bool
            ensures { result ≡ true }
        { true },
    )? {
        push_part(&mut parts, part, &reader)?;
    }
    Ok(parts)
}
