//! The names of namespaces that each of several sheets declares.
ghost use Rattle.std.specs.Prelude.{◌≡◌, IfOk, map};
ghost use Rattle.css_selector_text.specs.NameViews.{names_of};
ghost use Rattle.css_sheet.specs.Namespaces.{sheet_names};
ghost use Rattle.css_sheet.specs.NamespaceViews.{names_owned, names_declared};
ghost use Rattle.css_sheet.specs.SheetRuleViews.{sheet_of};

use crate::namespaces::{DeclaredNamespaces, SheetNamespaces};
use crate::sheet_rules::Sheet;
use css_selector_text::Names;
use std::alloc::{AllocError, Global};

/// Reads what each sheet declares.
pub(crate) fn read_namespaces<'a>(
    alloc: Global,
    sheets: &[Sheet<'_, 'a>],
) -> Result<Vec<SheetNamespaces<'a>>, AllocError>
    ensures { IfOk result (λ read. map names_owned read.items
        ≡ map (λ sheet. sheet_names (sheet_of sheet)) sheets.now) }
{
    let mut read = Vec::with_capacity(alloc, sheets.len())?;
    let mut rest = sheets;
    'sheets: while let [sheet, more @ ..] = rest {
        read.push(SheetNamespaces::read(alloc, sheet.text, sheet.namespaces)?)?;
        rest = more;
    }
    Ok(read)
}

/// Returns the same names, for `names_in`.
pub(crate) fn declare_all<'n>(
    alloc: Global,
    read: &'n [SheetNamespaces<'_>],
) -> Result<Vec<DeclaredNamespaces<'n>>, AllocError>
    ensures { IfOk result (λ declared. map names_declared declared.items ≡ map names_owned read.now) }
{
    let mut declared = Vec::with_capacity(alloc, read.len())?;
    let mut rest = read;
    'sheets: while let [one, more @ ..] = rest {
        declared.push(one.declare(alloc)?)?;
        rest = more;
    }
    Ok(declared)
}

/// Returns the same names.
pub(crate) fn names_in<'n>(
    alloc: Global,
    declared: &'n [DeclaredNamespaces<'_>],
) -> Result<Vec<Names<'n>>, AllocError>
    ensures { IfOk result (λ names. map names_of names.items ≡ map names_declared declared.now) }
{
    let mut names = Vec::with_capacity(alloc, declared.len())?;
    let mut rest = declared;
    'sheets: while let [one, more @ ..] = rest {
        names.push(one.names())?;
        rest = more;
    }
    Ok(names)
}
