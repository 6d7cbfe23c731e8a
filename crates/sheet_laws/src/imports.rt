//! What a sheet has from its first import on.
ghost use Rattle.std.specs.Prelude.{◌≡◌, ◌++◌, ◌∷◌, ℕ, List, length, replicate};
ghost use Rattle.css_text.specs.AsciiBytes.{space};
ghost use Rattle.css_sheet.specs.ImportRules.{ImportText};
ghost use Rattle.css_sheet.specs.Imports.{sheet_imports};
ghost use Rattle.css_sheet.specs.SheetParts.{sheet_source};
ghost use Rattle.css_sheet.specs.Sheets.{SheetText};

/// From its first import on a sheet may be read as one of its own. With as many space bytes in front of it as there is
/// text, what follows has the places, the group rules and the declared namespaces of the whole. By `cutting_law` and
/// `css_laws::pieces_law` it has the parts of the whole from there on.
pub fn imports_law()
    ensures { (number : ℕ) (sheet : SheetText) (front rest : List ℕ) (one : ImportText) (more : List ImportText)
        → sheet.text ≡ front ++ rest → sheet_imports sheet.text ≡ one ∷ more → one.start ≡ length front
        → sheet_source number (record sheet { text = replicate (length front) space ++ rest })
        ≡ sheet_source number sheet }
{}
