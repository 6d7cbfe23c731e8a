//! Laws: contracts of functions that do nothing.
ghost use Rattle.std.specs.Prelude.{ℕ, Bool, List};
ghost use Rattle.css_sheet.specs.PartsAll.{AreSheetParts};
ghost use Rattle.css_sheet.specs.SheetParts.{sheet_parts};
ghost use Rattle.css_sheet.specs.Sheets.{SheetText};

/// Every byte of a sheet is in one of its parts, or between them. Parts are declarations that follow one
/// another, the head of a rule, the brace at its end, and an item outside of style rules: what `read_sheets`
/// reads. Between them are space bytes and comments, in a style rule semicolons, and in no rule `<!--` and
/// `-->`. (`SheetReader::new` says the same of the items of a sheet.)
pub fn nothing_is_lost()
    ensures { (holds : List ℕ → List ℕ → Bool) (number : ℕ) (sheet : SheetText)
        → AreSheetParts number sheet (sheet_parts holds number sheet) }
{}
