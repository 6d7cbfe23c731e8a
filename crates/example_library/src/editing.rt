//! Style sheets that are edited: rules and declarations are plain vectors.
ghost use Rattle.std.specs.Prelude.{◌≡◌, ◌↔◌, ◌++◌, ◌∷◌, [], IfOk, IsTrue, OnOk};
ghost use Rattle.simplecss.specs.Printing.{sheet_text};
ghost use Rattle.simplecss.specs.DeclarationViews.{declaration_of};
ghost use Rattle.simplecss.specs.RuleViews.{rules_in};
ghost use Rattle.simplecss.specs.Sheets.{sheet as sheet_of};
ghost use Rattle.simplecss.specs.Statements.{StyleRule};
ghost use Rattle.simplecss.specs.ThisEdition.{this_edition};

use log::sink::Discard;
use simplecss::{Declaration, Rule, Selector, StyleSheet};
use std::alloc::{AllocError, Global};

/// Appends a rule of one declaration.
pub fn push_rule<'a>(
    alloc: Global,
    sheet: &mut StyleSheet<'a>,
    selector: Selector<'a>,
    declaration: Declaration<'a>,
) -> Result<(), AllocError>
    ensures { let rule : StyleRule =
        record { components = selector.entry; declarations = declaration_of declaration.entry ∷ [] } in
        OnOk result (rules_in sheet.new ≡ rules_in sheet.old ++ rule ∷ []) }
{
    let declarations = vec![in alloc; declaration]?;
    sheet.rules.push(Rule {
        selector,
        declarations,
    })?;
    Ok(())
}

/// Whether the printed sheet reads back as the same rules in the same order, so that it may be
/// written out again.
pub fn reads_back(alloc: Global, sheet: &StyleSheet<'_>) -> Result<bool, AllocError>
    ensures { IfOk result (λ same. IsTrue same
        ↔ (sheet_of this_edition (sheet_text (rules_in sheet.now) ∷ []) ≡ rules_in sheet.now)) }
{
    let printed = sheet.to_string(alloc)?;
    let again = StyleSheet::parse(&Discard, alloc, printed.as_str())?;
    Ok(again.rules == sheet.rules)
}
