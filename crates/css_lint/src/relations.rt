//! The findings that are relations of places.
ghost use Rattle.std.specs.Prelude.{◌≡◌, ◌++◌, IfOk, OnOk, false, map};
ghost use Rattle.std.specs.List.{flat_map};
ghost use Rattle.css_selector_text.specs.NameViews.{names_of};
ghost use Rattle.css_sheet.specs.ImportViews.{import_of};
ghost use Rattle.css_sheet.specs.SheetItems.{sheet_items};
ghost use Rattle.css_lint.specs.InRules.{item_places};
ghost use Rattle.css_lint.specs.Keys.{keyed_of};
ghost use Rattle.css_lint.specs.Late.{late_from};
ghost use Rattle.css_lint.specs.Places.{guesses_of, place_of};
ghost use Rattle.css_lint.specs.Relations.{related_places};
ghost use Rattle.css_lint.specs.Repeats.{keyed_item};

use crate::findings::Finding;
use crate::in_rules::push_statement;
use crate::keys::{Keyed, repeated_places};
use crate::late::{follows_after, follows_at, push_late, starts_of};
use crate::repeats::{push_rule, repeated_imports};
use css_selector_text::Names;
use css_sheet::{Import, SheetNamespaces, SheetReader, read_imports};
use std::alloc::{AllocError, Global};

/// What is found of the items of a sheet.
#[derive(Drop)]
struct ItemFindings {
    /// The rules that are too late.
    late: Vec<Finding>,
    /// The rule sets, with what they say.
    rules: Vec<Keyed>,
    /// What is wrong within rules.
    within: Vec<Finding>,
}

/// Reads the items of a sheet, where these imports are in force and these names are declared.
#[tactic(auto, using(crate::proofs::LateLemmas::late_more))]
fn item_findings(
    alloc: Global,
    names: &Names<'_>,
    text: &str,
    imports: &[Import<'_>],
) -> Result<ItemFindings, AllocError>
    ensures late { IfOk result (λ found. map place_of found.late.items
        ≡ late_from (map import_of imports.now) false (sheet_items text.now)) }
    ensures rules { IfOk result (λ found. map keyed_of found.rules.items
        ≡ flat_map keyed_item (sheet_items text.now)) }
    ensures within { IfOk result (λ found. map place_of found.within.items
        ≡ flat_map (item_places (names_of names.now)) (sheet_items text.now)) }
{
    let starts = starts_of(alloc, imports)?;
    let mut late = Vec::new(alloc);
    let mut rules = Vec::new(alloc);
    let mut within = Vec::new(alloc);
    let mut reader = SheetReader::new(alloc, text);
    let mut follows = false;
    'items: while let Some(part) = reader.read_next()? {
        let places = reader.places();
        let in_force = starts.contains(&places.start);
        let is_inner = follows_at(follows, reader.levels());
        push_late(
            &mut late,
            in_force,
            is_inner,
            &part.statement,
            places.start,
            part.text.len(),
        )?;
        push_rule(
            &mut rules,
            alloc,
            reader.levels(),
            &part.statement,
            places.prelude,
        )?;
        push_statement(&mut within, alloc, names, &part.statement, places)?;
        follows = follows_after(is_inner, &part.statement);
    }
    Ok(ItemFindings {
        late,
        rules,
        within,
    })
}

/// Returns the findings of a sheet that are relations of its places.
pub(crate) fn related(alloc: Global, text: &str) -> Result<Vec<Finding>, AllocError>
    ensures { IfOk result (λ found. map place_of found.items ≡ related_places text.now) }
{
    let imports = read_imports(alloc, text)?;
    let namespaces = SheetNamespaces::read(alloc, text, &[])?;
    let declared = namespaces.declare(alloc)?;
    let items = item_findings(alloc, &declared.names(), text, &imports)?;
    let mut found = repeated_imports(alloc, &imports)?;
    found.extend_from_slice(&items.late)?;
    found.extend_from_slice(&repeated_places(alloc, &items.rules)?)?;
    found.extend_from_slice(&items.within)?;
    Ok(found)
}

/// Appends findings that are guesses, and no others.
pub(crate) fn push_guesses(found: &mut Vec<Finding>, others: &[Finding]) -> Result<(), AllocError>
    ensures { OnOk result (found.new.items ≡ found.old.items ++ guesses_of others.now) }
{
    let mut left = others;
    'others: while let [one, more @ ..] = left {
        if !one.kind.is_related() {
            found.push(*one)?;
        }
        left = more;
    }
    Ok(())
}
