//! Mistakes in style sheets: what a person probably did not mean.
//!
//! Every text is looked through, in time and memory linear in its length times the number of names that are known.
#![tactic(auto)]

ghost use Rattle.std.specs.Prelude.{IfOk};
ghost use Rattle.css_lint.specs.InBlocks.{attribute_places};
ghost use Rattle.css_lint.specs.Places.{AreFindings};
ghost use Rattle.css_lint.specs.Relations.{related_places};

mod at_rules;
mod blocks;
mod data;
mod declarations;
mod descriptors;
mod findings;
mod in_blocks;
mod in_rules;
mod keyframes;
mod keys;
mod kinds;
mod known_values;
mod late;
mod layers;
mod linter;
mod met;
mod placed_rules;
mod preludes;
mod references;
mod refused;
mod relations;
mod repeated;
mod repeats;
mod selectors;
mod sheets;
mod shorthands;
mod texts;
mod values;
mod vocabulary;
mod whitespace;

pub use findings::{Edit, Finding, Meant};
use in_blocks::repeated_in_attribute;
pub use kinds::{About, KINDS, Kind, Severity};
pub use known_values::{Known, KnownValues, takes_value};
use linter::Linter;
pub use refused::{refused_in_attribute, refused_in_sheet};
use relations::{push_guesses, related};
use std::alloc::{AllocError, Global};
use texts::Piece;
pub use vocabulary::{Names, Near, Vocabulary};

/// Returns the mistakes of a style sheet, and if that is asked for, what is valid and not supported. First are those that
/// are relations of places, each exactly as defined, and then guesses in the order in which they were found. Fails only if
/// an allocation fails.
pub fn lint_sheet(alloc: Global, text: &str, shows_all: bool) -> Result<Vec<Finding>, AllocError>
    ensures { IfOk result (λ found. AreFindings (related_places text.now) found.items) }
{
    let mut linter = Linter::new(alloc, shows_all)?;
    linter.sheet(text)?;
    let mut found = related(alloc, text)?;
    push_guesses(&mut found, &linter.found)?;
    Ok(found)
}

/// Returns the mistakes of a style attribute, as [`lint_sheet`] does.
pub fn lint_attribute(
    alloc: Global,
    text: &str,
    shows_all: bool,
) -> Result<Vec<Finding>, AllocError>
    ensures { IfOk result (λ found. AreFindings (attribute_places text.now) found.items) }
{
    let mut linter = Linter::new(alloc, shows_all)?;
    let piece = Piece {
        text,
        end: text.len(),
    };
    linter.rule_block(piece, false)?;
    let mut found = repeated_in_attribute(alloc, text)?;
    push_guesses(&mut found, &linter.found)?;
    Ok(found)
}
