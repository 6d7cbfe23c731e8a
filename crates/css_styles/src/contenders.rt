//! Declarations that contend, with what the cascade sees of them.
ghost use Rattle.std.specs.Prelude.{◌≡◌, IfOk, option_map};
ghost use Rattle.css_cascade.specs.Cascade.{better};
ghost use Rattle.css_syntax.specs.Views.{declaration_of};
ghost use Rattle.css_sheet.specs.SheetRuleViews.{sheet_rule_of};
ghost use Rattle.css_styles.specs.Contenders.{in_rule as in_rule_of, is_declared as is_declared_of};
ghost use Rattle.css_styles.specs.StyleViews.{winner_of};
ghost use Rattle.css_styles.specs.Winners.{as_winner};
ghost use Rattle.css_styles.specs.internal.Stepping.{contender_of, in_own as in_own_of, seen};

use crate::{Source, Winner};
use css_cascade::{Origin, Rollback, Weight, beats};
use css_sheet::SheetRule;
use css_syntax::Declaration;
use css_values::is_valid;
use std::alloc::{AllocError, Global};

/// The texts of an element's own declarations.
#[derive(Clone, Copy)]
pub(crate) enum OwnPart {
    /// Its style attribute.
    Style,
    /// Its presentation declarations.
    Presentation,
}

/// A declaration that applies to an element, with what the cascade sees of it.
#[derive(Clone, Copy)]
pub(crate) struct Contender<'a> {
    /// What the cascade sees.
    pub(crate) weight: Weight,
    /// The declaration, and its rule.
    pub(crate) winner: Winner<'a>,
}

impl<'a> Contender<'a> {
    /// Returns a declaration of a rule: it is one of the rule's declarations, and the rule is one of all.
    pub(crate) fn in_rule(
        rule: &SheetRule<'_>,
        rule_place: usize,
        place: usize,
        declaration: Declaration<'a>,
    ) -> Contender<'a>
        ensures contender { contender_of result ≡ in_rule_of rule_place (sheet_rule_of rule.now) place
            (declaration_of declaration.entry) }
        ensures declaration { result.winner.declaration ≡ declaration.entry }
    {
        let counts = rule.specificity();
        Contender {
            weight: Weight {
                important: declaration.important,
                origin: rule.origin,
                attached: false,
                layer: rule.layer,
                specificity: [counts.ids, counts.classes, counts.names],
                place: [rule_place, place],
                rollback: Rollback::of(declaration.value),
            },
            winner: Winner {
                declaration,
                source: Source::Rule(rule_place),
                place,
            },
        }
    }

    /// Returns one of the element's own declarations, which is in this text.
    pub(crate) fn in_own(part: OwnPart, place: usize, declaration: Declaration<'a>) -> Contender<'a>
        ensures contender { contender_of result ≡ in_own_of part place (declaration_of declaration.entry) }
        ensures declaration { result.winner.declaration ≡ declaration.entry }
    {
        let (origin, attached, source) = match part {
            OwnPart::Style => (Origin::Author, true, Source::Style),
            OwnPart::Presentation => (Origin::Hint, false, Source::Presentation),
        };
        Contender {
            weight: Weight {
                important: declaration.important,
                origin,
                attached,
                layer: 0,
                specificity: [0, 0, 0],
                place: [0, place],
                rollback: Rollback::of(declaration.value),
            },
            winner: Winner {
                declaration,
                source,
                place,
            },
        }
    }

    /// Whether it is a declaration at all: each reference `var()` of its value is valid. A value that the end
    /// of the text closes is taken as it is.
    pub(crate) fn is_declared(&self, alloc: Global) -> Result<bool, AllocError>
        ensures { IfOk result (λ declared. declared ≡ is_declared_of (contender_of self.now)) }
    {
        let declaration = &self.winner.declaration;
        if !declaration.closed {
            return Ok(true);
        }
        is_valid(alloc, declaration.value)
    }
}

/// Returns the later of two declarations, unless the earlier beats it.
pub(crate) fn better_of<'a>(earlier: Option<Contender<'a>>, later: Contender<'a>) -> Contender<'a>
    ensures { contender_of result
        ≡ better seen (option_map contender_of earlier.entry) (contender_of later.entry) }
{
    match earlier {
        Some(first) if beats(&first.weight, &later.weight) => first,
        _ => later,
    }
}

/// Returns what wins, if something does.
pub(crate) fn won<'a>(best: Option<Contender<'a>>) -> Option<Winner<'a>>
    ensures { option_map winner_of result ≡ option_map as_winner (option_map contender_of best.entry) }
{
    match best {
        Some(found) => Some(found.winner),
        None => None,
    }
}
