//! Declarations that apply to an element, with what the cascade sees of them.
ghost use Rattle.std.specs.Prelude.{◌≡◌, IfOk, map};
ghost use Rattle.css_syntax.specs.Views.{declaration_of};
ghost use Rattle.css_sheet.specs.SheetRuleViews.{sheet_rule_of};
ghost use Rattle.css_styles.specs.Contenders.{in_presentation, in_rule as in_rule_of, in_style};
ghost use Rattle.css_styles.specs.Contenders.{is_declared as is_declared_of};
ghost use Rattle.css_explain.specs.internal.Parts.{contender_of, contends, in_own as in_own_of};

use css_cascade::{Origin, Rollback, Weight};
use css_sheet::SheetRule;
use css_styles::{Source, Winner};
use css_syntax::Declaration;
use css_values::is_valid;
use std::alloc::{AllocError, Global};

/// Which of an element's own texts a declaration is in.
#[derive(Clone, Copy)]
pub(crate) enum OwnPart {
    /// Its style attribute.
    Style,
    /// Its presentation declarations.
    Presentation,
}

/// Where declarations are.
#[derive(Clone, Copy)]
pub(crate) enum Part<'r, 'a> {
    /// In the rule that has this index among all.
    Rule(&'r SheetRule<'a>, usize),
    /// In a text of the element's own.
    Own(OwnPart),
}

/// A declaration that applies to an element, with what the cascade sees of it.
#[derive(Clone, Copy)]
pub(crate) struct Contender<'a> {
    /// What the cascade sees.
    pub(crate) weight: Weight,
    /// The declaration, and where it is.
    pub(crate) winner: Winner<'a>,
}

/// Returns a declaration of the rule that has this index among all.
fn in_rule<'a>(
    rule: &SheetRule<'_>,
    index: usize,
    place: usize,
    declaration: Declaration<'a>,
) -> Contender<'a>
    ensures { contender_of result
        ≡ in_rule_of index (sheet_rule_of rule.now) place (declaration_of declaration.entry) }
{
    let counts = rule.specificity();
    Contender {
        weight: Weight {
            important: declaration.important,
            origin: rule.origin,
            attached: false,
            layer: rule.layer,
            specificity: [counts.ids, counts.classes, counts.names],
            place: [index, place],
            rollback: Rollback::of(declaration.value),
        },
        winner: Winner {
            declaration,
            source: Source::Rule(index),
            place,
        },
    }
}

/// Returns one of the element's own declarations.
fn in_own<'a>(part: OwnPart, place: usize, declaration: Declaration<'a>) -> Contender<'a>
    ensures { contender_of result ≡ in_own_of part place (declaration_of declaration.entry) }
{
    let (origin, attached, source) = match part {
        OwnPart::Style => (Origin::Author, true, Source::Style),
        OwnPart::Presentation => (Origin::Hint, false, Source::Presentation),
    };
    Contender {
        weight: Weight {
            important: declaration.important,
            origin,
            attached,
            layer: 0,
            specificity: [0, 0, 0],
            place: [0, place],
            rollback: Rollback::of(declaration.value),
        },
        winner: Winner {
            declaration,
            source,
            place,
        },
    }
}

impl<'a> Contender<'a> {
    /// Returns a declaration with so many before it in this part.
    pub(crate) fn new(
        part: Part<'_, '_>,
        place: usize,
        declaration: Declaration<'a>,
    ) -> Contender<'a>
        ensures { contender_of result ≡ contends part.entry place (declaration_of declaration.entry) }
    {
        match part {
            Part::Rule(rule, index) => in_rule(rule, index, place, declaration),
            Part::Own(own) => in_own(own, place, declaration),
        }
    }

    /// Whether it is a declaration at all: each reference `var()` of its value is valid. A value that the end
    /// of the text closes is taken as it is.
    pub(crate) fn is_declared(&self, alloc: Global) -> Result<bool, AllocError>
        ensures { IfOk result (λ declared. declared ≡ is_declared_of (contender_of self.now)) }
    {
        let declaration = &self.winner.declaration;
        if !declaration.closed {
            return Ok(true);
        }
        is_valid(alloc, declaration.value)
    }
}
