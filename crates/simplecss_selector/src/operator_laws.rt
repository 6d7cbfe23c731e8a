//! Laws of equality of operators and pseudo-classes.
ghost use Rattle.std.specs.Prelude.{◌≡◌, ◌↔◌, IsTrue};
ghost use Rattle.simplecss_selector.specs.OperatorViews.{operator_of, pseudo_class_of};

use crate::{AttributeOperator, PseudoClass};

/// Two operators are equal exactly if they are of the same kind, with the same text if they have
/// one; and so are two pseudo-classes.
pub fn operator_equality_laws()
    ensures operators { (a b : AttributeOperator)
        → IsTrue (⟦<AttributeOperator<'static> as PartialEq>⟧.eq a b)
        ↔ (operator_of a ≡ operator_of b) }
    ensures classes { (a b : PseudoClass)
        → IsTrue (⟦<PseudoClass<'static> as PartialEq>⟧.eq a b) ↔ (pseudo_class_of a ≡ pseudo_class_of b) }
{}
