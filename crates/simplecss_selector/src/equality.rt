//! Equality of selectors.
ghost use Rattle.std.specs.Prelude.{◌≡◌, ◌↔◌, List, IsTrue};
ghost use Rattle.simplecss_grammar.specs.Components.{Component};
ghost use Rattle.css_text.specs.ThisEdition.{this_edition};
ghost use Rattle.simplecss_grammar.specs.PrintingLaws.{PrintAlikeIfEqual};

use crate::selector::Selector;

/// Compares the components, wherever their texts are stored.
impl<'a> PartialEq for Selector<'a> {
    ghost use Rattle.simplecss_selector.specs.Equality.{selector_eq};
    ghost use Rattle.simplecss_selector.specs.EqualityLaws.{selector_per};

    ghost eq = { selector_eq };

    ghost laws = { selector_per };

    fn eq(&self, other: &Self) -> bool {
        self.front.as_slice() == other.front.as_slice()
            && self.last == other.last
            && self.subselectors.as_slice() == other.subselectors.as_slice()
    }
}

/// Selectors are equal exactly if their components are.
pub fn selector_equality_law()
    ensures { (a b : List Component) → IsTrue (⟦<Selector<'static> as PartialEq>⟧.eq a b)
        ↔ (a ≡ b) }
{}

/// Two clean selectors that were read have the same printed text exactly if they are equal.
pub fn printing_law()
    ensures { (a b : List Component) → PrintAlikeIfEqual this_edition a b }
{}
