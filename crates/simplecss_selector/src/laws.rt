//! Laws of selectors: each is the contract of a function that does nothing.
ghost use Rattle.std.specs.Prelude.{◌≡◌, ◌≤◌, ◌↔◌, ℕ, List, IsTrue};
ghost use Rattle.css_text.specs.ThisEdition.{this_edition};
ghost use Rattle.simplecss_grammar.specs.TokenSequences.{fault_count, sequence_of};
ghost use Rattle.simplecss_selector.specs.TokenViews.{token_of};

use crate::SelectorToken;

/// What a tokenizer yields on any text has at most two errors.
pub fn at_most_two_errors()
    ensures { (text : List ℕ) → fault_count (sequence_of this_edition text) ≤ 2 }
{}

/// Tokens are equal exactly if they are of the same kind and their names and values have the same
/// bytes.
pub fn token_equality_law()
    ensures { (a b : SelectorToken)
        → IsTrue (⟦<SelectorToken<'static> as PartialEq>⟧.eq a b) ↔ (token_of a ≡ token_of b) }
{}
