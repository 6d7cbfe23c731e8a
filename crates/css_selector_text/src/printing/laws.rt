//! The law of printing.
ghost use Rattle.std.specs.Prelude.{◌≡◌, ℕ, List, []};
ghost use Rattle.std.specs.List.{Contains};
ghost use Rattle.css_selector_text.specs.declared.components.Nesting.{Nesting as NestingOf};
ghost use Rattle.css_selector_text.specs.declared.reading.Start.TheVariants.{Relative};
ghost use Rattle.css_selector_text.specs.Components.{Placed, Selector};
ghost use Rattle.css_selector_text.specs.reading.Grammar.{placed_list_by, selector};
ghost use Rattle.css_selector_text.specs.Names.{Names};
ghost use Rattle.css_selector_text.specs.reading.Nested.{absolute, nested_selector};
ghost use Rattle.css_selector_text.specs.printing.Printing.{selector_text};
ghost use Rattle.css_selector_text.specs.reading.Readings.{got};
ghost use Rattle.css_selector_text.specs.printing.WellFormed.{IsWellFormed};

/// A selector that was read from a text reads back from the text that it is printed as. The
/// well-formed selectors are those that some text reads as. So does one of a nested rule, but that `&` is
/// then what it is outside of nested rules.
pub fn printing_law()
    ensures read_again { (names : Names) (text rest : List ℕ) (s : Selector)
        → selector names text ≡ got s rest
        → selector names (selector_text s) ≡ got s [] }
    ensures well_formed { (names : Names) (text rest : List ℕ) (s : Selector)
        → selector names text ≡ got s rest → IsWellFormed names s }
    ensures all_well_formed { (names : Names) (s : Selector) → IsWellFormed names s
        → selector names (selector_text s) ≡ got s [] }
    ensures nested { (names : Names) (text rest : List ℕ) (all : List Placed)
        → placed_list_by names Relative text ≡ got all rest
        → (list : NestingOf) (p : Placed) → Contains all p
        → selector names (selector_text (nested_selector names list p))
        ≡ got (absolute names p) [] }
{}
