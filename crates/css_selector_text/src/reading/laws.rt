//! Laws of reading.
ghost use Rattle.std.specs.Prelude.{◌≡◌, ◌↔◌, ℕ, List, []};
ghost use Rattle.std.specs.List.{Contains};
ghost use Rattle.css_text.specs.Reading.{Ends};
ghost use Rattle.css_selector_text.specs.declared.reading.Start.{Start as StartOf};
ghost use Rattle.css_selector_text.specs.Components.{Placed};
ghost use Rattle.css_selector_text.specs.reading.CutLists.{AreCut};
ghost use Rattle.css_selector_text.specs.reading.Grammar.{placed_by, placed_list_by};
ghost use Rattle.css_selector_text.specs.Names.{Names};
ghost use Rattle.css_selector_text.specs.reading.Readings.{got};

/// A selector of a list begins in the text, then its pseudo-element begins, if it has one, and then
/// it ends. What is left at each of these places is an end of what is left at the one before.
pub fn places_law()
    ensures { (names : Names) (start : StartOf) (text rest : List ℕ) (all : List Placed)
        → placed_list_by names start text ≡ got all rest → (p : Placed) → Contains all p
        → Ends text p.from × Ends p.from p.element × Ends p.element p.to }
{}

/// A text is a list of selectors exactly if it is cut at its commas: each selector reads from where
/// it begins up to its comma, and the last to the end. So what follows such a comma is by itself
/// the list of the selectors after it.
pub fn cut_law()
    ensures { (names : Names) (start : StartOf) (text : List ℕ) (all : List Placed)
        → (placed_list_by names start text ≡ got all []) ↔ AreCut names start text all }
{}

/// A selector reads as itself from where it begins: what is before it changes nothing.
pub fn own_law()
    ensures { (names : Names) (start : StartOf) (text rest : List ℕ) (p : Placed)
        → placed_by names start text ≡ got p rest → placed_by names start p.from ≡ got p rest }
{}
