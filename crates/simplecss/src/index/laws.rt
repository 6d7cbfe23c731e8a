//! Laws of what an index finds, each the contract of a function that does nothing.
ghost use Rattle.std.specs.Prelude.{◌≡◌, ℕ, List, Bool, Some};
ghost use Rattle.simplecss_grammar.specs.Components.{Component};
ghost use Rattle.simplecss.specs.Matching.{AreMatches, AreAnswers, indices_with_yes};
ghost use Rattle.simplecss.specs.OpenPaths.{Path, IsOpenTo, left};

use simplecss_selector::{Element, Keyed};

/// The indices that an index finds are those of the selectors that match, where each is tested in
/// order. So an index can replace a loop that tests each.
pub fn answers_law<E: Element>()
    ensures { (selectors : List (List Component)) (element : E.Node) (indices : List ℕ)
        → AreMatches E.tree element selectors indices
        → (answers : List Bool) × AreAnswers E.tree element selectors answers
        × (indices ≡ indices_with_yes answers) }
{}

/// Where a path is open to an element, `OpenPath::leave` leaves it open to the element's parent.
pub fn leave_law<E: Keyed>()
    ensures { (path : Path) (n : E.Node) → IsOpenTo E.tree E.node E.reported path (Some n)
        → IsOpenTo E.tree E.node E.reported (left path) (E.tree.parent n) }
{}
