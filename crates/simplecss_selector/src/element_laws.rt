//! Laws of elements and of the selectors that are matched against them.
ghost use Rattle.std.specs.Prelude.{◌≡◌, ◌<◌, ◌↔◌, ℕ, List, length};
ghost use Rattle.simplecss_grammar.specs.Components.{Component};
ghost use Rattle.simplecss_grammar.specs.Components.Combinator.{none as no_combinator};
ghost use Rattle.simplecss_selector.specs.Meanings.{AreAlike, KeepsMeanings};
ghost use Rattle.simplecss_selector.specs.Placements.{HasPlacement};
ghost use Rattle.simplecss_selector.specs.Shapes.{component_at};

use crate::{Element, Selector};

/// A selector's answer on an element depends only on the answers of the element, of its ancestors
/// and of their earlier siblings. Two nodes of two trees are alike if they return the same three
/// answers, and their parents and previous siblings are alike: a selector then matches both or neither
/// (`alike`). So the trees may differ in descendants and in later siblings. Nodes are alike that any
/// relation relates which keeps answers, parents and previous siblings (the lemma `alike-related`). The
/// same holds of a map of all nodes that keeps these (`mapped`).
pub fn same_meanings_law<E: Element, F: Element>()
    ensures alike { (components : List Component) (m : E.Node) (n : F.Node)
        → AreAlike E.tree F.tree m n
        → HasPlacement E.tree components m ↔ HasPlacement F.tree components n }
    ensures mapped { (image : E.Node → F.Node) → KeepsMeanings E.tree F.tree image
        → (components : List Component) (n : E.Node)
        → HasPlacement E.tree components n ↔ HasPlacement F.tree components (image n) }
{}

/// A selector has a component, and only the first has no combinator.
pub fn components_law(selector: &Selector<'_>)
    ensures some { 0 < length selector.now }
    ensures first_alone { (index : ℕ) → index < length selector.now
        → ((component_at selector.now index).combinator ≡ no_combinator) ↔ (index ≡ 0) }
{
    let _front = &selector.front;
}
