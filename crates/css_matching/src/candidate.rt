//! Selectors as parts, and elements that are tried for them.
use crate::Combinator;

/// The parts of a selector, from left to right, by index.
pub trait Parts {
    ghost use Rattle.std.specs.Prelude.{◌≡◌, ◌<◌, ℕ};
    ghost use Rattle.css_matching.specs.declared.Combinator.{Combinator};

    ghost count: { Self → ℕ };

    ghost combinator_at: { Self → ℕ → Combinator };

    /// Returns how this part, which is not the first, is joined to the part before it.
    fn combinator(&self, index: usize) -> Combinator
        requires { index < count self.now }
        ensures { result ≡ combinator_at self.now index };
}

/// An element of a document, which meets parts of selectors or not. Each value denotes a node of a
/// tree, and its answers depend only on that node, the selector and the index.
///
/// Elements that are kept in a list, each with the indices of its parent and of its previous sibling,
/// have the three laws by `specs/ListTrees`.
pub trait Candidate<P: Parts>: Drop {
    ghost use Rattle.std.specs.Prelude.{◌≡◌, ℕ, Option, option_map};
    ghost use Rattle.css_matching.specs.Trees.{Tree, Counts, SiblingsShareParent, IsMonotone};

    ghost Node: { Type 0 };

    ghost tree: { Tree Node };

    ghost node: { Self → Node };

    /// Whether a node meets a part, which only contracts see.
    ghost Meets: { P → ℕ → Node → Type 0 };

    /// The most tests that are made to say whether a node meets a part.
    ghost cost: { P → Node → ℕ };

    /// Returns the parent, if there is one.
    fn parent_element(&self) -> Option<Self>
        ensures { option_map node result ≡ tree.parent (node self.now) };

    /// Returns the sibling directly before this element, if there is one.
    fn prev_sibling_element(&self) -> Option<Self>
        ensures { option_map node result ≡ tree.previous_sibling (node self.now) };

    ghost depth_law: { Counts tree.parent tree.depth };

    ghost earlier_law: { Counts tree.previous_sibling tree.earlier };

    ghost sibling_law: { SiblingsShareParent tree };

    ghost cost_law: { (parts : P) → IsMonotone tree (cost parts) };
}
