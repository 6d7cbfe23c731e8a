//! Laws of keys and of buckets.
ghost use Rattle.std.specs.Prelude.{◌≡◌, ◌↔◌, All, IsTrue, List};
ghost use Rattle.simplecss_grammar.specs.Components.{Component};
ghost use Rattle.simplecss_selector.specs.AncestorKeys.{ancestor_keys, SomeAncestorHas};
ghost use Rattle.simplecss_selector.specs.Buckets.{bucket_of, HasBucket, Near, IsNear, ReportsBuckets};
ghost use Rattle.simplecss_selector.specs.Keys.{key_of, HasKey};
ghost use Rattle.simplecss_selector.specs.KeyViews.{key_value};
ghost use Rattle.simplecss_selector.specs.Placements.{HasPlacement};

use crate::{Element, Key, Keyed};

/// Two keys are equal exactly if they are of the same kind, with the same text where they have one.
pub fn key_equality_law()
    ensures { (a b : Key)
        → IsTrue (⟦<Key<'static> as PartialEq>⟧.eq a b) ↔ (key_value a ≡ key_value b) }
{}

/// An element that a selector matches has the selector's key.
pub fn key_law<E: Element>()
    ensures { (components : List Component) (n : E.Node)
        → HasPlacement E.tree components n → HasKey E.tree n (key_of components) }
{}

/// If a selector matches an element, the node that its bucket names has the bucket's key: the element,
/// its parent or its previous sibling.
pub fn bucket_law<E: Element>()
    ensures { (components : List Component) (n : E.Node)
        → HasPlacement E.tree components n → HasBucket E.tree n (bucket_of components) }
{}

/// What an element and its neighbours report includes the key of each bucket that names one of them
/// and whose key that one has.
pub fn reported_near_law<E: Keyed>()
    ensures { (element : E) (near : Near) → IsNear E.tree E.node E.reported element near
        → ReportsBuckets E.tree (E.node element) near }
{}

/// If a selector matches an element, each key that it requires of the element's ancestors is one that
/// an ancestor has.
pub fn ancestor_keys_law<E: Element>()
    ensures { (components : List Component) (n : E.Node) → HasPlacement E.tree components n
        → All (SomeAncestorHas E.tree n) (ancestor_keys components) }
{}
