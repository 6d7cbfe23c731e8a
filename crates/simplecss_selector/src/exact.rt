//! Elements that report no more than they match.
use crate::Keyed;

/// An element that reports no more than it matches: it has each key that it reports. A selector that
/// requires nothing but its key matches each such element that reports the key, and an index does not
/// test it (`RuleIndex::matching_exact`).
///
/// An element of a tree whose names and values are compared byte by byte, as they are reported, is
/// exact. To implement it, prove `exact_law` in your `specs/`.
pub trait Exact: Keyed {
    ghost use Rattle.simplecss_selector.specs.Exact.{ReportsOnlyKeys};

    ghost exact_law: { (element : Self)
        → ReportsOnlyKeys Self.tree (Self.node element) (Self.reported element) };
}
