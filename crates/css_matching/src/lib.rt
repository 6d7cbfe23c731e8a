//! Matches selectors with the combinators ` `, `>`, `+` and `~` against elements. The search keeps one
//! candidate and its element at a time: it calls itself nowhere and allocates nothing.
//!
//! A selector is any type with the trait `Parts`: compounds, or parts, by index. An element is any type
//! with the trait `Candidate`, which says whether it meets a part. `matches` is true exactly if there is
//! a placement (`specs/Placements`), and the number of its tests has a bound (`specs/Bounds`).
//!
//! A run is parts joined by `+`, a level is runs joined by `~`, and a stretch is levels joined by `>`.
//! All elements of a level are siblings, so they share the parent, on which all that is left of a level
//! depends: a level is a test of one element. So the nearest place of a run among the earlier siblings
//! suffices, and the nearest place of a stretch among the ancestors.
//!
//! It also has what searches and their indices share: the counter of tests, hashes of texts, and lists
//! of indices.
#![tactic(auto)]

mod candidate;
mod counter;
pub mod hashes;
mod indices;
mod matching;

pub use candidate::{Candidate, Parts};
pub use counter::Tests;
pub use indices::sort_once;
pub use matching::matches;

/// How a part of a selector is joined to the part before it.
#[derive(Clone, Copy)]
pub enum Combinator {
    /// The part before is on an ancestor.
    Descendant,
    /// The part before is on the parent.
    Child,
    /// The part before is on the sibling directly before.
    Adjacent,
    /// The part before is on an earlier sibling.
    Sibling,
}
