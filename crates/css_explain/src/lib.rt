//! Why a declaration wins on an element: all declarations of a property that apply to it, in the order of the
//! cascade (CSS Cascading 5, section 6.1), and the criterion by which each loses to the one before it.
//!
//! [`explain`] takes rules in the order of the cascade and the indices of those that match the element.
//!
//! ```text
//! let rules = StyleRules::read(alloc, &[sheet], most, |name, prelude| holds(name, prelude))?;
//! for one in &explain(alloc, rules.as_slice(), &matching, own, &["color"])? {
//!     println!(rt; "{} {}", one.winner.declaration.value, one.weight.layer)?;
//! }
//! ```
#![tactic(auto)]

mod contenders;
mod criterion;
mod explaining;
mod gathering;
mod laws;

pub use criterion::Criterion;
pub use explaining::{Explained, explain};
pub use laws::explain_law;
