//! What the program `cssq` does: trees of elements from their texts, which declarations win on an
//! element, and runs over selectors, sheets and trees.
#![tactic(auto)]

pub mod cascade;
pub mod command;
mod digits;
pub mod laws;
pub mod runs;
pub mod show;
mod walk;

pub use cssq_tree::tree;
