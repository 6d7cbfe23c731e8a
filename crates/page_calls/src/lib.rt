//! Modern selectors and the pages that they are matched against: what the calls of the C library ask of them.
#![tactic(auto)]

mod attributes;
pub mod marks;
pub mod modern;
mod named_states;
pub mod tree_names;
