//! The tree format of the program `cssq`: pages of elements, read from their texts.
#![tactic(auto)]

pub mod tree;
