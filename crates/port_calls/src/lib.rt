//! The calls of the C library that read CSS as the Rust crate does, with slices in place of pointers.
#![tactic(auto)]

mod lists;
pub mod port;
