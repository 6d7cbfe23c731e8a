//! What the calls of the C library answer of lists of selectors that it keeps, with slices in place of pointers.
#![tactic(auto)]

pub mod calls;
mod modern;
mod port;
mod questions;
