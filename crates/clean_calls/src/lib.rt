//! What the calls of the C library that clean texts answer, with slices in place of pointers.
#![tactic(auto)]

pub mod asked;
pub mod cleaning;
pub mod dropping;
mod lists;
pub mod policies;
