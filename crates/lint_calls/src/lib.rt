//! What the calls of the C library about mistakes in sheets answer, with slices in place of pointers.
#![tactic(auto)]

pub mod lint;
pub mod taken;
