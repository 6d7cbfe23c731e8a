//! Laws of sheets that are cut, as at their imports. A law is the contract of a function that does nothing, and no other
//! crate stands on this one.
#![tactic(auto)]

mod cutting;
mod imports;

pub use cutting::cutting_law;
pub use imports::imports_law;
