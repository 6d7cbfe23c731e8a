//! Laws of cleaned sheets, over what their selectors match. A law is the contract of a function that does
//! nothing, and no other crate stands on this one.
#![tactic(auto)]

mod scope;

pub use scope::scope_law;
