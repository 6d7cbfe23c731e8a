//! Edits of a page in HTML or XML, as numbers and strings that callers in any language pass.
#![tactic(auto)]

pub mod calls;
mod numbers;
