//! Edits of a style sheet, as numbers and strings that callers in any language pass.
#![tactic(auto)]

pub mod calls;
mod numbers;
