//! The grammar of CSS 2.1: in `specs/` selectors, declarations and style sheets, which the crates of
//! the port are proved against, their laws, and the reports of what reading skips.
#![tactic(auto)]

pub mod laws;
pub mod next_kind;
pub mod quoting;
pub mod report;
mod words;
