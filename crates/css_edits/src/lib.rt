//! Edits of a style sheet by places: selectors, values, declarations, rules and statements.
//!
//! `editing::edited` writes a sheet with edits. Every other byte stays. What it wrote is read again, and says what
//! the sheet said, with what the edits say in its place: an edit that would be read otherwise is refused.
#![tactic(auto)]

mod changing;
pub mod editing;
pub mod edits;
mod entries;
mod pieces;
mod same;
mod splicing;
