//! Values of declarations of strangers, written anew: urls are replaced by their answers, and names have
//! a prefix. Whether they are within limits. And the urls that a text has, so that they can be answered.
//!
//! All is done in time proportional to the length of the text times the number of the answers and names.
#![tactic(auto)]

pub mod changes;
pub mod checks;
pub mod limits;
pub mod names;
mod numbers;
pub mod pieces;
pub mod plain;
pub mod selectors;
pub mod urls;
pub mod values;
