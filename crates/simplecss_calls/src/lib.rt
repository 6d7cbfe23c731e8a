//! The calls of the C library that choose a grammar, and those on what wins, with slices in place of pointers: each
//! returns what the library hands to its caller, or why there is no answer.
//!
//! `simplecss_c` exports them, with those of `port_calls` and `sheet_calls`.
#![tactic(auto)]

mod around;
pub mod calls;
pub mod contents;
pub mod element_numbers;
mod explained;
pub mod grammar;
mod held;
mod matches;
pub mod rule_texts;
mod tested;
pub mod winners;
