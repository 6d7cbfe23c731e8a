//! What the calls of the C library answer with, and the trees and texts that they are passed.
//!
//! `answer` writes an answer to a caller's buffer and returns the status.
#![tactic(auto)]

pub mod answer;
pub mod elements;
mod failures;
pub mod items;
pub mod pages;
pub mod port_texts;
pub mod refusals;
pub mod selector_numbers;
pub mod texts;
