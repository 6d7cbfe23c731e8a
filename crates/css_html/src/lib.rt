//! The tokens of an HTML page, each with its place (HTML Standard, section 13.2.5), what their texts stand
//! for, and attributes as they are written.
//!
//! Reading takes time in proportion to the text and allocates nothing. Decoding a character reference
//! scans the names that begin with its first letter, at most 1,900 bytes.
#![tactic(auto)]

pub mod attributes;
pub mod decoding;
pub mod laws;
pub mod marks;
pub mod modes;
mod reference_names;
mod references;
pub mod tokenizer;
pub mod writing;
