//! Laws of the tokens of XML documents.
#![tactic(auto)]

pub mod laws;
