//! Edits of a page in HTML, or of a document in XML: attributes of start tags, the texts of `style` elements, and
//! these elements themselves.
//!
//! `editing::edited` writes a page with edits. Every other byte stays. The tags that it writes are read
//! again, and so is the whole page: an edit that would be read otherwise, or that would change the tree, is
//! refused.
#![tactic(auto)]

pub mod attributes;
mod changing;
pub mod editing;
pub mod edits;
mod elements;
mod placing;
mod rewriting;
mod shapes;
mod splicing;
mod style_texts;
mod values;
