//! An HTML page as numbers and strings, which callers in any language make trees of.
//!
//! `pages` reads a page, and writes what its tree has: `tags` its start tags, `nodes` its elements and
//! texts. `words` has the names of elements and attributes.
#![tactic(auto)]

pub mod documents;
pub mod encodings;
mod nodes;
pub mod pages;
mod tags;
pub mod words;
