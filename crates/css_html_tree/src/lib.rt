//! The tree that a browser makes of an HTML page (HTML Standard, section 13.2.6), with places.
#![tactic(auto)]

mod before;
mod body;
mod builder;
mod foreign;
mod formatting;
pub mod names;
pub mod page;
mod pieces;
mod quirks;
pub mod reading;
mod rows;
mod tables;
mod tree;
