//! The sheets that a page names: its `style` elements, and its links to style sheets.
//!
//! `nodes` has what elements say of sheets, `page` finds those of a page in HTML, and `sheets` says which of them are
//! sheets, and which of these are in use.
#![tactic(auto)]

pub mod nodes;
pub mod page;
pub mod sheets;
