//! Laws of crates that do not know one another. A law is the contract of a function that does nothing,
//! and no other crate stands on this one.
#![tactic(auto)]

mod devices;
mod headline;
mod meanings;
mod nested_lists;
mod numbered_lists;
mod one_tree;
mod pages;
mod pieces;
mod queries;
mod rule_order;
mod source_order;

pub use devices::device_law;
pub use headline::{answer_law, styles_law, winners_law};
pub use meanings::sheet_meaning_law;
pub use nested_lists::nested_lists_law;
pub use numbered_lists::numbered_lists_law;
pub use one_tree::converted_law;
pub use pages::page_law;
pub use pieces::pieces_law;
pub use queries::query_law;
pub use rule_order::rule_order_law;
pub use source_order::source_order_law;
