//! Trees of `css_elements` as documents that modern selectors match.
//!
//! `NumberedTree` counts the siblings of each element once. Its elements have the trait `Element`
//! of `css_selectors`. Names and values of attributes
//! compare byte by byte, and the states are those of `css_elements::States`, `any-link`, those that a caller
//! names (`NumberedTree::set_states`), and on a tree of an HTML document those that attributes decide
//! (`NumberedTree::set_html`). Elements are in namespaces (`NumberedTree::set_namespaces`), which
//! `:first-of-type` and the like compare beside names, and have attributes in namespaces
//! (`NumberedTree::set_namespaced_attributes`), which only the trait of `css_selectors` reports.
//! `languages` says which languages `:lang()` matches.
#![tactic(auto)]

mod attributes;
mod groups;
mod has_marks;
pub mod html;
mod html_elements;
mod html_states;
mod kinds;
pub mod languages;
mod marking;
mod marking_laws;
mod meaning_laws;
mod node;
mod nth_marks;
mod numbered_tree;
mod surroundings;
mod tree_walk;

pub use marking::MarkingError;
pub use node::NumberedNode;
pub use numbered_tree::{NamedState, NumberedTree, NumberingError, TreeNumbers};
pub use tree_walk::TreeWalk;
