//! The ready tree of `css_elements`, against whose elements selectors of CSS 2.1 are matched.
#![tactic(auto)]

mod node;
mod rule_walk;

pub use css_elements::{States, Tree, TreeError};
pub use node::{Node, Nodes};
pub use rule_walk::RuleWalk;
