//! A ready tree for programs that have none: elements in one list, each with a name, attributes and states.
//! Selectors of CSS 2.1 match them by `simplecss_tree`, modern ones by `css_tree`.
#![tactic(auto)]

mod node;
mod tree;
mod ways;

pub use node::Node;
pub use tree::{States, Tree, TreeError};
pub use ways::find_way;
