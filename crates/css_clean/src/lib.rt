//! Declarations and sheets from people whom nobody knows, made safe by a policy.
//!
//! What is returned has what the policy allows of a text, in its order, and nothing else. Every text is
//! read, in time proportional to its length times the names of the policy's lists. A text that is longer
//! than the policy says is dropped whole.
#![tactic(auto)]

mod check;
pub mod dropped;
mod escaping;
mod fronts;
pub mod groups;
pub mod laws;
pub mod lists;
mod policy;
mod preludes;
mod scopes;
mod scoping;
mod selectors;
mod sheet;
mod style;
mod written;

pub use check::{is_clean_sheet, is_clean_style};
pub use dropped::{Dropped, Reason};
pub use policy::{Policy, is_allowed};
pub use selectors::{SheetPolicy, is_scope};
pub use sheet::clean_sheet;
pub use style::{Cleaned, clean_style};
