//! Queries that are kept: a page, the rules of style sheets and elements' own declarations, read once of a copy of
//! what was passed, which they borrow, as one object.
//!
//! [`KeptQuery`] is the object, [`QueryHandle`] one behind a pointer. `calls` has what the calls of the C library
//! answer of them.
#![tactic(auto)]

mod arrays;
pub mod calls;
mod handle;
mod kept;
mod query;
mod questions;
mod read_query;

pub use arrays::{PassedQuery, QueryArrays};
pub use handle::QueryHandle;
pub use query::KeptQuery;
pub use read_query::{ElementNumbers, NumbersAsked, RuleTexts};
