//! Lists of selectors that are kept: a text and the selectors that were read of it, which borrow the text, as
//! one object.
//!
//! [`KeptList`] is the object. It is asked by a [`Question`] on its text and its selectors.
#![tactic(auto)]

mod handle;
mod kept;
mod list;
mod read_list;

pub use handle::ListHandle;
pub use list::KeptList;
pub use read_list::{ListError, ListGrammar, Question, ReadList, read_modern};
