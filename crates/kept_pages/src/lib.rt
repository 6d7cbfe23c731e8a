//! Pages that are kept: a copy of a tree and what was read of it and counted of it, which borrows the copy, as one
//! object.
//!
//! [`KeptPage`] is the object, [`PageHandle`] one behind a pointer. `calls` has what the calls of the C library
//! answer of them.
#![tactic(auto)]

mod arrays;
pub mod calls;
mod handle;
mod kept;
mod page;
mod read_page;

pub use arrays::PageArrays;
pub use handle::PageHandle;
pub use page::KeptPage;
pub use read_page::Selection;
