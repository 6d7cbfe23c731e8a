//! The encoding of a page in bytes (HTML Standard, section 13.2.3.2).
//!
//! Reading looks at the first 1,024 bytes of a page at most, and allocates nothing.
#![tactic(auto)]

mod bytes;
mod content;
mod declaration;
pub mod encoding;
pub mod page;
mod prescan;
