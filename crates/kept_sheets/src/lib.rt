//! Style sheets that are kept: a text, and the numbers that were written of it, so that it is read once for each question.
//!
//! [`KeptSheet`] is the object, [`SheetHandle`] one behind a pointer. `calls` has what the calls of the C library
//! answer of them.
#![tactic(auto)]

pub mod calls;
mod handle;
mod questions;
mod sheet;

pub use handle::SheetHandle;
pub use questions::{SheetNumbers, SheetText};
pub use sheet::{KeptSheet, Question};
