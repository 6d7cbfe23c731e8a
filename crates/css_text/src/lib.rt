//! Texts and what reads them: a cursor, errors with their positions, names, strings and blanks. All
//! readers of CSS, of the port and of modern CSS, are written with it.
#![tactic(auto)]

mod error;
mod position;
mod printing;
pub mod readers;
pub mod scan;
mod sheet_error;
pub mod stream;
mod text_pos;

pub use error::Error;
pub use printing::write_three;
pub use sheet_error::SheetError;
pub use text_pos::TextPos;
