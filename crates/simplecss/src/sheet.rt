//! Rules and style sheets.
pub mod laws;
mod order;
mod printing;
mod reading;
mod rules;
mod statement_reader;
mod statements;
mod style_sheet;

pub use rules::Rule;
pub use statement_reader::{Statement, StatementReader};
pub(crate) use statements::consume_part;
pub use style_sheet::{Reading, StyleSheet, find_skipped};
