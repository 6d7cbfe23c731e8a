//! What the library reads and prints: selectors, statements and sheets.

mod errors;
mod printing;
mod selectors;
mod sheets;
mod statements;
