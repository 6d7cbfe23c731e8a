//! The calls of the C library on texts: modern sheets, tokens, names, values, media and conditions, with slices in
//! place of pointers.
#![tactic(auto)]

pub mod conditions;
pub mod functions;
pub mod imports;
pub mod sheet_contents;
pub mod sheets;
pub mod spellings;
pub mod tokens;
pub mod values;
