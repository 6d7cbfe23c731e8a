//! What an edit is, and why it is refused.

use std::alloc::{AllocError, AllocFailed};

/// What a text takes the place of.
#[derive(Clone, Copy, Debug, PartialEq)]
pub enum Change {
    /// What is before the block of a rule, as its selectors or its condition; or what is between the name of an
    /// at-rule and its block or its end.
    Prelude,
    /// The value of a declaration, without its importance.
    Value,
    /// What is in the block of an at-rule that is no group rule.
    Block,
    /// Statements of a sheet or of a group rule in no style rule, or what is between them.
    Statements,
    /// Contents of the block of a style rule, or what is between them.
    Contents,
}

/// A text that takes the place of a part of a sheet. Offsets count bytes.
#[derive(Clone, Copy, Debug)]
pub struct Edit<'a> {
    /// What it takes the place of.
    pub change: Change,
    /// Where the part begins.
    pub from: usize,
    /// Where it ends.
    pub to: usize,
    /// The text.
    pub text: &'a str,
}

/// Why a sheet is not edited. Edits are numbered from 0.
#[derive(Clone, Copy, Debug, PartialEq)]
pub enum Refusal {
    /// An allocation failed.
    Memory,
    /// The edit is not in order, or its part is not one of the sheet.
    Misplaced(usize),
    /// With this edit, or one beside it, the sheet would be read as something else.
    Differs(usize),
}

impl From<AllocError> for Refusal {
    fn from(_error: AllocError) -> Refusal {
        Refusal::Memory
    }
}

impl<T: Drop> From<AllocFailed<T>> for Refusal {
    fn from(_error: AllocFailed<T>) -> Refusal {
        Refusal::Memory
    }
}
