//! Why a document is not read.
use std::alloc::{AllocError, AllocFailed};

/// What is wrong with a document.
#[derive(Clone, Copy, Debug, PartialEq)]
pub enum Reason {
    /// A character that no document has.
    Character,
    /// Markup that is not closed, or none.
    Unclosed,
    /// A start tag.
    Tag,
    /// An end tag, which has another name than the element that is open, or is one too many.
    EndTag,
    /// An element that is not closed, or a document without one.
    OpenElement,
    /// A second root.
    SecondRoot,
    /// A text outside of the root, a reference in a text, or `]]>`.
    Text,
    /// A processing instruction, or a declaration of XML that is wrong or not at the front.
    Instruction,
    /// A document type, or one that declares entities or attributes.
    Doctype,
    /// Two attributes of one name.
    SameAttribute,
    /// A prefix that is not declared, or a declaration that may not be.
    Prefix,
}

/// Why a token is refused.
#[derive(Clone, Copy, Debug, PartialEq)]
pub(crate) enum Wrong {
    /// An allocation failed.
    Memory,
    /// It may not be where it is.
    Because(Reason),
}

impl From<AllocError> for Wrong {
    fn from(_error: AllocError) -> Wrong {
        Wrong::Memory
    }
}

impl<T: Drop> From<AllocFailed<T>> for Wrong {
    fn from(_error: AllocFailed<T>) -> Wrong {
        Wrong::Memory
    }
}

/// Why a document is not read.
#[derive(Clone, Copy, Debug, PartialEq)]
pub enum Fault {
    /// An allocation failed.
    Memory,
    /// It declares too many prefixes at a place, or has too many nodes.
    TooMany,
    /// It is not well-formed, by what begins at a place.
    NotWellFormed(Reason, usize),
}

impl From<AllocError> for Fault {
    fn from(_error: AllocError) -> Fault {
        Fault::Memory
    }
}

impl<T: Drop> From<AllocFailed<T>> for Fault {
    fn from(_error: AllocFailed<T>) -> Fault {
        Fault::Memory
    }
}
