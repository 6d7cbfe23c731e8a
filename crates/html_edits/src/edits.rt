//! What an edit is, and why it is refused.

use css_html_tree::page::Fault;
use css_xml::faults::Fault as XmlFault;
use std::alloc::{AllocError, AllocFailed};

/// The language that a page is in.
#[derive(Clone, Copy, Debug, PartialEq)]
pub enum Language {
    /// HTML.
    Html,
    /// XML: the page is a document, as drawings are.
    Xml,
}

/// What becomes of an attribute.
#[derive(Clone, Copy)]
pub enum NewValue<'a> {
    /// It has this value.
    Set(&'a [u8]),
    /// It has this before its own value.
    Before(&'a [u8]),
    /// It is removed.
    Removed,
}

/// A change of the attribute with a name.
#[derive(Clone, Copy)]
pub struct Change<'a> {
    /// Its name, which a tag of HTML may have in any case.
    pub name: &'a [u8],
    /// What becomes of it.
    pub value: NewValue<'a>,
}

/// An edit. A tag is named by its index among the start tags of the page.
#[derive(Clone, Copy)]
pub enum Edit<'a> {
    /// The attributes of a start tag change.
    Tag(usize, &'a [Change<'a>]),
    /// What is between the tag of a `style` element and a place becomes this text.
    Text(usize, usize, &'a [u8]),
    /// A `style` element is put in at a place, in XML with a prefix: the place, the prefix, and the text.
    PutIn(usize, &'a [u8], &'a [u8]),
    /// The `link` or the `style` element that begins with a tag and ends at a place is taken out.
    TakeOut(usize, usize),
    /// A `style` element with this text takes the place of such an element, in XML with its prefix.
    Replace(usize, usize, &'a [u8]),
    /// An instruction of XML that names a sheet, between two places, is taken out.
    TakeOutInstruction(usize, usize),
}

/// Why a page is not edited.
#[derive(Clone, Copy, Debug, PartialEq)]
pub enum Refusal {
    /// An allocation failed.
    Memory,
    /// Elements are nested in a way that takes time or elements out of proportion.
    TooDeep,
    /// The edits are not in order, one is where it cannot be, or the text of a `style` element would end it. Or the
    /// page is no document of XML, or none with the edits.
    Misplaced,
    /// With the edits of this tag, or of one before it, the page has another tree, or the tag is not read as
    /// it is meant.
    Differs(usize),
}

impl From<AllocError> for Refusal {
    fn from(_error: AllocError) -> Refusal {
        Refusal::Memory
    }
}

impl<T: Drop> From<AllocFailed<T>> for Refusal {
    fn from(_error: AllocFailed<T>) -> Refusal {
        Refusal::Memory
    }
}

impl From<Fault> for Refusal {
    fn from(fault: Fault) -> Refusal {
        match fault {
            Fault::Memory => Refusal::Memory,
            Fault::TooDeep | Fault::TooLong => Refusal::TooDeep,
        }
    }
}

impl From<XmlFault> for Refusal {
    fn from(fault: XmlFault) -> Refusal {
        match fault {
            XmlFault::Memory => Refusal::Memory,
            XmlFault::TooMany => Refusal::TooDeep,
            XmlFault::NotWellFormed(..) => Refusal::Misplaced,
        }
    }
}
