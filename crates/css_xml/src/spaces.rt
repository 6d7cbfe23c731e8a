//! The namespaces of elements and attributes (Namespaces in XML 1.0).
use crate::characters::is_name;
use crate::faults::{Fault, Reason};
use crate::references::decode;
use crate::tokenizer::tag_name;
use css_html::attributes::{Attribute, next_attribute};
use css_html::decoding::TextKind;
use css_html::marks::text_between;
use css_html::tokenizer::Token;
use css_html_tree::page::Row;
use std::alloc::{AllocError, Global};

/// How many namespaces a document may have, among which each that is declared is looked for.
const MOST_NAMES: usize = 4096;

/// How many declarations may be in scope, among which each prefix is looked for.
const MOST_BINDINGS: usize = 1000;

/// How many bytes the name of a namespace may have.
const LONGEST: usize = 1000;

const XML: &[u8] = b"http://www.w3.org/XML/1998/namespace";

const XMLNS: &[u8] = b"http://www.w3.org/2000/xmlns/";

const DECLARING: &[u8] = b"xmlns";

const OF_XML: &[u8] = b"xml";

/// The numbers of these namespaces.
const XML_NUMBER: usize = 1;

const XMLNS_NUMBER: usize = 2;

/// The namespaces of a document.
#[derive(Drop)]
pub struct Spaces {
    /// Their names.
    pub names: Vec<Vec<u8>>,
    /// The number of the namespace of the element of each tag, from 1, or 0 for none.
    pub of_tags: Vec<usize>,
    /// The same of the attributes of the tags, in order.
    pub of_attributes: Vec<usize>,
}

/// A prefix, or an empty one, and the number of its namespace, which was declared at a depth.
#[derive(Clone, Copy)]
struct Binding<'a> {
    prefix: &'a [u8],
    space: usize,
    depth: usize,
}

/// Returns the parts of a name before and after its colon, if it has one.
pub fn parts_of(name: &[u8]) -> (&[u8], &[u8]) {
    match name.iter().position(|byte| *byte == b':') {
        Some(at) => (
            name.get(..at).unwrap_or(&[]),
            name.get(at.saturating_add(1)..).unwrap_or(&[]),
        ),
        None => (&[], name),
    }
}

/// Whether a name has at most one colon, between two names.
fn is_qualified(name: &[u8]) -> bool {
    let (prefix, local) = parts_of(name);
    let is_parted = local.len() < name.len();
    is_name(local) && !local.contains(&b':') && (!is_parted || !prefix.is_empty())
}

/// Returns the name of an attribute.
fn name_of<'a>(attribute: &Attribute<'a>) -> &'a [u8] {
    text_between(attribute.from, attribute.name_end)
}

/// Returns the prefix that an attribute declares, if it declares one, or an empty one.
fn declared_by<'a>(attribute: &Attribute<'a>) -> Option<&'a [u8]> {
    let name = name_of(attribute);
    if name == DECLARING {
        return Some(&[]);
    }
    name.strip_prefix(b"xmlns:")
}

/// What declares namespaces from a place on.
#[derive(Drop)]
struct Scope<'a> {
    names: Vec<Vec<u8>>,
    bindings: Vec<Binding<'a>>,
    /// The attributes of a tag by their namespaces and local names.
    seen: Vec<(usize, &'a [u8])>,
}

/// Returns what is wrong with a tag of a text, which is not well-formed by its namespaces.
fn fault_of(text: &[u8], tag: &Token<'_>, reason: Reason) -> Fault {
    Fault::NotWellFormed(reason, text.len().saturating_sub(tag.from.len()))
}

impl<'a> Scope<'a> {
    /// Creates the scope of a document.
    fn new(alloc: Global) -> Result<Scope<'a>, Fault> {
        let mut names = Vec::new(alloc);
        names.push(Vec::from_slice(alloc, XML)?)?;
        names.push(Vec::from_slice(alloc, XMLNS)?)?;
        Ok(Scope {
            names,
            bindings: Vec::new(alloc),
            seen: Vec::new(alloc),
        })
    }

    /// Returns the number of a namespace.
    fn number_of(&mut self, name: Vec<u8>) -> Result<usize, Fault> {
        if name.is_empty() {
            return Ok(0);
        }
        let is_same = |each: &Vec<u8>| each.as_slice() == name.as_slice();
        if let Some(index) = self.names.iter().position(is_same) {
            return Ok(index.saturating_add(1));
        }
        if self.names.len() >= MOST_NAMES || name.len() > LONGEST {
            return Err(Fault::TooMany);
        }
        self.names.push(name)?;
        Ok(self.names.len())
    }

    /// Declares a prefix. Returns whether it may be declared so.
    fn declare(
        &mut self,
        alloc: Global,
        prefix: &'a [u8],
        attribute: &Attribute<'a>,
        depth: usize,
    ) -> Result<bool, Fault> {
        let mut name = Vec::new(alloc);
        let value = text_between(attribute.value, attribute.value_end);
        decode(&mut name, TextKind::Value, value)?;
        let space = self.number_of(name)?;
        let is_reserved = space == XML_NUMBER || space == XMLNS_NUMBER;
        let is_fine = if prefix == OF_XML {
            space == XML_NUMBER
        } else if prefix == DECLARING {
            false
        } else {
            !is_reserved && (space != 0 || prefix.is_empty())
        };
        if self.bindings.len() >= MOST_BINDINGS {
            return Err(Fault::TooMany);
        }
        self.bindings.push(Binding {
            prefix,
            space,
            depth,
        })?;
        Ok(is_fine)
    }

    /// Forgets what was declared at a depth or deeper.
    fn leave(&mut self, depth: usize) {
        for _ in 0..self.bindings.len() {
            match self.bindings.last() {
                Some(last) if last.depth >= depth => {
                    self.bindings.pop();
                }
                _ => break,
            }
        }
    }

    /// Returns the number of the namespace of a prefix, if it is declared.
    fn space_of(&self, prefix: &[u8]) -> Option<usize> {
        if prefix == OF_XML {
            return Some(XML_NUMBER);
        }
        for binding in self.bindings.iter().rev() {
            if binding.prefix == prefix {
                return Some(binding.space);
            }
        }
        if prefix.is_empty() { Some(0) } else { None }
    }

    /// Returns the number of the namespace of an attribute, if its prefix is declared.
    fn space_of_attribute(&self, name: &[u8]) -> Option<usize> {
        let (prefix, _) = parts_of(name);
        if name == DECLARING || prefix == DECLARING {
            Some(XMLNS_NUMBER)
        } else if prefix.is_empty() {
            Some(0)
        } else {
            self.space_of(prefix)
        }
    }

    /// Whether two of the attributes that were seen are the same.
    fn has_same(&mut self) -> Result<bool, AllocError> {
        if self.seen.len() < 2 {
            return Ok(false);
        }
        self.seen.sort_unstable();
        for pair in self.seen.as_slice().windows(2) {
            if let [one, other] = pair {
                if one == other {
                    return Ok(true);
                }
            }
        }
        Ok(false)
    }

    /// Reads the declarations of a tag at a depth.
    fn take_declarations(
        &mut self,
        alloc: Global,
        tag: &Token<'a>,
        depth: usize,
    ) -> Result<Option<Reason>, Fault> {
        let mut rest = tag.inside_end;
        for _ in 0..tag.inside_end.len() {
            let Some(attribute) = next_attribute(rest) else {
                break;
            };
            if let Some(prefix) = declared_by(&attribute) {
                if !self.declare(alloc, prefix, &attribute, depth)? {
                    return Ok(Some(Reason::Prefix));
                }
            }
            rest = attribute.rest;
        }
        Ok(None)
    }

    /// Finds the namespaces of the attributes of a tag.
    fn take_attributes(
        &mut self,
        tag: &Token<'a>,
        found: &mut Vec<usize>,
    ) -> Result<Option<Reason>, Fault> {
        self.seen.clear();
        let mut rest = tag.inside_end;
        for _ in 0..tag.inside_end.len() {
            let Some(attribute) = next_attribute(rest) else {
                break;
            };
            let name = name_of(&attribute);
            let space = match self.space_of_attribute(name) {
                Some(space) if is_qualified(name) => space,
                _ => return Ok(Some(Reason::Prefix)),
            };
            found.push(space)?;
            self.seen.push((space, parts_of(name).1))?;
            rest = attribute.rest;
        }
        if self.has_same()? {
            Ok(Some(Reason::SameAttribute))
        } else {
            Ok(None)
        }
    }
}

/// Returns the namespaces of the elements with these tags, and of their attributes.
pub(crate) fn spaces_of<'a>(
    alloc: Global,
    text: &'a [u8],
    tags: &[Token<'a>],
    rows: &[Row<'a>],
) -> Result<Spaces, Fault> {
    let mut scope = Scope::new(alloc)?;
    let (mut of_tags, mut of_attributes) = (Vec::new(alloc), Vec::new(alloc));
    for row in rows {
        let Some(tag) = row.tag.and_then(|index| tags.get(index)) else {
            continue;
        };
        scope.leave(row.depth);
        if let Some(reason) = scope.take_declarations(alloc, tag, row.depth)? {
            return Err(fault_of(text, tag, reason));
        }
        if let Some(reason) = scope.take_attributes(tag, &mut of_attributes)? {
            return Err(fault_of(text, tag, reason));
        }
        let name = tag_name(tag);
        match scope.space_of(parts_of(name).0) {
            Some(space) if is_qualified(name) => of_tags.push(space)?,
            _ => return Err(fault_of(text, tag, Reason::Prefix)),
        }
    }
    Ok(Spaces {
        names: scope.names,
        of_tags,
        of_attributes,
    })
}
