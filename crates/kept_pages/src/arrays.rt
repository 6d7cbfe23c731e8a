//! A copy of a tree as a caller passes it.

ghost use Rattle.std.specs.Prelude.{◌≡◌, IfOk};
ghost use Rattle.call_answers.specs.Calls.{passed_of};
ghost use Rattle.kept_pages.specs.Sources.{passed_in};

use call_answers::elements::{PassedTree, TreeAttribute, TreeElement};
use std::alloc::{AllocError, Global};

/// The elements of a tree, the bytes of its strings, and the rest of what a caller passes of it.
#[derive(Drop)]
pub struct PageArrays {
    elements: Vec<TreeElement>,
    strings: Vec<u8>,
    ends: Vec<usize>,
    attributes: Vec<TreeAttribute>,
    states: usize,
    prefixes: Vec<usize>,
}

impl PageArrays {
    /// A copy of a tree that is passed.
    pub fn copy(alloc: Global, tree: PassedTree<'_>) -> Result<PageArrays, AllocError>
        ensures { IfOk result (λ arrays. passed_in arrays ≡ passed_of tree.entry) }
    {
        Ok(PageArrays {
            elements: Vec::from_slice(alloc, tree.elements)?,
            strings: Vec::from_slice(alloc, tree.strings)?,
            ends: Vec::from_slice(alloc, tree.ends)?,
            attributes: Vec::from_slice(alloc, tree.attributes)?,
            states: tree.states,
            prefixes: Vec::from_slice(alloc, tree.prefixes)?,
        })
    }

    /// The tree, as it is passed.
    pub fn passed(&self) -> PassedTree<'_>
        ensures { passed_of result ≡ passed_in self.now }
    {
        PassedTree {
            elements: self.elements.as_slice(),
            strings: self.strings.as_slice(),
            ends: self.ends.as_slice(),
            attributes: self.attributes.as_slice(),
            states: self.states,
            prefixes: self.prefixes.as_slice(),
        }
    }
}
