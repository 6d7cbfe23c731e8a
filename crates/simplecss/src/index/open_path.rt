//! The open path: the elements that are open while a tree is walked.
ghost use Rattle.std.specs.Prelude.{◌≡◌, ◌<◌, ◌↔◌, ℕ, List, [], Some, IfOk, OnOk, length, Contains, IsTrue};
ghost use Rattle.std.specs.List.{All};
ghost use Rattle.simplecss_selector.specs.Keys.{Reported};
ghost use Rattle.simplecss.specs.OpenPaths.{needed_keys, left, IsOpenTo};
ghost use Rattle.simplecss.specs.internal.Kept.{top_starts};

use super::find::push_keys_of;
use super::rule_index::RuleIndex;
use css_open_elements::Numbers;
use simplecss_selector::Keyed;
use std::alloc::{AllocError, Global};
use std::marker::Model;
use std::snapshot::Snapshot;

/// The elements that are open while a tree is walked in order: those of which a descendant is matched
/// next. By them [`RuleIndex::matching_exact`] leaves out each rule that needs an ancestor which an
/// element does not have, and it does not look up what the parent reports.
///
/// A walk of the tree enters each element before its children, and leaves it after them:
///
/// ```text
/// path.enter(&index, &element)?;
/// for child in children {
///     index.matching_exact(&sheet.rules, &child, &path, &mut indices, &mut Tests::new())?;
/// }
/// path.leave();
/// ```
///
/// It takes memory only for the open elements, and a number for each key that rules need of
/// ancestors.
#[derive(Drop)]
pub struct OpenPath<'a> {
    /// The numbers of the keys that the open elements report.
    keys: Numbers,
    /// For all open elements, the last rules that need a parent with a key which they report.
    starts: Vec<usize>,
    /// For each open element, how many numbers and rules there were before it.
    marks: Vec<(usize, usize)>,
    /// The numbers of the keys of the element that is entered. The list is reused.
    found: Vec<usize>,
    /// The index, which only contracts see.
    index: Snapshot<RuleIndex<'a>>,
}

impl<'a> Model for OpenPath<'a> {
    ghost use Rattle.std.specs.Prelude.{◌≡◌, length, reverse};
    ghost use Rattle.simplecss.specs.OpenPaths.{Path, needed_keys};

    ghost Value = { Path };

    ghost view = { λ path. record {
      selectors = path.index.value;
      listed = path.keys.listed;
      starts = path.starts.items;
      marks = reverse path.marks.items;
    } };

    ghost invariant = { λ path. path.keys.size ≡ length (needed_keys path.index.value) };
}

impl<'a> OpenPath<'a> {
    /// No element is open. The path is for searches by this index. Fails only if an allocation
    /// fails.
    pub fn new(alloc: Global, index: &RuleIndex<'a>) -> Result<OpenPath<'a>, AllocError>
        ensures index { IfOk result (λ path. path.selectors ≡ index.now) }
        ensures listed { IfOk result (λ path. path.listed ≡ []) }
        ensures starts { IfOk result (λ path. path.starts ≡ []) }
        ensures marks { IfOk result (λ path. path.marks ≡ []) }
    {
        Ok(OpenPath {
            keys: Numbers::new(alloc, index.needed.len())?,
            starts: Vec::new(alloc),
            marks: Vec::new(alloc),
            found: Vec::new(alloc),
            index: Snapshot::of(index),
        })
    }

    /// Opens an element, whose parent is the one that was opened last. After an error the path is
    /// of no use.
    pub fn enter<E: Keyed>(&mut self, index: &RuleIndex<'_>, element: &E) -> Result<(), AllocError>
        requires { self.old.selectors ≡ index.now }
        ensures index { OnOk result (self.new.selectors ≡ self.old.selectors) }
        ensures opened { OnOk result
            (IsOpenTo E.tree E.node E.reported self.old (E.tree.parent (E.node element.now))
            → IsOpenTo E.tree E.node E.reported self.new (Some (E.node element.now))) }
    {
        self.found.clear();
        let mark = (self.keys.len(), self.starts.len());
        push_keys_of(&index.needed.numbers, element, &mut self.found)?;
        push_keys_of(&index.lasts.parent, element, &mut self.starts)?;
        self.keys.add_all(&self.found)?;
        self.marks.push(mark)?;
        Ok(())
    }

    /// Closes the element that was opened last, if one is open.
    pub fn leave(&mut self)
        ensures { self.new ≡ left self.old }
    {
        if let Some((listed, starts)) = self.marks.pop() {
            self.keys.close_to(listed);
            self.starts.truncate(starts);
        }
    }

    /// Whether an open element reports the key with this number.
    #[inline(always)]
    pub(crate) fn is_open(&self, number: usize) -> bool
        ensures { IsTrue result ↔ Contains self.now.listed number }
    {
        self.keys.is_since(number, 0)
    }

    /// Returns the last rules that need a parent with a key which the element that was opened last
    /// reports.
    #[inline(always)]
    pub(crate) fn parent_starts(&self) -> &[usize]
        ensures { result.now ≡ top_starts self.now.marks self.now.starts }
    {
        match self.marks.last() {
            Some((_, starts)) => self.starts.get(*starts..).unwrap_or(&[]),
            None => &self.starts,
        }
    }
}
