//! A tree that grows: each element comes after its parent and after its previous siblings.
ghost use Rattle.std.specs.Prelude.{◌≡◌, ◌<◌, ◌≤◌, ◌++◌, ◌∷◌, ◌↔◌, [], length, IfSome, IfOk, IfErr, map};
ghost use Rattle.std.specs.Prelude.{MatchOption, MatchResult, Err, OnOk, OnErr, false};
ghost use Rattle.std.specs.Option.{option_map, option_map_or};
ghost use Rattle.css_elements.specs.declared.tree.TreeError.TheVariants.{NoElement, Memory};

use crate::Node;
use crate::node::{is_in_language, value_in};
use std::alloc::{AllocError, AllocFailed, Global};
use std::error::Error;
use std::io::ErrorKind;
use std::marker::Model;
use std::{fmt, io};

/// Which of the pseudo-classes that depend on the user, not on the tree, apply to an element (CSS
/// 2.1 sections 5.11.2 and 5.11.3).
#[derive(Clone, Copy, Debug, Default, PartialEq)]
pub struct States {
    /// `:link`
    pub link: bool,
    /// `:visited`
    pub visited: bool,
    /// `:hover`
    pub hover: bool,
    /// `:active`
    pub active: bool,
    /// `:focus`
    pub focus: bool,
}

/// Why a tree is unchanged.
#[derive(Clone, Copy, Debug, PartialEq)]
pub enum TreeError {
    /// There is no such element.
    NoElement,
    /// An allocation failed.
    Memory,
}

/// Prints the error in a few words. The formatter's width, fill and flags change nothing.
impl fmt::Display for TreeError {
    ghost use Rattle.std.specs.Prelude.{Some};
    ghost use Rattle.css_elements.specs.Messages.{message_of};

    ghost output = { λ error. Some (message_of error) };

    ghost styled_output = { λ error _. Some (message_of error) };

    #[tactic(auto, using(crate::proofs::ErrorWrites::plain_of_styled))]
    fn fmt<W: fmt::Write>(&self, f: &mut fmt::Formatter<W>) -> fmt::Result {
        match self {
            TreeError::NoElement => f.write_str("no such element"),
            TreeError::Memory => f.write_str("want of memory"),
        }
    }
}

impl Error for TreeError {}

impl From<AllocError> for TreeError {
    ghost from_gives = { λ _ fault. fault ≡ Memory };

    fn from(_error: AllocError) -> TreeError {
        TreeError::Memory
    }
}

impl<T: Drop> From<AllocFailed<T>> for TreeError {
    ghost from_gives = { λ _ fault. fault ≡ Memory };

    fn from(_error: AllocFailed<T>) -> TreeError {
        TreeError::Memory
    }
}

/// Lets `?` convert `TreeError` into `io::Error`.
impl From<TreeError> for io::Error {
    ghost use Rattle.std.specs.IoError.{error_kind};
    ghost use Rattle.css_elements.specs.Messages.{kind_of};

    ghost from_gives = { λ error fault. error_kind fault ≡ kind_of error };

    fn from(error: TreeError) -> io::Error {
        match error {
            TreeError::NoElement => io::Error::new(ErrorKind::NotFound, "no such element"),
            TreeError::Memory => io::Error::from(ErrorKind::OutOfMemory),
        }
    }
}

/// An element's own data, and the indices of its relatives.
#[derive(Debug, Drop)]
pub(crate) struct Entry<'t> {
    /// The element's name.
    pub(crate) name: &'t str,
    /// Where its attributes begin among those of all elements.
    first: usize,
    /// Where they end.
    end: usize,
    /// The index of the parent, if there is one.
    pub(crate) parent: Option<usize>,
    /// The index of the previous sibling, if there is one.
    pub(crate) previous: Option<usize>,
    /// The states that the element is in.
    pub(crate) states: States,
    /// The index of the last child, if there is one: the previous sibling of the next.
    last_child: Option<usize>,
}

/// A tree: elements in the order in which they were added. Names, attributes and their values are
/// slices of the document's text and are not copied; elements are in one list, and the attributes of all
/// in another.
///
/// <!-- from crates/example_first/src/main.rt -->
/// ```rust
/// let mut tree = Tree::new(alloc);
/// let div = tree.push(None, "div")?;
/// let p = tree.push(Some(div), "p")?;
/// tree.set_attribute("class", "note")?;
/// ```
#[derive(Debug, Drop)]
pub struct Tree<'t> {
    /// An entry for each element.
    pub(crate) entries: Vec<Entry<'t>>,
    /// The name and the value of each attribute of each element, in order.
    attributes: Vec<(&'t str, &'t str)>,
    /// The index of the last element without a parent, if there is one.
    last_root: Option<usize>,
}

impl<'t> Model for Tree<'t> {
    ghost use Rattle.std.specs.Prelude.{List, length, map};
    ghost use Rattle.css_elements.specs.Rows.{Row, row_of, AreRanges, KnowsLast};

    ghost Value = { List Row };

    ghost view = { λ t. map (row_of t.attributes.items) t.entries.items };

    ghost invariant = { λ t. KnowsLast t.entries.items t.last_root
        × AreRanges t.entries.items (length t.attributes.items) };
}

impl<'t> Tree<'t> {
    ghost use Rattle.css_matching.specs.ListTrees.{spot};
    ghost use Rattle.css_elements.specs.Rows.{IsMissing, last_child, new_child, with_attribute};
    ghost use Rattle.css_elements.specs.Rows.{with_states};

    /// Creates a tree without elements. It allocates nothing.
    pub fn new(alloc: Global) -> Tree<'t>
        ensures { result ≡ [] }
    {
        Tree {
            entries: Vec::new(alloc),
            attributes: Vec::new(alloc),
            last_root: None,
        }
    }

    /// Returns the number of elements.
    pub fn len(&self) -> usize
        ensures { result ≡ length self.now }
    {
        self.entries.len()
    }

    /// Returns the last child of the parent, or the last element without one.
    fn last_child(&self, parent: Option<usize>) -> Result<Option<usize>, TreeError>
        ensures ok { IfOk result (λ last. last ≡ last_child self.now parent) }
        ensures there { OnOk result (IfSome parent (λ above. above < length self.now)) }
        ensures err { IfErr result
            (λ fault. (fault ≡ NoElement) × IsMissing parent (length self.now)) }
    {
        match parent {
            None => Ok(self.last_root),
            Some(above) => match self.entries.get(above) {
                None => Err(TreeError::NoElement),
                Some(entry) => Ok(entry.last_child),
            },
        }
    }

    /// Adds an element as the last child of the parent, or without one, and returns its index.
    pub fn push(&mut self, parent: Option<usize>, name: &'t str) -> Result<usize, TreeError>
        ensures index { IfOk result (λ index. index ≡ length self.old) }
        ensures added { OnOk result
            (self.new ≡ self.old ++ new_child self.old parent name.now ∷ []) }
        ensures no_parent { (result ≡ Err NoElement) ↔ IsMissing parent (length self.old) }
        ensures err { OnErr result (self.new ≡ self.old) }
    {
        let index = self.entries.len();
        let previous = self.last_child(parent)?;
        let end = self.attributes.len();
        self.entries.push(Entry {
            name,
            first: end,
            end,
            parent,
            previous,
            states: States::default(),
            last_child: None,
        })?;
        match parent {
            None => self.last_root = Some(index),
            Some(above) => self.entries[above].last_child = Some(index),
        }
        Ok(index)
    }

    /// Adds an attribute to the element that was added last. Of two attributes with one name the
    /// first counts.
    pub fn set_attribute(&mut self, name: &'t str, value: &'t str) -> Result<(), TreeError>
        ensures ok { OnOk result (self.new ≡ with_attribute self.old name.now value.now) }
        ensures no_element { (result ≡ Err NoElement) ↔ (self.old ≡ []) }
        ensures err { OnErr result (self.new ≡ self.old) }
    {
        let Some(last) = self.entries.len().checked_sub(1) else {
            return Err(TreeError::NoElement);
        };
        self.attributes.push((name, value))?;
        self.entries[last].end = self.attributes.len();
        Ok(())
    }

    /// Sets the states of the element at an index.
    pub fn set_states(&mut self, index: usize, states: States) -> Result<(), TreeError>
        ensures ok { OnOk result (self.new ≡ with_states self.old index states) }
        ensures no_element { MatchResult result (λ _. index < length self.old)
            (λ fault. (fault ≡ NoElement) × (length self.old ≤ index)) }
        ensures err { OnErr result (self.new ≡ self.old) }
    {
        if index >= self.entries.len() {
            return Err(TreeError::NoElement);
        }
        self.entries[index].states = states;
        Ok(())
    }

    /// Returns the element at an index, if there is one.
    pub fn element(&self, index: usize) -> Option<Node<'_, 't>>
        ensures { MatchOption result (length self.now ≤ index)
            (λ node. (index < length self.now) × (node ≡ spot self.now index)) }
    {
        if index < self.len() {
            Some(Node { tree: self, index })
        } else {
            None
        }
    }
}

/// Answers about its elements.
impl<'t> Tree<'t> {
    ghost use Rattle.css_matching.specs.ListTrees.{parent_by, sibling_by};
    ghost use Rattle.css_elements.specs.TreeNodes.{named_parent, named_previous, name_at};
    ghost use Rattle.css_elements.specs.Rows.{attribute_of};
    ghost use Rattle.css_elements.specs.TreeNodes.{attribute_at, attributes_at};
    ghost use Rattle.css_elements.specs.TreeNodes.{states_at, language_at};
    ghost use Rattle.css_elements.specs.TreeNodes.{is_in_language};

    /// Returns the index of the parent.
    #[inline(always)]
    pub fn parent(&self, index: usize) -> Option<usize>
        requires { index < length self.now }
        ensures value { result ≡ parent_by (named_parent self.now) index }
        ensures before { IfSome result (λ parent. parent < index) }
    {
        let parent = self.entries[index].parent?;
        if parent < index { Some(parent) } else { None }
    }

    /// Returns the index of the previous sibling.
    #[inline(always)]
    pub fn previous(&self, index: usize) -> Option<usize>
        requires { index < length self.now }
        ensures value { result
            ≡ sibling_by (named_parent self.now) (named_previous self.now) index }
        ensures before { IfSome result (λ previous. previous < index) }
    {
        let previous = self.entries[index].previous?;
        if previous < index && self.parent(previous) == self.parent(index) {
            Some(previous)
        } else {
            None
        }
    }

    /// Returns the name.
    #[inline(always)]
    pub fn name(&self, index: usize) -> &'t str
        requires { index < length self.now }
        ensures { result.now ≡ name_at self.now index }
    {
        self.entries[index].name
    }

    /// Returns the name and the value of each attribute.
    pub fn attributes(&self, index: usize) -> &[(&'t str, &'t str)]
        requires { index < length self.now }
        ensures { map attribute_of result.now ≡ attributes_at self.now index }
    {
        let entry = &self.entries[index];
        &self.attributes[entry.first..entry.end]
    }

    /// Returns the value of the first attribute with the name, if there is one.
    pub fn attribute(&self, index: usize, name: &str) -> Option<&'t str>
        requires { index < length self.now }
        ensures { option_map (λ value. value.now) result ≡ attribute_at self.now index name.now }
    {
        value_in(self.attributes(index), name)
    }

    /// Returns the states.
    #[inline(always)]
    pub fn states(&self, index: usize) -> States
        requires { index < length self.now }
        ensures { result ≡ states_at self.now index }
    {
        self.entries[index].states
    }

    /// Returns the value of the attribute `lang` of the nearest among an element and its ancestors
    /// that has one.
    pub fn language(&self, index: usize) -> Option<&'t str>
        requires { index < length self.now }
        ensures { option_map (λ value. value.now) result ≡ language_at self.now index }
    {
        let mut nearest = index;
        loop {
            if let Some(language) = self.attribute(nearest, "lang") {
                return Some(language);
            }
            nearest = self.parent(nearest)?;
        }
    }

    /// Whether the element is in the language of the tag.
    pub fn is_in_language(&self, index: usize, tag: &str) -> bool
        requires { index < length self.now }
        ensures { result
            ≡ option_map_or (is_in_language tag.now) (language_at self.now index) false }
    {
        match self.language(index) {
            Some(language) => is_in_language(tag, language),
            None => false,
        }
    }
}
