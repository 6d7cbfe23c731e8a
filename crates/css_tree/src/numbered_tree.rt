//! Trees whose siblings are counted.
ghost use Rattle.std.specs.Prelude.{◌≡◌, ◌<◌, ◌≤◌, ◌^◌, ℕ, length, slice_get, slice_index_or};
ghost use Rattle.std.specs.Prelude.{◌↔◌, IsTrue, EachIndex, slice_index};
ghost use Rattle.std.specs.Prelude.{◌&&◌, ◌||◌, map, false, codes, IfOk, IfErr, IfSome, MatchOption, OnOk, OnErr, true, None, []};
ghost use Rattle.std.specs.Option.{option_map};
ghost use Rattle.css_matching.specs.ListTrees.{spot};
ghost use Rattle.css_elements.specs.TreeNodes.{attribute_at};
ghost use Rattle.css_tree.specs.Counts.{count_below, last_below};
ghost use Rattle.css_tree.specs.Pages.{parent_index, family, is_sibling, is_alike, count_after};
ghost use Rattle.css_tree.specs.Pages.{has_content, is_scope, is_marked, is_in_page_state, is_among, is_in_named, is_of_tree as is_of_tree_name, language_of};
ghost use Rattle.css_tree.specs.Pages.{with_text, with_scope, with_states, with_namespaces, with_attributes};
ghost use Rattle.css_tree.specs.Pages.{is_in_namespace, namespaced_attributes};
ghost use Rattle.css_tree.specs.PageViews.{attributes_of, state_of};
ghost use Rattle.css_selectors.specs.ElementViews.{namespaced_attribute_of};
ghost use Rattle.std.specs.Str.{str_eq_ignore_ascii_case};
ghost use Rattle.css_tree.specs.Keys.{AreFamilies, AreLanguages};
ghost use Rattle.css_tree.specs.declared.numbered_tree.NumberingError.TheVariants.{TooManyElements};
ghost use Rattle.css_tree.specs.declared.numbered_tree.NumberingError.TheVariants.{Memory};

mod tree_numbers;

use crate::NumberedNode;
use crate::attributes::{many_attributes, value_of};
use crate::groups::{Groups, Seen};
use crate::html_states::HtmlStates;
use crate::kinds::{kinds_of, namespace_of};
use css_elements::{Node, Tree};
use css_selectors::NamespacedAttribute;
use std::alloc::{AllocError, AllocFailed, Global};
use std::collections::BTreeMap;
use std::io;
use std::io::ErrorKind;
use std::marker::Model;
pub use tree_numbers::TreeNumbers;

/// Why the siblings of a tree are not counted.
#[derive(Clone, Copy, Debug, PartialEq)]
pub enum NumberingError {
    /// The tree has 2^32 elements or more.
    TooManyElements,
    /// An allocation failed.
    Memory,
}

/// Lets `?` convert `NumberingError` into `io::Error`.
impl From<NumberingError> for io::Error {
    ghost use Rattle.std.specs.IoError.{error_kind};
    ghost use Rattle.css_tree.specs.Messages.{kind_of};

    ghost from_gives = { λ error fault. error_kind fault ≡ kind_of error };

    fn from(error: NumberingError) -> io::Error {
        match error {
            NumberingError::TooManyElements => {
                io::Error::new(ErrorKind::InvalidInput, "too many elements")
            }
            NumberingError::Memory => io::Error::from(ErrorKind::OutOfMemory),
        }
    }
}

impl From<AllocError> for NumberingError {
    ghost from_gives = { λ _ fault. fault ≡ Memory };

    fn from(_error: AllocError) -> NumberingError {
        NumberingError::Memory
    }
}

impl<T: Drop> From<AllocFailed<T>> for NumberingError {
    ghost from_gives = { λ _ fault. fault ≡ Memory };

    fn from(_error: AllocFailed<T>) -> NumberingError {
        NumberingError::Memory
    }
}

/// A state that has a name, and which elements are in it.
#[derive(Drop)]
pub struct NamedState<'p> {
    /// The name, as `target` or `dir(ltr)`. Its case does not matter.
    pub name: &'p str,
    /// Whether each element is in the state; those after the last one are not.
    pub elements: Vec<bool>,
}

impl<'p> NamedState<'p> {
    /// Whether this is the state of a name, and an element is in it.
    fn has(&self, index: usize, name: &str) -> bool
        ensures { result ≡ (str_eq_ignore_ascii_case name.now (state_of self.now).name
            && slice_index_or (state_of self.now).elements index false) }
    {
        name.eq_ignore_ascii_case(self.name) && self.elements.get(index).copied().unwrap_or(false)
    }
}

/// Whether every tree has the state of this name.
fn is_of_tree(name: &str) -> bool
    ensures { result ≡ is_of_tree_name name.now }
{
    name.eq_ignore_ascii_case("link")
        || name.eq_ignore_ascii_case("visited")
        || name.eq_ignore_ascii_case("hover")
        || name.eq_ignore_ascii_case("active")
        || name.eq_ignore_ascii_case("focus")
}

/// Whether an element is in a state of this name.
fn has_state(states: &[NamedState<'_>], index: usize, name: &str) -> bool
    ensures { result ≡ is_among (map state_of states.now) index name.now }
{
    let mut rest = states;
    'states: while let [state, more @ ..] = rest {
        if state.has(index, name) {
            return true;
        }
        rest = more;
    }
    false
}

/// A tree whose siblings are counted, and which of its elements have a text.
///
/// It borrows the tree: to change the tree, drop it and count again.
#[derive(Drop)]
pub struct NumberedTree<'p, 't> {
    /// The tree.
    pub(crate) tree: &'p Tree<'t>,
    /// The elements by their parents: families.
    families: Groups,
    /// The elements by their parents, their namespaces and their names: kinds.
    kinds: Groups,
    /// The language of each element.
    languages: Vec<&'t str>,
    /// The values of the attributes of elements that have many, by the element's index and the name.
    attributes: BTreeMap<usize, BTreeMap<&'t str, &'t str>>,
    /// Whether each element has a text of its own that is not empty.
    texts: Vec<bool>,
    /// The index of the scoping root, if one was named.
    scope: Option<usize>,
    /// The states that were named.
    states: Vec<NamedState<'t>>,
    /// The number of the namespace of each element; those after the last one are in none.
    namespaces: Vec<usize>,
    /// The attributes of each element that are in namespaces; those after the last one have none.
    namespaced_attributes: Vec<Vec<NamespacedAttribute<'t>>>,
    /// For each list of selectors that has a number, from 1 on: whether it matches each element.
    pub(crate) marks: Vec<Vec<bool>>,
    /// The states of each element that its attributes decide, if the tree is that of an HTML document.
    pub(crate) html: Option<Vec<HtmlStates>>,
}

impl<'p, 't> Model for NumberedTree<'p, 't> {
    ghost use Rattle.std.specs.Prelude.{◌≡◌, ◌<◌, ◌^◌, IfSome, is_some, length, map};
    ghost use Rattle.css_tree.specs.HtmlViews.{AreStates};
    ghost use Rattle.css_tree.specs.Pages.{Page};
    ghost use Rattle.css_tree.specs.PageViews.{attributes_of, state_of};
    ghost use Rattle.css_tree.specs.Attributes.{AreFound};
    ghost use Rattle.css_tree.specs.Keys.{AreFamilies, AreKinds, AreLanguages};

    ghost Value = { Page };

    ghost view = { λ t. record {
      rows = t.tree.now;
      given = record {
        texts = t.texts.items;
        scope = t.scope;
        states = map state_of t.states.items;
        namespaces = t.namespaces.items;
        attributes = map attributes_of t.namespaced_attributes.items;
      };
      marks = map (λ answers. answers.items) t.marks.items;
      is_html = is_some t.html;
    } };

    ghost invariant = { λ t. AreFamilies t.tree.now t.families
        × AreKinds t.tree.now t.namespaces.items t.kinds
        × AreLanguages t.tree.now t.languages.items (length t.tree.now)
        × AreFound t.tree.now t.attributes
        × (length t.texts.items ≡ length t.tree.now)
        × IfSome t.html (λ states. AreStates t.tree.now states.items (length t.tree.now))
        × (length t.tree.now < 2 ^ 32) };
}

/// Returns the index of the parent of an element, if it has one.
fn parent_of(tree: &Tree<'_>, index: usize) -> Option<usize>
    requires { index < length tree.now }
    ensures value { result ≡ parent_index tree.now index }
    ensures before { IfSome result (λ parent. parent < index) }
{
    tree.parent(index)
}

/// Whether all elements are in no namespace, by the numbers of namespaces.
fn are_in_none(namespaces: &[usize]) -> bool
    ensures { IsTrue result ↔ EachIndex namespaces.now (λ k. slice_index namespaces.now k ≡ 0) }
{
    namespaces.iter().all(|number| *number == 0)
}

/// Returns the number of the family of an element: 0 for those without a parent, or one more than
/// the index of the parent.
fn family_of(tree: &Tree<'_>, index: usize) -> usize
    requires within { index < length tree.now }
    requires few { length tree.now < 2 ^ 32 }
    ensures { result ≡ family tree.now index }
{
    match parent_of(tree, index) {
        Some(parent) => parent + 1,
        None => 0,
    }
}

/// Returns the number of the family of each element.
fn families_of(alloc: Global, tree: &Tree<'_>) -> Result<Vec<usize>, AllocError>
    requires { length tree.now < 2 ^ 32 }
    ensures { IfOk result (λ families. AreFamilies tree.now families.items) }
{
    let mut families = Vec::with_capacity(alloc, tree.len())?;
    for index in 0..tree.len() {
        families.push(family_of(tree, index))?;
    }
    Ok(families)
}

/// Returns the value of the attribute `lang` of an element, if it has one.
fn own_language<'t>(tree: &Tree<'t>, index: usize) -> Option<&'t str>
    requires { index < length tree.now }
    ensures { option_map (λ value. value.now) result ≡ attribute_at tree.now index (codes "lang") }
{
    tree.attribute(index, "lang")
}

/// Returns the language of an element, given those of the elements before it.
fn language_after<'t>(tree: &Tree<'t>, before: &[&'t str], index: usize) -> &'t str
    requires within { index < length tree.now }
    requires so_far { AreLanguages tree.now before.now index }
    ensures { result.now ≡ language_of tree.now index }
{
    if let Some(language) = own_language(tree, index) {
        return language;
    }
    match parent_of(tree, index) {
        Some(parent) => before[parent],
        None => "",
    }
}

/// Returns the language of each element, in time that is linear in the elements and their attributes.
fn languages_of<'t>(alloc: Global, tree: &Tree<'t>) -> Result<Vec<&'t str>, AllocError>
    ensures { IfOk result (λ found. AreLanguages tree.now found.items (length tree.now)) }
{
    let mut found = Vec::with_capacity(alloc, tree.len())?;
    for index in 0..tree.len() {
        let language = language_after(tree, &found, index);
        found.push(language)?;
    }
    Ok(found)
}

/// Returns the marks of `count` members, none of which has a mark.
pub(crate) fn no_marks(alloc: Global, count: usize) -> Result<Vec<bool>, AllocError>
    ensures len { IfOk result (λ marks. length marks.items ≡ count) }
    ensures none { IfOk result (λ marks. (i : ℕ) → slice_index_or marks.items i false ≡ false) }
{
    let mut marks = Vec::with_capacity(alloc, count)?;
    for index in 0..count {
        marks.push(false)?;
    }
    Ok(marks)
}

impl<'p, 't> NumberedTree<'p, 't> {
    /// Counts the siblings of each element of a tree. No element has a text yet, none is named as the
    /// scoping root, none is in a namespace or has an attribute in one, no list of selectors has a number, and
    /// the tree is not that of an HTML document.
    pub fn new(alloc: Global, tree: &'p Tree<'t>) -> Result<NumberedTree<'p, 't>, NumberingError>
        ensures rows { IfOk result (λ page. page.rows ≡ tree.now) }
        ensures texts { IfOk result (λ page. (i : ℕ) → slice_index_or page.given.texts i false ≡ false) }
        ensures all { IfOk result (λ page. length page.given.texts ≡ length tree.now) }
        ensures scope { IfOk result (λ page. page.given.scope ≡ None) }
        ensures states { IfOk result (λ page. page.given.states ≡ []) }
        ensures namespaces { IfOk result (λ page. page.given.namespaces ≡ []) }
        ensures attributes { IfOk result (λ page. page.given.attributes ≡ []) }
        ensures marks { IfOk result (λ page. page.marks ≡ []) }
        ensures html { IfOk result (λ page. page.is_html ≡ false) }
        ensures err { IfErr result (λ error. error ≡ TooManyElements → 2 ^ 32 ≤ length tree.now) }
    {
        if tree.len() > u32::MAX as usize {
            return Err(NumberingError::TooManyElements);
        }
        let families = Groups::new(alloc, families_of(alloc, tree)?, tree.len())?;
        let kinds = kinds_of(alloc, tree, &[], &families)?;
        Ok(NumberedTree {
            tree,
            families,
            kinds: Groups::new(alloc, kinds, tree.len())?,
            languages: languages_of(alloc, tree)?,
            attributes: many_attributes(alloc, tree)?,
            texts: no_marks(alloc, tree.len())?,
            scope: None,
            states: Vec::new(alloc),
            namespaces: Vec::new(alloc),
            namespaced_attributes: Vec::new(alloc),
            marks: Vec::new(alloc),
            html: None,
        })
    }

    /// Returns the number of elements.
    pub fn len(&self) -> usize
        ensures { result ≡ length self.now.rows }
    {
        self.tree.len()
    }

    /// Marks the element at an index as one with a text of its own that is not empty. White space is a
    /// text, a comment is none.
    pub fn set_text(&mut self, index: usize)
        requires { index < length self.old.rows }
        ensures rows { self.new.rows ≡ self.old.rows }
        ensures given { self.new.given ≡ with_text self.old.given index }
        ensures marks { self.new.marks ≡ self.old.marks }
        ensures html { self.new.is_html ≡ self.old.is_html }
    {
        self.texts[index] = true;
    }

    /// Names the element at an index as the scoping root, which `:scope` is. If none is named, it is the
    /// root.
    pub fn set_scope(&mut self, scope: Option<usize>)
        ensures rows { self.new.rows ≡ self.old.rows }
        ensures given { self.new.given ≡ with_scope self.old.given scope }
        ensures marks { self.new.marks ≡ self.old.marks }
        ensures html { self.new.is_html ≡ self.old.is_html }
    {
        self.scope = scope;
    }

    /// Names states: an element is then in each of them that says so, beside those that it is in by the
    /// tree or by its attributes. Names of states that every tree has are ignored, such as `hover`. They replace
    /// states that were named before.
    pub fn set_states(&mut self, states: Vec<NamedState<'t>>)
        ensures rows { self.new.rows ≡ self.old.rows }
        ensures given { self.new.given ≡ with_states self.old.given (map state_of states.entry.items) }
        ensures marks { self.new.marks ≡ self.old.marks }
        ensures html { self.new.is_html ≡ self.old.is_html }
    {
        self.states = states;
    }

    /// Says which namespaces the elements are in, each by its number. The number of no namespace is 0, and
    /// elements after the last of these are in none, as all are before this call. Where an element is in a
    /// namespace, the siblings of each that have its type, a namespace and a name, are counted again.
    ///
    /// Fails only if an allocation fails; then the tree is unchanged.
    pub fn set_namespaces(
        &mut self,
        alloc: Global,
        namespaces: Vec<usize>,
    ) -> Result<(), AllocError>
        ensures rows { self.new.rows ≡ self.old.rows }
        ensures given { OnOk result
            (self.new.given ≡ with_namespaces self.old.given namespaces.items) }
        ensures err { OnErr result (self.new.given ≡ self.old.given) }
        ensures marks { self.new.marks ≡ self.old.marks }
        ensures html { self.new.is_html ≡ self.old.is_html }
    {
        if self.namespaces.is_empty() && are_in_none(&namespaces) {
            self.namespaces = namespaces;
            return Ok(());
        }
        let kinds = kinds_of(alloc, self.tree, namespaces.as_slice(), &self.families)?;
        self.kinds = Groups::new(alloc, kinds, self.tree.len())?;
        self.namespaces = namespaces;
        Ok(())
    }

    /// Says which attributes in namespaces each element has. Elements after the last of these have none, as
    /// all before this call. The attributes of the tree are in no namespace. These replace those that were set
    /// before.
    pub fn set_namespaced_attributes(&mut self, attributes: Vec<Vec<NamespacedAttribute<'t>>>)
        ensures rows { self.new.rows ≡ self.old.rows }
        ensures given { self.new.given
            ≡ with_attributes self.old.given (map attributes_of attributes.entry.items) }
        ensures marks { self.new.marks ≡ self.old.marks }
        ensures html { self.new.is_html ≡ self.old.is_html }
    {
        self.namespaced_attributes = attributes;
    }

    /// Returns the element at an index, if there is one.
    pub fn node(&self, index: usize) -> Option<NumberedNode<'_, 'p, 't>>
        ensures { MatchOption result (length self.now.rows ≤ index)
            (λ node. (index < length self.now.rows) × (node ≡ spot self.now index)) }
    {
        if index < self.len() {
            Some(NumberedNode { tree: self, index })
        } else {
            None
        }
    }
}

/// Answers about its elements.
impl<'p, 't> NumberedTree<'p, 't> {
    /// Returns the element of the tree itself.
    pub(crate) fn plain(&self, index: usize) -> Node<'p, 't>
        requires { index < length self.now.rows }
        ensures { result ≡ spot self.now.rows index }
    {
        let tree = self.tree;
        tree.element(index).unwrap()
    }

    /// Returns the index of the parent of an element, if it has one.
    pub(crate) fn parent(&self, index: usize) -> Option<usize>
        requires { index < length self.now.rows }
        ensures value { result ≡ parent_index self.now.rows index }
        ensures before { IfSome result (λ parent. parent < index) }
    {
        parent_of(self.tree, index)
    }

    /// Returns the value of an attribute of an element, if it has the attribute.
    pub(crate) fn attribute(&self, index: usize, name: &str) -> Option<&str>
        requires { index < length self.now.rows }
        ensures { option_map (λ value. value.now) result ≡ attribute_at self.now.rows index name.now }
    {
        value_of(&self.attributes, &self.plain(index), name)
    }

    /// Returns the language of an element.
    pub(crate) fn language(&self, index: usize) -> &'t str
        requires { index < length self.now.rows }
        ensures { result.now ≡ language_of self.now.rows index }
    {
        self.languages[index]
    }

    /// Returns the number of the family of an element. There are less than 2^32 elements.
    pub(crate) fn family(&self, index: usize) -> usize
        requires { index < length self.now.rows }
        ensures value { result ≡ family self.now.rows index }
        ensures within { result < length self.now.rows }
        ensures few { length self.now.rows < 2 ^ 32 }
    {
        self.families.number(index)
    }

    /// Returns the number of siblings before an element, and the last of them.
    pub(crate) fn before(&self, index: usize) -> Seen
        requires { index < length self.now.rows }
        ensures count { result.count ≡ count_below (is_sibling self.now.rows index) index }
        ensures last { result.last ≡ last_below (is_sibling self.now.rows index) index }
        ensures earlier { IfSome result.last (λ last. last < index) }
    {
        self.families.before(index)
    }

    /// Returns the number of siblings after an element.
    pub(crate) fn after(&self, index: usize) -> u32
        requires { index < length self.now.rows }
        ensures { result ≡ count_after (is_sibling self.now.rows index) index self.now.rows }
    {
        self.families.after(index)
    }

    /// Returns the number of siblings before an element that have its type.
    pub(crate) fn alike_before(&self, index: usize) -> u32
        requires { index < length self.now.rows }
        ensures { result
            ≡ count_below (is_alike self.now.rows self.now.given.namespaces index) index }
    {
        self.kinds.before(index).count
    }

    /// Returns the number of siblings after an element that have its type.
    pub(crate) fn alike_after(&self, index: usize) -> u32
        requires { index < length self.now.rows }
        ensures { result ≡ count_after
            (is_alike self.now.rows self.now.given.namespaces index) index self.now.rows }
    {
        self.kinds.after(index)
    }

    /// Whether the element has a text, or is the parent of an element.
    pub(crate) fn has_content(&self, index: usize) -> bool
        requires { index < length self.now.rows }
        ensures { result ≡ has_content self.now index }
    {
        self.texts[index] || self.families.count(index + 1) > 0
    }

    /// Whether the element is in the namespace of this number.
    pub(crate) fn is_in_namespace(&self, index: usize, number: usize) -> bool
        ensures { result ≡ is_in_namespace self.now index number }
    {
        namespace_of(&self.namespaces, index) == number
    }

    /// Returns the attribute of an element at a number among those that are in namespaces, if there is one.
    pub(crate) fn namespaced_attribute(
        &self,
        index: usize,
        number: usize,
    ) -> Option<NamespacedAttribute<'t>>
        ensures answer { option_map namespaced_attribute_of result
            ≡ slice_get (namespaced_attributes self.now index) number }
        ensures few { length (namespaced_attributes self.now index) < 2 ^ 64 }
    {
        match self.namespaced_attributes.get(index) {
            Some(attributes) => attributes.get(number).copied(),
            None => None,
        }
    }

    /// Whether the element is the scoping root.
    pub(crate) fn is_scope(&self, index: usize) -> bool
        requires { index < length self.now.rows }
        ensures { result ≡ is_scope self.now index self.now.given.scope }
    {
        match self.scope {
            Some(scope) => index == scope,
            None => self.parent(index).is_none(),
        }
    }

    /// Whether an element of an HTML document is in the state of a name, as attributes decide it.
    fn is_in_html_state(&self, index: usize, name: &str) -> bool
        requires { index < length self.now.rows }
        ensures { result ≡ is_in_page_state self.now index name.now }
    {
        match &self.html {
            Some(states) => states[index].is_in_named(self.texts[index], name),
            None => false,
        }
    }

    /// Whether an element is in the state of a name, as attributes decide it or as it was named.
    pub(crate) fn is_in_further_state(&self, index: usize, name: &str) -> bool
        requires { index < length self.now.rows }
        ensures { result ≡ (is_in_page_state self.now index name.now
            || is_in_named self.now.given.states index name.now) }
    {
        self.is_in_html_state(index, name)
            || !self.states.is_empty() && !is_of_tree(name) && has_state(&self.states, index, name)
    }

    /// Whether a list of selectors matches an element, by the index of the list among those that have a
    /// number from 1 on.
    pub(crate) fn is_marked(&self, list: usize, index: usize) -> bool
        ensures { result ≡ is_marked self.now.marks list index }
    {
        match self.marks.get(list) {
            Some(answers) => answers.get(index).copied().unwrap_or(false),
            None => false,
        }
    }
}
