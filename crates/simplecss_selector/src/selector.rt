//! A selector: components in flat lists, and its methods. Reading, matching, specificity and keys
//! are in the modules `reading`, `matching`, `specificity` and `key`.
ghost use Rattle.std.specs.Prelude.{◌≡◌, ◌+◌, ◌*◌, ◌<◌, ◌≤◌, ◌↔◌, ◌++◌, ◌∷◌, [], length, is_some};
ghost use Rattle.std.specs.Prelude.{slice_index_or, IsTrue};
ghost use Rattle.std.specs.List.{slice_range};
ghost use Rattle.std.specs.Option.{option_map};
ghost use Rattle.simplecss_grammar.specs.Components.Combinator.{none as no_combinator};
ghost use Rattle.simplecss_grammar.specs.Specificity.{is_id};
ghost use Rattle.simplecss_selector.specs.Placements.{Holds};
ghost use Rattle.simplecss_selector.specs.internal.CombinatorViews.{combinator_of};
ghost use Rattle.simplecss_selector.specs.internal.SelectorViews.{component_of_flat};
ghost use Rattle.simplecss_selector.specs.internal.SelectorViews.{subselector_of};
ghost use Rattle.simplecss_selector.specs.Keys.{required_id, required_class, required_attribute};

use crate::bucket::bucket_by;
use crate::key::{first_attribute, first_class, first_id};
use crate::list::{ListRefusal, read_list};
use crate::matching::{continues, is_met_at};
use crate::reading::read_front;
use crate::specificity::{at_most_255, id_count, name_count};
use crate::{AttributeOperator, Bucket, Element, Key, PseudoClass, Warnings};
use css_matching::Tests;
use log::Log;
use simplecss_grammar::report::Report;
use std::alloc::{AllocError, Global};
use std::marker::Model;

/// The relation of a component to the one before it.
#[derive(Clone, Copy, Debug, PartialEq)]
pub(crate) enum Combinator {
    /// None: it is the first component.
    None,
    /// Its element is a descendant of the one before.
    Descendant,
    /// Its element is a child of the one before.
    Child,
    /// Its element is the next sibling of the one before.
    Adjacent,
}

/// A condition on an element besides its name.
#[derive(Clone, Copy, Debug, PartialEq)]
pub(crate) enum SubSelector<'a> {
    /// An attribute with this name, whose value satisfies the operator.
    Attribute(&'a str, AttributeOperator<'a>),
    /// The element is in the pseudo-class.
    PseudoClass(PseudoClass<'a>),
}

/// A component in the flat lists of its selector. Its subselectors are those of the one list of all
/// from the end of the component before to `end`.
#[derive(Clone, Copy, Debug, PartialEq)]
pub(crate) struct FlatComponent<'a> {
    /// The relation to the component before it.
    pub(crate) combinator: Combinator,
    /// The type name, or `None` for any type.
    pub(crate) name: Option<&'a str>,
    /// The end of its subselectors in the list of all.
    pub(crate) end: usize,
}

/// A selector: components, each a type name or any type with subselectors, and the combinator
/// before it. There is at least one, and only the first has no combinator.
///
/// <!-- from crates/example_first/src/main.rt -->
/// ```rust
/// // None where the selector is refused.
/// if let Some(selector) = Selector::parse(&Discard, alloc, "div > p:first-child")? {
///     println!(rt; "{selector} {}", selector.matches(&element))?;
/// }
/// ```
#[derive(Debug, Drop)]
pub struct Selector<'a> {
    /// All components but the last, so that a selector of one component allocates nothing for it.
    pub(crate) front: Vec<FlatComponent<'a>>,
    /// The last component.
    pub(crate) last: FlatComponent<'a>,
    /// The subselectors of all components, one component after the other.
    pub(crate) subselectors: Vec<SubSelector<'a>>,
    /// For each stretch of components joined by child and adjacent combinators but the last, in
    /// order, the number of components up to its end. The last stretch ends with the components, so
    /// that a selector of one stretch allocates nothing for it.
    pub(crate) stretch_ends: Vec<usize>,
}

impl<'a> Model for Selector<'a> {
    ghost use Rattle.std.specs.Prelude.{List};
    ghost use Rattle.simplecss_grammar.specs.Components.{Component};

    ghost Value = { List Component };

    ghost use Rattle.std.specs.Prelude.{◌++◌, ◌∷◌, [], vec_len};
    ghost use Rattle.simplecss_selector.specs.internal.SelectorViews.{components_from, IsFlat};

    ghost view = { λ s. components_from 0 (s.front.items ++ s.last ∷ []) s.subselectors.items };

    ghost invariant = { λ s. IsFlat (s.front.items ++ s.last ∷ [])
        s.subselectors.items (vec_len s.subselectors) s.stretch_ends.items };
}

impl<'a> SubSelector<'a> {
    /// Whether it is an attribute named `id`.
    #[inline(always)]
    pub(crate) fn is_id(&self) -> bool
        ensures { result ≡ is_id (subselector_of self.now) }
    {
        match self {
            SubSelector::Attribute(name, _) => *name == "id",
            SubSelector::PseudoClass(_) => false,
        }
    }

    /// Whether the element satisfies it.
    #[inline(always)]
    pub(crate) fn holds<E: Element>(&self, element: &E) -> bool
        ensures { IsTrue result ↔ Holds E.tree (E.node element.now) (subselector_of self.now) }
    {
        match self {
            SubSelector::Attribute(name, operator) => element.attribute_matches(name, *operator),
            SubSelector::PseudoClass(class) => element.pseudo_class_matches(*class),
        }
    }

    /// Returns the id that it requires.
    #[inline(always)]
    pub(crate) fn required_id(&self) -> Option<&'a str>
        ensures { option_map (λ text. text.now) result ≡ required_id (subselector_of self.now) }
    {
        match *self {
            SubSelector::Attribute(name, AttributeOperator::Matches(text)) => {
                if name == "id" { Some(text) } else { None }
            }
            _ => None,
        }
    }

    /// Returns the class that it requires.
    #[inline(always)]
    pub(crate) fn required_class(&self) -> Option<&'a str>
        ensures { option_map (λ word. word.now) result ≡ required_class (subselector_of self.now) }
    {
        match *self {
            SubSelector::Attribute(name, AttributeOperator::Contains(word)) => {
                if name == "class" { Some(word) } else { None }
            }
            _ => None,
        }
    }

    /// Returns the name of the attribute that it tests.
    #[inline(always)]
    pub(crate) fn required_attribute(&self) -> Option<&'a str>
        ensures { option_map (λ name. name.now) result
            ≡ required_attribute (subselector_of self.now) }
    {
        match *self {
            SubSelector::Attribute(name, _) => Some(name),
            SubSelector::PseudoClass(_) => None,
        }
    }
}

impl<'a> FlatComponent<'a> {
    /// Whether it has a type name.
    #[inline(always)]
    pub(crate) fn is_named(&self) -> bool
        ensures { result ≡ is_some self.now.name }
    {
        self.name.is_some()
    }
}

/// Returns the subselectors from the index `start` to before `end`.
#[inline(always)]
fn between<'s, 'a>(all: &'s [SubSelector<'a>], start: usize, end: usize) -> &'s [SubSelector<'a>]
    requires rising { start ≤ end }
    requires within { end ≤ length all.now }
    ensures { result.now ≡ slice_range all.now start end }
{
    &all[start..end]
}

/// Returns the flat component at this index, where `last` follows the others.
#[inline(always)]
fn flat_at<'a>(
    front: &[FlatComponent<'a>],
    last: FlatComponent<'a>,
    index: usize,
) -> FlatComponent<'a>
    requires { index ≤ length front.now }
    ensures { result ≡ slice_index_or (front.now ++ last.entry ∷ []) index result }
{
    if index < front.len() {
        front[index]
    } else {
        last
    }
}

/// Components, for the modules of this crate.
impl<'a> Selector<'a> {
    ghost use Rattle.simplecss_selector.specs.Shapes.{component_at};

    /// Returns the number of components.
    #[inline(always)]
    pub(crate) fn len(&self) -> usize
        ensures { result ≡ length self.now }
    {
        self.front.len() + 1
    }

    /// Returns the index of the last component.
    #[inline(always)]
    pub(crate) fn last_index(&self) -> usize
        ensures { result + 1 ≡ length self.now }
    {
        self.front.len()
    }

    /// Returns the relation of the component at this index to the one before it. Only the first has
    /// none.
    #[inline(always)]
    pub(crate) fn combinator(&self, index: usize) -> Combinator
        requires { index < length self.now }
        ensures value { combinator_of result ≡ (component_at self.now index).combinator }
        ensures first { (combinator_of result ≡ no_combinator) ↔ (index ≡ 0) }
    {
        let flat = flat_at(&self.front, self.last, index);
        flat.combinator
    }

    /// Returns the component at this index: its flat component and its subselectors.
    #[inline(always)]
    pub(crate) fn component(&self, index: usize) -> (FlatComponent<'a>, &[SubSelector<'a>])
        requires { index < length self.now }
        ensures { component_of_flat result.0 result.1.now ≡ component_at self.now index }
    {
        let flat = flat_at(&self.front, self.last, index);
        let start = if index == 0 {
            0
        } else {
            self.front[index - 1].end
        };
        (flat, between(&self.subselectors, start, flat.end))
    }
}

/// Reading.
impl<'a> Selector<'a> {
    ghost use Rattle.std.specs.Prelude.{◌≡◌, drop, IfOk, IfSome, OnOk};
    ghost use Rattle.std.specs.Str.{IsCharBoundary};
    ghost use Rattle.css_text.specs.ThisEdition.{this_edition};
    ghost use Rattle.simplecss_grammar.specs.Selectors.{reads};
    ghost use Rattle.simplecss_grammar.specs.Skipped.{selector_skips, add_each};
    ghost use Rattle.simplecss_selector.specs.SelectorLists.{list_read};
    ghost use Rattle.simplecss_selector.specs.ListRefusals.{read_of};
    ghost use Rattle.simplecss_grammar.specs.PrintingLaws.{SelectorReadsBack};

    /// Reads the selector at the start of a text, or returns `None` if it is refused (CSS 2.1
    /// section 5).
    ///
    /// It ends at the end of the text, before `,` or `{`, or before a `/` that opens no comment and
    /// follows a simple piece with no space byte between. It is refused at the first error of its
    /// tokens, and at a pseudo-class whose name is not known; a warning is logged. Fails only
    /// if an allocation fails.
    pub fn parse<R: Log>(
        rt: &R,
        alloc: Global,
        text: &'a str,
    ) -> Result<Option<Selector<'a>>, AllocError>
        ensures selector { IfOk result (λ selector. selector ≡ (reads this_edition text.now).0) }
        ensures printed { IfOk result
            (λ selector. IfSome selector (SelectorReadsBack this_edition)) }
    {
        let (selector, _) = Self::parse_front(&mut Warnings::new(rt), alloc, text)?;
        Ok(selector)
    }

    /// Reads the selector at the start of a text as `parse` does, and returns it, or `None` if it
    /// is refused, with the offset where reading stopped: before what follows the selector, or
    /// after what it was refused for. The offset counts bytes from the start of the text.
    ///
    /// A caller continues from that offset, for example after a comma. A refused selector is
    /// reported, with what a rule set skips with it: the text up to the next comma if one follows,
    /// and else up to the next `{`.
    #[inline(always)]
    pub fn parse_front<P: Report<'a>>(
        report: &mut P,
        alloc: Global,
        text: &'a str,
    ) -> Result<(Option<Selector<'a>>, usize), AllocError>
        ensures selector { IfOk result (λ read. read.0 ≡ (reads this_edition text.now).0) }
        ensures rest { IfOk result
            (λ read. drop read.1 text.now ≡ (reads this_edition text.now).1) }
        ensures boundary { IfOk result (λ read. IsCharBoundary text.now read.1) }
        ensures printed { IfOk result (λ read. IfSome read.0 (SelectorReadsBack this_edition)) }
        ensures reported { OnOk result (P.state report.new
            ≡ add_each P.add (P.state report.old) (selector_skips this_edition text.now)) }
    {
        read_front(report, alloc, text)
    }

    /// Reads a list of selectors with commas between them. A comma within an attribute's value, as in
    /// `[a="b,c"]`, ends none. If the text is no list, the inner error says why, and where.
    ///
    /// Fails only if an allocation fails.
    pub fn read_list(
        alloc: Global,
        text: &'a str,
    ) -> Result<Result<Vec<Selector<'a>>, ListRefusal<'a>>, AllocError>
        ensures { IfOk result (λ read. read_of (λ l. l.items) read ≡ list_read this_edition text.now) }
    {
        read_list(alloc, text)
    }
}

/// Matching.
impl<'a> Selector<'a> {
    ghost use Rattle.simplecss_selector.specs.Placements.{HasPlacement, longest_stretch};

    /// Whether the selector matches the element. The tests made are counted.
    pub fn matches_counted<E: Element>(&self, element: &E, tests: &mut Tests) -> bool
        ensures answer { IsTrue result ↔ HasPlacement E.tree self.now (E.node element.now) }
        ensures at_least_one { tests.old < tests.new }
        ensures all_when_true { IsTrue result → tests.old + length self.now ≤ tests.new }
        ensures at_most { tests.new
            ≤ tests.old + length self.now * (E.tree.depth (E.node element.now) + 1) }
        ensures at_most_by_stretches { tests.new
            ≤ tests.old + longest_stretch self.now * (E.tree.depth (E.node element.now) + 1) }
    {
        let last = self.last_index();
        if !is_met_at(self, last, element, tests) {
            return false;
        }
        if last == 0 {
            return true;
        }
        continues(self, last, element, tests)
    }

    /// Whether the selector matches the element.
    pub fn matches<E: Element>(&self, element: &E) -> bool
        ensures { IsTrue result ↔ HasPlacement E.tree self.now (E.node element.now) }
    {
        self.matches_counted(element, &mut Tests::new())
    }
}

/// Specificity, keys and copies.
impl<'a> Selector<'a> {
    ghost use Rattle.std.specs.Prelude.{IfOk, OnOk, ◌++◌, map, option_map};
    ghost use Rattle.simplecss_grammar.specs.Specificity.{specificity};
    ghost use Rattle.simplecss_selector.specs.Keys.{key_of, compound_key};
    ghost use Rattle.simplecss_selector.specs.AncestorKeys.{ancestor_keys, step_key};
    ghost use Rattle.simplecss_selector.specs.Shapes.{component_at, first_of};
    ghost use Rattle.simplecss_selector.specs.Buckets.{bucket_of};
    ghost use Rattle.simplecss_selector.specs.BucketViews.{bucket_value};
    ghost use Rattle.simplecss_selector.specs.KeyViews.{key_value};

    /// Returns the specificity of the selector: the number of attributes named `id` with any
    /// operator, of all other attributes and pseudo-classes, and of type names, each at most 255.
    /// An id `#x` is such an attribute, and a class `.x` is another.
    ///
    /// Specificities compare by their first numbers, then by their second ones, then by their third
    /// ones.
    pub fn specificity(&self) -> [u8; 3]
        ensures { result ≡ specificity self.now }
    {
        let ids = id_count(&self.subselectors);
        let others = self.subselectors.len() - ids;
        [
            at_most_255(ids),
            at_most_255(others),
            at_most_255(name_count(&self.front)).saturating_add(u8::from(self.last.is_named())),
        ]
    }

    /// Returns a condition that the last component includes: the first text that the attribute `id`
    /// must equal, or else the first word that the attribute `class` must have, or else the type
    /// name, or else the name of the first attribute that is tested.
    pub fn key(&self) -> Key<'a>
        ensures { key_value result ≡ key_of self.now }
    {
        self.key_at(self.last_index())
    }

    /// Returns a condition that the component at this index includes.
    pub(crate) fn key_at(&self, index: usize) -> Key<'a>
        requires { index < length self.now }
        ensures { key_value result ≡ compound_key (component_at self.now index).compound }
    {
        let (flat, subselectors) = self.component(index);
        if let Some(text) = first_id(subselectors) {
            return Key::Id(text);
        }
        if let Some(word) = first_class(subselectors) {
            return Key::Class(word);
        }
        if let Some(name) = flat.name {
            return Key::Name(name);
        }
        match first_attribute(subselectors) {
            Some(name) => Key::Attribute(name),
            None => Key::Any,
        }
    }

    /// Returns the key by which an index finds the selector: the key of its last component, which
    /// the element must have. If that is `Key::Any` and a child or an adjacent combinator joins it
    /// to the component before, the key of that component, which the element's parent or previous
    /// sibling must have.
    pub fn bucket(&self) -> Bucket<'a>
        ensures { bucket_value result ≡ bucket_of self.now }
    {
        let last = self.last_index();
        let key = self.key_at(last);
        if last == 0 {
            return Bucket::OfElement(key);
        }
        let before = self.key_at(last - 1);
        bucket_by(key, self.combinator(last), before)
    }

    /// Returns the key of the component that the combinator of the one at this index leads back to,
    /// if it leads to an ancestor.
    fn step_key(&self, index: usize) -> Option<Key<'a>>
        requires { index < length self.now }
        ensures { option_map key_value result
            ≡ step_key (component_at self.now index).combinator (first_of self.now index) }
    {
        match self.combinator(index) {
            Combinator::Child | Combinator::Descendant => Some(self.key_at(index - 1)),
            Combinator::None | Combinator::Adjacent => None,
        }
    }

    /// Appends the keys that an element's ancestors must have for the selector to match it: of each
    /// component that a child or a descendant combinator leads back to. Fails only if an allocation
    /// fails.
    pub fn push_ancestor_keys(&self, keys: &mut Vec<Key<'a>>) -> Result<(), AllocError>
        ensures { OnOk result (map key_value keys.new.items
            ≡ map key_value keys.old.items ++ ancestor_keys self.now) }
    {
        for index in 0..self.len() {
            if let Some(key) = self.step_key(index) {
                keys.push(key)?;
            }
        }
        Ok(())
    }

    /// Returns an equal selector, in memory of the same allocator.
    pub fn clone(&self) -> Result<Self, AllocError>
        ensures { IfOk result (λ copy. copy ≡ self.now) }
    {
        let alloc = *self.front.allocator();
        Ok(Selector {
            front: Vec::from_slice(alloc, &self.front)?,
            last: self.last,
            subselectors: Vec::from_slice(alloc, &self.subselectors)?,
            stretch_ends: Vec::from_slice(alloc, &self.stretch_ends)?,
        })
    }
}
