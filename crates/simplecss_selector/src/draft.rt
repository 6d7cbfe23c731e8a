//! A selector under construction.
ghost use Rattle.std.specs.Prelude.{◌≢◌, ◌≡◌, ◌+◌, ◌++◌, ◌∷◌, [], IfOk, OnErr, OnOk, vec_len};
ghost use Rattle.simplecss_grammar.specs.Components.Combinator.{none as no_combinator};
ghost use Rattle.simplecss_selector.specs.internal.CombinatorViews.{combinator_of};
ghost use Rattle.simplecss_selector.specs.internal.SelectorDrafts.{empty_draft, with_name};
ghost use Rattle.simplecss_selector.specs.internal.SelectorDrafts.{with_subselector, joined};
ghost use Rattle.simplecss_selector.specs.internal.SelectorDrafts.{finished};
ghost use Rattle.simplecss_selector.specs.internal.Stretches.{kept_ends_after};
ghost use Rattle.simplecss_selector.specs.internal.SelectorViews.{subselector_of};

use crate::selector::{Combinator, FlatComponent, Selector, SubSelector};
use std::alloc::{AllocError, Global};
use std::marker::Model;

/// A selector under construction: the finished components, and the current one.
#[derive(Drop)]
pub(crate) struct Draft<'a> {
    /// The finished components.
    front: Vec<FlatComponent<'a>>,
    /// The subselectors of all components, including the current one.
    subselectors: Vec<SubSelector<'a>>,
    /// The ends of the finished stretches, as a selector keeps them.
    stretch_ends: Vec<usize>,
    /// The combinator before the current component.
    combinator: Combinator,
    /// The type name of the current component.
    name: Option<&'a str>,
}

impl<'a> Model for Draft<'a> {
    ghost use Rattle.std.specs.Prelude.{◌++◌, ◌∷◌, [], vec_len};
    ghost use Rattle.simplecss_selector.specs.internal.SelectorDrafts.{Drafted};

    ghost Value = { Drafted };

    ghost use Rattle.simplecss_selector.specs.internal.SelectorViews.{drafted, IsFlat};

    ghost view = { λ d. drafted d.front.items d.subselectors.items
        (record { combinator = d.combinator; name = d.name; end = vec_len d.subselectors }) };

    ghost invariant = { λ d. IsFlat
        (d.front.items
        ++ (record { combinator = d.combinator; name = d.name; end = vec_len d.subselectors }) ∷ [])
        d.subselectors.items (vec_len d.subselectors) d.stretch_ends.items };
}

/// Appends to a list whose first two growths reserve one item each: most selectors have one
/// subselector, and few have more than two of anything.
#[inline(always)]
fn push_few<T: Drop>(list: &mut Vec<T>, item: T) -> Result<(), AllocError>
    ensures ok { OnOk result (list.new.items ≡ list.old.items ++ item ∷ []) }
    ensures len { OnOk result (vec_len list.new ≡ vec_len list.old + 1) }
    ensures err { OnErr result (list.new.items ≡ list.old.items) }
{
    if list.len() < 2 {
        list.reserve_exact(1)?;
    }
    list.push(item)?;
    Ok(())
}

/// Adds the end of a stretch if the component that the combinator joins begins another.
#[inline(always)]
fn push_stretch_end(
    stretch_ends: &mut Vec<usize>,
    end: usize,
    combinator: Combinator,
) -> Result<(), AllocError>
    ensures ok { OnOk result (stretch_ends.new.items
        ≡ kept_ends_after (combinator_of combinator) end stretch_ends.old.items) }
    ensures err { OnErr result (stretch_ends.new.items ≡ stretch_ends.old.items) }
{
    match combinator {
        Combinator::Descendant => push_few(stretch_ends, end),
        Combinator::None | Combinator::Child | Combinator::Adjacent => Ok(()),
    }
}

impl<'a> Draft<'a> {
    /// Creates a draft of one component that matches any element.
    pub(crate) fn new(alloc: Global) -> Draft<'a>
        ensures { result ≡ empty_draft }
    {
        Draft {
            front: Vec::new(alloc),
            subselectors: Vec::new(alloc),
            stretch_ends: Vec::new(alloc),
            combinator: Combinator::None,
            name: None,
        }
    }

    /// Sets the type name of the last component.
    #[inline(always)]
    pub(crate) fn set_name(&mut self, name: &'a str)
        ensures { self.new ≡ with_name name.now self.old }
    {
        self.name = Some(name);
    }

    /// Adds a subselector to the last component.
    #[inline(always)]
    pub(crate) fn push_subselector(
        &mut self,
        subselector: SubSelector<'a>,
    ) -> Result<(), AllocError>
        ensures ok { IfOk result
            (λ _. self.new ≡ with_subselector (subselector_of subselector.entry) self.old) }
        ensures err { OnErr result (self.new ≡ self.old) }
    {
        push_few(&mut self.subselectors, subselector)
    }

    /// Finishes the last component, and begins one that is joined to it.
    #[inline(always)]
    pub(crate) fn join(&mut self, combinator: Combinator) -> Result<(), AllocError>
        requires { combinator_of combinator ≢ no_combinator }
        ensures ok { IfOk result (λ _. self.new ≡ joined (combinator_of combinator) self.old) }
        ensures err { OnErr result (self.new ≡ self.old) }
    {
        let flat = FlatComponent {
            combinator: self.combinator,
            name: self.name,
            end: self.subselectors.len(),
        };
        push_few(&mut self.front, flat)?;
        if let Err(error) = push_stretch_end(&mut self.stretch_ends, self.front.len(), combinator) {
            self.front.pop();
            return Err(error);
        }
        self.combinator = combinator;
        self.name = None;
        Ok(())
    }

    /// Returns the selector of all the components.
    #[inline(always)]
    pub(crate) fn finish(self) -> Selector<'a>
        ensures { result ≡ finished self.entry }
    {
        let Draft {
            front,
            subselectors,
            stretch_ends,
            combinator,
            name,
        } = self;
        let last = FlatComponent {
            combinator,
            name,
            end: subselectors.len(),
        };
        Selector {
            front,
            last,
            subselectors,
            stretch_ends,
        }
    }
}
