//! Reads the selectors of nested rules.
ghost use Rattle.std.specs.Prelude.{◌≡◌, IfErr, IfOk, map};
ghost use Rattle.css_selector_text.specs.reading.Nested.{nested as nested_of};
ghost use Rattle.css_selector_text.specs.NameViews.{names_of};
ghost use Rattle.css_selector_text.specs.reading.ReadViews.{placed_of};
ghost use Rattle.css_selector_text.specs.declared.refusal.Why.TheVariants.{Memory};

use crate::components::Nesting;
use crate::names::{NO_NAMES, Names};
use crate::reading::nesting::{has_nesting, nested};
use crate::reading::{Start, all_supported, read_listed};
use crate::refusal::Refusal;
use crate::{Listed, Selector};
use std::alloc::{AllocError, Global};

/// Returns what a relative selector is under a rule with this list.
fn listed_under<'a>(
    alloc: Global,
    names: &Names<'_>,
    list: Nesting,
    listed: Listed<'a>,
) -> Result<Listed<'a>, AllocError>
    ensures { IfOk result (λ under. placed_of under
        ≡ nested_of (names_of names.now) list (placed_of listed.entry)) }
{
    let has_one = has_nesting(&listed);
    Ok(Listed {
        selector: nested(alloc, names, list, has_one, listed.selector)?,
        from: listed.from,
        element: listed.element,
        to: listed.to,
    })
}

/// Returns what relative selectors are under a rule with this list.
fn all_under<'a>(
    alloc: Global,
    names: &Names<'_>,
    list: Nesting,
    all: Vec<Listed<'a>>,
) -> Result<Vec<Listed<'a>>, Refusal<'a>>
    ensures all { IfOk result (λ under. map placed_of under.items
        ≡ map (nested_of (names_of names.now) list) (map placed_of all.entry.items)) }
    ensures memory { IfErr result (λ refusal. refusal.why ≡ Memory) }
{
    let mut under = Vec::with_capacity(alloc, all.len())?;
    'selectors: for listed in all {
        under.push(listed_under(alloc, names, list, listed)?)?;
    }
    Ok(under)
}

impl<'a> Selector<'a> {
    ghost use Rattle.css_selector_text.specs.Names.{no_names};
    ghost use Rattle.css_selector_text.specs.NameViews.{names_of};
    ghost use Rattle.css_selector_text.specs.reading.Nested.{nested_list, supported_nested_list};
    ghost use Rattle.css_selector_text.specs.reading.ReadSelectors.{ParsesList, ParsesPlaced};

    /// Reads a text that is the list of selectors of a nested rule, each with where it is, as `read_list`
    /// does. `list` is that of the rule around it: `&` stands for it, before a combinator at the start of
    /// a selector there is an `&`, and a selector without one is joined to an `&` as its descendant.
    pub fn read_nested_list(
        alloc: Global,
        list: Nesting,
        text: &'a str,
    ) -> Result<Vec<Listed<'a>>, Refusal<'a>>
        ensures { ParsesPlaced result (nested_list no_names list text.now) }
    {
        Selector::read_nested_list_in(alloc, list, text, &NO_NAMES)
    }

    /// Reads a text that is the list of selectors of a nested rule as `read_nested_list` does, where these
    /// names are declared.
    pub fn read_nested_list_in(
        alloc: Global,
        list: Nesting,
        text: &'a str,
        names: &Names<'_>,
    ) -> Result<Vec<Listed<'a>>, Refusal<'a>>
        ensures { ParsesPlaced result (nested_list (names_of names.now) list text.now) }
    {
        match read_listed(alloc, names, Start::Relative, text) {
            Ok(all) => all_under(alloc, names, list, all),
            Err(refusal) => Err(refusal),
        }
    }

    /// Reads a text that is the list of selectors of a nested rule, as `read_nested_list` does. A list of
    /// which one selector is refused or unsupported is refused.
    pub fn parse_nested_list(
        alloc: Global,
        list: Nesting,
        text: &'a str,
    ) -> Result<Vec<Selector<'a>>, Refusal<'a>>
        ensures { ParsesList result (supported_nested_list no_names list text.now) }
    {
        match Selector::read_nested_list(alloc, list, text) {
            Ok(all) => all_supported(alloc, all),
            Err(refusal) => Err(refusal),
        }
    }
}
