//! Selectors of the elements that pseudo-elements are of.
ghost use Rattle.std.specs.Prelude.{◌≡◌, ◌<◌, IfOk, length, map};
ghost use Rattle.css_selector_text.specs.Originating.{or_any as or_any_of, part_or_any as part_or_any_of};
ghost use Rattle.css_selector_text.specs.Views.{condition_of, part_of};

use crate::{Condition, Part, Selector, Simple};
use std::alloc::{AllocError, Global};

/// Returns conditions, or `*` in place of none.
fn or_any<'a>(
    alloc: Global,
    conditions: Vec<Condition<'a>>,
) -> Result<Vec<Condition<'a>>, AllocError>
    ensures { IfOk result (λ any. map condition_of any.items
        ≡ or_any_of (map condition_of conditions.entry.items)) }
{
    if !conditions.is_empty() {
        return Ok(conditions);
    }
    let mut any = Vec::new(alloc);
    any.push(Condition::Simple(Simple::Universal))?;
    Ok(any)
}

/// Returns a compound selector that has a condition.
fn part_or_any<'a>(alloc: Global, part: Part<'a>) -> Result<Part<'a>, AllocError>
    ensures { IfOk result (λ any. part_of any ≡ part_or_any_of (part_of part.entry)) }
{
    Ok(Part {
        combinator: part.combinator,
        conditions: or_any(alloc, part.conditions)?,
    })
}

/// Returns compound selectors each of which has a condition.
fn parts_or_any<'a>(alloc: Global, parts: Vec<Part<'a>>) -> Result<Vec<Part<'a>>, AllocError>
    ensures { IfOk result (λ any. map part_of any.items
        ≡ map part_or_any_of (map part_of parts.entry.items)) }
{
    let mut any = Vec::with_capacity(alloc, parts.len())?;
    'parts: for part in parts {
        any.push(part_or_any(alloc, part)?)?;
    }
    Ok(any)
}

impl<'a> Selector<'a> {
    ghost use Rattle.std.specs.Prelude.{◌≡◌, IfOk};
    ghost use Rattle.css_selector_text.specs.Originating.{originating as originating_of};

    /// Returns the selector without its pseudo-element: that of the elements that the pseudo-element is of.
    /// Where nothing is before the pseudo-element, it is of any element, `*`.
    pub fn originating(self, alloc: Global) -> Result<Selector<'a>, AllocError>
        ensures { IfOk result (λ selector. selector ≡ originating_of self.entry) }
    {
        Ok(Selector::new(parts_or_any(alloc, self.parts)?, None))
    }
}
