//! The attributes of elements that are in namespaces.

ghost use Rattle.std.specs.Prelude.{◌≡◌, [], IfOk, map};
ghost use Rattle.css_selectors.specs.ElementViews.{namespaced_attribute_of};
ghost use Rattle.call_answers.specs.Elements.{attributes_by};
ghost use Rattle.call_answers.specs.internal.Attributes.{lists_of, placed_attribute_of};

use call_answers::elements::PlacedAttribute;
use css_selectors::NamespacedAttribute;
use std::alloc::{AllocError, Global};

/// Returns `count` empty lists.
fn empty_lists<'t>(
    alloc: Global,
    count: usize,
) -> Result<Vec<Vec<NamespacedAttribute<'t>>>, AllocError>
    ensures { IfOk result (λ found. lists_of found.items ≡ attributes_by count []) }
{
    let mut found = Vec::with_capacity(alloc, count)?;
    for _ in 0..count {
        found.push(Vec::new(alloc))?;
    }
    Ok(found)
}

/// Returns for each element, of which there are `count`, its attributes among these.
pub fn attributes_of_each<'t>(
    alloc: Global,
    attributes: &[PlacedAttribute<'t>],
    count: usize,
) -> Result<Vec<Vec<NamespacedAttribute<'t>>>, AllocError>
    ensures { IfOk result (λ found. lists_of found.items
        ≡ attributes_by count (map placed_attribute_of attributes.now)) }
{
    let mut found = empty_lists(alloc, count)?;
    for placed in attributes {
        if placed.element < count && placed.attribute.namespace > 0 {
            found[placed.element].push(placed.attribute)?;
        }
    }
    Ok(found)
}
