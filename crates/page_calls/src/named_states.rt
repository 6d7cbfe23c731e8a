//! The states of elements that have names, by the sums that a caller passes.

ghost use Rattle.std.specs.Prelude.{◌≡◌, ◌<◌, IfOk, map};
ghost use Rattle.css_tree.specs.PageViews.{state_of};
ghost use Rattle.call_answers.specs.Elements.{has_bit as has_bit_of, named_states as named_states_of};

use call_answers::elements::{TreeElement, has_bit};
use css_tree::NamedState;
use std::alloc::{AllocError, Global};

/// The power of two of the first state that has a name, in the sum of an element's states.
const FIRST: usize = 128;

/// Whether each element is in the state that has this power of two.
fn elements_in(
    alloc: Global,
    elements: &[TreeElement],
    power: usize,
) -> Result<Vec<bool>, AllocError>
    requires { 0 < power }
    ensures { IfOk result (λ found. found.items
        ≡ map (λ element. has_bit_of element.states power) elements.now) }
{
    let mut found = Vec::with_capacity(alloc, elements.len())?;
    for element in elements {
        found.push(has_bit(element.states, power))?;
    }
    Ok(found)
}

/// Returns the states of these names, and which elements are in each. The powers of two last for 56 names;
/// those after them are of no state.
pub fn named_states<'t>(
    alloc: Global,
    names: &[&'t str],
    elements: &[TreeElement],
) -> Result<Vec<NamedState<'t>>, AllocError>
    ensures { IfOk result (λ states. map state_of states.items
        ≡ named_states_of (map (λ name. name.now) names.now) elements.now) }
{
    let mut states = Vec::new(alloc);
    let mut power = FIRST;
    let mut left = names;
    'names: while let [name, more @ ..] = left {
        if power > usize::MAX / 2 {
            break 'names;
        }
        states.push(NamedState {
            name: *name,
            elements: elements_in(alloc, elements, power)?,
        })?;
        power *= 2;
        left = more;
    }
    Ok(states)
}
