//! The key of a selector: a condition that its last component includes.
ghost use Rattle.std.specs.Prelude.{◌≡◌, map};
ghost use Rattle.std.specs.Option.{option_map};
ghost use Rattle.simplecss_selector.specs.Keys.{required_id, required_class, required_attribute};
ghost use Rattle.simplecss_selector.specs.Keys.{first_required};
ghost use Rattle.simplecss_selector.specs.internal.SelectorViews.{subselector_of};

use crate::selector::SubSelector;

/// A condition that the last component of a selector includes. The selector does not match an
/// element that does not satisfy it.
#[derive(Clone, Copy, Debug, PartialEq)]
pub enum Key<'a> {
    /// `#text` or `[id=text]`: the attribute `id` equals the text.
    Id(&'a str),
    /// `.word` or `[class~=word]`: the attribute `class` has the word.
    Class(&'a str),
    /// The type name.
    Name(&'a str),
    /// The name of an attribute, whatever its value must be.
    Attribute(&'a str),
    /// None of these: every element has it.
    Any,
}

/// Returns the first required id.
pub(crate) fn first_id<'a>(subselectors: &[SubSelector<'a>]) -> Option<&'a str>
    ensures { option_map (λ text. text.now) result
        ≡ first_required required_id (map subselector_of subselectors.now) }
{
    for subselector in subselectors {
        if let Some(text) = subselector.required_id() {
            return Some(text);
        }
    }
    None
}

/// Returns the first required class.
pub(crate) fn first_class<'a>(subselectors: &[SubSelector<'a>]) -> Option<&'a str>
    ensures { option_map (λ word. word.now) result
        ≡ first_required required_class (map subselector_of subselectors.now) }
{
    for subselector in subselectors {
        if let Some(word) = subselector.required_class() {
            return Some(word);
        }
    }
    None
}

/// Returns the name of the first attribute that is tested.
pub(crate) fn first_attribute<'a>(subselectors: &[SubSelector<'a>]) -> Option<&'a str>
    ensures { option_map (λ name. name.now) result
        ≡ first_required required_attribute (map subselector_of subselectors.now) }
{
    for subselector in subselectors {
        if let Some(name) = subselector.required_attribute() {
            return Some(name);
        }
    }
    None
}
