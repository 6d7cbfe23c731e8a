//! The numbers of a selector's specificity.
ghost use Rattle.std.specs.Prelude.{◌≡◌, min, count_by, is_some};
ghost use Rattle.simplecss_grammar.specs.Specificity.{is_id};
ghost use Rattle.simplecss_selector.specs.internal.SelectorViews.{subselector_of};

use crate::selector::{FlatComponent, SubSelector};

/// Returns the number of subselectors that are attributes named `id`.
pub(crate) fn id_count(subselectors: &[SubSelector]) -> usize
    ensures { result ≡ count_by (λ s. is_id (subselector_of s)) subselectors.now }
{
    subselectors.iter().filter(|s| s.is_id()).count()
}

/// Returns the number of components with a type name.
pub(crate) fn name_count(components: &[FlatComponent]) -> usize
    ensures { result ≡ count_by (λ p. is_some p.name) components.now }
{
    components.iter().filter(|p| p.is_named()).count()
}

/// Returns the count, or 255 if it is greater.
pub(crate) fn at_most_255(count: usize) -> u8
    ensures { result ≡ min 255 count }
{
    count.min(255) as u8
}
