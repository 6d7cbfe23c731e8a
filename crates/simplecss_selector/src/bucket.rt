//! The key by which an index finds a selector, and the node that must have it.
ghost use Rattle.std.specs.Prelude.{◌≡◌};
ghost use Rattle.simplecss_selector.specs.internal.CombinatorViews.{combinator_of};
ghost use Rattle.simplecss_selector.specs.KeyViews.{key_value};
ghost use Rattle.simplecss_selector.specs.BucketViews.{bucket_value};
ghost use Rattle.simplecss_selector.specs.Buckets.{bucket_by};

use crate::Key;
use crate::selector::Combinator;

/// A key by which an index finds a selector, and the node that must have it.
#[derive(Clone, Copy, Debug, PartialEq)]
pub enum Bucket<'a> {
    /// The element itself.
    OfElement(Key<'a>),
    /// Its parent.
    OfParent(Key<'a>),
    /// Its previous sibling.
    OfPrevious(Key<'a>),
}

/// Returns the key, or that of the component before if the key is `Any` and a child or adjacent
/// combinator leads there.
pub(crate) fn bucket_by<'a>(key: Key<'a>, combinator: Combinator, before: Key<'a>) -> Bucket<'a>
    ensures { bucket_value result
        ≡ bucket_by (key_value key.entry) (combinator_of combinator) (key_value before.entry) }
{
    match key {
        Key::Any => match combinator {
            Combinator::Child => Bucket::OfParent(before),
            Combinator::Adjacent => Bucket::OfPrevious(before),
            Combinator::None | Combinator::Descendant => Bucket::OfElement(Key::Any),
        },
        Key::Id(_) | Key::Class(_) | Key::Name(_) | Key::Attribute(_) => Bucket::OfElement(key),
    }
}
