//! Selectors that require nothing but their key.
ghost use Rattle.std.specs.Prelude.{◌≡◌};
ghost use Rattle.simplecss_selector.specs.Buckets.{bucket_of};
ghost use Rattle.simplecss_selector.specs.BucketViews.{bucket_value};
ghost use Rattle.simplecss.specs.OnlyKeys.{requires_only_key};

use simplecss_selector::{AttributeOperator, Bucket, Element, Key, PseudoClass, Selector};

/// An element that has one key and nothing else, no parent and no sibling.
#[derive(Drop)]
struct OnlyKey<'a> {
    /// The key.
    key: Key<'a>,
}

impl<'a> Element for OnlyKey<'a> {
    ghost use Rattle.simplecss_selector.specs.Keys.{Key as KeyValue};
    ghost use Rattle.simplecss_selector.specs.KeyViews.{key_value};
    ghost use Rattle.simplecss.specs.internal.OnlyKeys.{only_tree, only_depths, only_siblings};

    ghost Node = { KeyValue };

    ghost tree = { only_tree };

    ghost node = { λ element. key_value element.key };

    ghost depth_law = { only_depths };

    ghost sibling_law = { only_siblings };

    #[inline(always)]
    fn parent_element(&self) -> Option<Self> {
        None
    }

    #[inline(always)]
    fn prev_sibling_element(&self) -> Option<Self> {
        None
    }

    #[inline(always)]
    fn has_local_name(&self, name: &str) -> bool {
        match self.key {
            Key::Name(known) => known == name,
            Key::Id(_) | Key::Class(_) | Key::Attribute(_) | Key::Any => false,
        }
    }

    #[inline(always)]
    fn attribute_matches(&self, local_name: &str, operator: AttributeOperator<'_>) -> bool {
        match (self.key, operator) {
            (Key::Id(text), AttributeOperator::Matches(other)) => text == other
                && local_name == "id",
            (Key::Class(word), AttributeOperator::Contains(other)) => {
                word == other && local_name == "class"
            }
            _ => false,
        }
    }

    #[inline(always)]
    fn pseudo_class_matches(&self, _class: PseudoClass<'_>) -> bool {
        false
    }
}

/// Whether the selector, which is in this bucket, requires nothing but its key, which the element
/// must have. If so, it matches each element that has the key.
pub(crate) fn is_only_key(selector: &Selector<'_>, bucket: Bucket<'_>) -> bool
    requires { bucket_value bucket ≡ bucket_of selector.now }
    ensures { result ≡ requires_only_key selector.now }
{
    match bucket {
        Bucket::OfElement(key) => selector.matches(&OnlyKey { key }),
        Bucket::OfParent(_) | Bucket::OfPrevious(_) => false,
    }
}
