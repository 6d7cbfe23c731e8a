//! What an index keeps of a rule.
ghost use Rattle.std.specs.Prelude.{◌≡◌};
ghost use Rattle.simplecss_selector.specs.Buckets.{bucket_of};
ghost use Rattle.simplecss_selector.specs.BucketViews.{bucket_value};
ghost use Rattle.simplecss.specs.OnlyKeys.{requires_only_key};

use super::only_key::is_only_key;
use simplecss_selector::{Bucket, Selector};
use std::snapshot::Snapshot;

/// What an index keeps of a rule.
#[derive(Drop)]
pub(crate) struct Link<'a> {
    /// The index of the last earlier rule with the same key.
    pub(crate) earlier: Option<usize>,
    /// The numbers of the keys that an element's ancestors must have.
    pub(crate) needed: Vec<usize>,
    /// Whether the selector requires nothing but its key.
    pub(crate) is_only_key: bool,
    /// The selector, which only contracts see. It has no bytes.
    pub(crate) selector: Snapshot<Selector<'a>>,
}

impl<'a> Link<'a> {
    /// The link of a rule with this selector, which is in this bucket. It leads to an earlier rule,
    /// if there is one. The selector needs ancestors with the keys of these numbers.
    #[inline(always)]
    pub(crate) fn new(
        earlier: Option<usize>,
        needed: Vec<usize>,
        selector: &Selector<'a>,
        bucket: Bucket<'a>,
    ) -> Link<'a>
        requires { bucket_value bucket ≡ bucket_of selector.now }
        ensures earlier { result.earlier ≡ earlier }
        ensures needed { result.needed ≡ needed }
        ensures selector { result.selector.value ≡ selector.now }
        ensures only { result.is_only_key ≡ requires_only_key selector.now }
    {
        Link {
            earlier,
            needed,
            is_only_key: is_only_key(selector, bucket),
            selector: Snapshot::of(selector),
        }
    }
}
