//! The last index in each bucket.
ghost use Rattle.std.specs.Prelude.{◌≡◌, IfOk, OnOk, None};
ghost use Rattle.simplecss_selector.specs.BucketViews.{bucket_value};
ghost use Rattle.simplecss_selector.specs.Buckets.{Bucket as BucketValue};
ghost use Rattle.simplecss.specs.internal.LastByBucket.{last_in_bucket, TakesBucket};

use super::last_by_key::LastByKey;
use simplecss_selector::Bucket;
use std::alloc::{AllocError, Global};

/// For each key the index that was the last to be put under it, for each node that is to have it.
#[derive(Drop)]
pub(crate) struct LastByBucket<'a> {
    /// On the element itself.
    pub(crate) own: LastByKey<'a>,
    /// On its parent.
    pub(crate) parent: LastByKey<'a>,
    /// On its previous sibling.
    pub(crate) previous: LastByKey<'a>,
}

impl<'a> LastByBucket<'a> {
    /// Nothing has an index.
    pub(crate) fn new(alloc: Global) -> LastByBucket<'a>
        ensures { (bucket : BucketValue) → last_in_bucket result bucket ≡ None }
    {
        LastByBucket {
            own: LastByKey::new(alloc),
            parent: LastByKey::new(alloc),
            previous: LastByKey::new(alloc),
        }
    }

    /// Puts the index into the bucket, and returns the one that was the last there.
    pub(crate) fn replace(
        &mut self,
        bucket: Bucket<'a>,
        index: usize,
    ) -> Result<Option<usize>, AllocError>
        ensures known { IfOk result
            (λ known. known ≡ last_in_bucket self.old (bucket_value bucket.entry)) }
        ensures taken { OnOk result
            (TakesBucket self.old self.new (bucket_value bucket.entry) index) }
    {
        let known = match bucket {
            Bucket::OfElement(key) => self.own.replace(key, index),
            Bucket::OfParent(key) => self.parent.replace(key, index),
            Bucket::OfPrevious(key) => self.previous.replace(key, index),
        };
        Ok(known?)
    }
}
