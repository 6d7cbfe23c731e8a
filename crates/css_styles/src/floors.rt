//! What the declarations of each property are rolled back to.
ghost use Rattle.std.specs.Prelude.{◌≡◌, ◌∷◌, ◌<◌, List, None, false, OnOk, length};
ghost use Rattle.std.specs.List.{All};
ghost use Rattle.std.specs.List.Sorted.{IsPermutation};
ghost use Rattle.std.specs.Option.{option_map};
ghost use Rattle.css_cascade.specs.Cascade.{Weighed, cascade_cmp as cascade_cmp_of};
ghost use Rattle.css_cascade.specs.Rollbacks.{is_left_under};
ghost use Rattle.css_cascade.specs.WeightViews.{weighed};
ghost use Rattle.css_styles.specs.internal.Floors.{IsComing, IsFound, Ranks};
ghost use Rattle.css_styles.specs.internal.Floors.{finished, floor_of, weight_of_ranked};

use css_cascade::{Weight, cascade_cmp, is_left, rolls_back};
use std::alloc::AllocError;
use std::cmp::Ordering;

/// What the cascade sees of a declaration, with the number of its property.
#[derive(Clone, Copy)]
pub(crate) struct Ranked {
    /// The number of its property.
    pub(crate) property: usize,
    /// What the cascade sees of it.
    pub(crate) weight: Weight,
}

/// What is known of a property once the best of its declarations have been gone through.
#[derive(Clone, Copy)]
pub(crate) struct Standing {
    /// The last that wins and is rolled back. What counts is in an earlier layer or origin.
    floor: Option<Weight>,
    /// Whether one was found that wins and is not rolled back.
    is_settled: bool,
}

impl Standing {
    /// Returns what is known of a property before its declarations are gone through.
    pub(crate) fn new() -> Standing
        ensures floor { floor_of result ≡ None }
        ensures unsettled { result.is_settled ≡ false }
    {
        Standing {
            floor: None,
            is_settled: false,
        }
    }

    /// Whether a declaration counts still.
    pub(crate) fn leaves(&self, one: &Weight) -> bool
        ensures { result ≡ is_left_under (floor_of self.now) (weighed one.now) }
    {
        match &self.floor {
            Some(floor) => is_left(one, floor),
            None => true,
        }
    }

    /// Returns what is known once the next best declaration is gone through.
    fn after(self, one: &Weight) -> Standing
        ensures { (more : List Weighed)
            → finished result more ≡ finished self (weighed one.now ∷ more) }
    {
        if self.is_settled || !self.leaves(one) {
            return self;
        }
        if rolls_back(one) {
            return Standing {
                floor: Some(*one),
                is_settled: false,
            };
        }
        Standing {
            floor: self.floor,
            is_settled: true,
        }
    }
}

/// Sorts declarations so that of those that pass any test the first is the one that wins.
pub(crate) fn rank(ranked: &mut Vec<Ranked>) -> Result<(), AllocError>
    ensures permutation { OnOk result (IsPermutation ranked.old.items ranked.new.items) }
    ensures ranks { OnOk result (Ranks weight_of_ranked ranked.old.items ranked.new.items) }
{
    ranked.sort_by(
        |one: &Ranked, other: &Ranked| -> Ordering
            ensures { result ≡ cascade_cmp_of (weighed one.now.weight) (weighed other.now.weight) }
        { cascade_cmp(&one.weight, &other.weight) },
    )?;
    ranked.reverse();
    Ok(())
}

/// Forgets what is known of the properties of these declarations.
fn forget(ranked: &[Ranked], standings: &mut [Standing])
    requires { All (λ r. r.property < length standings.old) ranked.now }
    ensures len { length standings.new ≡ length standings.old }
    ensures open { All (λ r. IsComing ranked.now standings.new ranked.now r.property) ranked.now }
{
    for one in ranked {
        standings[one.property] = Standing::new();
    }
}

/// Finds what the properties of these ranked declarations are rolled back to.
pub(crate) fn find_standings(ranked: &[Ranked], standings: &mut [Standing])
    requires { All (λ r. r.property < length standings.old) ranked.now }
    ensures len { length standings.new ≡ length standings.old }
    ensures found { All (λ r. IsFound ranked.now standings.new r.property) ranked.now }
{
    forget(ranked, standings);
    for one in ranked {
        standings[one.property] = standings[one.property].after(&one.weight);
    }
}
