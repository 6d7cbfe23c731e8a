//! Values that roll the cascade back: `revert` and `revert-layer`.
ghost use Rattle.std.specs.Prelude.{◌≡◌, option_map};
ghost use Rattle.css_cascade.specs.Rollbacks.{is_left as is_left_of, level_cmp as level_cmp_of, only_word as only_word_of};
ghost use Rattle.css_cascade.specs.Rollbacks.{revert_rank as revert_rank_of, rollback_of, rolls_back as rolls_back_of};
ghost use Rattle.css_cascade.specs.WeightViews.{weighed};

use crate::weights::{Origin, Weight};
use css_syntax::texts::{front, past_gap, past_word, spells};
use std::cmp::Ordering;

/// What the whole value of a declaration says of the cascade (CSS Cascading 5, section 7.3).
#[derive(Clone, Copy, Debug, PartialEq)]
pub enum Rollback {
    /// Nothing: it is a value.
    Nowhere,
    /// `revert-layer`: what is in its layer or after that does not count.
    ToLayer,
    /// `revert`: what is of its origin or a later one does not count.
    ToOrigin,
}

/// Returns the word that a value is, with comments and blanks around it.
#[tactic(auto, using(css_syntax::proofs::PartTexts::word_ends))]
fn only_word(value: &str) -> Option<&str>
    ensures { option_map (λ word. word.now) result ≡ only_word_of value.now }
{
    let start = past_gap(value);
    let rest = past_word(start);
    if past_gap(rest).is_empty() {
        Some(front(start, rest))
    } else {
        None
    }
}

impl Rollback {
    /// Returns what a value says.
    pub fn of(value: &str) -> Rollback
        ensures { result ≡ rollback_of value.now }
    {
        match only_word(value) {
            Some(word) if spells("revert-layer", word) => Rollback::ToLayer,
            Some(word) if spells("revert", word) => Rollback::ToOrigin,
            _ => Rollback::Nowhere,
        }
    }
}

/// Returns how many origins are before this one for `revert`, which takes hints for the author's.
fn revert_rank(origin: Origin) -> usize
    ensures { result ≡ revert_rank_of origin }
{
    match origin {
        Origin::UserAgent => 0,
        Origin::User => 1,
        Origin::Hint => 2,
        Origin::Author => 2,
    }
}

/// Which of two declarations is in the later layer, whether they are important or not. The element's own are
/// a layer after all others of their origin.
fn level_cmp(one: &Weight, other: &Weight) -> Ordering
    ensures { result ≡ level_cmp_of (weighed one.now) (weighed other.now) }
{
    let layers = one.layer.cmp(&other.layer);
    one.origin
        .rank()
        .cmp(&other.origin.rank())
        .then(one.attached.cmp(&other.attached).then(layers))
}

/// Whether a declaration is rolled back where it wins. `revert` is not in the user agent's origin, which is the
/// first: it is as `unset` there.
pub fn rolls_back(weight: &Weight) -> bool
    ensures { result ≡ rolls_back_of (weighed weight.now) }
{
    match weight.rollback {
        Rollback::Nowhere => false,
        Rollback::ToLayer => true,
        Rollback::ToOrigin => revert_rank(weight.origin) > 0,
    }
}

/// Whether the first declaration counts still where the second wins: all do if that is not rolled back; else
/// those that are in an earlier layer or origin than it.
pub fn is_left(one: &Weight, winner: &Weight) -> bool
    ensures { result ≡ is_left_of (weighed one.now) (weighed winner.now) }
{
    match winner.rollback {
        Rollback::Nowhere => true,
        Rollback::ToLayer => level_cmp(one, winner).is_lt(),
        Rollback::ToOrigin => {
            let rank = revert_rank(winner.origin);
            rank == 0 || revert_rank(one.origin) < rank
        }
    }
}
