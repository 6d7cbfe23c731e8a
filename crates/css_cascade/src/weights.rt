//! The order of declarations.
ghost use Rattle.std.specs.Prelude.{◌≡◌};
ghost use Rattle.std.specs.Cmp.{IsTotalOrder};
ghost use Rattle.css_cascade.specs.Cascade.{normal_layer as normal_layer_of, important_layer as important_layer_of};
ghost use Rattle.css_cascade.specs.Cascade.{normal_origin as normal_origin_of, important_origin as important_origin_of};
ghost use Rattle.css_cascade.specs.Cascade.{beats as beats_of, cascade_cmp as cascade_cmp_of};
ghost use Rattle.css_cascade.specs.Cascade.{origin_cmp as origin_cmp_of, origin_rank};
ghost use Rattle.css_cascade.specs.Cascade.{attached_cmp as attached_cmp_of};
ghost use Rattle.css_cascade.specs.Cascade.{layered_cmp as layered_cmp_of, rule_cmp as rule_cmp_of};
ghost use Rattle.css_cascade.specs.WeightViews.{weighed};

use crate::rollback::Rollback;
use std::cmp::Ordering;

/// Where a declaration comes from (CSS Cascading 5, sections 6.2 and 6.5).
#[derive(Clone, Copy, Debug, PartialEq)]
pub enum Origin {
    /// The program that shows the page.
    UserAgent,
    /// The reader of the page.
    User,
    /// The page's author, by what is said in its language in the place of CSS, such as a presentation
    /// attribute of SVG.
    Hint,
    /// The page's author, by a style sheet or a style attribute.
    Author,
}

impl Origin {
    /// Returns how many origins are before this one in the order of the cascade.
    pub fn rank(self) -> usize
        ensures { result ≡ origin_rank self }
    {
        match self {
            Origin::UserAgent => 0,
            Origin::User => 1,
            Origin::Hint => 2,
            Origin::Author => 3,
        }
    }
}

/// What the cascade sees of a declaration.
#[derive(Clone, Copy, Debug, PartialEq)]
pub struct Weight {
    /// Whether it is important.
    pub important: bool,
    /// Where it comes from.
    pub origin: Origin,
    /// Whether it is attached to the element, as those of a style attribute are, and not in a rule.
    pub attached: bool,
    /// The rank of its layer: how many layers of its origin are before that one.
    pub layer: usize,
    /// The specificity of its rule, of which the first count that differs decides.
    pub specificity: [u32; 3],
    /// Where it stands: the place of its rule among all, and its own in the rule.
    pub place: [usize; 2],
    /// What its value says of the cascade.
    pub rollback: Rollback,
}

/// The rank of the origin of a declaration that is not important.
fn normal_origin(weight: &Weight) -> usize
    ensures { result ≡ normal_origin_of (weighed weight.now) }
{
    if weight.important {
        0
    } else {
        weight.origin.rank()
    }
}

/// The rank of the origin of an important declaration.
fn important_origin(weight: &Weight) -> usize
    ensures { result ≡ important_origin_of (weighed weight.now) }
{
    if weight.important {
        weight.origin.rank()
    } else {
        0
    }
}

/// The layer of a declaration that is not important.
fn normal_layer(weight: &Weight) -> usize
    ensures { result ≡ normal_layer_of (weighed weight.now) }
{
    if weight.important { 0 } else { weight.layer }
}

/// The layer of an important declaration.
fn important_layer(weight: &Weight) -> usize
    ensures { result ≡ important_layer_of (weighed weight.now) }
{
    if weight.important { weight.layer } else { 0 }
}

/// Which of two declarations has the greater specificity, or else stands later.
fn rule_cmp(one: &Weight, other: &Weight) -> Ordering
    ensures { result ≡ rule_cmp_of (weighed one.now) (weighed other.now) }
{
    one.specificity
        .cmp(&other.specificity)
        .then(one.place.cmp(&other.place))
}

/// The same after what is said of layers: the later decides, or of important declarations the earlier.
fn layered_cmp(one: &Weight, other: &Weight) -> Ordering
    ensures { result ≡ layered_cmp_of (weighed one.now) (weighed other.now) }
{
    let important = important_layer(other).cmp(&important_layer(one));
    normal_layer(one)
        .cmp(&normal_layer(other))
        .then(important.then(rule_cmp(one, other)))
}

/// The same after what is said of the element's own: those are later than those of rules.
fn attached_cmp(one: &Weight, other: &Weight) -> Ordering
    ensures { result ≡ attached_cmp_of (weighed one.now) (weighed other.now) }
{
    one.attached
        .cmp(&other.attached)
        .then(layered_cmp(one, other))
}

/// The same after what is said of origins: the later decides, or of important declarations the earlier.
fn origin_cmp(one: &Weight, other: &Weight) -> Ordering
    ensures { result ≡ origin_cmp_of (weighed one.now) (weighed other.now) }
{
    let important = important_origin(other).cmp(&important_origin(one));
    normal_origin(one)
        .cmp(&normal_origin(other))
        .then(important.then(attached_cmp(one, other)))
}

/// Which of two declarations is later in the order of the cascade, which is a total one.
#[tactic(auto, using(crate::proofs::CascadeLemmas::cascade_total))]
pub fn cascade_cmp(one: &Weight, other: &Weight) -> Ordering
    ensures order { result ≡ cascade_cmp_of (weighed one.now) (weighed other.now) }
    ensures total { IsTotalOrder cascade_cmp_of }
{
    one.important
        .cmp(&other.important)
        .then(origin_cmp(one, other))
}

/// Whether the first declaration beats the second (CSS Cascading 5, section 6.1): by importance, by
/// origin, by whether it is attached to the element, by layers, by specificity, and by where they stand. Of
/// two that are not important the one of the later origin wins, the author's last, and of one origin that in
/// the later layer, what is in no layer last; of two important ones the one of the earlier origin, and the
/// one in the earlier layer.
pub fn beats(one: &Weight, other: &Weight) -> bool
    ensures { result ≡ beats_of (weighed one.now) (weighed other.now) }
{
    cascade_cmp(one, other).is_gt()
}
