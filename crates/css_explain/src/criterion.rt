//! What decides between two declarations.
ghost use Rattle.std.specs.Prelude.{◌≡◌};
ghost use Rattle.css_cascade.specs.WeightViews.{weighed};
ghost use Rattle.css_explain.specs.Explanations.{criterion as criterion_of};

use css_cascade::Weight;

/// A criterion of the cascade (CSS Cascading 5, section 6.1), in the order in which they decide.
#[derive(Clone, Copy, Debug, PartialEq)]
pub enum Criterion {
    /// Whether they are important, and which origin they are of.
    OriginAndImportance,
    /// Whether they are attached to the element, as those of a style attribute are.
    StyleAttribute,
    /// The layer that they are in.
    Layers,
    /// The specificity of their rules.
    Specificity,
    /// Which of them stands later.
    Order,
}

/// Returns the first criterion in which two declarations differ.
pub(crate) fn criterion_between(one: &Weight, other: &Weight) -> Criterion
    ensures { result ≡ criterion_of (weighed one.now) (weighed other.now) }
{
    if one.important != other.important || one.origin.rank() != other.origin.rank() {
        Criterion::OriginAndImportance
    } else if one.attached != other.attached {
        Criterion::StyleAttribute
    } else if one.layer != other.layer {
        Criterion::Layers
    } else if one.specificity != other.specificity {
        Criterion::Specificity
    } else {
        Criterion::Order
    }
}
