//! Specificity.
ghost use Rattle.std.specs.Prelude.{◌≡◌, map, option_map};
ghost use Rattle.css_selector_text.specs.Specificities.{Counts, nothing, one_id, one_class, one_name};
ghost use Rattle.css_selector_text.specs.Specificities.{plus as sum_of, greater as greater_of, is_less};
ghost use Rattle.css_selector_text.specs.Specificities.{of_local as counts_of_local, of_simple as counts_of_simple, of_pseudo_element as counts_of_element};
ghost use Rattle.css_selector_text.specs.Specificities.{greatest as greatest_of, of_test as counts_of_test};
ghost use Rattle.css_selector_text.specs.Specificities.{of_condition as counts_of_condition, of_compound, of_parts as counts_of_parts};
ghost use Rattle.css_selector_text.specs.Components.{conditions_from, parts_from, selectors_from};
ghost use Rattle.css_selector_text.specs.SpecificityViews.{counts_of};
ghost use Rattle.css_selector_text.specs.Views.{list_test_of, local_of, simple_of, complex_of, condition_of, part_of, pseudo_element_of};

use crate::{Complex, Condition, ListTest, Local, Part, PseudoElement, Selector, Simple};

/// How specific a selector is: ids count more than classes, and these more than names.
#[derive(Clone, Copy, Debug, PartialEq, Eq, PartialOrd, Ord)]
pub struct Specificity {
    /// The number of ids.
    pub ids: u32,
    /// The number of classes, attributes and pseudo-classes.
    pub classes: u32,
    /// The number of type names and pseudo-elements.
    pub names: u32,
}

/// What a selector counts that has nothing which counts.
pub const NOTHING: Specificity = Specificity {
    ids: 0,
    classes: 0,
    names: 0,
};

/// What a class counts.
const ONE_CLASS: Specificity = Specificity {
    ids: 0,
    classes: 1,
    names: 0,
};

/// Returns the sum, each count of which stops at the greatest number.
fn plus(one: Specificity, other: Specificity) -> Specificity
    ensures { counts_of result ≡ sum_of (counts_of one) (counts_of other) }
{
    Specificity {
        ids: one.ids.saturating_add(other.ids),
        classes: one.classes.saturating_add(other.classes),
        names: one.names.saturating_add(other.names),
    }
}

/// Whether the first is less specific.
fn is_less_specific(one: Specificity, other: Specificity) -> bool
    ensures { result ≡ is_less (counts_of one) (counts_of other) }
{
    one.ids < other.ids
        || (one.ids == other.ids
            && (one.classes < other.classes
                || (one.classes == other.classes && one.names < other.names)))
}

/// Returns the more specific of the two.
pub fn greater(one: Specificity, other: Specificity) -> Specificity
    ensures { counts_of result ≡ greater_of (counts_of one) (counts_of other) }
{
    if is_less_specific(one, other) {
        other
    } else {
        one
    }
}

/// Returns what is counted of what is in a namespace.
fn of_local(local: &Local<'_>) -> Specificity
    ensures { counts_of result ≡ counts_of_local (local_of local.now) }
{
    match local {
        Local::Universal | Local::Implied => NOTHING,
        Local::TypeName(_) => Specificity {
            names: 1,
            ..NOTHING
        },
        Local::HasAttribute(_) | Local::Attribute(_) => ONE_CLASS,
    }
}

/// Returns what a simple selector counts.
fn of_simple(simple: &Simple<'_>) -> Specificity
    ensures { counts_of result ≡ counts_of_simple (simple_of simple.now) }
{
    match simple {
        Simple::Universal => NOTHING,
        Simple::Nesting(list) => list.specificity,
        Simple::Namespaced(namespaced) => of_local(&namespaced.local),
        Simple::TypeName(_) | Simple::Element(_) => Specificity {
            names: 1,
            ..NOTHING
        },
        Simple::Id(_) => Specificity { ids: 1, ..NOTHING },
        Simple::Class(_)
        | Simple::HasAttribute(_)
        | Simple::Attribute(_)
        | Simple::Structure(_)
        | Simple::Language(_)
        | Simple::State(_)
        | Simple::Function(_) => ONE_CLASS,
    }
}

/// Returns what a pseudo-class counts of whose list the greatest counts so much.
pub fn of_test(test: ListTest, most: Specificity) -> Specificity
    ensures { counts_of result ≡ counts_of_test (list_test_of test) (counts_of most) }
{
    match test {
        ListTest::Has => most,
        ListTest::NthChild(_) | ListTest::NthLastChild(_) => plus(ONE_CLASS, most),
    }
}

/// Returns the greatest that one of the complex selectors counts.
#[cycle(counting)]
pub fn greatest(selectors: &[Complex<'_>]) -> Specificity
    ensures { counts_of result
        ≡ greatest_of nothing (selectors_from (map complex_of selectors.now)) }
{
    let mut most = NOTHING;
    for selector in selectors {
        most = greater(most, of_parts(selector.parts.as_slice()));
    }
    most
}

/// Returns what a condition counts.
#[cycle(counting)]
fn of_condition(condition: &Condition<'_>) -> Specificity
    ensures { counts_of result ≡ counts_of_condition (condition_of condition.now) }
{
    match condition {
        Condition::Simple(simple) => of_simple(simple),
        Condition::Not(selectors) | Condition::Is(selectors) => greatest(selectors.as_slice()),
        Condition::Where(_) => NOTHING,
        Condition::Tested(test, selectors) => of_test(*test, greatest(selectors.as_slice())),
    }
}

/// Adds what conditions count.
#[cycle(counting)]
fn with_each(so_far: Specificity, conditions: &[Condition<'_>]) -> Specificity
    ensures { counts_of result
        ≡ of_compound (counts_of so_far) (conditions_from (map condition_of conditions.now)) }
{
    let mut counted = so_far;
    for condition in conditions {
        counted = plus(counted, of_condition(condition));
    }
    counted
}

/// Returns what the parts of a selector count.
#[cycle(counting)]
fn of_parts(parts: &[Part<'_>]) -> Specificity
    ensures { counts_of result ≡ counts_of_parts nothing (parts_from (map part_of parts.now)) }
{
    let mut counted = NOTHING;
    for part in parts {
        counted = with_each(counted, part.conditions.as_slice());
    }
    counted
}

/// Returns what a pseudo-element counts, with what follows it.
fn of_pseudo_element(pseudo_element: Option<&PseudoElement<'_>>) -> Specificity
    ensures { counts_of result
        ≡ counts_of_element (option_map (λ e. pseudo_element_of e.now) pseudo_element.entry) }
{
    let Some(pseudo_element) = pseudo_element else {
        return NOTHING;
    };
    let one = Specificity {
        names: 1,
        ..NOTHING
    };
    with_each(one, pseudo_element.after.as_slice())
}

impl<'a> Selector<'a> {
    ghost use Rattle.css_selector_text.specs.Specificities.{specificity as specificity_of};
    ghost use Rattle.css_selector_text.specs.SpecificityViews.{counts_of};

    /// Returns the specificity. `:is()`, `:not()` and `:has()` count as the most specific of their
    /// lists, a list after `An+B` counts so besides its pseudo-class, and `:where()` counts nothing.
    pub fn specificity(&self) -> Specificity
        ensures { counts_of result ≡ specificity_of self.now }
    {
        plus(
            of_parts(self.parts.as_slice()),
            of_pseudo_element(self.pseudo_element.as_ref()),
        )
    }
}
