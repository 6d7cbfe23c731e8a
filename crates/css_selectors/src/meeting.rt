//! Whether an element satisfies conditions.
ghost use Rattle.std.specs.Prelude.{◌≡◌, ◌+◌, ◌*◌, ◌≤◌, ◌<◌, ◌↔◌, ◌==◌, true, map, length, IsTrue, Option, option_map};
ghost use Rattle.std.specs.Option.{option_map_or};
ghost use Rattle.std.specs.List.{list_any};
ghost use Rattle.std.specs.Cow.{cow_str_bytes};
ghost use Rattle.css_selectors.specs.Meanings.{satisfies, is_placed as is_placed_at, holds as holds_on, is_in as is_in_of, holds_in as holds_in_of};
ghost use Rattle.css_selectors.specs.Meanings.{accepts as accepts_of, has_plain as has_plain_of, is_spaced as is_spaced_of, has_spaced as has_spaced_of, has_attribute_in as has_attribute_in_of};
ghost use Rattle.css_selectors.specs.ElementViews.{namespaced_attribute_of};
ghost use Rattle.css_selector_text.specs.Components.{conditions_from, parts_from, selectors_from};
ghost use Rattle.css_selectors.specs.Costs.{condition_cost, compound_cost, dearest_part, list_cost, selector_cost, most_tests as most};
ghost use Rattle.css_selectors.specs.Meanings.{IsMet, AreMet, MeetsPart, MatchesAny, IsPlaced};
ghost use Rattle.css_selector_text.specs.declared.components.Simple.TheVariants.{Function};
ghost use Rattle.css_selectors.specs.TriedElements.{element_of};
ghost use Rattle.css_selector_text.specs.Views.{comparison_of, local_of, namespace_of, progression_of, structure_of, simple_of, condition_of, part_of, complex_of};

use crate::attributes::is_satisfied;
use crate::{
    Comparison, Complex, Condition, Element, FunctionCall, Local, Namespace, Namespaced,
    NamespacedAttribute, Part, Simple, Structure,
};
use css_matching::{Candidate, Combinator, Parts, Tests, matches};
use css_selector_text::direction_state;
use std::borrow::CowStr;

/// Whether there is a value, and it satisfies the comparison with the text.
fn has_value(comparison: Comparison, ignores_case: bool, text: &str, value: Option<&str>) -> bool
    ensures { result ≡ satisfies (comparison_of comparison) ignores_case text.now
        (option_map (λ v. v.now) value.entry) }
{
    match value {
        Some(value) => is_satisfied(comparison, ignores_case, text, value),
        None => false,
    }
}

/// Whether the element has the place among the others.
fn is_placed_on<E: Element>(structure: Structure, element: &E) -> bool
    ensures { result ≡ is_placed_at E.document (E.node element.now) (structure_of structure) }
{
    match structure {
        Structure::Root => element.parent().is_none(),
        Structure::Scope => element.is_in_list(0),
        Structure::Empty => !element.has_content(),
        Structure::FirstChild => element.earlier_siblings() == 0,
        Structure::LastChild => element.later_siblings() == 0,
        Structure::OnlyChild => element.earlier_siblings() == 0 && element.later_siblings() == 0,
        Structure::FirstOfType => element.earlier_of_type() == 0,
        Structure::LastOfType => element.later_of_type() == 0,
        Structure::OnlyOfType => element.earlier_of_type() == 0 && element.later_of_type() == 0,
        Structure::NthChild(p) => p.contains(u64::from(element.earlier_siblings()) + 1),
        Structure::NthLastChild(p) => p.contains(u64::from(element.later_siblings()) + 1),
        Structure::NthOfType(p) => p.contains(u64::from(element.earlier_of_type()) + 1),
        Structure::NthLastOfType(p) => p.contains(u64::from(element.later_of_type()) + 1),
    }
}

/// Whether the element's language is in one of the ranges.
fn is_in_any<E: Element>(ranges: &[CowStr<'_>], element: &E) -> bool
    ensures { result
        ≡ list_any (E.document.is_in_language (E.node element.now)) (map cow_str_bytes ranges.now) }
{
    let mut rest = ranges;
    'languages: while let [range, after @ ..] = rest {
        if element.is_in_language(range.as_str()) {
            return true;
        }
        rest = after;
    }
    false
}

/// Whether the element has the direction that a pseudo-class tests.
fn is_directed<E: Element>(call: &FunctionCall<'_>, element: &E) -> bool
    ensures { result ≡ holds_on E.document (E.node element.now) (simple_of (Function call.now)) }
{
    match direction_state(call.name.as_str(), call.argument.as_str()) {
        Some(state) => element.is_in_state(state),
        None => false,
    }
}

/// Whether the element is in the namespace.
fn is_in<E: Element>(namespace: &Namespace<'_>, element: &E) -> bool
    ensures { result ≡ is_in_of E.document (E.node element.now) (namespace_of namespace.now) }
{
    match namespace {
        Namespace::Absent => element.is_in_namespace(0),
        Namespace::Any => true,
        Namespace::Prefix(_, number) | Namespace::Default(number) => {
            element.is_in_namespace(*number)
        }
    }
}

/// Whether the attribute's value is as the selector requires.
fn accepts(local: &Local<'_>, value: &str) -> bool
    ensures { result ≡ accepts_of (local_of local.now) value.now }
{
    match local {
        Local::Attribute(test) => {
            is_satisfied(
                test.comparison,
                test.ignores_case,
                test.text.as_str(),
                value,
            )
        }
        Local::Universal | Local::TypeName(_) | Local::HasAttribute(_) | Local::Implied => true,
    }
}

/// Whether the element has the attribute of this name that is in no namespace, with a value as the selector
/// requires.
fn has_plain<E: Element>(name: &str, local: &Local<'_>, element: &E) -> bool
    ensures { result ≡ has_plain_of E.document (E.node element.now) name.now
        (accepts_of (local_of local.now)) }
{
    match element.attribute(name) {
        Some(value) => accepts(local, value),
        None => false,
    }
}

/// Whether the number is the one that is wanted, if one is.
fn is_wanted(wanted: Option<usize>, number: usize) -> bool
    ensures { result ≡ option_map_or (λ k. k == number) wanted true }
{
    match wanted {
        Some(wanted) => wanted == number,
        None => true,
    }
}

/// Whether the attribute has this name, is in the namespace of this number, or in any if there is no number,
/// and has a value as the selector requires.
fn is_spaced(
    number: Option<usize>,
    name: &str,
    local: &Local<'_>,
    attribute: NamespacedAttribute<'_>,
) -> bool
    ensures { result ≡ is_spaced_of number name.now (accepts_of (local_of local.now))
        (namespaced_attribute_of attribute.entry) }
{
    is_wanted(number, attribute.namespace)
        && attribute.name == name
        && accepts(local, attribute.value)
}

/// Whether one of the element's attributes in namespaces is as [`is_spaced`] requires.
fn has_spaced<E: Element>(number: Option<usize>, name: &str, local: &Local<'_>, element: &E) -> bool
    ensures { result ≡ has_spaced_of E.document (E.node element.now) number name.now
        (accepts_of (local_of local.now)) }
{
    let mut index = 0;
    'attributes: while let Some(attribute) = element.namespaced_attribute(index) {
        if is_spaced(number, name, local, attribute) {
            return true;
        }
        index += 1;
    }
    false
}

/// Whether the element has an attribute of this name in the namespace, with a value as the selector requires.
fn has_attribute_in<E: Element>(
    namespace: &Namespace<'_>,
    name: &str,
    local: &Local<'_>,
    element: &E,
) -> bool
    ensures { result ≡ has_attribute_in_of E.document (E.node element.now)
        (namespace_of namespace.now) name.now (accepts_of (local_of local.now)) }
{
    match namespace {
        Namespace::Absent | Namespace::Default(_) | Namespace::Prefix(_, 0) => {
            has_plain(name, local, element)
        }
        Namespace::Any => {
            has_plain(name, local, element) || has_spaced(None, name, local, element)
        }
        Namespace::Prefix(_, number) => has_spaced(Some(*number), name, local, element),
    }
}

/// Whether the element satisfies what is in a namespace.
fn holds_in<E: Element>(namespaced: &Namespaced<'_>, element: &E) -> bool
    ensures { result ≡ holds_in_of E.document (E.node element.now)
        (namespace_of namespaced.now.namespace) (local_of namespaced.now.local) }
{
    let namespace = &namespaced.namespace;
    match &namespaced.local {
        Local::Universal | Local::Implied => is_in(namespace, element),
        Local::TypeName(name) => is_in(namespace, element) && element.is_named(name.as_str()),
        Local::HasAttribute(name) => {
            has_attribute_in(namespace, name.as_str(), &namespaced.local, element)
        }
        Local::Attribute(test) => {
            has_attribute_in(namespace, test.name.as_str(), &namespaced.local, element)
        }
    }
}

/// Whether the element satisfies the simple selector.
fn holds<E: Element>(simple: &Simple<'_>, element: &E) -> bool
    ensures { result ≡ holds_on E.document (E.node element.now) (simple_of simple.now) }
{
    match simple {
        Simple::Universal => true,
        Simple::TypeName(name) => element.is_named(name.as_str()),
        Simple::Id(id) => has_value(
            Comparison::Equals,
            false,
            id.as_str(),
            element.attribute("id"),
        ),
        Simple::Class(class) => {
            has_value(
                Comparison::HasWord,
                false,
                class.as_str(),
                element.attribute("class"),
            )
        }
        Simple::HasAttribute(name) => element.attribute(name.as_str()).is_some(),
        Simple::Attribute(test) => has_value(
            test.comparison,
            test.ignores_case,
            test.text.as_str(),
            element.attribute(test.name.as_str()),
        ),
        Simple::Structure(structure) => is_placed_on(*structure, element),
        Simple::Language(ranges) => is_in_any(ranges.as_slice(), element),
        Simple::State(name) => element.is_in_state(name.as_str()),
        Simple::Function(call) => is_directed(call, element),
        Simple::Element(_) => false,
        Simple::Namespaced(namespaced) => holds_in(namespaced, element),
        Simple::Nesting(list) => element.is_in_list(list.number),
    }
}

/// The compound selectors of a selector, as the search sees them.
#[derive(Clone, Copy)]
struct PartsOf<'s, 'a> {
    /// The compound selectors.
    parts: &'s [Part<'a>],
}

impl<'s, 'a> Parts for PartsOf<'s, 'a> {
    ghost use Rattle.std.specs.Prelude.{length, map};
    ghost use Rattle.css_selector_text.specs.Components.{parts_from};
    ghost use Rattle.css_selectors.specs.Meanings.{combinator_at};
    ghost use Rattle.css_selector_text.specs.Views.{part_of};

    ghost count = { λ s. length s.parts.now };

    ghost combinator_at = { λ s. combinator_at (parts_from (map part_of s.parts.now)) };

    fn combinator(&self, index: usize) -> Combinator {
        self.parts[index].combinator
    }
}

/// An element that the search tries: the first one, or one that it came to.
#[derive(Drop)]
enum Tried<'e, E> {
    /// The element that a selector is matched against.
    First(&'e E),
    /// An ancestor or an earlier sibling.
    Found(E),
}

impl<'e, E: Element> Tried<'e, E> {
    ghost use Rattle.std.specs.Prelude.{◌≡◌};
    ghost use Rattle.css_selectors.specs.TriedElements.{element_of};

    /// Returns the element.
    #[inline(always)]
    fn element(&self) -> &E
        ensures { result.now ≡ element_of self.now }
    {
        match self {
            Tried::First(element) => element,
            Tried::Found(element) => element,
        }
    }
}

impl<'e, 's, 'a, E: Element> Candidate<PartsOf<'s, 'a>> for Tried<'e, E> {
    ghost use Rattle.std.specs.Prelude.{◌≡◌, map, option_map};
    ghost use Rattle.css_selector_text.specs.Components.{parts_from};
    ghost use Rattle.css_selectors.specs.Costs.{dearest_part};
    ghost use Rattle.css_selectors.specs.Documents.{shape};
    ghost use Rattle.css_selectors.specs.Meanings.{MeetsPart};
    ghost use Rattle.css_selectors.specs.TriedElements.{element_of};
    ghost use Rattle.css_selector_text.specs.Views.{part_of};
    ghost use Rattle.css_selectors.specs.CostLemmas.{dearest_part-monotone};

    ghost Node = { E.Node };

    ghost tree = { shape E.document };

    ghost node = { λ tried. E.node (element_of tried) };

    ghost Meets = { λ s. MeetsPart E.document (parts_from (map part_of s.parts.now)) };

    ghost cost = { λ s. dearest_part E.document (parts_from (map part_of s.parts.now)) };

    ghost depth_law = { E.depth_law };

    ghost earlier_law = { E.earlier_law };

    ghost sibling_law = { E.sibling_law };

    ghost cost_law = { λ s. dearest_part-monotone E.document E.depth_law E.earlier_law E.sibling_law
        (parts_from (map part_of s.parts.now)) };

    fn parent_element(&self) -> Option<Self>
        ensures { option_map (λ tried. E.node (element_of tried)) result
            ≡ E.document.parent (E.node (element_of self.now)) }
    {
        Some(Tried::Found(self.element().parent()?))
    }

    fn prev_sibling_element(&self) -> Option<Self>
        ensures { option_map (λ tried. E.node (element_of tried)) result
            ≡ E.document.previous_sibling (E.node (element_of self.now)) }
    {
        Some(Tried::Found(self.element().previous_sibling()?))
    }
}

/// Whether the element matches the complex selector of these parts.
#[cycle(meeting)]
pub(crate) fn is_placed<E: Element>(parts: &[Part<'_>], element: &E, tests: &mut Tests) -> bool
    ensures answer { IsTrue result
        ↔ IsPlaced E.document (parts_from (map part_of parts.now)) (E.node element.now) }
    ensures bounded { tests.new
        ≤ tests.old + most E.document (parts_from (map part_of parts.now)) (E.node element.now) }
    ensures counts { tests.old ≤ tests.new }
    ensures at_least_one { 0 < length parts.now → tests.old < tests.new }
    ensures all_when_true { IsTrue result → tests.old + length parts.now ≤ tests.new }
{
    if parts.is_empty() {
        return false;
    }
    matches(
        &PartsOf { parts },
        parts.len() - 1,
        &Tried::First(element),
        &|index: usize, tried: &Tried<'_, E>, spent: &mut Tests| -> bool
            requires { index < length parts.now }
            ensures answer { IsTrue result ↔ MeetsPart E.document
                (parts_from (map part_of parts.entry.now)) index (E.node (element_of tried.now)) }
            ensures bounded { spent.new ≤ spent.old + dearest_part E.document
                (parts_from (map part_of parts.entry.now)) (E.node (element_of tried.now)) }
            ensures counts { spent.old ≤ spent.new }
        { are_met(parts[index].conditions.as_slice(), tried.element(), spent) },
        tests,
    )
}

/// Whether the element matches the selector of a list with these parts. A lone compound selector needs
/// no search.
#[cycle(meeting)]
fn is_matched<E: Element>(parts: &[Part<'_>], element: &E, tests: &mut Tests) -> bool
    ensures answer { IsTrue result
        ↔ IsPlaced E.document (parts_from (map part_of parts.now)) (E.node element.now) }
    ensures bounded { tests.new ≤ tests.old
        + selector_cost E.document (parts_from (map part_of parts.now)) (E.node element.now) }
    ensures counts { tests.old ≤ tests.new }
{
    if parts.is_empty() {
        return false;
    }
    if parts.len() == 1 {
        return are_met(parts[0].conditions.as_slice(), element, tests);
    }
    is_placed(parts, element, tests)
}

/// Whether the element matches one of the complex selectors. The tests made are counted: each is one
/// of a compound selector on an element, but for lone ones of the list.
#[cycle(meeting)]
pub fn matches_any<E: Element>(selectors: &[Complex<'_>], element: &E, tests: &mut Tests) -> bool
    ensures answer { IsTrue result
        ↔ MatchesAny E.document (selectors_from (map complex_of selectors.now)) (E.node element.now) }
    ensures bounded { tests.new ≤ tests.old
        + list_cost E.document (selectors_from (map complex_of selectors.now)) (E.node element.now) }
    ensures counts { tests.old ≤ tests.new }
{
    for selector in selectors {
        if is_matched(selector.parts.as_slice(), element, tests) {
            return true;
        }
    }
    false
}

/// Whether the element satisfies the condition.
#[cycle(meeting)]
fn is_met<E: Element>(condition: &Condition<'_>, element: &E, tests: &mut Tests) -> bool
    ensures answer { IsTrue result ↔ IsMet E.document (condition_of condition.now) (E.node element.now) }
    ensures bounded { tests.new ≤ tests.old
        + condition_cost E.document (condition_of condition.now) (E.node element.now) }
    ensures counts { tests.old ≤ tests.new }
{
    match condition {
        Condition::Simple(simple) => holds(simple, element),
        Condition::Not(selectors) => !matches_any(selectors.as_slice(), element, tests),
        Condition::Is(selectors) | Condition::Where(selectors) => {
            matches_any(selectors.as_slice(), element, tests)
        }
        Condition::Tested(..) => false,
    }
}

/// Whether the element satisfies all conditions.
#[cycle(meeting)]
pub(crate) fn are_met<E: Element>(
    conditions: &[Condition<'_>],
    element: &E,
    tests: &mut Tests,
) -> bool
    ensures answer { IsTrue result ↔ AreMet E.document
        (conditions_from (map condition_of conditions.now)) (E.node element.now) }
    ensures bounded { tests.new ≤ tests.old + compound_cost E.document
        (conditions_from (map condition_of conditions.now)) (E.node element.now) }
    ensures counts { tests.old ≤ tests.new }
{
    for condition in conditions {
        if !is_met(condition, element, tests) {
            return false;
        }
    }
    true
}

/// Whether the element satisfies all conditions of the compound selector. The tests that their lists
/// make are counted.
pub fn meets<E: Element>(part: &Part<'_>, element: &E, tests: &mut Tests) -> bool
    ensures answer { IsTrue result ↔ AreMet E.document
        (conditions_from (part_of part.now).conditions) (E.node element.now) }
    ensures bounded { tests.new ≤ tests.old + compound_cost E.document
        (conditions_from (part_of part.now).conditions) (E.node element.now) }
    ensures counts { tests.old ≤ tests.new }
{
    are_met(part.conditions.as_slice(), element, tests)
}
