//! Whether a selector has a meaning here.
ghost use Rattle.std.specs.Prelude.{◌≡◌, ◌&&◌, true, map, option_map};
ghost use Rattle.css_selector_text.specs.Components.{conditions_from, parts_from, selectors_from};
ghost use Rattle.css_selector_text.specs.reading.Supported.{is_known_namespace as is_known_namespace_of};
ghost use Rattle.css_selector_text.specs.reading.Supported.{is_supported_simple as is_supported_simple_of, is_supported as is_supported_condition};
ghost use Rattle.css_selector_text.specs.reading.Supported.{have_meaning as have_meaning_of, parts_supported as parts_supported_of, are_supported as are_supported_of};
ghost use Rattle.css_selector_text.specs.reading.SearchCounts.{search_count as search_count_of};
ghost use Rattle.css_selector_text.specs.reading.Supported.{is_plain_element as is_plain_element_of};
ghost use Rattle.css_selector_text.specs.Views.{namespace_of, simple_of, complex_of, condition_of, part_of, pseudo_element_of};

use crate::names::UNKNOWN_NAMESPACE;
use crate::reading::directions::direction_state;
use crate::{Complex, Condition, Namespace, Part, PseudoElement, Selector, Simple};

/// How many selectors with combinators that stand in lists may be within one another. Their tests
/// multiply.
const DEEPEST_JOINED: usize = 1;

/// Whether the namespace is known.
fn is_known_namespace(namespace: &Namespace<'_>) -> bool
    ensures { result ≡ is_known_namespace_of (namespace_of namespace.now) }
{
    match namespace {
        Namespace::Prefix(_, number) => *number != UNKNOWN_NAMESPACE,
        Namespace::Absent | Namespace::Any | Namespace::Default(_) => true,
    }
}

/// Whether the simple selector has a meaning.
fn is_supported_simple(simple: &Simple<'_>) -> bool
    ensures { result ≡ is_supported_simple_of (simple_of simple.now) }
{
    match simple {
        Simple::State(name) => !name.as_str().eq_ignore_ascii_case("host"),
        Simple::Function(call) => {
            direction_state(call.name.as_str(), call.argument.as_str()).is_some()
        }
        Simple::Element(_) => false,
        Simple::Namespaced(namespaced) => is_known_namespace(&namespaced.namespace),
        Simple::Universal
        | Simple::TypeName(_)
        | Simple::Id(_)
        | Simple::Class(_)
        | Simple::HasAttribute(_)
        | Simple::Attribute(_)
        | Simple::Structure(_)
        | Simple::Language(_)
        | Simple::Nesting(_) => true,
    }
}

/// Whether both hold.
fn both(one: bool, other: bool) -> bool
    ensures { result ≡ one && other }
{
    one && other
}

/// Returns the number of searches that a selector of a list makes of its own: one, if it has a
/// combinator.
fn search_count(parts: &[Part<'_>]) -> usize
    ensures { result ≡ search_count_of (parts_from (map part_of parts.now)) }
{
    match parts {
        [] | [_] => 0,
        _ => 1,
    }
}

/// Whether all complex selectors of a list have a meaning, and at most `left` of them and of those in
/// their lists that have combinators are within one another.
#[cycle(supporting)]
fn are_supported(left: usize, selectors: &[Complex<'_>]) -> bool
    ensures { result ≡ are_supported_of left true (selectors_from (map complex_of selectors.now)) }
{
    let mut all = true;
    for selector in selectors {
        let parts = selector.parts.as_slice();
        let searches = search_count(parts);
        let so_far = both(all, searches <= left);
        all = parts_supported(left.saturating_sub(searches), so_far, parts);
    }
    all
}

/// Whether the condition has a meaning.
#[cycle(supporting)]
fn is_supported(left: usize, condition: &Condition<'_>) -> bool
    ensures { result ≡ is_supported_condition left (condition_of condition.now) }
{
    match condition {
        Condition::Simple(simple) => is_supported_simple(simple),
        Condition::Not(selectors) | Condition::Is(selectors) | Condition::Where(selectors) => {
            are_supported(left, selectors.as_slice())
        }
        Condition::Tested(_, selectors) => {
            are_supported(DEEPEST_JOINED + 1, selectors.as_slice())
        }
    }
}

/// Whether this holds, and the conditions have a meaning.
#[cycle(supporting)]
fn have_meaning(left: usize, so_far: bool, conditions: &[Condition<'_>]) -> bool
    ensures { result
        ≡ have_meaning_of left so_far (conditions_from (map condition_of conditions.now)) }
{
    let mut all = so_far;
    for condition in conditions {
        all = both(all, is_supported(left, condition));
    }
    all
}

/// Whether this holds, and the parts have a meaning.
#[cycle(supporting)]
fn parts_supported(left: usize, so_far: bool, parts: &[Part<'_>]) -> bool
    ensures { result ≡ parts_supported_of left so_far (parts_from (map part_of parts.now)) }
{
    let mut all = so_far;
    for part in parts {
        all = have_meaning(left, all, part.conditions.as_slice());
    }
    all
}

/// Whether it is a pseudo-element without an argument, which nothing follows, or none.
fn is_plain_element(element: Option<&PseudoElement<'_>>) -> bool
    ensures { result
        ≡ is_plain_element_of (option_map (λ e. pseudo_element_of e.now) element.entry) }
{
    match element {
        Some(element) => element.element.argument.is_none() && element.after.is_empty(),
        None => true,
    }
}

impl<'a> Selector<'a> {
    ghost use Rattle.css_selector_text.specs.reading.Supported.{is_supported_selector};

    /// Whether the selector has a meaning here. A pseudo-class or a pseudo-element with an argument that
    /// is kept as it is written has none, nor has `:host`, what is in a namespace that is not known, or what
    /// follows a pseudo-element. Nor has a selector with combinators in a list of another that is in a list:
    /// their tests multiply. The selectors of `:has()`, and those after `An+B`, are as selectors that are in
    /// no list.
    pub fn is_supported(&self) -> bool
        ensures { result ≡ is_supported_selector self.now }
    {
        both(
            parts_supported(DEEPEST_JOINED, true, self.parts.as_slice()),
            is_plain_element(self.pseudo_element.as_ref()),
        )
    }
}
