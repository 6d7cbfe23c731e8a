//! What of a selector decides whether its rules are written into attributes.

use css_matching::Combinator;
use css_selectors::{Complex, Condition, ListTest, Part, Selector, Simple, Structure};
use std::alloc::{AllocError, Global};

/// The pseudo-classes that every browser knows. A rule set whose selectors have others stays whole, since a
/// browser may drop all of it.
const KNOWN: &[&str] = &[
    "hover",
    "active",
    "focus",
    "focus-within",
    "focus-visible",
    "link",
    "visited",
    "any-link",
    "target",
    "enabled",
    "disabled",
    "checked",
    "required",
    "optional",
    "valid",
    "invalid",
    "read-only",
    "read-write",
];

/// The pseudo-elements that every browser knows.
const KNOWN_ELEMENTS: &[&str] = &[
    "before",
    "after",
    "first-line",
    "first-letter",
    "placeholder",
    "selection",
    "marker",
];

/// The ids and classes that mail clients add to a page, whose rules match nothing yet.
const CLIENT_IDS: &[&str] = &["outlook", "messageviewbody", "messagewebviewdiv", "body"];

const CLIENT_CLASSES: &[&str] = &[
    "externalclass",
    "readmsgbody",
    "yshortcuts",
    "moz-text-html",
];

/// How further classes and attributes begin that they add.
const CLIENT_CLASS_PREFIXES: &[&str] = &["gmail", "mso", "aolmail"];

const CLIENT_ATTRIBUTE_PREFIXES: &[&str] = &[
    "data-ogsc",
    "data-ogsb",
    "data-outlook-cycle",
    "x-apple-data-detectors",
    "owa",
];

/// What a selector has.
#[derive(Clone, Copy)]
pub(crate) struct Traits {
    /// Whether it matches the same elements in all states of the page.
    pub(crate) is_still: bool,
    /// Whether every browser knows its pseudo-classes, and it has no namespace.
    pub(crate) is_known: bool,
    /// Whether it asks the attribute `style`.
    pub(crate) asks_style: bool,
    /// Whether it has a name that mail clients add to a page.
    pub(crate) is_of_client: bool,
}

/// What a selector has that matches the same in all states.
const STILL: Traits = Traits {
    is_still: true,
    is_known: true,
    asks_style: false,
    is_of_client: false,
};

/// What a selector has that depends on a state that every browser knows.
const STATE: Traits = Traits {
    is_still: false,
    ..STILL
};

/// What a selector has that some browsers may not know.
const UNKNOWN: Traits = Traits {
    is_still: false,
    is_known: false,
    ..STILL
};

/// Returns what two parts of a selector have.
fn both(one: Traits, other: Traits) -> Traits {
    Traits {
        is_still: one.is_still && other.is_still,
        is_known: one.is_known && other.is_known,
        asks_style: one.asks_style || other.asks_style,
        is_of_client: one.is_of_client || other.is_of_client,
    }
}

/// Whether a word is one of some, in any case.
pub(crate) fn is_one_of(words: &[&str], word: &str) -> bool {
    words.iter().any(|each| word.eq_ignore_ascii_case(*each))
}

/// Whether a word begins as one of some, in any case.
fn begins_as(words: &[&str], word: &str) -> bool {
    words.iter().any(|each| match word.get(..each.len()) {
        Some(front) => front.eq_ignore_ascii_case(*each),
        None => false,
    })
}

/// Returns what a test of an attribute has.
fn of_attribute(name: &str) -> Traits {
    let asks_style = name.eq_ignore_ascii_case("style");
    Traits {
        is_still: !asks_style,
        asks_style,
        is_of_client: begins_as(CLIENT_ATTRIBUTE_PREFIXES, name),
        ..STILL
    }
}

/// Returns what a class has.
fn of_class(name: &str) -> Traits {
    Traits {
        is_of_client: is_one_of(CLIENT_CLASSES, name) || begins_as(CLIENT_CLASS_PREFIXES, name),
        ..STILL
    }
}

/// Returns what an id has.
fn of_id(name: &str) -> Traits {
    Traits {
        is_of_client: is_one_of(CLIENT_IDS, name),
        ..STILL
    }
}

/// Returns what a simple selector has.
fn of_simple(simple: &Simple<'_>) -> Traits {
    match simple {
        Simple::Universal | Simple::TypeName(_) => STILL,
        Simple::Id(name) => of_id(name.as_str()),
        Simple::Class(name) => of_class(name.as_str()),
        Simple::HasAttribute(name) => of_attribute(name.as_str()),
        Simple::Attribute(test) => of_attribute(test.name.as_str()),
        Simple::Structure(Structure::Scope) => UNKNOWN,
        Simple::Structure(_) => STILL,
        Simple::Language(_) => STATE,
        Simple::State(name) if is_one_of(KNOWN, name.as_str()) => STATE,
        Simple::State(_)
        | Simple::Function(_)
        | Simple::Element(_)
        | Simple::Nesting(_)
        | Simple::Namespaced(_) => UNKNOWN,
    }
}

/// Returns what a condition has.
#[cycle(traits)]
fn of_condition(condition: &Condition<'_>) -> Traits {
    match condition {
        Condition::Simple(simple) => of_simple(simple),
        Condition::Not(list) | Condition::Is(list) | Condition::Where(list) => {
            of_list(list.as_slice())
        }
        Condition::Tested(ListTest::Has, list) => both(STATE, of_list(list.as_slice())),
        Condition::Tested(_, list) => both(UNKNOWN, of_list(list.as_slice())),
    }
}

/// Returns what conditions have.
#[cycle(traits)]
fn of_conditions(conditions: &[Condition<'_>]) -> Traits {
    let mut found = STILL;
    for condition in conditions {
        found = both(found, of_condition(condition));
    }
    found
}

/// Returns what compound selectors have.
#[cycle(traits)]
fn of_parts(parts: &[Part<'_>]) -> Traits {
    let mut found = STILL;
    for part in parts {
        found = both(found, of_conditions(part.conditions.as_slice()));
    }
    found
}

/// Returns what the selectors of a list have.
#[cycle(traits)]
fn of_list(list: &[Complex<'_>]) -> Traits {
    let mut found = STILL;
    for selector in list {
        found = both(found, of_parts(selector.parts.as_slice()));
    }
    found
}

/// Whether a compound selector asks for the name `u`.
fn is_named_u(part: &Part<'_>) -> bool {
    part.conditions.iter().any(|condition| match condition {
        Condition::Simple(Simple::TypeName(name)) => name.as_str().eq_ignore_ascii_case("u"),
        _ => false,
    })
}

/// Whether `u +` is in the parts of a selector, before which mail clients put a doctype as a `u`.
fn has_u_before_plus(parts: &[Part<'_>]) -> bool {
    let mut is_after_u = false;
    for part in parts {
        if is_after_u && matches!(part.combinator, Combinator::Adjacent) {
            return true;
        }
        is_after_u = is_named_u(part);
    }
    false
}

/// Whether every browser knows the pseudo-element at the end of a selector, if it has one.
fn is_known_at_end(selector: &Selector<'_>) -> bool {
    match selector.pseudo_element() {
        Some(last) => {
            is_one_of(KNOWN_ELEMENTS, last.element.name.as_str()) && last.after.is_empty()
        }
        None => true,
    }
}

/// Returns what a selector has.
pub(crate) fn traits_of(selector: &Selector<'_>) -> Traits {
    let found = of_parts(selector.parts());
    Traits {
        is_of_client: found.is_of_client || has_u_before_plus(selector.parts()),
        is_known: found.is_known && is_known_at_end(selector),
        ..found
    }
}

/// Returns the conditions that elements meet or not in all states of the page.
fn still_conditions<'a>(
    alloc: Global,
    conditions: Vec<Condition<'a>>,
) -> Result<Vec<Condition<'a>>, AllocError> {
    let mut found = Vec::new(alloc);
    for condition in conditions {
        if of_condition(&condition).is_still {
            found.push(condition)?;
        }
    }
    Ok(found)
}

/// Returns a selector of these compound selectors, or one that matches all elements if there are none.
fn selector_of<'a>(alloc: Global, parts: Vec<Part<'a>>) -> Result<Selector<'a>, AllocError> {
    let mut parts = parts;
    if parts.is_empty() {
        parts.push(Part {
            combinator: Combinator::Descendant,
            conditions: Vec::new(alloc),
        })?;
    }
    Ok(Selector::new(parts, None))
}

/// Returns a selector that matches all elements.
pub(crate) fn any_element<'a>(alloc: Global) -> Result<Selector<'a>, AllocError> {
    selector_of(alloc, Vec::new(alloc))
}

/// Returns a selector that matches what another one matches in some state of the page.
pub(crate) fn widened<'a>(
    alloc: Global,
    selector: Selector<'a>,
) -> Result<Selector<'a>, AllocError> {
    let (parts, _) = selector.into_parts();
    let mut found = Vec::new(alloc);
    for part in parts {
        found.push(Part {
            combinator: part.combinator,
            conditions: still_conditions(alloc, part.conditions)?,
        })?;
    }
    selector_of(alloc, found)
}
