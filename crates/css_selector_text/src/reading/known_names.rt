//! The names of pseudo-classes and pseudo-elements.
ghost use Rattle.std.specs.Prelude.{◌≡◌, map};
ghost use Rattle.std.specs.Str.{str_eq_ignore_ascii_case};
ghost use Rattle.css_selector_text.specs.reading.KnownNames.{is_one_of as is_one_of_names, known_states, known_elements, known_element_functions};
ghost use Rattle.css_selector_text.specs.reading.KnownNames.{states, functions, elements, element_functions};
ghost use Rattle.css_selector_text.specs.reading.KnownNames.{is_element as is_element_name};
ghost use Rattle.css_selector_text.specs.NameViews.{names_of};

use crate::bytes::begins;
use crate::names::Names;

/// The pseudo-classes without an argument with up to 4 bytes.
const STATES_UP_TO_4: [&str; 5] = ["end", "host", "link", "open", "past"];

/// The pseudo-classes without an argument with 5 bytes.
const STATES_OF_5: [&str; 5] = ["focus", "hover", "modal", "start", "valid"];

/// The pseudo-classes without an argument with 6 to 7 bytes.
const STATES_UP_TO_7: [&str; 11] = [
    "active", "checked", "current", "default", "defined", "enabled", "future", "granted",
    "invalid", "target", "visited",
];

/// The pseudo-classes without an argument with 8 bytes.
const STATES_OF_8: [&str; 7] = [
    "any-link", "autofill", "disabled", "in-range", "optional", "required", "vertical",
];

/// The pseudo-classes without an argument with 9 to 10 bytes.
const STATES_UP_TO_10: [&str; 10] = [
    "decrement",
    "fullscreen",
    "horizontal",
    "increment",
    "no-button",
    "read-only",
    "read-write",
    "unbounded",
    "user-valid",
    "xr-overlay",
];

/// The pseudo-classes without an argument with 11 to 12 bytes.
const STATES_UP_TO_12: [&str; 6] = [
    "-webkit-drag",
    "focus-within",
    "out-of-range",
    "popover-open",
    "target-after",
    "user-invalid",
];

/// The pseudo-classes without an argument with 13 to 14 bytes.
const STATES_UP_TO_14: [&str; 7] = [
    "corner-present",
    "double-button",
    "focus-visible",
    "indeterminate",
    "single-button",
    "target-before",
    "target-current",
];

/// The pseudo-classes without an argument with more than 14 bytes.
const STATES_LONGER: [&str; 12] = [
    "-webkit-any-link",
    "-webkit-autofill",
    "-webkit-full-page-media",
    "-webkit-full-screen",
    "-webkit-full-screen-ancestor",
    "active-view-transition",
    "interest-source",
    "interest-target",
    "navigation-source",
    "picture-in-picture",
    "placeholder-shown",
    "window-inactive",
];

/// The functional pseudo-classes without a meaning here.
const FUNCTIONS: [&str; 6] = [
    "-webkit-any",
    "active-view-transition-type",
    "dir",
    "host",
    "host-context",
    "state",
];

/// The pseudo-elements without an argument with up to 6 bytes.
const ELEMENTS_UP_TO_6: [&str; 5] = ["after", "before", "column", "cue", "marker"];

/// The pseudo-elements without an argument with 7 to 10 bytes.
const ELEMENTS_UP_TO_10: [&str; 4] = ["backdrop", "checkmark", "first-line", "selection"];

/// The pseudo-elements without an argument with 11 to 12 bytes.
const ELEMENTS_UP_TO_12: [&str; 5] = [
    "first-letter",
    "picker-icon",
    "placeholder",
    "search-text",
    "target-text",
];

/// The pseudo-elements without an argument with 13 to 14 bytes.
const ELEMENTS_UP_TO_14: [&str; 4] = [
    "grammar-error",
    "scroll-marker",
    "select-listbox",
    "spelling-error",
];

/// The pseudo-elements without an argument with more than 14 bytes.
const ELEMENTS_LONGER: [&str; 6] = [
    "details-content",
    "file-selector-button",
    "interest-button",
    "permission-icon",
    "scroll-marker-group",
    "view-transition",
];

/// The pseudo-elements with an argument with up to 9 bytes.
const ELEMENT_FUNCTIONS_UP_TO_9: [&str; 5] = ["cue", "highlight", "part", "picker", "slotted"];

/// The pseudo-elements with an argument with 10 to 19 bytes.
const ELEMENT_FUNCTIONS_UP_TO_19: [&str; 3] = [
    "scroll-button",
    "view-transition-new",
    "view-transition-old",
];

/// The pseudo-elements with an argument with more than 19 bytes.
const ELEMENT_FUNCTIONS_LONGER: [&str; 3] = [
    "view-transition-group",
    "view-transition-group-children",
    "view-transition-image-pair",
];

/// Whether both are the same name.
fn is_same(name: &str, other: &str) -> bool
    ensures { result ≡ str_eq_ignore_ascii_case name.now other.now }
{
    name.eq_ignore_ascii_case(other)
}

/// Whether this is one of the names.
fn is_one_of(names: &[&str], name: &str) -> bool
    ensures { result ≡ is_one_of_names (map (λ one. one.now) names.now) name.now }
{
    let mut rest = names;
    'names: while let [one, more @ ..] = rest {
        if is_same(name, *one) {
            return true;
        }
        rest = more;
    }
    false
}

/// Whether a pseudo-class without an argument that is neither structural nor `:scope` has this name, be
/// it a declared one.
pub(crate) fn is_state(names: &Names<'_>, name: &str) -> bool
    ensures { result ≡ is_one_of_names (states (names_of names.now)) name.now }
{
    is_known_state(name) || is_one_of(names.states, name)
}

/// Whether this is one of the known names of such pseudo-classes.
fn is_known_state(name: &str) -> bool
    ensures { result ≡ is_one_of_names known_states name.now }
{
    match name.len() {
        0..=4 => is_one_of(&STATES_UP_TO_4, name),
        5 => is_one_of(&STATES_OF_5, name),
        6..=7 => is_one_of(&STATES_UP_TO_7, name),
        8 => is_one_of(&STATES_OF_8, name),
        9..=10 => is_one_of(&STATES_UP_TO_10, name),
        11..=12 => is_one_of(&STATES_UP_TO_12, name),
        13..=14 => is_one_of(&STATES_UP_TO_14, name),
        _ => is_one_of(&STATES_LONGER, name),
    }
}

/// Whether a functional pseudo-class without a meaning here has this name, be it a declared one.
#[tactic(auto, using(crate::proofs::KnownLemmas::or_declared))]
pub(crate) fn is_function(names: &Names<'_>, name: &str) -> bool
    ensures { result ≡ is_one_of_names (functions (names_of names.now)) name.now }
{
    is_one_of(&FUNCTIONS, name) || is_one_of(names.functions, name)
}

/// Whether a pseudo-element without an argument has this name, be it a declared one.
pub(crate) fn is_element(names: &Names<'_>, name: &str) -> bool
    ensures { result ≡ is_element_name (names_of names.now) name.now }
{
    is_plain_element(names, name) || begins(true, b"-webkit-", name.as_bytes())
}

/// Whether this is one of the known or declared names of pseudo-elements without an argument.
fn is_plain_element(names: &Names<'_>, name: &str) -> bool
    ensures { result ≡ is_one_of_names (elements (names_of names.now)) name.now }
{
    is_known_element(name) || is_one_of(names.elements, name)
}

/// Whether this is one of the known names of pseudo-elements without an argument.
fn is_known_element(name: &str) -> bool
    ensures { result ≡ is_one_of_names known_elements name.now }
{
    match name.len() {
        0..=6 => is_one_of(&ELEMENTS_UP_TO_6, name),
        7..=10 => is_one_of(&ELEMENTS_UP_TO_10, name),
        11..=12 => is_one_of(&ELEMENTS_UP_TO_12, name),
        13..=14 => is_one_of(&ELEMENTS_UP_TO_14, name),
        _ => is_one_of(&ELEMENTS_LONGER, name),
    }
}

/// Whether a pseudo-element with an argument has this name, be it a declared one.
#[tactic(auto, using(crate::proofs::KnownLemmas::or_declared))]
pub(crate) fn is_element_function(names: &Names<'_>, name: &str) -> bool
    ensures { result ≡ is_one_of_names (element_functions (names_of names.now)) name.now }
{
    is_known_element_function(name) || is_one_of(names.element_functions, name)
}

/// Whether this is one of the known names of pseudo-elements with an argument.
fn is_known_element_function(name: &str) -> bool
    ensures { result ≡ is_one_of_names known_element_functions name.now }
{
    match name.len() {
        0..=9 => is_one_of(&ELEMENT_FUNCTIONS_UP_TO_9, name),
        10..=19 => is_one_of(&ELEMENT_FUNCTIONS_UP_TO_19, name),
        _ => is_one_of(&ELEMENT_FUNCTIONS_LONGER, name),
    }
}
