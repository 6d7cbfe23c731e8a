//! Policies to begin with, as data.
//!
//! [`mail`] has properties of Gmail's list of supported CSS
//! (<https://developers.google.com/workspace/gmail/design/css>): those that are properties of a CSS
//! specification, request nothing, and neither place nor move a box over others. So it has no `position`,
//! `z-index`, `transform`, `filter`, `animation`, `content` and `cursor`. [`comment`] has those of them that
//! change no box, for comments. Functions are colours (CSS Color 4) and arithmetic (CSS Values 4); none
//! reads a property, an attribute or a url. Margins and indents of [`mail`] are not below zero, as in Gmail's, and at
//! most 1,000 pixels. Pseudo-classes are those of CSS 2.1 and of Selectors 4 that look
//! at no state but that of links, of the pointer and of forms.
use crate::policy::Policy;
use crate::selectors::SheetPolicy;
use clean_values::changes::Changes;
use clean_values::limits::Limits;

/// The most bytes of a text by these policies.
const LONGEST: usize = 262144;

/// Properties for the bodies of mails.
const MAIL: [&str; 73] = [
    "background",
    "background-color",
    "background-position",
    "background-repeat",
    "background-size",
    "border",
    "border-bottom",
    "border-bottom-color",
    "border-bottom-style",
    "border-bottom-width",
    "border-collapse",
    "border-color",
    "border-left",
    "border-left-color",
    "border-left-style",
    "border-left-width",
    "border-radius",
    "border-right",
    "border-right-color",
    "border-right-style",
    "border-right-width",
    "border-spacing",
    "border-style",
    "border-top",
    "border-top-color",
    "border-top-style",
    "border-top-width",
    "border-width",
    "box-sizing",
    "caption-side",
    "clear",
    "color",
    "direction",
    "display",
    "empty-cells",
    "float",
    "font",
    "font-family",
    "font-size",
    "font-style",
    "font-variant",
    "font-weight",
    "height",
    "letter-spacing",
    "line-height",
    "list-style",
    "list-style-position",
    "list-style-type",
    "margin",
    "margin-bottom",
    "margin-left",
    "margin-right",
    "margin-top",
    "max-height",
    "max-width",
    "min-height",
    "min-width",
    "overflow",
    "overflow-wrap",
    "padding",
    "padding-bottom",
    "padding-left",
    "padding-right",
    "padding-top",
    "table-layout",
    "text-align",
    "text-decoration",
    "text-indent",
    "text-transform",
    "vertical-align",
    "white-space",
    "width",
    "word-break",
];

/// Properties for comments.
const COMMENT: [&str; 19] = [
    "background-color",
    "color",
    "direction",
    "font",
    "font-family",
    "font-size",
    "font-style",
    "font-variant",
    "font-weight",
    "letter-spacing",
    "line-height",
    "list-style-type",
    "overflow-wrap",
    "text-align",
    "text-decoration",
    "text-transform",
    "vertical-align",
    "white-space",
    "word-break",
];

/// Properties of mails whose values have limits.
const MAIL_LIMITED: [&str; 6] = [
    "margin",
    "margin-bottom",
    "margin-left",
    "margin-right",
    "margin-top",
    "text-indent",
];

/// The limit of each of these.
const MAIL_LIMITS: [&str; 6] = [MARGIN, MARGIN, MARGIN, MARGIN, MARGIN, MARGIN];

/// The numbers between which margins are, and the words that they may be.
const MARGIN: &str = "0,1000,auto,inherit,initial,revert,revert-layer,unset";

/// Functions of values.
const FUNCTIONS: [&str; 12] = [
    "calc", "clamp", "hsl", "hsla", "hwb", "lab", "lch", "max", "min", "oklch", "rgb", "rgba",
];

/// Properties of which values may have strings.
const STRINGS: [&str; 2] = ["font", "font-family"];

/// Pseudo-classes and pseudo-elements.
const PSEUDOS: [&str; 20] = [
    "active",
    "after",
    "before",
    "checked",
    "disabled",
    "empty",
    "first-child",
    "first-of-type",
    "focus",
    "hover",
    "is",
    "last-child",
    "last-of-type",
    "link",
    "not",
    "nth-child",
    "nth-of-type",
    "only-child",
    "visited",
    "where",
];

/// Words of media queries.
const MEDIA: [&str; 16] = [
    "all",
    "and",
    "dark",
    "landscape",
    "light",
    "max-device-width",
    "max-width",
    "min-device-width",
    "min-width",
    "not",
    "only",
    "orientation",
    "portrait",
    "prefers-color-scheme",
    "print",
    "screen",
];

/// Properties of which the words are names that a sheet gives: of keyframes (CSS Animations 1), of counters (CSS
/// Lists 3), of containers (CSS Conditional Rules 5) and of parts of transitions (CSS View Transitions 1).
const NAMED: [&str; 6] = [
    "animation-name",
    "container-name",
    "counter-increment",
    "counter-reset",
    "counter-set",
    "view-transition-name",
];

/// Words that are no names there: those of all properties (CSS Cascade 5), and those of these.
const WORDS: [&str; 8] = [
    "auto",
    "inherit",
    "initial",
    "none",
    "normal",
    "revert",
    "revert-layer",
    "unset",
];

/// Returns a policy of these properties, with these limits.
fn policy_of<'p>(properties: &'p [&'p str], limits: Limits<'p>, scope: &'p str) -> SheetPolicy<'p> {
    SheetPolicy {
        declarations: Policy {
            properties,
            functions: &FUNCTIONS,
            strings: &STRINGS,
            important: true,
            limits,
            longest: LONGEST,
            changes: Changes {
                urls: &[],
                answers: &[],
                prefix: "",
                named: &NAMED,
                words: &WORDS,
            },
        },
        scope,
        itself: false,
        pseudos: &PSEUDOS,
        media: &MEDIA,
    }
}

/// Returns a policy for the bodies of mails, within the elements of a scope.
pub fn mail<'p>(scope: &'p str) -> SheetPolicy<'p> {
    let limits = Limits {
        properties: &MAIL_LIMITED,
        limits: &MAIL_LIMITS,
    };
    policy_of(&MAIL, limits, scope)
}

/// Returns a policy for comments, within the elements of a scope.
pub fn comment<'p>(scope: &'p str) -> SheetPolicy<'p> {
    let limits = Limits {
        properties: &[],
        limits: &[],
    };
    policy_of(&COMMENT, limits, scope)
}
