//! Modern selectors (Selectors Level 4) as texts: all of Level 3, the flags `i` and `s`, `:is()`,
//! `:where()`, `:not()` and `:has()` with lists of complex selectors, lists after `An+B`, and `:lang()` with
//! lists of ranges. What is no selector is left out of `:is()` and `:where()`, which may be empty.
//! What selectors mean on elements is in `css_selectors`.
//!
//! `Selector::parse` and `parse_list` read a text as `specs/reading/Grammar` says, or report why and where it
//! is refused. Names, keywords and strings are what their escapes spell, with U+FFFD in place of U+0000,
//! comments may be between any two tokens, and the end of the text closes what is open. At the end of a
//! selector `before`, `after`, `first-line` and `first-letter` are pseudo-elements after one colon, too
//! (Selectors 3, section 7). A selector can also be made of its components. It prints as CSSOM serializes
//! it, a pseudo-element with two colons, and one that was read reads back from that text.
//!
//! A pseudo-class or pseudo-element whose name is in none of the lists of `specs/reading/KnownNames` is
//! refused, unless the caller declares it: `read_list_in` takes its `Names`. Every pseudo-element without an
//! argument that begins with `-webkit-` is read.
//!
//! `Names` also declares namespaces, which are numbers: prefixes, and the default one. A prefix that is not
//! declared is refused. Where a default namespace is declared, a type selector without a prefix is in it,
//! and so is a compound selector without a type selector, but for the subjects of the selectors of `:is()`,
//! `:where()`, `:not()` and `:has()` (`specs/reading/Defaults`). `[a]` and `[|a]` are of the attribute in no
//! namespace, whatever the default namespace is, `[n|a]` of one in the namespace of `n`, and `[*|a]` of any
//! of them.
//!
//! A pseudo-element may have an argument, and pseudo-classes and further pseudo-elements after it. Its
//! argument, and that of a pseudo-class that has no meaning here, is kept as it is written. A selector
//! with one of these, or with `:host`, is unsupported: `parse` refuses it as such, and
//! `read_list` reads it.
//!
//! `&` stands for a list of selectors by its number. `parse` reads it as what it is outside of nested rules,
//! `:scope`. `parse_nested_list` reads the list of a nested rule, whose selectors may begin with a
//! combinator (CSS Nesting 1).
//!
//! Lists may be 32 deep within one another. A selector with combinators in a list of another that is
//! in a list is unsupported. A selector has a specificity.
#![tactic(auto)]

pub mod bytes;
mod components;
mod has_selector;
mod names;
mod originating;
mod printing;
mod progression;
mod reading;
mod refusal;
mod refusal_words;
mod selector;
mod specificity;

pub use components::{
    AttributeTest, Comparison, Complex, Condition, ElementName, FunctionCall, ListTest, Local,
    Namespace, Namespaced, Nesting, OUTERMOST, Part, Progression, PseudoElement, Signed, Simple,
    Structure,
};
pub use css_matching::Combinator;
pub use has_selector::HasSelector;
pub use names::{NO_NAMES, Names, Prefix, UNKNOWN_NAMESPACE, number_of};
pub use printing::escaping::{escape, quote};
pub use reading::directions::direction_state;
pub use reading::namespaces::is_absent;
pub use refusal::{Refusal, Why};
pub use selector::{Listed, Selector};
pub use specificity::{NOTHING, Specificity, greater, greatest, of_test};
