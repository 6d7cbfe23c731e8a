//! What modern selectors mean on elements. They are read and printed by `css_selector_text`, whose types
//! this crate passes on.
//!
//! [`Matching::matches`] is true exactly if there is a placement: an element for each compound selector,
//! related as the combinators say. An element is any type with the trait [`Element`]. It answers which
//! namespace it is in, and which attributes in namespaces it has.
//!
//! `&` stands for a list of selectors by its number, and `:has()` and a list after `An+B` are answered for all
//! elements of a document at once: [`Numbering`] puts the number of their list in place of them. One element does not
//! answer these, and [`Matching::matches`] then returns `None`. An element of a page that is marked with the lists
//! ([`MarkedList`]) says in which it is, and what is in [`on_marked`] asks it.
//!
//! Each element that a selector matches has one of the selector's keys ([`push_keys`]), by which an index
//! finds the selectors that an element may match.
#![tactic(auto)]

mod after_key;
mod ancestor_keys;
mod attributes;
mod element;
mod key;
mod key_laws;
mod marked_list;
mod matching;
mod matching_laws;
mod meeting;
mod nesting_laws;
mod numbering;
mod numbering_laws;
mod occurrences;
pub mod on_marked;
mod page_needs;

pub use after_key::begins_with_key;
pub use ancestor_keys::{is_only_keys, push_ancestor_keys, push_parent_keys};
pub use css_matching::Tests;
pub use css_selector_text::{
    AttributeTest, Combinator, Comparison, Complex, Condition, ElementName, FunctionCall, ListTest,
    Listed, Local, NO_NAMES, NOTHING, Names, Namespace, Namespaced, Nesting, OUTERMOST, Part,
    Prefix, Progression, PseudoElement, Refusal, Selector, Signed, Simple, Specificity, Structure,
    UNKNOWN_NAMESPACE, Why, escape, greater, number_of, quote,
};
pub use element::{Element, NamespacedAttribute};
pub use key::{Key, push_keys};
pub use marked_list::MarkedList;
pub use matching::Matching;
pub use numbering::Numbering;
pub use page_needs::{needs_page, some_needs_page};
