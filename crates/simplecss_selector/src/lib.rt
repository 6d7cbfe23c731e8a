//! Selectors of CSS 2.1: their tokens, their printed text and specificity, and matching elements.
#![tactic(auto)]

mod bucket;
mod draft;
mod element;
mod element_laws;
mod equality;
mod exact;
mod key;
mod key_laws;
mod keyed;
pub mod laws;
mod list;
mod matching;
mod operator;
mod operator_laws;
mod printing;
mod pseudo_class;
mod reading;
mod selector;
mod specificity;
mod token;
mod tokenizer;
mod warnings;

pub use bucket::Bucket;
pub use css_matching::Tests;
pub use element::Element;
pub use element_laws::{components_law, same_meanings_law};
pub use equality::{printing_law, selector_equality_law};
pub use exact::Exact;
pub use key::Key;
pub use key_laws::{ancestor_keys_law, bucket_law, key_equality_law, key_law, reported_near_law};
pub use keyed::Keyed;
pub use list::{ListRefusal, refused_pos};
pub use operator::AttributeOperator;
pub use operator_laws::operator_equality_laws;
pub use pseudo_class::PseudoClass;
pub use selector::Selector;
pub use token::SelectorToken;
pub use tokenizer::SelectorTokenizer;
pub use warnings::Warnings;
