//! CSS 2.1: selectors and the elements that they match, declarations, and style sheets whose rules
//! are in the order of their specificity.
//!
//! <!-- from crates/example_first/src/main.rt -->
//! ```rust
//! for rule in &sheet.rules {
//!     if rule.selector.matches(&element) {
//!         for declaration in &rule.declarations {
//!             println!(rt; "{}: {}", declaration.name, declaration.value)?;
//!         }
//!     }
//! }
//! ```
#![tactic(auto)]

mod has_selector;
mod hints;
mod index;
pub mod laws;
mod place;
mod sheet;

pub use css_text::{Error, SheetError, TextPos, stream};
pub use has_selector::HasSelector;
pub use hints::{Hint, HintKind, find_hints, rest_of_open_value};
pub use index::{OpenPath, RuleIndex, RuleSearch};
pub use place::Place;
pub use sheet::{Reading, Rule, Statement, StatementReader, StyleSheet, find_skipped};
pub use simplecss_declaration::{Declaration, DeclarationTokenizer};
pub use simplecss_grammar::report::{Kept, Refusal, Report, Silent, Skipped, Why};
pub use simplecss_selector::{
    AttributeOperator, Bucket, Element, Exact, Key, Keyed, ListRefusal, PseudoClass, Selector,
    SelectorToken, SelectorTokenizer, Tests, Warnings, refused_pos,
};
