//! Reads style sheets by the rules of CSS Syntax Module Level 3 (Candidate Recommendation of 2021):
//! component values of any balanced tokens (section 5.4.7), declarations each on its own (5.4.5 and
//! 5.4.6), rule sets and at-rules (5.4.1 to 5.4.3).
//!
//! What is read are slices of the text, as written. Every text is read, in time proportional to its
//! length. No function calls itself, and nothing is allocated. At most 64 brackets may be open at
//! once.
#![tactic(auto)]

pub mod blocks;
pub mod closing;
pub mod component_values;
pub mod declarations;
pub mod escapes;
pub mod laws;
pub mod names;
pub mod parts;
pub mod places;
mod plain;
pub mod printing;
pub mod quality;
pub mod statements;
pub mod texts;
pub mod tokenizer;
pub mod tokens;

pub use closing::closed_value;
pub use declarations::{Declaration, Declarations, Item, ListPart};
pub use escapes::{decode, decode_string};
pub use names::{Name, NameKind, read_names};
pub use printing::DeclarationList;
pub use quality::{Fault, Quality};
pub use statements::{AtRule, Block, Prelude, RuleSet, SheetPart, Statement, Statements};
pub use tokenizer::{Token, TokenKind, Tokenizer};
