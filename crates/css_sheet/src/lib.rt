//! Reads modern style sheets statement by statement, over `css_syntax`: the rule sets of a sheet
//! and of the blocks of its group rules such as `@media`, in source order, each with the group
//! rules that it is in. Whether the condition of a group rule holds is for the caller to decide.
//!
//! `read_sheets` returns the style rules of several sheets in the order of the cascade. `print_sheet` prints a
//! sheet, and what it returns says the same.
//!
//! The `@namespace` rules of a sheet declare prefixes and the default namespace of its selectors (CSS Namespaces
//! 3). `read_sheets` reads each sheet with what it declares; for `read_listed` and `read_selectors`
//! `SheetNamespaces::read` reads it.
#![tactic(auto)]

mod gathering;
mod groups;
mod import_rules;
mod imports;
pub mod laws;
mod namespace_rules;
mod namespaces;
mod nested_selectors;
mod open_layers;
mod parents;
mod parts;
mod pieces;
mod printing;
mod reader;
mod said;
mod selectors;
mod sheet_contents;
mod sheet_error;
mod sheet_namespaces;
mod sheet_order;
mod sheet_rules;
mod state;
mod words;

pub use import_rules::{Import, ImportLayer, ImportUrl};
pub use imports::read_imports;
pub use namespaces::{DeclaredNamespaces, SheetNamespaces};
pub use parts::{Part, RuleKind};
pub use printing::{Layout, print_sheet};
pub use selectors::{RuleSelector, read_listed, read_selectors, read_supported, rule_selector};
pub use sheet_contents::{PlacedPart, read_contents};
pub use sheet_error::SheetError;
pub use sheet_order::{SheetRules, read_sheet, read_sheets};
pub use sheet_rules::{GroupRule, Sheet, SheetRule};
pub use state::{Level, Places, SheetReader};
