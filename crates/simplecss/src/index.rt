//! An index of rules by the keys of their selectors, so that the rules that match an element are
//! found without asking each.
mod find;
mod keep;
mod last_by_bucket;
mod last_by_key;
pub mod laws;
mod link;
mod needed_keys;
mod only_key;
mod open_path;
mod recent;
mod rule_index;
mod rule_search;
mod texts;

pub use open_path::OpenPath;
pub use rule_index::RuleIndex;
pub use rule_search::RuleSearch;
