//! What a value means as far as names go (CSS Custom Properties for Cascading Variables 1): its
//! references `var(..)` are replaced by the values of custom properties, which may refer to others.
//!
//! Values are texts, and stay so.
#![tactic(auto)]

mod circles;
mod data;
mod drafts;
mod lines;
mod names;
mod pieces;
mod readings;
mod refused;
mod registering;
mod resolution;
mod seams;
mod setting;
mod table;
mod validity;
mod value_data;

pub use data::{INHERITED, LOGICAL, SHORTHANDS};
pub use drafts::Value;
pub use lines::{name_lines, properties_in, value_lines};
pub use names::{is_named_in, longhands_in, shorthands_in};
pub use refused::RefusedValues;
pub use registering::{Registration, read_registrations};
pub use setting::resolve;
pub use table::Property;
pub use validity::is_valid;
pub use value_data::{COLOR_WORDS, UNIT_CLASSES, VALUES};
