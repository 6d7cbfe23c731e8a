//! Conditions of style sheets: media queries, and the conditions of `@supports`.
//!
//! A condition is read and decided at once, in time proportional to its length. Only `Supported` may
//! allocate.
#![tactic(auto)]

mod amounts;
mod answers;
mod calculations;
mod conditions;
mod device;
mod features;
mod media;
mod quantities;
mod supports;
mod truth;
mod values;
mod words;

pub use answers::{Features, Supported};
pub use device::{Contrast, Device, Display, Gamut, Medium, Pointer, Scripting, Update};
pub use media::media_says;
pub use supports::supports_holds;
pub use truth::{Comparison, Truth, truth_of};
