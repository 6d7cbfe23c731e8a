//! The elements that are open while a tree is walked in order, each as the numbers of the keys that it
//! has. Whether some open element has a key, and whether the last one has, is one look each, however
//! many elements are open and however many keys they have.
//!
//! It knows no keys, no selectors and no elements: an index numbers the keys that its rules need of
//! ancestors and parents, and says of each element that is entered which of them it has.
#![tactic(auto)]

mod numbers;
mod open_elements;

pub use numbers::Numbers;
pub use open_elements::OpenElements;
