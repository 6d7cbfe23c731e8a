//! Lists of selectors that have a number.
use crate::{Complex, ListTest, Selector};

/// A list that has a number, and which elements are in it.
#[derive(Drop)]
pub enum MarkedList<'a> {
    /// Those that one of the selectors matches: what `&` denotes.
    Matched(Vec<Selector<'a>>),
    /// Those of which a pseudo-class with this list holds.
    Tested(ListTest, Vec<Complex<'a>>),
}
