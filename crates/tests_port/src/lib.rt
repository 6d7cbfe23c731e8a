//! Tests of the libraries that `cssq` is made of, and of the ready tree, where no program shows what is
//! asked: warnings, limits, edited sheets, writers that fail, and how often elements are tested. The
//! crate has no item of its own, so that no library is proved twice for its tests.
#![tactic(auto)]

#[cfg(test)]
mod counted;
#[cfg(test)]
mod matching;
#[cfg(test)]
mod printed;
#[cfg(test)]
mod program;
#[cfg(test)]
mod reading;
#[cfg(test)]
mod same;
