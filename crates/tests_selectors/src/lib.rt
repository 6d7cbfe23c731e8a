//! Tests of `css_selectors` that count tests, and of lists that have numbers. The crate has no item of
//! its own.
#![tactic(auto)]

#[cfg(test)]
mod counting;
#[cfg(test)]
mod marking;
