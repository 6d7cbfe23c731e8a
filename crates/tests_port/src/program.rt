//! The libraries under the program `cssq`: its trees, winners, runs and warnings, and how often elements
//! are tested.

mod cascade;
mod counted_searches;
mod counting;
mod failing_writers;
mod page;
mod runs;
mod skipped;
