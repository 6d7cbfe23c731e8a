//! A C interface: selectors, style sheets, and which rules match the elements of a tree.
//!
//! Each function takes texts as a pointer and a length and writes its answer to the caller's buffer.
//! None keeps state but in the handles that its caller passes, so that any thread may call at any time.
//! `include/simplecss.h` documents them for callers, `simplecss_calls`, `list_calls`, `kept_pages`,
//! `kept_queries` and `kept_sheets` answer.
#![tactic(auto)]

mod clean;
mod edits;
mod exports;
mod html;
mod inline;
mod lists;
mod pages;
mod queries;
mod sheets;
