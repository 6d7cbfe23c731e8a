//! Code as a user writes it over `simplecss` only: loops and chains over the tokenizers and
//! statements, sheets that are edited, and a tree of the user's own. Nothing here has a measure or
//! an invariant. One function has a proof file, `editing::reads_back`: it joins the contracts of
//! printing, of reading and of `==`.
#![tactic(auto)]

pub mod editing;
pub mod own_tree;
pub mod statements;
pub mod tokens;
