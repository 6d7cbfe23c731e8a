//! Answers on trees: the ready tree, the index of rules, and the loops and the tree of
//! `example_library`.

mod editing;
mod indexes;
mod loops;
mod own_tree;
mod tree;
