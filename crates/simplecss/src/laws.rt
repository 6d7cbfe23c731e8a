//! Laws that the definitions keep, each the contract of a function that does nothing. A proof calls
//! the function to have the law; a program need not.
//!
//! Of texts: what comments and blanks are, that all that is not read is skipped, what is
//! skipped of a text in pieces and of a printed sheet, and equality of positions, errors and
//! cursors. Of selectors: their tokens, their components, their keys, printing, equality, and that
//! elements which mean the same get the same answers. Of sheets: the order of rules, what a rule's
//! index means, reading a text in pieces, and equality of rules and declarations. Of an index: that
//! it finds what asking each rule finds.

pub use crate::index::laws::{answers_law, leave_law};
pub use crate::sheet::laws::{
    cutting_law, edition_law, equality_laws, index_in_sheet_law, order_laws, sheet_law,
};
pub use simplecss_grammar::laws::{
    blank_is_cut, blank_is_longest, comment_is_closed, nothing_is_lost, open_comment_breaks_blank,
    printed_skips_nothing, skips_are_cut, space_bytes_are_parts, text_equality_laws,
};
pub use simplecss_selector::laws::{at_most_two_errors, token_equality_law};
pub use simplecss_selector::{
    ancestor_keys_law, bucket_law, components_law, key_equality_law, key_law,
    operator_equality_laws, printing_law, reported_near_law, same_meanings_law,
    selector_equality_law,
};
