//! Declarations of CSS 2.1, their tokenizer, and the blocks that contain them. Users depend on the
//! crate `simplecss`, which re-exports declarations and tokenizer.
#![tactic(auto)]

mod blocks;
mod declarations;
mod printing;
mod reader;
mod terms;
mod tokenizer;

pub use blocks::{consume_next_block, skip_semicolon_or_block, take_in_block};
pub use declarations::Declaration;
pub use reader::{find_value, find_value_end};
pub use tokenizer::DeclarationTokenizer;
