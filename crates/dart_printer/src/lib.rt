//! Writes the canonical text of a tree, which reads back as the tree.
#![tactic(auto)]

mod expr;
mod read_back;
mod stmt;
mod unit;
mod words;

pub use read_back::{canonical_text_reads_back, tokens_of_texts_are_possible};
pub use unit::print_tree;
