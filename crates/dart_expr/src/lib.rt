//! Reads expressions from a list of tokens, and has what every parser over such a list is made of.
#![tactic(auto)]

mod chains;
pub mod cursor;
pub mod firsts;
pub mod grammar;
pub mod names;
mod primary;
pub mod refusal;
mod selectors;
mod tables;

pub use cursor::Cursor;
pub use refusal::Refusal;
