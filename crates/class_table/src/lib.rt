//! The classes of a program: names, the hierarchy, and subtypes, by tests that take no memory.
#![tactic(auto)]

mod bits;
mod raising;
mod rows;
mod table;

pub use table::ClassTable;
