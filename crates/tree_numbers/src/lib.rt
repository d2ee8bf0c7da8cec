//! The classes, members, functions and variables of a tree by their numbers.
#![tactic(auto)]

mod class_facts;
mod known;
mod members;
mod order;
mod parts;
mod places;
mod tables;
mod walks;

pub use parts::classes_of;
pub use places::word;
pub use tables::TreeNumbers;
