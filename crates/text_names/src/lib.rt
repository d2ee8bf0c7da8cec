//! The names of a tree, and what they stand for, by maps.
#![tactic(auto)]

mod above;
mod around;
mod asked;
mod class_names;
mod known;
mod names;
mod noted;
mod reached;
mod tops;

pub use names::TextNames;
