//! The static rules, the counts and their limits: what a tree must keep to be accepted.
#![tactic(auto)]

mod rule;

pub use rule::{Limit, Rule};
