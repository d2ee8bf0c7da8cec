//! The five states of a call site, and what a miss makes of them.
#![tactic(auto)]

mod miss;
mod row;
mod state;
#[cfg(test)]
mod state_tests;

pub use miss::{is_single_range, next, selector_at};
pub use row::{Check, Row};
pub use state::{Advance, CallState, SiteStates, covers, explains, is_transition};
