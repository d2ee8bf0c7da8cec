//! Runs entries as isolates of one group, over the same cells.
#![tactic(auto)]

mod end;
mod one;

pub use end::{EndCells, GroupEnd};
pub use one::run_one;
