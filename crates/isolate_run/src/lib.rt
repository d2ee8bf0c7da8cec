//! Runs an entry of a program: exactly the machine, over any cells and any tests of types.
#![tactic(auto)]

mod beginning;
mod ended;
mod looping;
mod running;

pub use ended::{Ended, Ending};
pub use running::{run_entry, run_entry_over};
