//! Any instruction of the machine, exactly, over any cells and any tests of types.
#![tactic(auto)]

mod asking;
mod calling;
mod missing;
mod sending;
mod stepping;
mod testing;

pub use stepping::step;
