//! The code of a program, read-only, and what it means: the machine (`specs/Machine.antt`).
#![tactic(auto)]

pub mod laws;
mod pool;
#[cfg(test)]
mod tests;

pub use pool::{CodePool, Constant, MethodBody};
