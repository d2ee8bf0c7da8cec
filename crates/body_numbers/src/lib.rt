//! Numbers the bodies of a tree: variables by their slots, static targets and call sites by their numbers.
#![tactic(auto)]

mod assignable;
mod bodies;
mod exprs;
mod meant;
mod numbers;
mod pieces;
mod slots;
mod stmts;

pub use bodies::{block_of, body_of, passed_of};
pub use exprs::{expression, expressions};
pub use numbers::Numbers;
pub use slots::Slots;
pub use stmts::{statement, statements};
