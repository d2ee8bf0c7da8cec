//! The code of a body: its instructions, and a test that no run of it lacks an operand, a slot or a place.
#![tactic(auto)]

mod check;
mod effect;
mod instr;
#[cfg(test)]
mod tests;
mod unit;

pub use check::check_unit;
pub use effect::Effect;
pub use instr::Instr;
pub use unit::Unit;
