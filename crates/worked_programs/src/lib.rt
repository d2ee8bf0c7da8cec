//! Small programs, and what they do: each clause is computed from the text of the program.
#![tactic(auto)]

pub mod apart;
pub mod calls;
pub mod control;
pub mod ends;
pub mod values;
