//! The code of a numbered program does what the program does.
#![tactic(auto)]

pub mod laws;
