//! Laws of the meaning of numbered programs.
#![tactic(auto)]

pub mod laws;
