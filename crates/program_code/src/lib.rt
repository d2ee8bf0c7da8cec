//! The code of a numbered program: which instructions each part of it has, and what the pool of a program holds.
#![tactic(auto)]

pub mod laws;
