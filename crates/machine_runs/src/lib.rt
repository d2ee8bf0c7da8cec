//! Runs of the machine beside runs of the meaning: what each instruction, call and loop of a frame comes to.
#![tactic(auto)]
