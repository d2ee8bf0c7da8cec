//! What holds of each member of a list, and that a value is one.
#![tactic(auto)]
