//! Sums over the views of all seats of a table, as of their shares.
#![tactic(auto)]
