//! Tests of call cells, on programs whose classes are a chain.
#![tactic(auto)]

#[cfg(test)]
mod calling;
#[cfg(test)]
mod ladders;
#[cfg(test)]
mod plain;
