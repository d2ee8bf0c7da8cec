//! Tests of the megamorphic tables, on programs whose classes are a chain.
#![tactic(auto)]

#[cfg(test)]
mod chains;
#[cfg(test)]
mod generations;
#[cfg(test)]
mod inserting;
