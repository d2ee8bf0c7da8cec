//! Tests of the public calls of the libraries: texts, trees, names and streams.
#![tactic(auto)]

#[cfg(test)]
mod built_in;
#[cfg(test)]
mod classes;
#[cfg(test)]
mod lookup;
#[cfg(test)]
mod numbering;
#[cfg(test)]
mod parsing;
#[cfg(test)]
mod printing;
#[cfg(test)]
mod streams;
#[cfg(test)]
mod tokens;
#[cfg(test)]
mod uses;
