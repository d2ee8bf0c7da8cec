//! Small programs, a chain of classes whose methods answer numbers and a `main` that prints calls of them, and their numbered programs.
#![tactic(auto)]

mod members;
mod numbering;
mod sites;
mod small;

pub use numbering::number;
pub use small::{Small, SmallClass, SmallMethod, SmallPrint};
