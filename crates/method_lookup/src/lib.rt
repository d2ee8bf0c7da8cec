//! Which member a call goes to: a program, its classes, and its members by class, kind and name.
#![tactic(auto)]

mod index;
mod linked;
mod subtypes;

pub use linked::Linked;
pub use subtypes::{PlainSubtypes, Subtypes};
