//! Lists what each body of a tree uses.
#![tactic(auto)]

mod exprs;
mod list;
mod names;
mod parts;
mod scope;
mod stmts;

pub use list::{Use, Uses};
pub use names::{Means, Names, has_this, meaning_of};
pub use parts::{Kind, Part, Parts, parts_of};
pub use scope::Scope;
