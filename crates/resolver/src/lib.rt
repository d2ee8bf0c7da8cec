//! Accepts the trees that keep the static rules and the limits, and makes their numbered programs.
#![tactic(auto)]

mod accepting;
mod error;
mod limits;
mod numbers;
mod resolving;
mod rules;

pub use accepting::accept;
pub use error::{Broken, NameError};
pub use limits::Counts;
pub use resolving::resolve;
pub use static_rules::{Limit, Rule};
