//! The static rules on the classes above a class: cycles, and methods that override others.
#![tactic(auto)]

mod chains;
mod cycles;
mod descent;
mod nearest;
mod order;
mod overrides;
mod ranks;
mod reaching;

pub use cycles::cycle_in_super;
pub use overrides::bad_override;
