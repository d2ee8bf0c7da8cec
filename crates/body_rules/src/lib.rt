//! The static rules on bodies.
#![tactic(auto)]

mod abstract_made;
mod final_written;
mod place;
mod return_place;
mod shadowed;
mod static_arguments;
mod tear_off;
mod undefined;
mod use_rule;

pub use abstract_made::first_abstract_made;
pub use final_written::first_final_written;
pub use return_place::first_misplaced;
pub use shadowed::first_shadowed;
pub use static_arguments::first_wrong_arguments;
pub use tear_off::first_torn_off;
pub use undefined::first_undefined;
