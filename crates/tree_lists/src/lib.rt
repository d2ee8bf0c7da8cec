//! The lists of the numbered program of a tree: classes, methods, functions and globals by their numbers.
#![tactic(auto)]

mod bodies;
mod classes;
mod constructors;
mod fields;
mod functions;
mod inside;
mod lists;
mod literals;
mod methods;
mod params;

pub use inside::{Inside, SiteNumbers};
pub use lists::{all_classes, all_functions, all_globals, all_methods};
