//! The static rules on declarations: names that stand twice, superclasses, mixed names; and what is counted of declarations.
#![tactic(auto)]

mod built_ins;
mod classes;
mod counts;
mod duplicates;
mod members;
mod mixed;
mod places;
mod repeats;
mod supers;
mod tops;

pub use built_ins::{is_built_in, is_class_of};
pub use classes::{classes_by_name, classes_of};
pub use counts::{Declarations, count_declarations, sum};
pub use mixed::{is_accessor_in, is_method_in, mixed_name};
pub use places::{earlier_of, place_if};
pub use repeats::note;
pub use supers::{super_is_builtin, unknown_super};
pub use tops::{duplicate_name, top_name};
