//! What a run of an isolate holds, and the instructions that ask no cell.
#![tactic(auto)]

mod acting;
mod elements;
mod fields;
mod frame;
mod frames;
mod isolate;
mod jumps;
mod literals;
mod making;
mod members;
mod objects;
mod slots;

pub use acting::act;
pub use frame::{Flow, Frame};
pub use frames::enter;
pub use isolate::Isolate;
pub use literals::push_literals;
pub use members::call_method;
