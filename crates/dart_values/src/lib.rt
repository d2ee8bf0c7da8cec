//! Values, the heap, and what the built-in members do.
#![tactic(auto)]

mod fault;
mod heap;
mod lists;
mod making;
mod member;
mod native;
mod numbers;
mod objects;
mod reading;
mod strings;
mod value;

pub use fault::{Fault, Trap};
pub use heap::Heap;
pub use value::Value;
