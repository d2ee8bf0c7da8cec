//! The code of expressions and statements, written from its end.
#![tactic(auto)]

mod expressions;
mod statements;
mod variables;

pub use expressions::{count_of, emit, emit_all, small};
pub use statements::{Scope, emit_statements};
pub use variables::{most_of, most_open_all};
