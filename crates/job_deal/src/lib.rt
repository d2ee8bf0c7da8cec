//! A counter that deals jobs to threads, each once, and results put in the order of their jobs.
#![tactic(auto)]

mod collecting;
mod dealing;
mod hand;
mod passes;

pub use collecting::collect;
pub use passes::{JobPass, JobTable};

#[cfg(test)]
mod tests;
