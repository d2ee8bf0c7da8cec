//! The texts of `run`, `load`, `check` and `list`.
#![tactic(auto)]

mod counts;
mod entries;
mod list;
mod names;
mod sites;
#[cfg(test)]
mod tests;
mod texts;

pub use list::list_text;
pub use texts::{check_text, load_text, run_text};
