//! The cells of call sites in shared words: how the words are packed, the steps on them, and the rule that every step keeps.
#![tactic(auto)]

mod ends;
mod laws;
mod plays;
mod steps;
mod table;
#[cfg(test)]
mod tests;
mod view;
mod words;

pub use laws::{rule_has_parts, runs_keep_the_rule, words_differ};
pub use plays::Call;
pub use steps::{
    advance_data, claim_check, finish_target, load_check, load_data, load_target, open_call,
};
pub use table::{CellRule, CellWords};
pub use view::{Asked, Change, Seen, View};
pub use words::{
    Entry, Info, Stub, entry_for, pack_check, pack_data, pack_target, target_of, unpack_check,
    unpack_data, unpack_target,
};
