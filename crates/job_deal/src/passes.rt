//! The counter and its passes.
ghost use Rattle.std.specs.Prelude.{◌≡◌, ◌<◌, []};

use crate::hand::{Deals, Hand};
use atomic_table::{Seat, Table};
use std::alloc::Global;

/// A counter that deals the numbers below `jobs` to threads, each once. Threads share it by reference.
#[derive(Drop)]
pub struct JobTable {
    pub(crate) table: Table<(), Hand, (), Deals, Global>,
    pub(crate) jobs: u32,
    pub ghost one_word: { table.shared.table_id.words ≡ 1 },
}

/// The right of one thread to draw from a table. It has no bytes.
///
/// A clause sees the numbers that it drew, and its share: the first pass has 65,536, and the shares of all passes add up to that.
#[derive(Drop)]
pub struct JobPass {
    pub(crate) seat: Seat<(), Hand>,
    pub ghost no_slots: { seat.me.1 ≡ [] },
    pub ghost some_share: { 0 < seat.me.0.share },
}
