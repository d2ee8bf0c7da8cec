// The table of all cells, and the right of one thread to call.
ghost use Rattle.cell_rule.specs.Stamps.{Settled};
ghost use Rattle.std.specs.Prelude.{◌≡◌, ◌<◌, [], false};

use atomic_table::Seat;
use cell_rule::{CellWords, View};

/// The cells of a program's sites. Threads share it by reference.
#[derive(Drop)]
pub struct CellTable {
    pub words: CellWords,
}

/// The right of one thread to call, and what it has seen. It has no bytes.
///
/// Outside a dispatch a pass is settled: no call is open, and at each site the target stamp seen is at least the data stamp seen.
#[derive(Drop)]
pub struct Pass {
    pub seat: Seat<(), View>,
    pub ghost no_slots: { seat.me.1 ≡ [] },
    pub ghost closed: { seat.me.0.pending ≡ false },
    pub ghost some_share: { 0 < seat.me.0.share },
    pub ghost settled: { Settled seat.me.0.seen },
}
