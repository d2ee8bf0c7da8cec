// A table and its passes.
ghost use Rattle.std.specs.Prelude.{◌≡◌, ◌+◌, ◌*◌, ◌≤◌, [], length};
ghost use Rattle.mega_cache.specs.Places.{last_generation, words_up_to};
ghost use Rattle.mega_cache.specs.Region.{Ruled, about_of};
ghost use Rattle.mega_cache.specs.Told.{nothing};

use crate::view::MegaView;
use atomic_table::{Seat, Table, TableRule};
use method_lookup::Linked;
use std::alloc::Global;
use std::snapshot::Snapshot;

/// What holds of the words of a table, and of what each pass has seen of them, for the table's program.
pub struct MegaRule;

impl TableRule<(), MegaView, Snapshot<Linked>> for MegaRule {
    ghost holds = { λ key. Ruled (about_of key.value) };

    ghost first = { λ _. nothing };
}

/// The megamorphic tables of all selectors of a program.
#[derive(Drop)]
pub struct MegaTable {
    pub table: Table<(), MegaView, Snapshot<Linked>, MegaRule, Global>,
    /// How many words a selector has.
    pub width: u32,
    pub last: u8,
    pub ghost end: { last ≡ last_generation (length table.shared.key.value.program.classes) },
    pub ghost few: { last ≤ 7 },
    pub ghost wide: { width ≡ words_up_to last },
    pub ghost size: { table.shared.table_id.words ≡ 1 + length table.shared.key.value.program.selectors * width },
}

/// A thread's leave to use a table.
#[derive(Drop)]
pub struct MegaPass {
    pub seat: Seat<(), MegaView>,
    pub ghost bare: { seat.me.1 ≡ [] },
}
