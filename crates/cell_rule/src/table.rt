// The words of all sites, under the rule.
ghost use Rattle.cell_rule.specs.Rule.{Ruled};
ghost use Rattle.cell_rule.specs.About.{about_of};
ghost use Rattle.cell_rule.specs.Told.{newcomer};
ghost use Rattle.std.specs.Prelude.{◌≡◌, ◌+◌, ◌*◌};

use crate::view::View;
use atomic_table::{Table, TableRule};
use method_lookup::Linked;
use std::alloc::Global;
use std::snapshot::Snapshot;

/// The rule, of the program that the key shows.
pub struct CellRule;

impl TableRule<(), View, Snapshot<Linked>> for CellRule {
    ghost holds = { λ key. Ruled (about_of key.value) };

    ghost first = { λ _. newcomer };
}

/// Six words a site behind word 0, which stays 0.
#[derive(Drop)]
pub struct CellWords {
    pub table: Table<(), View, Snapshot<Linked>, CellRule, Global>,
    pub ghost no_slots: { table.shared.table_id.slots ≡ 0 },
    pub ghost size: { table.shared.table_id.words ≡ 6 * (about_of table.shared.key.value).sites + 1 },
}
