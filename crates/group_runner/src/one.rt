// One worker: the entries run one after the other.
ghost use Rattle.std.specs.Prelude.{◌≡◌, ◌<◌, IfOk};
ghost use Rattle.program.specs.Program.{parts_of};
ghost use Rattle.group_runner.specs.Group.{EachCanRun, OneFrom};

use crate::{EndCells, GroupEnd};
use call_cell::PlainCells;
use code_pool::CodePool;
use ds_base::{NoMemory, Steps};
use isolate_run::run_entry;
use method_lookup::Linked;
use program::EntryId;
use std::alloc::Global;
use std::marker::Brand;
use std::sync::ledger::{Blank, Ledger};

/// Runs the entries, and counts steps by a ledger.
fn one_by<L: Ledger>(
    alloc: Global,
    linked: &Linked,
    pool: &CodePool,
    entries: &[EntryId],
    turns: u64,
    blank: Blank,
) -> Result<GroupEnd, NoMemory>
    requires name { blank.name ≡ L.name }
    requires parts { blank.parts ≡ L.parts }
    requires some { 0 < blank.parts }
    requires can { EachCanRun (parts_of linked.now.program) pool.now turns entries.now }
    ensures { IfOk result (OneFrom (parts_of linked.now.program) pool.now turns entries.now) }
{
    let mut steps = Steps::<L>::begin(blank);
    let mut cells = PlainCells::build(alloc, linked)?;
    let mut ended = Vec::new(alloc);
    for entry in entries {
        let end = run_entry(alloc, linked, pool, &mut cells, *entry, turns, &mut steps)?;
        ended.push(end)?;
    }
    Ok(GroupEnd {
        ended,
        cells: EndCells::Plain(cells),
    })
}

/// Runs the entries one after the other, each with so many turns, over new cells of the program.
///
/// Each entry does exactly what the machine does from it, and the cells are as the calls of all entries, in their order, leave them.
pub fn run_one(
    alloc: Global,
    linked: &Linked,
    pool: &CodePool,
    entries: &[EntryId],
    turns: u64,
) -> Result<GroupEnd, NoMemory>
    requires can { EachCanRun (parts_of linked.now.program) pool.now turns entries.now }
    ensures { IfOk result (OneFrom (parts_of linked.now.program) pool.now turns entries.now) }
{
    one_by::<Brand>(alloc, linked, pool, entries, turns, Blank::new(1))
}
