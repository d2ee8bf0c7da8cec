// Entries that are run.
ghost use Rattle.std.specs.Prelude.{◌≡◌, ◌+◌, ◌<◌, ◌≤◌, IfOk};
ghost use Rattle.program.specs.Program.{parts_of};
ghost use Rattle.code_pool.specs.Machine.{machine, most};
ghost use Rattle.isolate_run.specs.Ran.{CanRun, RanFrom};
ghost use Rattle.isolate_run.specs.Loop.{BegunAt, Came};

use crate::beginning::begin_isolate;
use crate::ended::{Ended, ended_of};
use crate::looping::run_loop;
use call_cell::Cells;
use code_pool::CodePool;
use ds_base::{NoMemory, Steps, let_go};
use isolate_state::{Flow, Isolate};
use method_lookup::{Linked, PlainSubtypes, Subtypes};
use program::EntryId;
use std::alloc::Global;
use std::marker::Brand;
use std::sync::ledger::{Blank, Ledger};

/// Spends the first turn of an isolate that begins, and runs it.
fn run_isolate<C: Cells, Q: Subtypes, L: Ledger, K: Ledger>(
    alloc: Global,
    linked: &Linked,
    pool: &CodePool,
    isolate: &mut Isolate,
    cells: &mut C,
    types: &mut Q,
    entry: EntryId,
    turns: u64,
    steps: &mut Steps<L>,
    blank: Blank,
) -> Result<Flow, NoMemory>
    requires name { blank.name ≡ K.name }
    requires parts { blank.parts ≡ K.parts }
    requires some { 0 < blank.parts }
    requires begun { BegunAt (parts_of linked.now.program) pool.now entry.0 isolate.old }
    requires cells { C.fits cells.old linked.now }
    requires types { Q.fits types.old linked.now }
    requires can { CanRun (parts_of linked.now.program) pool.now (C.answers cells.old linked.now) entry.0 turns }
    ensures cells { C.fits cells.new linked.now }
    ensures answers { C.answers cells.new ≡ C.answers cells.old }
    ensures types { Q.fits types.new linked.now }
    ensures cost { steps.new ≤ steps.old + most (parts_of linked.now.program) pool.now (C.answers cells.old linked.now) turns }
    ensures came { IfOk result (λ flow. Came (C.After cells.old) cells.new (Q.After types.old) types.new
        (machine (parts_of linked.now.program) pool.now (C.answers cells.old linked.now) entry.0 turns) isolate.old flow isolate.new) }
{
    if turns == 0 {
        return Ok(Flow::OutOfTurns);
    }
    let u = pool.entry_unit(entry);
    let mut asking = Steps::<K>::begin(blank);
    let flow = run_loop(
        alloc,
        linked,
        pool,
        isolate,
        cells,
        types,
        u,
        turns - 1,
        steps,
        &mut asking,
    )?;
    Ok(flow)
}

/// Runs an entry point with a number of turns, over any cells and any tests of types. Each instruction is a step.
pub fn run_entry_over<C: Cells, Q: Subtypes, L: Ledger>(
    alloc: Global,
    linked: &Linked,
    pool: &CodePool,
    cells: &mut C,
    types: &mut Q,
    entry: EntryId,
    turns: u64,
    steps: &mut Steps<L>,
) -> Result<Ended, NoMemory>
    requires cells { C.fits cells.old linked.now }
    requires types { Q.fits types.old linked.now }
    requires can { CanRun (parts_of linked.now.program) pool.now (C.answers cells.old linked.now) entry.0 turns }
    ensures cells { C.fits cells.new linked.now }
    ensures answers { C.answers cells.new ≡ C.answers cells.old }
    ensures types { Q.fits types.new linked.now }
    ensures cost { steps.new ≤ steps.old + most (parts_of linked.now.program) pool.now (C.answers cells.old linked.now) turns }
    ensures ran { IfOk result (λ ended. RanFrom (λ asked. C.After cells.old asked cells.new) (λ tests. Q.After types.old tests types.new)
        (parts_of linked.now.program) pool.now (C.answers cells.old linked.now) entry.0 turns ended) }
{
    let mut isolate = begin_isolate(alloc, linked, pool, pool.entry_unit(entry))?;
    let ran = run_isolate::<C, Q, L, Brand>(
        alloc,
        linked,
        pool,
        &mut isolate,
        cells,
        types,
        entry,
        turns,
        steps,
        Blank::new(1),
    );
    match ran {
        Ok(flow) => Ok(ended_of(flow, isolate)),
        Err(NoMemory) => {
            let_go(isolate);
            Err(NoMemory)
        }
    }
}

/// The same where the class table answers the tests of types.
pub fn run_entry<C: Cells, L: Ledger>(
    alloc: Global,
    linked: &Linked,
    pool: &CodePool,
    cells: &mut C,
    entry: EntryId,
    turns: u64,
    steps: &mut Steps<L>,
) -> Result<Ended, NoMemory>
    requires cells { C.fits cells.old linked.now }
    requires can { CanRun (parts_of linked.now.program) pool.now (C.answers cells.old linked.now) entry.0 turns }
    ensures cells { C.fits cells.new linked.now }
    ensures answers { C.answers cells.new ≡ C.answers cells.old }
    ensures cost { steps.new ≤ steps.old + most (parts_of linked.now.program) pool.now (C.answers cells.old linked.now) turns }
    ensures ran { IfOk result (λ ended. RanFrom (λ asked. C.After cells.old asked cells.new) (λ _. Unit {0})
        (parts_of linked.now.program) pool.now (C.answers cells.old linked.now) entry.0 turns ended) }
{
    let mut types = PlainSubtypes;
    run_entry_over(alloc, linked, pool, cells, &mut types, entry, turns, steps)
}
