//! Compiles a program and runs entries of it: exactly what the program does.
#![tactic(auto)]

ghost use Rattle.std.specs.Prelude.{◌≤◌, ◌^◌, IfOk};
ghost use Rattle.program.specs.Program.{parts_of};
ghost use Rattle.compiled_runs.specs.Compiled.{EachTakesNothing, OneMeant};

pub mod laws;

use compiler::compile;
use ds_base::NoMemory;
use group_runner::{GroupEnd, run_one};
use method_lookup::Linked;
use program::EntryId;
use std::alloc::Global;

/// Compiles the program and runs the entries, one after the other, each with so many turns.
///
/// The answer tells what the program does from each entry, and the cells are as its calls leave them.
pub fn run_compiled(
    alloc: Global,
    linked: &Linked,
    entries: &[EntryId],
    turns: u64,
) -> Result<GroupEnd, NoMemory>
    requires entries { EachTakesNothing (parts_of linked.now.program) entries.now }
    requires turns { turns ≤ 10 ^ 9 }
    ensures { IfOk result (OneMeant (parts_of linked.now.program) turns entries.now) }
{
    let pool = compile(alloc, linked.program())?;
    let end = run_one(alloc, linked, &pool, entries, turns)?;
    Ok(end)
}
