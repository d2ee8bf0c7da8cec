// Any instruction.
ghost use Rattle.std.specs.Prelude.{◌≡◌, ◌+◌, ◌<◌, ◌^◌, length, map, IfOk};
ghost use Rattle.program.specs.Program.{parts_of};
ghost use Rattle.program.specs.declared.numbered.Site.{Site};
ghost use Rattle.isolate_state.specs.State.{IsHeld};
ghost use Rattle.isolate_calls.specs.Stepping.{CanStep, Stepped};

use crate::calling::{call, equal};
use crate::testing::is_class;
use call_cell::Cells;
use code_pool::CodePool;
use code_unit::Instr;
use ds_base::{NoMemory, Steps};
use isolate_state::{Flow, Frame, Isolate, act};
use method_lookup::{Linked, Subtypes};
use std::alloc::Global;
use std::sync::ledger::Ledger;

/// Does an instruction, as the machine does it.
#[inline(always)]
pub fn step<C: Cells, Q: Subtypes, L: Ledger>(
    alloc: Global,
    linked: &Linked,
    pool: &CodePool,
    instr: Instr,
    cells: &mut C,
    types: &mut Q,
    isolate: &mut Isolate,
    frame: &mut Frame,
    turns: &mut u64,
    steps: &mut Steps<L>,
) -> Result<Flow, NoMemory>
    requires place { frame.old.place + 1 < 2 ^ 64 }
    requires held { IsHeld (parts_of linked.now.program) pool.now isolate.old }
    requires sites { pool.now.sites ≡ map (λ (s : Site). s.selector) linked.now.program.sites }
    requires counts { length isolate.old.calls.items ≡ length linked.now.program.sites }
    requires cells { C.fits cells.old linked.now }
    requires types { Q.fits types.old linked.now }
    requires can { CanStep (parts_of linked.now.program) pool.now (C.answers cells.old linked.now) instr isolate.old frame.old turns.old }
    ensures cells { C.fits cells.new linked.now }
    ensures answers { C.answers cells.new ≡ C.answers cells.old }
    ensures types { Q.fits types.new linked.now }
    ensures stepped { IfOk result (λ flow. Stepped (C.After cells.old) cells.new (Q.After types.old) types.new (parts_of linked.now.program) pool.now (C.answers cells.old linked.now) instr isolate.old frame.old turns.old flow isolate.new frame.new turns.new) }
{
    match instr {
        Instr::Call(site, n) => {
            let flow = call(
                alloc, linked, pool, cells, isolate, frame, turns, steps, site, n,
            )?;
            Ok(flow)
        }
        Instr::Equal(site) => {
            let flow = equal(
                alloc, linked, pool, cells, isolate, frame, turns, steps, site,
            )?;
            Ok(flow)
        }
        Instr::IsClass(c) => {
            let flow = is_class(linked, isolate, frame, types, c)?;
            Ok(flow)
        }
        _ => {
            let flow = act(alloc, linked.program(), pool, instr, isolate, frame, turns)?;
            Ok(flow)
        }
    }
}
