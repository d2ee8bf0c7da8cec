// Calls through the cell of a site.
ghost use Rattle.std.specs.Prelude.{◌≡◌, ◌+◌, ◌<◌, ◌≤◌, ◌^◌, length, map, IfOk};
ghost use Rattle.program.specs.Program.{parts_of};
ghost use Rattle.program.specs.declared.numbered.Site.{Site};
ghost use Rattle.isolate_state.specs.State.{IsHeld};
ghost use Rattle.isolate_calls.specs.Sending.{CanFollow, CanSend, Followed, Sent};

use crate::asking::ask;
use crate::missing::call_missing;
use call_cell::Cells;
use code_pool::CodePool;
use ds_base::{NoMemory, Steps};
use isolate_state::{Flow, Frame, Isolate, call_method};
use method_lookup::Linked;
use program::{Numbered, SiteId, Target};
use std::alloc::Global;
use std::sync::ledger::Ledger;

/// Calls the target of a site with the top n values, of which the lowest is the receiver.
#[inline(always)]
fn reach(
    alloc: Global,
    program: &Numbered,
    pool: &CodePool,
    isolate: &mut Isolate,
    frame: &mut Frame,
    turns: &mut u64,
    target: Target,
    site: SiteId,
    n: usize,
) -> Result<Flow, NoMemory>
    requires place { frame.old.place + 1 < 2 ^ 64 }
    requires some { 0 < n }
    requires operands { n ≤ length isolate.old.values.items }
    requires held { IsHeld (parts_of program.now) pool.now isolate.old }
    requires can { CanFollow (parts_of program.now) pool.now target site.0 n isolate.old frame.old turns.old }
    ensures { IfOk result (λ flow. Followed (parts_of program.now) pool.now target site.0 n isolate.old frame.old turns.old flow isolate.new frame.new turns.new) }
{
    match target {
        Target::Method(m) => {
            let flow = call_method(alloc, program, pool, isolate, frame, turns, m, n)?;
            Ok(flow)
        }
        Target::Nsm(m) => {
            let flow = call_missing(alloc, program, pool, isolate, frame, turns, m, site, n)?;
            Ok(flow)
        }
    }
}

/// Asks the cell of a site about the lowest of the top n values, the receiver, and calls its target with them.
#[inline(always)]
pub fn send<C: Cells, L: Ledger>(
    alloc: Global,
    linked: &Linked,
    pool: &CodePool,
    cells: &mut C,
    isolate: &mut Isolate,
    frame: &mut Frame,
    turns: &mut u64,
    steps: &mut Steps<L>,
    site: SiteId,
    n: usize,
) -> Result<Flow, NoMemory>
    requires place { frame.old.place + 1 < 2 ^ 64 }
    requires some { 0 < n }
    requires operands { n ≤ length isolate.old.values.items }
    requires held { IsHeld (parts_of linked.now.program) pool.now isolate.old }
    requires sites { pool.now.sites ≡ map (λ (s : Site). s.selector) linked.now.program.sites }
    requires counts { length isolate.old.calls.items ≡ length linked.now.program.sites }
    requires cells { C.fits cells.old linked.now }
    requires can { CanSend (parts_of linked.now.program) pool.now (C.answers cells.old linked.now) site.0 n isolate.old frame.old turns.old }
    ensures cells { C.fits cells.new linked.now }
    ensures answers { C.answers cells.new ≡ C.answers cells.old }
    ensures sent { IfOk result (λ flow. Sent (C.After cells.old) cells.new (parts_of linked.now.program) pool.now (C.answers cells.old linked.now) site.0 n isolate.old frame.old turns.old flow isolate.new frame.new turns.new) }
{
    let receiver = isolate.values[isolate.values.len() - n];
    let class = isolate.heap.class_of(receiver);
    let target = ask(linked, cells, isolate, site, class, steps);
    let flow = reach(
        alloc,
        linked.program(),
        pool,
        isolate,
        frame,
        turns,
        target,
        site,
        n,
    )?;
    Ok(flow)
}
