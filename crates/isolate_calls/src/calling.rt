// The instructions that ask a cell.
ghost use Rattle.std.specs.Prelude.{◌≡◌, ◌+◌, ◌<◌, ◌≤◌, ◌^◌, ◌||◌, ◌&&◌, List, length, map, IfOk};
ghost use Rattle.program.specs.Program.{parts_of};
ghost use Rattle.program.specs.declared.numbered.Site.{Site};
ghost use Rattle.dart_values.specs.Values.{Text};
ghost use Rattle.dart_values.specs.Store.{value_in};
ghost use Rattle.dart_meaning.specs.Calls.{is_null};
ghost use Rattle.code_unit.specs.declared.instr.Instr.TheVariants as instr;
ghost use Rattle.isolate_state.specs.State.{IsHeld};
ghost use Rattle.isolate_calls.specs.Stepping.{CanStep};
ghost use Rattle.isolate_calls.specs.Sending.{DidAsk};

use crate::sending::send;
use call_cell::Cells;
use code_pool::CodePool;
use dart_values::Value;
use ds_base::{NoMemory, Steps};
use isolate_state::{Flow, Frame, Isolate};
use method_lookup::Linked;
use program::SiteId;
use std::alloc::Global;
use std::sync::ledger::Ledger;

/// A call at a site, with a receiver and n arguments.
#[inline(always)]
pub fn call<C: Cells, L: Ledger>(
    alloc: Global,
    linked: &Linked,
    pool: &CodePool,
    cells: &mut C,
    isolate: &mut Isolate,
    frame: &mut Frame,
    turns: &mut u64,
    steps: &mut Steps<L>,
    site: SiteId,
    n: u32,
) -> Result<Flow, NoMemory>
    requires place { frame.old.place + 1 < 2 ^ 64 }
    requires held { IsHeld (parts_of linked.now.program) pool.now isolate.old }
    requires sites { pool.now.sites ≡ map (λ (s : Site). s.selector) linked.now.program.sites }
    requires counts { length isolate.old.calls.items ≡ length linked.now.program.sites }
    requires cells { C.fits cells.old linked.now }
    requires can { CanStep (parts_of linked.now.program) pool.now (C.answers cells.old linked.now) (instr.Call site n) isolate.old frame.old turns.old }
    ensures cells { C.fits cells.new linked.now }
    ensures answers { C.answers cells.new ≡ C.answers cells.old }
    ensures called { IfOk result (λ flow. DidAsk (C.After cells.old) cells.new (parts_of linked.now.program) pool.now (C.answers cells.old linked.now) (instr.Call site n) isolate.old frame.old turns.old flow isolate.new frame.new turns.new) }
{
    let count = n as usize + 1;
    let flow = send(
        alloc, linked, pool, cells, isolate, frame, turns, steps, site, count,
    )?;
    Ok(flow)
}

#[inline(always)]
fn is_null(v: Value) -> bool
    ensures { (texts : List Text) → result ≡ is_null (value_in texts v) }
{
    match v {
        Value::Null => true,
        _ => false,
    }
}

#[inline(always)]
fn either_null(v: Value, w: Value) -> bool
    ensures { (texts : List Text) → result ≡ (is_null (value_in texts v) || is_null (value_in texts w)) }
{
    is_null(v) || is_null(w)
}

#[inline(always)]
fn both_null(v: Value, w: Value) -> bool
    ensures { (texts : List Text) → result ≡ (is_null (value_in texts v) && is_null (value_in texts w)) }
{
    is_null(v) && is_null(w)
}

/// `==` of the top two values. With null on either side no cell is asked: the answer is whether both are.
#[inline(always)]
pub fn equal<C: Cells, L: Ledger>(
    alloc: Global,
    linked: &Linked,
    pool: &CodePool,
    cells: &mut C,
    isolate: &mut Isolate,
    frame: &mut Frame,
    turns: &mut u64,
    steps: &mut Steps<L>,
    site: SiteId,
) -> Result<Flow, NoMemory>
    requires place { frame.old.place + 1 < 2 ^ 64 }
    requires held { IsHeld (parts_of linked.now.program) pool.now isolate.old }
    requires sites { pool.now.sites ≡ map (λ (s : Site). s.selector) linked.now.program.sites }
    requires counts { length isolate.old.calls.items ≡ length linked.now.program.sites }
    requires cells { C.fits cells.old linked.now }
    requires can { CanStep (parts_of linked.now.program) pool.now (C.answers cells.old linked.now) (instr.Equal site) isolate.old frame.old turns.old }
    ensures cells { C.fits cells.new linked.now }
    ensures answers { C.answers cells.new ≡ C.answers cells.old }
    ensures equal { IfOk result (λ flow. DidAsk (C.After cells.old) cells.new (parts_of linked.now.program) pool.now (C.answers cells.old linked.now) (instr.Equal site) isolate.old frame.old turns.old flow isolate.new frame.new turns.new) }
{
    let at = isolate.values.len() - 2;
    let left = isolate.values[at];
    let right = isolate.values[at + 1];
    if either_null(left, right) {
        isolate.values.truncate(at);
        isolate.values.push(Value::Bool(both_null(left, right)))?;
        frame.place += 1;
        return Ok(Flow::Here);
    }
    let flow = send(
        alloc, linked, pool, cells, isolate, frame, turns, steps, site, 2,
    )?;
    Ok(flow)
}
