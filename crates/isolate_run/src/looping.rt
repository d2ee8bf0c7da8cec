// The loop.
ghost use Rattle.std.specs.Prelude.{◌≡◌, ◌+◌, ◌<◌, ◌≤◌, ◌^◌, [], ℕ, length, slice_get, option_map, IfOk, Some};
ghost use Rattle.program.specs.Program.{parts_of};
ghost use Rattle.code_pool.specs.Machine.{exec};
ghost use Rattle.isolate_state.specs.State.{seen};
ghost use Rattle.isolate_run.specs.Loop.{CanLoop, Came, first_frame};

use call_cell::Cells;
use code_pool::CodePool;
use code_unit::Instr;
use ds_base::{NoMemory, Steps};
use isolate_calls::step;
use isolate_state::{Flow, Frame, Isolate};
use method_lookup::{Linked, Subtypes};
use program::UnitId;
use std::alloc::Global;
use std::sync::ledger::Ledger;

/// The instruction at a place.
#[inline(always)]
fn instr_at(code: &[Instr], place: usize) -> Instr
    requires { place < length code.now }
    ensures instr { slice_get code.now place ≡ Some result }
    ensures room { place + 1 < 2 ^ 64 }
{
    code[place]
}

/// The code of a unit.
#[inline(always)]
fn code_at(pool: &CodePool, u: UnitId) -> &[Instr]
    requires { u.0 < length pool.now.units }
    ensures { option_map (λ unit. unit.code) (slice_get pool.now.units u.0) ≡ Some result.now }
{
    pool.unit(u).code.as_slice()
}

/// Runs an isolate from the first place of a unit to its end. Each instruction is a step; those of the cells are counted apart.
pub fn run_loop<C: Cells, Q: Subtypes, L: Ledger, K: Ledger>(
    alloc: Global,
    linked: &Linked,
    pool: &CodePool,
    isolate: &mut Isolate,
    cells: &mut C,
    types: &mut Q,
    u: UnitId,
    turns: u64,
    steps: &mut Steps<L>,
    asking: &mut Steps<K>,
) -> Result<Flow, NoMemory>
    ghost bound: { ℕ }
    requires can { CanLoop (parts_of linked.now.program) pool.now (C.answers cells.old linked.now) bound isolate.old u turns }
    requires cells { C.fits cells.old linked.now }
    requires types { Q.fits types.old linked.now }
    ensures cells { C.fits cells.new linked.now }
    ensures answers { C.answers cells.new ≡ C.answers cells.old }
    ensures types { Q.fits types.new linked.now }
    ensures cost { steps.new ≤ steps.old + bound }
    ensures came { IfOk result (λ flow. Came (C.After cells.old) cells.new (Q.After types.old) types.new
        (exec (parts_of linked.now.program) pool.now (C.answers cells.old linked.now) bound (seen isolate.old (first_frame u) turns [] []))
        isolate.old flow isolate.new) }
{
    let mut left = turns;
    let mut frame = Frame {
        unit: u,
        place: 0,
        base: 0,
    };
    let mut code = code_at(pool, u);
    'run: loop {
        steps.tick();
        let instr = instr_at(code, frame.place);
        match step(
            alloc, linked, pool, instr, cells, types, isolate, &mut frame, &mut left, asking,
        )? {
            Flow::Here => {}
            Flow::Elsewhere => {
                code = code_at(pool, frame.unit);
            }
            ends => return Ok(ends),
        }
    }
}
