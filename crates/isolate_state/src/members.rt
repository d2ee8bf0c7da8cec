// What members do.
ghost use Rattle.std.specs.Prelude.{◌≡◌, ◌≢◌, ◌+◌, ◌<◌, ◌≤◌, ◌^◌, ℕ, length, IfOk};
ghost use Rattle.program.specs.Parts.{Parts};
ghost use Rattle.code_pool.specs.Pool.{Pool};
ghost use Rattle.code_pool.specs.declared.pool.MethodBody.TheVariants as body;
ghost use Rattle.program.specs.Program.{parts_of};
ghost use Rattle.isolate_state.specs.State.{AreOf, Answered, CanCall, Called, Performed};

use crate::frame::{Flow, Frame};
use crate::frames::enter;
use crate::isolate::Isolate;
use code_pool::{CodePool, MethodBody};
use dart_values::{Fault, Value};
use ds_base::NoMemory;
use program::{MethodId, NativeId, Numbered};
use std::alloc::Global;

/// Does a built-in member on the top n values, of which the lowest is the receiver. The answer is false where it ends in a trap, which the isolate keeps.
#[inline(never)]
pub fn native(
    program: &Numbered,
    isolate: &mut Isolate,
    id: NativeId,
    n: usize,
) -> Result<bool, NoMemory>
    requires built_in { id.0 < 49 }
    requires no_list_text { id.0 ≢ 43 }
    requires some { 0 < n }
    requires operands { n ≤ length isolate.old.values.items }
    requires held { AreOf isolate.old }
    ensures { IfOk result (λ went. Answered (parts_of program.now) id n isolate.old went isolate.new) }
{
    let at = isolate.values.len() - n;
    let receiver = isolate.values[at];
    match isolate
        .heap
        .native(program, id, receiver, &isolate.values[at + 1..])
    {
        Ok(v) => {
            isolate.values.truncate(at);
            isolate.values.push(v)?;
            Ok(true)
        }
        Err(Fault::Trap(trap)) => {
            isolate.trap = trap;
            Ok(false)
        }
        Err(Fault::NoMemory) => Err(NoMemory),
    }
}

/// Answers a field of the top value.
#[inline(always)]
fn read_field(isolate: &mut Isolate, frame: &mut Frame, k: u32) -> Result<Flow, NoMemory>
    requires place { frame.old.place + 1 < 2 ^ 64 }
    requires some { 0 < length isolate.old.values.items }
    requires held { AreOf isolate.old }
    ensures { IfOk result (λ flow. (p : Parts) (pool : Pool) (turns : ℕ)
        → Performed p pool (body.ReadField k) 1 isolate.old frame.old turns flow isolate.new frame.new turns) }
{
    let v = isolate.values.take_last();
    let w = isolate.heap.field(v, k);
    isolate.values.push(w)?;
    frame.place += 1;
    Ok(Flow::Here)
}

/// Writes the top value into a field of the object below it, and answers null.
#[inline(always)]
fn write_field(isolate: &mut Isolate, frame: &mut Frame, k: u32) -> Result<Flow, NoMemory>
    requires place { frame.old.place + 1 < 2 ^ 64 }
    requires some { 1 < length isolate.old.values.items }
    requires held { AreOf isolate.old }
    ensures { IfOk result (λ flow. (p : Parts) (pool : Pool) (turns : ℕ)
        → Performed p pool (body.WriteField k) 2 isolate.old frame.old turns flow isolate.new frame.new turns) }
{
    let w = isolate.values.take_last();
    let v = isolate.values.take_last();
    isolate.heap.set_field(v, k, w);
    isolate.values.push(Value::Null)?;
    frame.place += 1;
    Ok(Flow::Here)
}

/// Calls a method with the top n values, of which the lowest is the receiver.
#[inline(always)]
pub fn call_method(
    alloc: Global,
    program: &Numbered,
    pool: &CodePool,
    isolate: &mut Isolate,
    frame: &mut Frame,
    turns: &mut u64,
    m: MethodId,
    n: usize,
) -> Result<Flow, NoMemory>
    requires place { frame.old.place + 1 < 2 ^ 64 }
    requires some { 0 < n }
    requires operands { n ≤ length isolate.old.values.items }
    requires held { AreOf isolate.old }
    requires there { m.0 < length pool.now.methods }
    requires can { CanCall (parts_of program.now) pool.now m.0 n isolate.old frame.old turns.old }
    ensures { IfOk result (λ flow. Called (parts_of program.now) pool.now m.0 n isolate.old frame.old turns.old flow isolate.new frame.new turns.new) }
{
    match pool.method_unit(m) {
        MethodBody::Code(u) => {
            let flow = enter(alloc, pool, isolate, frame, turns, u, n)?;
            Ok(flow)
        }
        MethodBody::ReadField(k) => {
            let flow = read_field(isolate, frame, k)?;
            Ok(flow)
        }
        MethodBody::WriteField(k) => {
            let flow = write_field(isolate, frame, k)?;
            Ok(flow)
        }
        MethodBody::Native(id) => {
            if !native(program, isolate, id, n)? {
                return Ok(Flow::Trapped);
            }
            frame.place += 1;
            Ok(Flow::Here)
        }
    }
}
