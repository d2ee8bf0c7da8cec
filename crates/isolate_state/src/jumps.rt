// Places, bools and turns.
ghost use Rattle.std.specs.Prelude.{◌≡◌, ◌+◌, ◌<◌, ◌^◌, length, IfOk, ℕ};
ghost use Rattle.code_unit.specs.declared.instr.Instr.TheVariants as instr;
ghost use Rattle.isolate_state.specs.State.{Does, DoesAll};

use crate::frame::{Flow, Frame};
use crate::isolate::Isolate;
use dart_values::Value;
use ds_base::NoMemory;

/// Goes to a place.
#[inline(always)]
pub fn jump(isolate: &mut Isolate, frame: &mut Frame, to: u32) -> Flow
    ensures { DoesAll (instr.Jump to) isolate.old frame.old result isolate.new frame.new }
{
    frame.place = to as usize;
    Flow::Here
}

/// Pops a bool, and goes to a place where it is false.
#[inline(always)]
pub fn jump_if_false(isolate: &mut Isolate, frame: &mut Frame, to: u32) -> Flow
    requires place { frame.old.place + 1 < 2 ^ 64 }
    requires some { 0 < length isolate.old.values.items }
    ensures { DoesAll (instr.JumpIfFalse to) isolate.old frame.old result isolate.new frame.new }
{
    let Value::Bool(b) = isolate.values.take_last() else {
        return Flow::TypeFault;
    };
    if b {
        frame.place += 1;
        return Flow::Here;
    }
    frame.place = to as usize;
    Flow::Here
}

/// Keeps a bool.
#[inline(always)]
pub fn expect_bool(isolate: &mut Isolate, frame: &mut Frame) -> Flow
    requires place { frame.old.place + 1 < 2 ^ 64 }
    requires some { 0 < length isolate.old.values.items }
    ensures { DoesAll instr.ExpectBool isolate.old frame.old result isolate.new frame.new }
{
    let Value::Bool(_) = isolate.values[isolate.values.len() - 1] else {
        return Flow::TypeFault;
    };
    frame.place += 1;
    Flow::Here
}

/// Turns a bool about.
#[inline(always)]
pub fn not(isolate: &mut Isolate, frame: &mut Frame) -> Result<Flow, NoMemory>
    requires place { frame.old.place + 1 < 2 ^ 64 }
    requires some { 0 < length isolate.old.values.items }
    ensures { IfOk result (λ flow. DoesAll instr.Not isolate.old frame.old flow isolate.new frame.new) }
{
    let Value::Bool(b) = isolate.values.take_last() else {
        return Ok(Flow::TypeFault);
    };
    isolate.values.push(Value::Bool(!b))?;
    frame.place += 1;
    Ok(Flow::Here)
}

/// Keeps a text.
#[inline(always)]
pub fn expect_text(isolate: &mut Isolate, frame: &mut Frame) -> Flow
    requires place { frame.old.place + 1 < 2 ^ 64 }
    requires some { 0 < length isolate.old.values.items }
    ensures { DoesAll instr.ExpectString isolate.old frame.old result isolate.new frame.new }
{
    let Value::Str(_) = isolate.values[isolate.values.len() - 1] else {
        return Flow::TypeFault;
    };
    frame.place += 1;
    Flow::Here
}

/// Spends a turn, at each turn of a loop.
#[inline(always)]
pub fn loop_turn(isolate: &mut Isolate, frame: &mut Frame, turns: &mut u64) -> Flow
    requires place { frame.old.place + 1 < 2 ^ 64 }
    ensures { Does instr.LoopTurn isolate.old frame.old turns.old result isolate.new frame.new turns.new }
{
    if *turns == 0 {
        return Flow::OutOfTurns;
    }
    *turns -= 1;
    frame.place += 1;
    Flow::Here
}
