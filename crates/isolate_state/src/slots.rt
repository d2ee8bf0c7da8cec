// Values in and out: constants, slots, variables of the top level, and operands.
ghost use Rattle.std.specs.Prelude.{◌≡◌, ◌+◌, ◌<◌, ◌≤◌, ◌^◌, length, IfOk, ℕ};
ghost use Rattle.code_unit.specs.declared.instr.Instr.TheVariants as instr;
ghost use Rattle.isolate_state.specs.State.{Does, DoesAll};

use crate::frame::{Flow, Frame};
use crate::isolate::Isolate;
use ds_base::NoMemory;

/// Pushes a constant of the pool.
#[inline(always)]
pub fn constant(isolate: &mut Isolate, frame: &mut Frame, k: u32) -> Result<Flow, NoMemory>
    requires place { frame.old.place + 1 < 2 ^ 64 }
    requires there { k < length isolate.old.constants.items }
    ensures { IfOk result (λ flow. DoesAll (instr.Const k) isolate.old frame.old flow isolate.new frame.new) }
{
    let v = isolate.constants[k as usize];
    isolate.values.push(v)?;
    frame.place += 1;
    Ok(Flow::Here)
}

/// Pushes the value of a slot.
#[inline(always)]
pub fn local(isolate: &mut Isolate, frame: &mut Frame, i: u32) -> Result<Flow, NoMemory>
    requires place { frame.old.place + 1 < 2 ^ 64 }
    requires there { frame.old.base + i < length isolate.old.values.items }
    ensures { IfOk result (λ flow. DoesAll (instr.Local i) isolate.old frame.old flow isolate.new frame.new) }
{
    let v = isolate.values[frame.base + i as usize];
    isolate.values.push(v)?;
    frame.place += 1;
    Ok(Flow::Here)
}

/// Pops a value into a slot.
#[inline(always)]
pub fn set_local(isolate: &mut Isolate, frame: &mut Frame, i: u32) -> Flow
    requires place { frame.old.place + 1 < 2 ^ 64 }
    requires there { frame.old.base + i + 1 < length isolate.old.values.items }
    ensures { DoesAll (instr.SetLocal i) isolate.old frame.old result isolate.new frame.new }
{
    let v = isolate.values.take_last();
    isolate.values[frame.base + i as usize] = v;
    frame.place += 1;
    Flow::Here
}

/// Pushes the value of a variable of the top level.
#[inline(always)]
pub fn global(isolate: &mut Isolate, frame: &mut Frame, g: u32) -> Result<Flow, NoMemory>
    requires place { frame.old.place + 1 < 2 ^ 64 }
    requires there { g < length isolate.old.globals.items }
    ensures { IfOk result (λ flow. DoesAll (instr.Global g) isolate.old frame.old flow isolate.new frame.new) }
{
    let v = isolate.globals[g as usize];
    isolate.values.push(v)?;
    frame.place += 1;
    Ok(Flow::Here)
}

/// Pops a value into a variable of the top level.
#[inline(always)]
pub fn set_global(isolate: &mut Isolate, frame: &mut Frame, g: u32) -> Flow
    requires place { frame.old.place + 1 < 2 ^ 64 }
    requires some { 0 < length isolate.old.values.items }
    requires there { g < length isolate.old.globals.items }
    ensures { DoesAll (instr.SetGlobal g) isolate.old frame.old result isolate.new frame.new }
{
    let v = isolate.values.take_last();
    isolate.globals[g as usize] = v;
    frame.place += 1;
    Flow::Here
}

/// Drops the top value.
#[inline(always)]
pub fn pop(isolate: &mut Isolate, frame: &mut Frame) -> Flow
    requires place { frame.old.place + 1 < 2 ^ 64 }
    requires some { 0 < length isolate.old.values.items }
    ensures { DoesAll instr.Pop isolate.old frame.old result isolate.new frame.new }
{
    isolate.values.take_last();
    frame.place += 1;
    Flow::Here
}

/// Pushes the top value again.
#[inline(always)]
pub fn dup(isolate: &mut Isolate, frame: &mut Frame) -> Result<Flow, NoMemory>
    requires place { frame.old.place + 1 < 2 ^ 64 }
    requires some { 0 < length isolate.old.values.items }
    ensures { IfOk result (λ flow. DoesAll instr.Dup isolate.old frame.old flow isolate.new frame.new) }
{
    let v = isolate.values[isolate.values.len() - 1];
    isolate.values.push(v)?;
    frame.place += 1;
    Ok(Flow::Here)
}

/// Pushes the top two values again.
#[inline(always)]
pub fn dup_two(isolate: &mut Isolate, frame: &mut Frame) -> Result<Flow, NoMemory>
    requires place { frame.old.place + 1 < 2 ^ 64 }
    requires some { 1 < length isolate.old.values.items }
    ensures { IfOk result (λ flow. DoesAll instr.Dup2 isolate.old frame.old flow isolate.new frame.new) }
{
    let count = isolate.values.len();
    let v = isolate.values[count - 2];
    let w = isolate.values[count - 1];
    isolate.values.push(v)?;
    isolate.values.push(w)?;
    frame.place += 1;
    Ok(Flow::Here)
}
