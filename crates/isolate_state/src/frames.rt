// Units that are entered, and answers.
ghost use Rattle.std.specs.Prelude.{◌≡◌, ◌+◌, ◌<◌, ◌≤◌, ◌^◌, ◌-◌, ◌++◌, length, replicate, IfOk, OnOk};
ghost use Rattle.code_unit.specs.declared.instr.Instr.TheVariants as instr;
ghost use Rattle.dart_values.specs.declared.value.Value.TheVariants as value;
ghost use Rattle.isolate_state.specs.State.{AreOf, DoesAll, Entered, Filled, TakesValues};

use crate::frame::{Flow, Frame};
use crate::isolate::Isolate;
use crate::literals::push_literals;
use code_pool::CodePool;
use code_unit::Unit;
use dart_values::Value;
use ds_base::NoMemory;
use program::UnitId;
use std::alloc::Global;

/// Answers the top value to the caller, or ends the run where none waits.
#[inline(always)]
pub fn give_back(isolate: &mut Isolate, frame: &mut Frame) -> Result<Flow, NoMemory>
    requires { 0 < length isolate.old.values.items }
    ensures { IfOk result (λ flow. DoesAll instr.Return isolate.old frame.old flow isolate.new frame.new) }
{
    if isolate.callers.is_empty() {
        return Ok(Flow::Done);
    }
    let v = isolate.values.take_last();
    let caller = isolate.callers.take_last();
    isolate.values.truncate(frame.base);
    isolate.values.push(v)?;
    *frame = caller;
    Ok(Flow::Elsewhere)
}

/// The values of the defaults behind n arguments.
#[inline(never)]
fn fill_defaults(
    alloc: Global,
    unit: &Unit,
    isolate: &mut Isolate,
    n: usize,
) -> Result<(), NoMemory>
    requires few { n ≤ unit.now.params }
    requires enough { unit.now.params ≤ n + length unit.now.defaults }
    requires held { AreOf isolate.old }
    ensures { OnOk result (Filled unit.now n 0 isolate.old isolate.new) }
{
    let given = unit.defaults.len() - (unit.params as usize - n);
    let missing = &unit.defaults.as_slice()[given..];
    push_literals(alloc, &mut isolate.heap, &mut isolate.values, missing)?;
    Ok(())
}

/// Values for the parameters that have no argument, and null for the other slots.
#[inline(always)]
fn fill(alloc: Global, unit: &Unit, isolate: &mut Isolate, n: usize) -> Result<(), NoMemory>
    requires few { n ≤ unit.now.params }
    requires enough { unit.now.params ≤ n + length unit.now.defaults }
    requires held { AreOf isolate.old }
    ensures { OnOk result (Filled unit.now n (unit.now.locals - unit.now.params) isolate.old isolate.new) }
{
    let more = unit.locals.saturating_sub(unit.params) as usize;
    if n == unit.params as usize {
        push_nulls(isolate, more)?;
        return Ok(());
    }
    fill_defaults(alloc, unit, isolate, n)?;
    push_nulls(isolate, more)?;
    Ok(())
}

#[inline(always)]
fn push_nulls(isolate: &mut Isolate, count: usize) -> Result<(), NoMemory>
    requires { count < 2 ^ 32 }
    ensures values { OnOk result (isolate.new.values.items ≡ isolate.old.values.items ++ replicate count value.Null) }
    ensures rest { isolate.new ≡ record isolate.old { values = isolate.new.values } }
{
    isolate
        .values
        .resize(isolate.values.len() + count, Value::Null)?;
    Ok(())
}

/// Enters a unit with the top n values. A turn is spent first.
#[inline(always)]
pub fn enter(
    alloc: Global,
    pool: &CodePool,
    isolate: &mut Isolate,
    frame: &mut Frame,
    turns: &mut u64,
    u: UnitId,
    n: usize,
) -> Result<Flow, NoMemory>
    requires there { u.0 < length pool.now.units }
    requires takes { TakesValues pool.now u.0 n }
    requires place { frame.old.place + 1 < 2 ^ 64 }
    requires operands { n ≤ length isolate.old.values.items }
    requires held { AreOf isolate.old }
    ensures { IfOk result (λ flow. Entered pool.now u.0 n isolate.old frame.old turns.old flow isolate.new frame.new turns.new) }
{
    let unit = pool.unit(u);
    if *turns == 0 {
        return Ok(Flow::OutOfTurns);
    }
    *turns -= 1;
    if isolate.callers.len() >= 1999 {
        return Ok(Flow::StackOverflow);
    }
    let base = isolate.values.len() - n;
    fill(alloc, unit, isolate, n)?;
    let caller = Frame {
        unit: frame.unit,
        place: frame.place + 1,
        base: frame.base,
    };
    isolate.callers.push(caller)?;
    frame.unit = u;
    frame.place = 0;
    frame.base = base;
    Ok(Flow::Elsewhere)
}
