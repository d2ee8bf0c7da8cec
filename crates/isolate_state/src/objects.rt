// Fields, elements, lines, and what is thrown.
ghost use Rattle.std.specs.Prelude.{◌≡◌, ◌+◌, ◌<◌, ◌^◌, length, IfOk, OnOk, ℕ};
ghost use Rattle.code_unit.specs.declared.instr.Instr.TheVariants as instr;
ghost use Rattle.program.specs.Program.{parts_of};
ghost use Rattle.isolate_state.specs.State.{AreOf, DoesAll, DoesNext, Threw};

use crate::frame::{Flow, Frame};
use crate::isolate::Isolate;
use dart_values::{Trap, Value};
use ds_base::NoMemory;
use program::Numbered;
use sqlite_items::Items;
use std::alloc::Global;

/// Pops a value and the object below it, and writes the field.
#[inline(always)]
pub fn set_field(isolate: &mut Isolate, frame: &mut Frame, k: u32) -> Flow
    requires place { frame.old.place + 1 < 2 ^ 64 }
    requires some { 1 < length isolate.old.values.items }
    requires held { AreOf isolate.old }
    ensures { DoesAll (instr.SetField k) isolate.old frame.old result isolate.new frame.new }
{
    let w = isolate.values.take_last();
    let v = isolate.values.take_last();
    isolate.heap.set_field(v, k, w);
    frame.place += 1;
    Flow::Here
}

/// Pops a text and adds it to the lines.
#[inline(never)]
pub fn emit(alloc: Global, isolate: &mut Isolate) -> Result<(), NoMemory>
    requires some { 0 < length isolate.old.values.items }
    requires held { AreOf isolate.old }
    ensures { OnOk result (DoesNext instr.Emit isolate.old isolate.new) }
{
    let v = isolate.values.take_last();
    let Some(units) = isolate.heap.text_of(v) else {
        return Ok(());
    };
    let line = Items::from_slice(alloc, units.as_slice())?;
    isolate.lines.push(line)?;
    Ok(())
}

/// Ends the run with the text of the top value; null is a TypeFault.
#[inline(never)]
pub fn throw(alloc: Global, program: &Numbered, isolate: &mut Isolate) -> Result<Flow, NoMemory>
    requires some { 0 < length isolate.old.values.items }
    requires held { AreOf isolate.old }
    ensures { IfOk result (λ flow. Threw (parts_of program.now) isolate.old flow isolate.new) }
{
    let v = isolate.values.take_last();
    if let Value::Null = v {
        return Ok(Flow::TypeFault);
    }
    isolate.trap = Trap::Thrown(isolate.heap.thrown_text(alloc, program, v)?);
    Ok(Flow::Trapped)
}
