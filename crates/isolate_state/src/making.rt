// What makes values on the heap. These are not inlined, so that what they hold on their way is no part of the loop.
ghost use Rattle.std.specs.Prelude.{◌≤◌, length, OnOk};
ghost use Rattle.code_unit.specs.declared.instr.Instr.TheVariants as instr;
ghost use Rattle.isolate_state.specs.State.{AreOf, DoesNext};

use crate::isolate::Isolate;
use ds_base::NoMemory;
use std::alloc::Global;

/// Makes a list of the top n values, the lowest first.
#[inline(never)]
pub fn make_list(alloc: Global, isolate: &mut Isolate, n: u32) -> Result<(), NoMemory>
    requires operands { n ≤ length isolate.old.values.items }
    requires held { AreOf isolate.old }
    ensures { OnOk result (DoesNext (instr.MakeList n) isolate.old isolate.new) }
{
    let at = isolate.values.len() - n as usize;
    let items = Vec::from_slice(alloc, &isolate.values[at..])?;
    let v = isolate.heap.list(items)?;
    isolate.values.truncate(at);
    isolate.values.push(v)?;
    Ok(())
}

/// Makes a text of the top n texts, the lowest first.
#[inline(never)]
pub fn concat(isolate: &mut Isolate, n: u32) -> Result<(), NoMemory>
    requires operands { n ≤ length isolate.old.values.items }
    requires held { AreOf isolate.old }
    ensures { OnOk result (DoesNext (instr.Concat n) isolate.old isolate.new) }
{
    let at = isolate.values.len() - n as usize;
    let v = isolate.heap.concat(&isolate.values[at..])?;
    isolate.values.truncate(at);
    isolate.values.push(v)?;
    Ok(())
}
