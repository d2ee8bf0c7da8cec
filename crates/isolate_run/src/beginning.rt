// An isolate that begins.
ghost use Rattle.std.specs.Prelude.{◌≡◌, ◌<◌, length, map, All, IfOk, OnOk};
ghost use Rattle.program.specs.Program.{parts_of};
ghost use Rattle.dart_values.specs.Store.{IsOf, Keeps, values_of, heap_of};
ghost use Rattle.dart_meaning.specs.Literals as meaning;
ghost use Rattle.isolate_run.specs.Loop.{Begun, TakesNone};

use code_pool::CodePool;
use dart_values::{Heap, Trap, Value};
use ds_base::NoMemory;
use isolate_state::{Isolate, push_literals};
use method_lookup::Linked;
use program::{Literal, UnitId};
use std::alloc::Global;

/// The values of literals.
fn values_of_literals(
    alloc: Global,
    heap: &mut Heap,
    literals: &[Literal],
) -> Result<Vec<Value>, NoMemory>
    ensures values { IfOk result (λ values. values_of heap.new values.items ≡ map meaning.literal literals.now) }
    ensures of_heap { IfOk result (λ values. All (IsOf heap.new) values.items) }
    ensures same { OnOk result (heap_of heap.new ≡ heap_of heap.old) }
    ensures keeps { OnOk result (Keeps heap.old heap.new) }
{
    let mut values = Vec::new(alloc);
    push_literals(alloc, heap, &mut values, literals)?;
    Ok(values)
}

/// An isolate that begins with a unit.
pub fn begin_isolate(
    alloc: Global,
    linked: &Linked,
    pool: &CodePool,
    u: UnitId,
) -> Result<Isolate, NoMemory>
    requires there { u.0 < length pool.now.units }
    requires none { TakesNone pool.now u.0 }
    ensures { IfOk result (Begun (parts_of linked.now.program) pool.now u) }
{
    let mut heap = Heap::build(alloc);
    let constants = values_of_literals(alloc, &mut heap, pool.constants())?;
    let globals = values_of_literals(alloc, &mut heap, linked.program().globals.as_slice())?;
    let values = vec![in alloc; Value::Null; pool.unit(u).locals as usize]?;
    let calls = vec![in alloc; 0; linked.program().sites.len()]?;
    Ok(Isolate {
        heap,
        values,
        callers: Vec::new(alloc),
        globals,
        lines: Vec::new(alloc),
        constants,
        calls,
        trap: Trap::TypeFault,
    })
}
