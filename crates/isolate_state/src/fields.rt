// New objects.
ghost use Rattle.std.specs.Prelude.{◌≡◌, ◌<◌, ◌++◌, map, length, All, IfOk, OnOk, IsTrue};
ghost use Rattle.program.specs.Hierarchy.{chain};
ghost use Rattle.program.specs.Parts.{parents, is_concrete};
ghost use Rattle.program.specs.BuiltIn.{is_open};
ghost use Rattle.program.specs.Program.{parts_of};
ghost use Rattle.dart_values.specs.Store.{IsOf, Keeps, values_of, heap_of};
ghost use Rattle.dart_meaning.specs.Literals as meaning;
ghost use Rattle.dart_meaning.specs.Numbered as numbered;
ghost use Rattle.isolate_state.specs.State.{AreOf, Made};

use crate::isolate::Isolate;
use crate::literals::literal_value;
use dart_values::{Heap, Value};
use ds_base::NoMemory;
use program::{ClassId, Field, Numbered};
use std::alloc::Global;

/// A class and those above it, nearest first.
fn chain_of(alloc: Global, program: &Numbered, c: ClassId) -> Result<Vec<ClassId>, NoMemory>
    requires { c.0 < length program.now.classes }
    ensures chain { IfOk result (λ v. map (λ k. k.0) v.items ≡ chain (parents program.now.classes) c.0) }
    ensures there { IfOk result (λ v. All (λ k. k.0 < length program.now.classes) v.items) }
{
    let mut found = Vec::new(alloc);
    let mut at = Some(c);
    while let Some(class) = at {
        found.push(class)?;
        at = program.classes.as_slice()[class.0 as usize].parent;
    }
    Ok(found)
}

/// Pushes what the fields begin with that one class declares.
fn push_fields(
    alloc: Global,
    heap: &mut Heap,
    values: &mut Vec<Value>,
    fields: &[Field],
) -> Result<(), NoMemory>
    requires { All (IsOf heap.old) values.old.items }
    ensures values { OnOk result (values_of heap.new values.new.items
        ≡ values_of heap.old values.old.items ++ map (λ field. meaning.literal field.value) fields.now) }
    ensures of_heap { OnOk result (All (IsOf heap.new) values.new.items) }
    ensures same { OnOk result (heap_of heap.new ≡ heap_of heap.old) }
    ensures keeps { OnOk result (Keeps heap.old heap.new) }
{
    for field in fields {
        let v = literal_value(alloc, heap, &field.value)?;
        values.push(v)?;
    }
    Ok(())
}

/// What the fields of a new object begin with, the highest class's before all.
fn fresh_fields(
    alloc: Global,
    program: &Numbered,
    heap: &mut Heap,
    c: ClassId,
) -> Result<Vec<Value>, NoMemory>
    requires { c.0 < length program.now.classes }
    ensures values { IfOk result (λ v. values_of heap.new v.items ≡ numbered.fields (parts_of program.now) c.0) }
    ensures of_heap { IfOk result (λ v. All (IsOf heap.new) v.items) }
    ensures same { OnOk result (heap_of heap.new ≡ heap_of heap.old) }
    ensures keeps { OnOk result (Keeps heap.old heap.new) }
{
    let mut above = chain_of(alloc, program, c)?;
    let mut values = Vec::new(alloc);
    while let Some(class) = above.pop() {
        let declared = program.classes.as_slice()[class.0 as usize]
            .fields
            .as_slice();
        push_fields(alloc, heap, &mut values, declared)?;
    }
    Ok(values)
}

/// Pushes a new object, with the literals of its fields.
#[inline(never)]
pub fn make_object(
    alloc: Global,
    program: &Numbered,
    isolate: &mut Isolate,
    c: ClassId,
) -> Result<(), NoMemory>
    requires open { IsTrue (is_open c.0) }
    requires concrete { IsTrue (is_concrete program.now.classes c.0) }
    requires there { c.0 < length program.now.classes }
    requires held { AreOf isolate.old }
    ensures { OnOk result (Made (parts_of program.now) c isolate.old isolate.new) }
{
    let fields = fresh_fields(alloc, program, &mut isolate.heap, c)?;
    let v = isolate.heap.object(c, fields)?;
    isolate.values.push(v)?;
    Ok(())
}
