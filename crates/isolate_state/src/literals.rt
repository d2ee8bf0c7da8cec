// Values of literals.
ghost use Rattle.std.specs.Prelude.{◌≡◌, ◌++◌, map, All, IfOk, OnOk};
ghost use Rattle.dart_values.specs.Store.{IsOf, Keeps, value_of, values_of, heap_of};
ghost use Rattle.dart_meaning.specs.Literals as meaning;

use dart_values::{Heap, Value};
use ds_base::NoMemory;
use program::Literal;
use sqlite_items::Items;
use std::alloc::Global;

/// The value of a literal; a string is a new text of the heap.
pub fn literal_value(alloc: Global, heap: &mut Heap, literal: &Literal) -> Result<Value, NoMemory>
    ensures value { IfOk result (λ v. value_of heap.new v ≡ meaning.literal literal.now) }
    ensures of_heap { IfOk result (IsOf heap.new) }
    ensures same { OnOk result (heap_of heap.new ≡ heap_of heap.old) }
    ensures keeps { OnOk result (Keeps heap.old heap.new) }
{
    match literal {
        Literal::Null => Ok(Value::Null),
        Literal::Bool(b) => Ok(Value::Bool(*b)),
        Literal::Int(z) => Ok(Value::Int(*z)),
        Literal::Str(units) => heap.text(Items::from_slice(alloc, units.as_slice())?),
    }
}

/// Pushes the values of literals.
pub fn push_literals(
    alloc: Global,
    heap: &mut Heap,
    values: &mut Vec<Value>,
    literals: &[Literal],
) -> Result<(), NoMemory>
    requires { All (IsOf heap.old) values.old.items }
    ensures values { OnOk result
        (values_of heap.new values.new.items ≡ values_of heap.old values.old.items ++ map meaning.literal literals.now) }
    ensures of_heap { OnOk result (All (IsOf heap.new) values.new.items) }
    ensures same { OnOk result (heap_of heap.new ≡ heap_of heap.old) }
    ensures keeps { OnOk result (Keeps heap.old heap.new) }
{
    for literal in literals {
        let v = literal_value(alloc, heap, literal)?;
        values.push(v)?;
    }
    Ok(())
}
