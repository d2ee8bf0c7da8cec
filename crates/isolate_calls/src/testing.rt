// Tests by `is`.
ghost use Rattle.std.specs.Prelude.{◌≡◌, ◌+◌, ◌<◌, ◌^◌, length, IfOk};
ghost use Rattle.program.specs.Program.{parts_of};
ghost use Rattle.isolate_state.specs.State.{AreOf};
ghost use Rattle.isolate_calls.specs.Asking.{HasClasses, Tested};

use dart_values::Value;
use ds_base::NoMemory;
use isolate_state::{Flow, Frame, Isolate};
use method_lookup::{Linked, Subtypes};
use program::ClassId;

/// Whether the class of the top value is a class, or below it; null is of class Null alone.
#[inline(always)]
pub fn is_class<Q: Subtypes>(
    linked: &Linked,
    isolate: &mut Isolate,
    frame: &mut Frame,
    types: &mut Q,
    c: ClassId,
) -> Result<Flow, NoMemory>
    requires place { frame.old.place + 1 < 2 ^ 64 }
    requires some { 0 < length isolate.old.values.items }
    requires held { AreOf isolate.old }
    requires classes { HasClasses (parts_of linked.now.program) isolate.old }
    requires there { c.0 < length linked.now.program.classes }
    requires made { Q.fits types.old linked.now }
    ensures made { Q.fits types.new linked.now }
    ensures tested { IfOk result (λ flow. Tested (Q.After types.old) types.new (parts_of linked.now.program) c isolate.old frame.old flow isolate.new frame.new) }
{
    let v = isolate.values.take_last();
    if let Value::Null = v {
        isolate.values.push(Value::Bool(c.0 == 1))?;
        frame.place += 1;
        return Ok(Flow::Here);
    }
    let own = isolate.heap.class_of(v);
    let holds = types.ask(linked, own, c);
    isolate.values.push(Value::Bool(holds))?;
    frame.place += 1;
    Ok(Flow::Here)
}
