// Elements of a list, one after the other.
ghost use Rattle.std.specs.Prelude.{◌≡◌, ◌+◌, ◌<◌, ◌^◌, List, length, pos, IfOk, IfSome};
ghost use Rattle.code_unit.specs.declared.instr.Instr.TheVariants as instr;
ghost use Rattle.isolate_state.specs.State.{AreOf, DoesAll, place_of};
ghost use Rattle.dart_values.specs.declared.value.Value.TheVariants as value;
ghost use Rattle.dart_values.specs.Values.{Text};
ghost use Rattle.dart_values.specs.Store.{value_in};

use crate::frame::{Flow, Frame};
use crate::isolate::Isolate;
use dart_values::Value;
use ds_base::NoMemory;

/// Pops a list and a number, and pushes the element there and the next number, or goes to a place where there is none.
pub fn element_or(isolate: &mut Isolate, frame: &mut Frame, to: u32) -> Result<Flow, NoMemory>
    requires place { frame.old.place + 1 < 2 ^ 64 }
    requires some { 1 < length isolate.old.values.items }
    requires held { AreOf isolate.old }
    ensures { IfOk result (λ flow. DoesAll (instr.ElementOr to) isolate.old frame.old flow isolate.new frame.new) }
{
    let number = isolate.values.take_last();
    let list = isolate.values.take_last();
    let Some(at) = place_in(number) else {
        return Ok(Flow::TypeFault);
    };
    let Some(item) = isolate.heap.element(list, at) else {
        frame.place = to as usize;
        return Ok(Flow::Here);
    };
    // No list has so many elements.
    let Some(next) = number_behind(at) else {
        return Err(NoMemory);
    };
    isolate.values.push(item)?;
    isolate.values.push(next)?;
    frame.place += 1;
    Ok(Flow::Here)
}

/// The place that a number names.
fn place_in(v: Value) -> Option<u64>
    ensures { (texts : List Text) → result ≡ place_of (value_in texts v) }
{
    let Value::Int(z) = v else {
        return None;
    };
    if z < 0 {
        return None;
    }
    Some(z as u64)
}

/// The number of the next place.
fn number_behind(at: u64) -> Option<Value>
    ensures { IfSome result (λ w. w ≡ value.Int (pos (at + 1))) }
{
    if at >= 9_223_372_036_854_775_807 {
        return None;
    }
    Some(Value::Int((at + 1) as i64))
}
