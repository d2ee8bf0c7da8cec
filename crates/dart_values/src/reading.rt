// What is read from the heap.
ghost use Rattle.std.specs.Prelude.{◌≡◌, ◌<◌, List, All, IfOk, IfSome, length, option_map};
ghost use Rattle.std.specs.Option.{option_copied};
ghost use Rattle.dart_values.specs.Values.{Text as Units, need_text, need_int, need_bool, class_of, class_of_thing};
ghost use Rattle.dart_values.specs.Natives.{need_list, index_in};
ghost use Rattle.dart_values.specs.Reads.{text_in, object_fields, field_of, element_of};
ghost use Rattle.dart_values.specs.Store.{Store, IsOf, IsThing, value_in, values_in, value_of, thing_in, heap_of};
ghost use Rattle.dart_values.specs.Doing.{Finds, FindsItems};

use crate::fault::Trap;
use crate::heap::{Heap, Thing};
use crate::value::Value;
use program::{ClassId, Text};

fn class_of_thing(thing: &Thing) -> ClassId
    ensures { (texts : List Units) → result.0 ≡ class_of_thing (Some (thing_in texts thing.now)) }
{
    match thing {
        Thing::Object(class, _) => *class,
        Thing::List(_) => ClassId(5),
        Thing::Invocation { .. } => ClassId(6),
    }
}

fn object_fields(thing: &Thing) -> &[Value]
    ensures fields { (texts : List Units) → values_in texts result.now ≡ object_fields (Some (thing_in texts thing.now)) }
    ensures of_heap { (heap : Store) → IsThing heap thing.now → All (IsOf heap) result.now }
{
    match thing {
        Thing::Object(_, fields) => fields.as_slice(),
        _ => &[],
    }
}

/// The number, where the value is an int.
pub fn int_of(v: Value) -> Result<i64, Trap>
    ensures { (texts : List Units) → result ≡ need_int (value_in texts v) }
{
    match v {
        Value::Int(z) => Ok(z),
        _ => Err(Trap::TypeFault),
    }
}

pub fn bool_of(v: Value) -> Result<bool, Trap>
    ensures { (texts : List Units) → result ≡ need_bool (value_in texts v) }
{
    match v {
        Value::Bool(b) => Ok(b),
        _ => Err(Trap::TypeFault),
    }
}

/// An index into what has this length.
pub fn index_in(length: usize, v: Value) -> Result<usize, Trap>
    ensures value { (texts : List Units) → result ≡ index_in length (value_in texts v) }
    ensures within { IfOk result (λ k. k < length) }
{
    let z = int_of(v)?;
    if z < 0 || z as u64 >= length as u64 {
        return Err(Trap::RangeFault);
    }
    Ok(z as usize)
}

impl Heap {
    pub fn class_of(&self, v: Value) -> ClassId
        requires { IsOf self.now v }
        ensures { result.0 ≡ class_of (heap_of self.now) (value_of self.now v) }
    {
        match v {
            Value::Null => ClassId(1),
            Value::Bool(_) => ClassId(2),
            Value::Int(_) => ClassId(3),
            Value::Str(_) => ClassId(4),
            Value::Ref(address) => class_of_thing(&self.things[address]),
        }
    }

    /// The text of a string.
    pub fn text_of(&self, v: Value) -> Option<&Text>
        requires { IsOf self.now v }
        ensures { option_copied result ≡ text_in (value_of self.now v) }
    {
        match v {
            Value::Str(index) => Some(&self.texts[index]),
            _ => None,
        }
    }

    /// The code units, where the value is a string.
    pub(crate) fn units(&self, v: Value) -> Result<&[u16], Trap>
        requires { IsOf self.now v }
        ensures { Finds (need_text (value_of self.now v)) result }
    {
        match v {
            Value::Str(index) => Ok(self.texts[index].as_slice()),
            _ => Err(Trap::TypeFault),
        }
    }

    /// The items, where the value is a list.
    pub(crate) fn items(&self, v: Value) -> Result<&[Value], Trap>
        requires { IsOf self.now v }
        ensures items { FindsItems self.now (need_list (heap_of self.now) (value_of self.now v)) result }
        ensures of_heap { IfOk result (λ items. All (IsOf self.now) items.now) }
    {
        let Value::Ref(address) = v else {
            return Err(Trap::TypeFault);
        };
        match &self.things[address] {
            Thing::List(items) => Ok(items.as_slice()),
            _ => Err(Trap::TypeFault),
        }
    }

    /// Element `at` of a list.
    pub fn element(&self, v: Value, at: u64) -> Option<Value>
        requires { IsOf self.now v }
        ensures value { option_map (value_of self.now) result ≡ element_of (heap_of self.now) (value_of self.now v) at }
        ensures of_heap { IfSome result (IsOf self.now) }
    {
        let Value::Ref(address) = v else {
            return None;
        };
        match &self.things[address] {
            Thing::List(items) => items.get(at as usize).copied(),
            _ => None,
        }
    }

    /// Field `at` of an object.
    pub fn field(&self, v: Value, at: u32) -> Value
        requires { IsOf self.now v }
        ensures value { value_of self.now result ≡ field_of (heap_of self.now) (value_of self.now v) at }
        ensures of_heap { IsOf self.now result }
    {
        let Value::Ref(address) = v else {
            return Value::Null;
        };
        let fields = object_fields(&self.things[address]);
        let at = at as usize;
        if at < fields.len() {
            fields[at]
        } else {
            Value::Null
        }
    }
}
