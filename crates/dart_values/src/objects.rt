// The members of Object and of Invocation.
ghost use Rattle.std.specs.Prelude.{◌≡◌, IfOk};
ghost use Rattle.dart_values.specs.Natives.{same_value, instance_text, missing, thing_at, of_invocation};
ghost use Rattle.dart_values.specs.Reads.{class_name, with_field, thrown_text};
ghost use Rattle.dart_values.specs.Store.{IsOf, value_of, heap_of, Keeps, result_in};
ghost use Rattle.dart_values.specs.Doing.{Does, gives_in};

use crate::fault::{Fault, Trap};
use crate::heap::{Heap, Thing};
use crate::member::{InvocationMember, Member, ObjectMember};
use crate::strings::{bool_text, decimal_text, widened};
use crate::value::Value;
use ds_base::NoMemory;
use program::{ClassId, Numbered, SelectorKind, Text};
use sqlite_items::Items;
use std::alloc::{AllocError, Global};

fn class_name(program: &Numbered, class: ClassId) -> &[u8]
    ensures { result.now ≡ class_name program.now.classes class.0 }
{
    match program.classes.get(class.0 as usize) {
        Some(class) => class.name.as_slice(),
        None => b"",
    }
}

/// `Instance of 'C'`
fn instance_text(alloc: Global, name: &[u8]) -> Result<Text, AllocError>
    ensures { IfOk result (λ units. units ≡ instance_text name.now) }
{
    let mut bytes = Vec::from_slice(alloc, b"Instance of '")?;
    bytes.extend_from_slice(name)?;
    bytes.push(b'\'')?;
    widened(alloc, bytes.as_slice())
}

impl Heap {
    /// Identity; by value for null, bools, integers and strings.
    fn is_same(&self, v: Value, w: Value) -> bool
        requires first { IsOf self.now v }
        requires second { IsOf self.now w }
        ensures { result ≡ same_value (value_of self.now v) (value_of self.now w) }
    {
        match (v, w) {
            (Value::Null, Value::Null) => true,
            (Value::Bool(x), Value::Bool(y)) => x == y,
            (Value::Int(x), Value::Int(y)) => x == y,
            (Value::Str(x), Value::Str(y)) => {
                self.texts[x].as_slice() == self.texts[y].as_slice()
            }
            (Value::Ref(x), Value::Ref(y)) => x == y,
            _ => false,
        }
    }

    /// The trap of Object's `noSuchMethod`.
    fn missing(&self, v: Value) -> Result<Trap, NoMemory>
        requires { IsOf self.now v }
        ensures { IfOk result (λ t. t ≡ missing (thing_at (heap_of self.now) (value_of self.now v))) }
    {
        let Value::Ref(address) = v else {
            return Ok(Trap::TypeFault);
        };
        match &self.things[address] {
            Thing::Invocation { name, .. } => {
                let units = Items::from_slice(self.alloc, self.texts[*name].as_slice())?;
                Ok(Trap::NoSuchMethod(units))
            }
            _ => Ok(Trap::TypeFault),
        }
    }

    pub(crate) fn object_member(
        &mut self,
        program: &Numbered,
        member: ObjectMember,
        receiver: Value,
        v: Value,
    ) -> Result<Value, Fault>
        requires receiver { IsOf self.old receiver }
        requires first { IsOf self.old v }
        ensures { Does self.old self.new
            (gives_in self.old (class_name program.now.classes) (Member.Object member) receiver v Value.Null) result }
    {
        let alloc = self.alloc;
        match member {
            ObjectMember::Equals => Ok(Value::Bool(self.is_same(receiver, v))),
            ObjectMember::ToString => {
                let units = instance_text(alloc, class_name(program, self.class_of(receiver)))?;
                self.string(units)
            }
            ObjectMember::NoSuchMethod => Err(Fault::Trap(self.missing(v)?)),
        }
    }

    pub(crate) fn invocation_member(
        &self,
        member: InvocationMember,
        receiver: Value,
    ) -> Result<Value, Trap>
        requires { IsOf self.now receiver }
        ensures value { result_in self.now.texts result ≡ of_invocation member (thing_at (heap_of self.now) (value_of self.now receiver)) }
        ensures of_heap { IfOk result (IsOf self.now) }
    {
        let Value::Ref(address) = receiver else {
            return Err(Trap::TypeFault);
        };
        let Thing::Invocation {
            name,
            arguments,
            kind,
        } = &self.things[address]
        else {
            return Err(Trap::TypeFault);
        };
        Ok(match member {
            InvocationMember::MemberName => Value::Str(*name),
            InvocationMember::PositionalArguments => Value::Ref(*arguments),
            InvocationMember::IsMethod => Value::Bool(*kind == SelectorKind::Call),
            InvocationMember::IsGetter => Value::Bool(*kind == SelectorKind::Get),
            InvocationMember::IsSetter => Value::Bool(*kind == SelectorKind::Set),
        })
    }

    /// Writes field `at` of an object.
    pub fn set_field(&mut self, v: Value, at: u32, to: Value)
        requires object { IsOf self.old v }
        requires value { IsOf self.old to }
        ensures heap { heap_of self.new ≡
            with_field (heap_of self.old) (value_of self.old v) at (value_of self.old to) }
        ensures keeps { Keeps self.old self.new }
    {
        let Value::Ref(address) = v else {
            return;
        };
        let Thing::Object(_, fields) = &mut self.things[address] else {
            return;
        };
        let at = at as usize;
        if at < fields.len() {
            fields.set(at, to);
        }
    }

    /// What `throw` tells of a value, without a call.
    pub fn thrown_text(&self, alloc: Global, program: &Numbered, v: Value) -> Result<Text, NoMemory>
        requires { IsOf self.now v }
        ensures { IfOk result (λ units. units ≡
            thrown_text (class_name program.now.classes) (heap_of self.now) (value_of self.now v)) }
    {
        let units = match v {
            Value::Null => widened(alloc, b"null")?,
            Value::Bool(b) => bool_text(alloc, b)?,
            Value::Int(z) => decimal_text(alloc, z)?,
            Value::Str(index) => Items::from_slice(alloc, self.texts[index].as_slice())?,
            Value::Ref(_) => instance_text(alloc, class_name(program, self.class_of(v)))?,
        };
        Ok(units)
    }
}
