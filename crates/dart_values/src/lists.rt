// The members of List.
ghost use Rattle.dart_values.specs.Store.{IsOf};
ghost use Rattle.dart_values.specs.Doing.{Does, gives_in, no_names};

use crate::fault::{Fault, Trap};
use crate::heap::{Heap, Thing};
use crate::member::{ListMember, Member};
use crate::reading::index_in;
use crate::value::Value;

impl Heap {
    pub(crate) fn list_member(
        &mut self,
        member: ListMember,
        receiver: Value,
        v: Value,
        w: Value,
    ) -> Result<Value, Fault>
        requires receiver { IsOf self.old receiver }
        requires first { IsOf self.old v }
        requires second { IsOf self.old w }
        ensures { Does self.old self.new (gives_in self.old no_names (Member.List member) receiver v w) result }
    {
        match member {
            ListMember::ElementAt => {
                let items = self.items(receiver)?;
                Ok(items[index_in(items.len(), v)?])
            }
            ListMember::SetElement => self.set_element(receiver, v, w),
            ListMember::Length => Ok(Value::Int(self.items(receiver)?.len() as i64)),
            ListMember::IsEmpty => Ok(Value::Bool(self.items(receiver)?.is_empty())),
            ListMember::Add => self.add(receiver, v),
            ListMember::RemoveLast => self.remove_last(receiver),
        }
    }

    fn set_element(&mut self, receiver: Value, v: Value, w: Value) -> Result<Value, Fault>
        requires receiver { IsOf self.old receiver }
        requires value { IsOf self.old w }
        ensures { Does self.old self.new (gives_in self.old no_names (Member.List ListMember.SetElement) receiver v w) result }
    {
        let Value::Ref(address) = receiver else {
            return Err(Fault::Trap(Trap::TypeFault));
        };
        let Thing::List(items) = &mut self.things[address] else {
            return Err(Fault::Trap(Trap::TypeFault));
        };
        let at = index_in(items.len(), v)?;
        items.set(at, w);
        Ok(Value::Null)
    }

    fn add(&mut self, receiver: Value, v: Value) -> Result<Value, Fault>
        requires receiver { IsOf self.old receiver }
        requires value { IsOf self.old v }
        ensures { Does self.old self.new (gives_in self.old no_names (Member.List ListMember.Add) receiver v Value.Null) result }
    {
        let Value::Ref(address) = receiver else {
            return Err(Fault::Trap(Trap::TypeFault));
        };
        let Thing::List(items) = &mut self.things[address] else {
            return Err(Fault::Trap(Trap::TypeFault));
        };
        items.push(v)?;
        Ok(Value::Null)
    }

    fn remove_last(&mut self, receiver: Value) -> Result<Value, Fault>
        requires { IsOf self.old receiver }
        ensures { Does self.old self.new (gives_in self.old no_names (Member.List ListMember.RemoveLast) receiver Value.Null Value.Null) result }
    {
        let Value::Ref(address) = receiver else {
            return Err(Fault::Trap(Trap::TypeFault));
        };
        let Thing::List(items) = &mut self.things[address] else {
            return Err(Fault::Trap(Trap::TypeFault));
        };
        match items.pop() {
            Some(last) => Ok(last),
            None => Err(Fault::Trap(Trap::RangeFault)),
        }
    }
}
