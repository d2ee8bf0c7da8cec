// The built-in members.
ghost use Rattle.std.specs.Prelude.{◌≡◌, ◌≢◌, ◌<◌, All, IfOk, OnErr, IsTrue, Err, slice_index_or};
ghost use Rattle.dart_values.specs.declared.fault.Fault.TheVariants as fault;
ghost use Rattle.dart_values.specs.Members.{takes_no_memory, is_free};
ghost use Rattle.dart_values.specs.Reads.{class_name};
ghost use Rattle.dart_values.specs.Store.{IsOf, IsPlain, value_of, heap_of, result_in, Keeps};
ghost use Rattle.dart_values.specs.Doing.{Answers, Does, gives_in, native_in};
ghost use Rattle.dart_values.specs.Values.{need_int, and_then, classes};
ghost use Rattle.dart_values.specs.Numbers.{int_with};

use crate::fault::{Fault, Trap};
use crate::heap::Heap;
use crate::member::{IntOperator, Member, member_of};
use crate::numbers::{bool_with, int_member, int_with};
use crate::reading::{bool_of, int_of};
use crate::strings::{bool_text, decimal_text, widened};
use crate::value::Value;
use program::{NativeId, Numbered};

fn argument(args: &[Value], at: usize) -> Value
    ensures { result ≡ slice_index_or args.now at Value.Null }
{
    if at < args.len() {
        args[at]
    } else {
        Value::Null
    }
}

impl Heap {
    /// A built-in member, but `toString` of List, which calls that of each element.
    pub fn native(
        &mut self,
        program: &Numbered,
        id: NativeId,
        receiver: Value,
        args: &[Value],
    ) -> Result<Value, Fault>
        requires built_in { id.0 < 49 }
        requires no_list_text { id.0 ≢ 43 }
        requires receiver { IsOf self.old receiver }
        requires args { All (IsOf self.old) args.now }

        // The value is what the definition gives, and the trap is its trap.
        ensures answers { Answers (native_in self.old program.now.classes id.0 receiver args.now) self.new result }
        // The members of bool and int but `toString` take no memory.
        ensures no_memory { IsTrue (is_free id.0) → result ≢ Err fault.NoMemory }
        ensures of_heap { IfOk result (IsOf self.new) }

        // Strings keep their texts and things their classes; after want of memory or a trap the heap is as before.
        ensures keeps { Keeps self.old self.new }
        ensures classes { classes (heap_of self.new) ≡ classes (heap_of self.old) }
        ensures err { OnErr result (self.new ≡ self.old) }
    {
        let member = member_of(id);
        if args.len() != member.arity() {
            return Err(Fault::Trap(Trap::TypeFault));
        }
        self.member(
            program,
            member,
            receiver,
            argument(args, 0),
            argument(args, 1),
        )
    }

    fn member(
        &mut self,
        program: &Numbered,
        member: Member,
        receiver: Value,
        v: Value,
        w: Value,
    ) -> Result<Value, Fault>
        requires receiver { IsOf self.old receiver }
        requires first { IsOf self.old v }
        requires second { IsOf self.old w }
        ensures does { Does self.old self.new (gives_in self.old (class_name program.now.classes) member receiver v w) result }
        ensures no_memory { IsTrue (takes_no_memory member) → result ≢ Err fault.NoMemory }
    {
        let alloc = self.alloc;
        match member {
            Member::Object(member) => self.object_member(program, member, receiver, v),
            Member::NullToString => {
                let units = widened(alloc, b"null")?;
                self.string(units)
            }
            Member::BoolWith(operator) => {
                Ok(Value::Bool(bool_with(operator, bool_of(receiver)?, bool_of(v)?)))
            }
            Member::BoolToString => {
                let units = bool_text(alloc, bool_of(receiver)?)?;
                self.string(units)
            }
            Member::IntWith(operator) => Ok(self.int_with(operator, receiver, v)?),
            Member::Int(member) => Ok(int_member(member, int_of(receiver)?, v)),
            Member::IntToString => {
                let units = decimal_text(alloc, int_of(receiver)?)?;
                self.string(units)
            }
            Member::String(member) => self.string_member(member, receiver, v, w),
            Member::List(member) => self.list_member(member, receiver, v, w),
            Member::ListToString => Err(Fault::Trap(Trap::TypeFault)),
            Member::Invocation(member) => Ok(self.invocation_member(member, receiver)?),
        }
    }

    fn int_with(&self, operator: IntOperator, receiver: Value, v: Value) -> Result<Value, Trap>
        ensures value { result_in self.now.texts result ≡
            and_then (need_int (value_of self.now receiver)) (λ x. and_then (need_int (value_of self.now v)) (int_with operator x)) }
        ensures plain { IfOk result IsPlain }
    {
        int_with(operator, int_of(receiver)?, int_of(v)?)
    }
}
