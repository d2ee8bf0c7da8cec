// The members of String, and the making of strings.
ghost use Rattle.std.specs.Prelude.{◌≡◌, All, [], ◌∷◌, ◌++◌, IfOk, OnOk, OnErr};
ghost use Rattle.std.specs.Fmt.{signed_decimal};
ghost use Rattle.dart_values.specs.Values.{text, gives};
ghost use Rattle.dart_values.specs.Natives.{cut, is_text, bool_text};
ghost use Rattle.dart_values.specs.Reads.{joined};
ghost use Rattle.dart_values.specs.Store.{IsOf, value_of, values_of, heap_of, Keeps};
ghost use Rattle.dart_values.specs.Doing.{Does, Makes, gives_in, no_names};

use crate::fault::{Fault, Trap};
use crate::heap::Heap;
use crate::member::{Member, StringMember};
use crate::reading::{index_in, int_of};
use crate::value::Value;
use ds_base::NoMemory;
use itoa::Buffer;
use program::Text;
use sqlite_items::Items;
use std::alloc::{AllocError, Global};

/// The units of `front`, and then those of `back`.
fn joined(alloc: Global, front: &[u16], back: &[u16]) -> Result<Text, AllocError>
    ensures { IfOk result (λ units. units ≡ front.now ++ back.now) }
{
    let mut units = Vec::from_slice(alloc, front)?;
    units.extend_from_slice(back)?;
    Ok(Items::from_vec(units))
}

/// The units from a to b, where 0 ≤ a ≤ b ≤ length.
fn cut(alloc: Global, units: &[u16], a: i64, b: i64) -> Result<Text, Fault>
    ensures { Makes (cut units.now a b) result }
{
    if a < 0 || b < a || b as u64 > units.len() as u64 {
        return Err(Fault::Trap(Trap::RangeFault));
    }
    Ok(Items::from_slice(alloc, &units[a as usize..b as usize])?)
}

/// ASCII as code units.
pub fn widened(alloc: Global, bytes: &[u8]) -> Result<Text, AllocError>
    ensures { IfOk result (λ units. units ≡ bytes.now) }
{
    let mut units = Items::new(alloc);
    for b in bytes {
        units.push(u16::from(*b))?;
    }
    Ok(units)
}

pub fn decimal_text(alloc: Global, z: i64) -> Result<Text, AllocError>
    ensures { IfOk result (λ units. units ≡ signed_decimal z) }
{
    let mut buffer = Buffer::new();
    widened(alloc, buffer.format(z).as_bytes())
}

pub fn bool_text(alloc: Global, b: bool) -> Result<Text, AllocError>
    ensures { IfOk result (λ units. units ≡ bool_text b) }
{
    if b {
        widened(alloc, b"true")
    } else {
        widened(alloc, b"false")
    }
}

impl Heap {
    /// A new string, as what a member gives.
    pub(crate) fn string(&mut self, units: Text) -> Result<Value, Fault>
        ensures { Does self.old self.new (gives (heap_of self.old) (text units)) result }
    {
        Ok(self.text(units)?)
    }

    /// Whether the value is a string of these units.
    fn is_text(&self, units: &[u16], v: Value) -> bool
        requires { IsOf self.now v }
        ensures { result ≡ is_text units.now (value_of self.now v) }
    {
        match v {
            Value::Str(index) => units == self.texts[index].as_slice(),
            _ => false,
        }
    }

    pub(crate) fn string_member(
        &mut self,
        member: StringMember,
        receiver: Value,
        v: Value,
        w: Value,
    ) -> Result<Value, Fault>
        requires receiver { IsOf self.old receiver }
        requires first { IsOf self.old v }
        requires second { IsOf self.old w }
        ensures { Does self.old self.new (gives_in self.old no_names (Member.String member) receiver v w) result }
    {
        let alloc = self.alloc;
        let units = self.units(receiver)?;
        match member {
            StringMember::Concat => {
                let made = joined(alloc, units, self.units(v)?)?;
                self.string(made)
            }
            StringMember::Equals => Ok(Value::Bool(self.is_text(units, v))),
            StringMember::UnitAt => {
                let at = index_in(units.len(), v)?;
                let made = Items::from_slice(alloc, &[units[at]])?;
                self.string(made)
            }
            StringMember::Length => Ok(Value::Int(units.len() as i64)),
            StringMember::IsEmpty => Ok(Value::Bool(units.is_empty())),
            StringMember::ToString => Ok(receiver),
            StringMember::CodeUnitAt => {
                let at = index_in(units.len(), v)?;
                Ok(Value::Int(i64::from(units[at])))
            }
            StringMember::Substring => {
                let made = cut(alloc, units, int_of(v)?, int_of(w)?)?;
                self.string(made)
            }
        }
    }

    /// The string of these strings in order.
    pub fn concat(&mut self, parts: &[Value]) -> Result<Value, NoMemory>
        requires { All (IsOf self.old) parts.now }
        ensures value { IfOk result (λ v. value_of self.new v ≡ text (joined (values_of self.old parts.now))) }
        ensures heap { OnOk result (heap_of self.new ≡ heap_of self.old) }
        ensures of_heap { IfOk result (IsOf self.new) }
        ensures keeps { Keeps self.old self.new }
        ensures err { OnErr result (self.new ≡ self.old) }
    {
        let units = self.all_units(parts)?;
        self.text(units)
    }

    fn all_units(&self, parts: &[Value]) -> Result<Text, AllocError>
        requires { All (IsOf self.now) parts.now }
        ensures { IfOk result (λ units. units ≡ joined (values_of self.now parts.now)) }
    {
        let mut units = Vec::new(self.alloc);
        for part in parts {
            self.add_units(&mut units, *part)?;
        }
        Ok(Items::from_vec(units))
    }

    fn add_units(&self, units: &mut Vec<u16>, part: Value) -> Result<(), AllocError>
        requires { IsOf self.now part }
        ensures { OnOk result (units.new.items ≡ units.old.items ++ joined (value_of self.now part ∷ [])) }
    {
        match part {
            Value::Str(index) => units.extend_from_slice(self.texts[index].as_slice()),
            _ => Ok(()),
        }
    }
}
