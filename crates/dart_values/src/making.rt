// New values.
ghost use Rattle.std.specs.Prelude.{◌≡◌, ◌+◌, length, [], ◌∷◌, ◌++◌, All, IfOk, OnOk, OnErr, IsTrue};
ghost use Rattle.program.specs.BuiltIn.{is_open};
ghost use Rattle.dart_values.specs.declared.heap.Thing.TheVariants as variant;
ghost use Rattle.dart_values.specs.Values.{text, at, object, list, invocation};
ghost use Rattle.dart_values.specs.Store.{IsOf, IsThing, Keeps, value_of, values_of, thing_in, heap_of};

use crate::heap::{Heap, Thing};
use crate::value::Value;
use ds_base::NoMemory;
use program::{ClassId, SelectorKind, Text};
use sqlite_items::Items;

/// Adds the name of a member, the list of the arguments and the Invocation of both, or nothing. The answer is the Invocation's address.
fn push_invocation(
    texts: &mut Vec<Text>,
    things: &mut Vec<Thing>,
    name: Text,
    arguments: Vec<Value>,
    kind: SelectorKind,
) -> Result<usize, NoMemory>
    ensures address { IfOk result (λ a. a ≡ length things.old.items + 1) }
    ensures texts { OnOk result (texts.new.items ≡ texts.old.items ++ name ∷ []) }
    ensures things { OnOk result (things.new.items
        ≡ (things.old.items ++ variant.List arguments.items ∷ []) ++ variant.Invocation (length texts.old.items) (length things.old.items) kind ∷ []) }
    ensures no_texts { OnErr result (texts.new.items ≡ texts.old.items) }
    ensures no_things { OnErr result (things.new.items ≡ things.old.items) }
{
    texts.reserve(1)?;
    things.reserve(2)?;
    let index = texts.len();
    let address = things.len();
    texts.push(name).unwrap();
    let list = Thing::List(Items::from_vec(arguments));
    things.push(list).unwrap();
    let invocation = Thing::Invocation {
        name: index,
        arguments: address,
        kind,
    };
    things.push(invocation).unwrap();
    Ok(address + 1)
}

impl Heap {
    /// A string.
    pub fn text(&mut self, units: Text) -> Result<Value, NoMemory>
        ensures value { IfOk result (λ v. value_of self.new v ≡ text units) }
        ensures heap { OnOk result (heap_of self.new ≡ heap_of self.old) }
        ensures of_heap { IfOk result (IsOf self.new) }
        ensures keeps { Keeps self.old self.new }
        ensures err { OnErr result (self.new ≡ self.old) }
    {
        let index = self.texts.len();
        self.texts.push(units)?;
        Ok(Value::Str(index))
    }

    fn thing(&mut self, thing: Thing) -> Result<Value, NoMemory>
        requires { IsThing self.old thing }
        ensures value { IfOk result (λ v. value_of self.new v ≡ at (length (heap_of self.old))) }
        ensures heap { OnOk result
            (heap_of self.new ≡ heap_of self.old ++ thing_in self.old.texts thing ∷ []) }
        ensures of_heap { IfOk result (IsOf self.new) }
        ensures keeps { Keeps self.old self.new }
        ensures err { OnErr result (self.new ≡ self.old) }
    {
        let address = self.things.len();
        self.things.push(thing)?;
        Ok(Value::Ref(address))
    }

    /// An object with these fields.
    pub fn object(&mut self, class: ClassId, fields: Vec<Value>) -> Result<Value, NoMemory>
        requires class { IsTrue (is_open class.0) }
        requires fields { All (IsOf self.old) fields.items }
        ensures value { IfOk result (λ v. value_of self.new v ≡ at (length (heap_of self.old))) }
        ensures heap { OnOk result
            (heap_of self.new ≡ heap_of self.old ++ object class.0 (values_of self.old fields.items) ∷ []) }
        ensures of_heap { IfOk result (IsOf self.new) }
        ensures keeps { Keeps self.old self.new }
        ensures err { OnErr result (self.new ≡ self.old) }
    {
        self.thing(Thing::Object(class, Items::from_vec(fields)))
    }

    /// A list of these items.
    pub fn list(&mut self, items: Vec<Value>) -> Result<Value, NoMemory>
        requires { All (IsOf self.old) items.items }
        ensures value { IfOk result (λ v. value_of self.new v ≡ at (length (heap_of self.old))) }
        ensures heap { OnOk result (heap_of self.new ≡ heap_of self.old ++ list (values_of self.old items.items) ∷ []) }
        ensures of_heap { IfOk result (IsOf self.new) }
        ensures keeps { Keeps self.old self.new }
        ensures err { OnErr result (self.new ≡ self.old) }
    {
        self.thing(Thing::List(Items::from_vec(items)))
    }

    /// An Invocation, and before it the list of its arguments.
    pub fn invocation(
        &mut self,
        name: Text,
        arguments: Vec<Value>,
        kind: SelectorKind,
    ) -> Result<Value, NoMemory>
        requires { All (IsOf self.old) arguments.items }
        ensures value { IfOk result (λ v. value_of self.new v ≡ at (length (heap_of self.old) + 1)) }
        ensures heap { OnOk result (heap_of self.new ≡ heap_of self.old
            ++ (list (values_of self.old arguments.items) ∷ invocation name (at (length (heap_of self.old))) kind ∷ [])) }
        ensures of_heap { IfOk result (IsOf self.new) }
        ensures keeps { Keeps self.old self.new }
        ensures err { OnErr result (self.new ≡ self.old) }
    {
        let address = push_invocation(&mut self.texts, &mut self.things, name, arguments, kind)?;
        Ok(Value::Ref(address))
    }
}
