// The heap.
ghost use Rattle.std.specs.Prelude.{◌≡◌, [], IsTrue, ◌↔◌};
ghost use Rattle.dart_values.specs.Store.{IsOf};

use crate::value::Value;
use program::{ClassId, SelectorKind, Text};
use sqlite_items::Items;
use std::alloc::Global;
use std::marker::Model;

/// What has an address. An Invocation names the text of its member's name and the list of its arguments.
#[derive(Drop)]
pub enum Thing {
    Object(ClassId, Items<Value>),
    List(Items<Value>),
    Invocation {
        name: usize,
        arguments: usize,
        kind: SelectorKind,
    },
}

/// Objects, lists and Invocations by address, and texts by index.
#[derive(Drop)]
pub struct Heap {
    pub(crate) alloc: Global,
    pub(crate) things: Vec<Thing>,
    pub(crate) texts: Vec<Text>,
}

impl Model for Heap {
    ghost use Rattle.dart_values.specs.Store.{Store, IsWhole};

    ghost Value = { Store };

    ghost view = { λ h. record { things = h.things.items; texts = h.texts.items } };

    ghost invariant = { λ h. IsWhole (record { things = h.things.items; texts = h.texts.items }) };
}

impl Heap {
    /// A heap that holds nothing.
    pub fn build(alloc: Global) -> Heap
        ensures { result ≡ record { things = []; texts = [] } }
    {
        Heap {
            alloc,
            things: Vec::new(alloc),
            texts: Vec::new(alloc),
        }
    }

    /// Whether the value is one of this heap.
    pub fn holds(&self, v: Value) -> bool
        ensures { IsTrue result ↔ IsOf self.now v }
    {
        match v {
            Value::Str(text) => text < self.texts.len(),
            Value::Ref(address) => address < self.things.len(),
            _ => true,
        }
    }
}
