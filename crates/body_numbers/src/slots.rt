//! The open variables of a body, and the slots of their names.

ghost use Rattle.std.specs.Prelude.{◌≡◌, ◌-◌, ◌∷◌, [], Some, OnOk, OnErr, IfOk, length, drop, map};
ghost use Rattle.dart_syntax.specs.View.{param};
ghost use Rattle.body_numbers.specs.Maps.{in_map, with_meaning};
ghost use Rattle.dart_meaning.specs.Numbering.{param_names, body_name, body_names};
ghost use Rattle.body_numbers.specs.Open.{slots};

use dart_syntax::tree::Param;
use ds_base::NoMemory;
use std::alloc::{AllocError, Global};
use std::collections::HashMap;
use std::marker::Model;

/// A variable, and the slot that its name stood for before, if any.
#[derive(Drop)]
pub struct Open<'a> {
    name: &'a [u8],
    was: Option<u32>,
}

/// The open variables. Contracts see their names, the newest first.
#[derive(Drop)]
pub struct Slots<'a> {
    known: HashMap<&'a [u8], u32>,
    stack: Vec<Open<'a>>,
}

impl<'a> Model for Slots<'a> {
    ghost use Rattle.std.specs.Prelude.{List, reverse};
    ghost use Rattle.dart_syntax.specs.Bytes.{Text};
    ghost use Rattle.body_numbers.specs.Open.{names_of, IsKept};

    ghost Value = { List Text };

    ghost view = { λ s. names_of (reverse s.stack.items) };

    ghost invariant = { λ s. IsKept s.known (reverse s.stack.items) };
}

fn put<'a>(
    known: &mut HashMap<&'a [u8], u32>,
    name: &'a [u8],
    slot: Option<u32>,
) -> Result<(), NoMemory>
    ensures put { OnOk result (in_map known.new ≡ with_meaning name.now slot (in_map known.old)) }
    ensures err { OnErr result (in_map known.new ≡ in_map known.old) }
{
    match slot {
        Some(slot) => {
            known.insert(name, slot)?;
        }
        None => {
            known.remove(&name);
        }
    }
    Ok(())
}

/// The slot behind so many variables. More than there are numbers do not fit in memory.
fn slot_behind(count: usize) -> Result<u32, NoMemory>
    ensures { IfOk result (λ slot. slot ≡ count) }
{
    if count > u32::MAX as usize {
        return Err(NoMemory);
    }
    Ok(count as u32)
}

impl<'a> Slots<'a> {
    /// No variable is open.
    pub fn new(alloc: Global) -> Slots<'a>
        ensures { result ≡ [] }
    {
        Slots {
            known: HashMap::new(alloc),
            stack: Vec::new(alloc),
        }
    }

    /// How many variables are open.
    pub fn count(&self) -> usize
        ensures { result ≡ length self.now }
    {
        self.stack.len()
    }

    /// The slot of a variable's name, the newest of the name.
    pub fn look(&self, name: &[u8]) -> Option<u32>
        ensures { result ≡ slots self.now name.now }
    {
        self.known.get(&name).copied()
    }

    /// Opens a variable, until the block around it closes.
    pub fn open(&mut self, name: &'a [u8]) -> Result<(), NoMemory>
        ensures { OnOk result (self.new ≡ name.now ∷ self.old) }
    {
        let count = self.stack.len();
        let slot = slot_behind(count)?;
        let was = self.known.get(&name).copied();
        self.stack.push(Open { name, was })?;
        match put(&mut self.known, name, Some(slot)) {
            Ok(()) => Ok(()),
            Err(error) => {
                self.stack.truncate(count);
                Err(error)
            }
        }
    }

    /// Closes the newest variable.
    fn close_newest(&mut self) -> Result<(), NoMemory>
        ensures { OnOk result (self.new ≡ drop 1 self.old) }
    {
        if let Some((newest, _rest)) = self.stack.split_last() {
            put(&mut self.known, newest.name, newest.was)?;
            self.stack.pop();
        }
        Ok(())
    }

    /// Closes the newest variables, until so many are open.
    pub fn close(&mut self, count: usize) -> Result<(), NoMemory>
        ensures { OnOk result (self.new ≡ drop (length self.old - count) self.old) }
    {
        while self.count() > count {
            self.close_newest()?;
        }
        Ok(())
    }
}

/// The variables that are open where a body begins.
pub fn with_params<'a>(alloc: Global, params: &'a [Param]) -> Result<Slots<'a>, NoMemory>
    ensures { IfOk result (λ names. names ≡ param_names (map param params.now)) }
{
    let mut slots = Slots::new(alloc);
    for x in params {
        slots.open(x.name.text.as_slice())?;
    }
    Ok(slots)
}

/// The name of a parameter in a constructor's body, where a `this.x` has none, since x means the field.
fn body_name(x: &Param) -> &[u8]
    ensures { result.now ≡ body_name (param x.now) }
{
    if x.is_field {
        b""
    } else {
        x.name.text.as_slice()
    }
}

/// The same for the body of a constructor.
pub fn with_body_params<'a>(alloc: Global, params: &'a [Param]) -> Result<Slots<'a>, NoMemory>
    ensures { IfOk result (λ names. names ≡ body_names (map param params.now)) }
{
    let mut slots = Slots::new(alloc);
    for x in params {
        slots.open(body_name(x))?;
    }
    Ok(slots)
}
