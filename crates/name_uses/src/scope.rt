//! What names mean, in scopes that open and close.

ghost use Rattle.std.specs.Prelude.{◌≡◌, Some, [], OnOk, length, take};
ghost use Rattle.name_uses.specs.Undo.{in_map, meaning, with_meaning, nothing, Extends, before};

use std::alloc::{AllocError, Global};
use std::collections::HashMap;

/// A name, and what it meant before it was set.
#[derive(Drop)]
pub struct Before<'a, V> {
    name: &'a [u8],
    was: Option<V>,
}

/// What each name means, and what is put back where a scope closes.
#[derive(Drop)]
pub struct Scope<'a, V> {
    known: HashMap<&'a [u8], V>,
    undo: Vec<Before<'a, V>>,
}

fn put<'a, V: Copy + Drop>(
    known: &mut HashMap<&'a [u8], V>,
    name: &'a [u8],
    value: Option<V>,
) -> Result<(), AllocError>
    ensures { OnOk result (in_map known.new ≡ with_meaning name.now value (in_map known.old)) }
{
    match value {
        Some(value) => {
            known.insert(name, value)?;
        }
        None => {
            known.remove(&name);
        }
    }
    Ok(())
}

impl<'a, V: Copy + Drop> Scope<'a, V> {
    /// No name means anything.
    pub fn new(alloc: Global) -> Scope<'a, V>
        ensures nothing { meaning result ≡ nothing }
        ensures no_undo { result.undo.items ≡ [] }
    {
        Scope {
            known: HashMap::new(alloc),
            undo: Vec::new(alloc),
        }
    }

    /// What a name means.
    #[tactic(auto, unfolding(crate::specs::Undo::in_map))]
    pub fn look(&self, name: &[u8]) -> Option<V>
        ensures { result ≡ meaning self.now name.now }
    {
        self.known.get(&name).copied()
    }

    /// Where a scope begins that opens now.
    pub fn mark(&self) -> usize
        ensures { result ≡ length self.now.undo.items }
    {
        self.undo.len()
    }

    /// Gives a name a meaning, until the scope closes.
    pub fn set(&mut self, name: &'a [u8], value: V) -> Result<(), AllocError>
        ensures set { OnOk result (meaning self.new ≡ with_meaning name.now (Some value) (meaning self.old)) }
        ensures undo { OnOk result (Extends self.old self.new) }
    {
        let was = self.look(name);
        self.undo.push(Before { name, was })?;
        put(&mut self.known, name, Some(value))?;
        Ok(())
    }

    /// Closes the scope that began there: each name means what it meant.
    pub fn close(&mut self, mark: usize) -> Result<(), AllocError>
        ensures back { OnOk result (meaning self.new ≡ before self.old mark) }
        ensures undo { OnOk result (self.new.undo.items ≡ take mark self.old.undo.items) }
    {
        while self.undo.len() > mark {
            if let Some(last) = self.undo.pop() {
                put(&mut self.known, last.name, last.was)?;
            }
        }
        Ok(())
    }
}
