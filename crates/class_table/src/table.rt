// The class table.
ghost use Rattle.std.specs.Prelude.{◌≡◌, ◌<◌, ◌≤◌, ◌↔◌, length, map, IfOk, IsTrue, IsNone, Some, option_map, slice_get, string_bytes};
ghost use Rattle.program.specs.Hierarchy.{parent_in, is_above, is_subtype, IsLast};
ghost use Rattle.program.specs.Parts.{parents, named_above, supers};
ghost use Rattle.class_table.specs.Table.{table_of};

use crate::bits;
use crate::raising::lasts;
use crate::rows::all_rows;
use ds_base::NoMemory;
use program::{Class, ClassId, Numbered};
use sqlite_items::Items;
use std::alloc::{AllocError, Global};
use std::marker::Model;

/// What the calls tell of a program's classes. Contracts see it as a `Table`: names, parents, flags and what each names.
#[derive(Drop)]
pub struct ClassTable {
    names: Vec<String>,
    parents: Vec<Option<u16>>,
    abstracts: Vec<bool>,
    named: Vec<Items<u16>>,
    /// For each class the greatest number at or below it.
    last: Vec<u16>,
    /// For each class the set of those above it by `extends` and `implements`.
    above: Vec<Items<u64>>,
}

impl Model for ClassTable {
    ghost use Rattle.std.specs.Prelude.{map, string_bytes};
    ghost use Rattle.class_table.specs.Table.{Table, IsTable};

    ghost Value = { Table };

    ghost view = { λ t. record { names = map string_bytes t.names.items; parents = t.parents.items; abstracts = t.abstracts.items; named = t.named.items } };

    ghost invariant = { λ t. IsTable (map string_bytes t.names.items) t.parents.items t.abstracts.items t.named.items t.last.items t.above.items };
}

fn names_of(alloc: Global, program: &Numbered) -> Result<Vec<String>, AllocError>
    ensures { IfOk result (λ v. map string_bytes v.items ≡ map (λ k. k.name) program.now.classes) }
{
    let mut all = Vec::new(alloc);
    for class in program.classes.as_slice() {
        let Ok(name) = str::from_utf8(class.name.as_slice()) else {
            unreachable!()
        };
        all.push(String::from_str(alloc, name)?)?;
    }
    Ok(all)
}

fn parent_number(class: &Class) -> Option<u16>
    ensures { result ≡ option_map (λ p. p.0) class.now.parent }
{
    class.parent.map(|p| p.0)
}

fn parents_of(alloc: Global, classes: &[Class]) -> Result<Vec<Option<u16>>, AllocError>
    ensures { IfOk result (λ v. v.items ≡ parents classes.now) }
{
    let mut all = Vec::new(alloc);
    for class in classes {
        all.push(parent_number(class))?;
    }
    Ok(all)
}

fn abstracts_of(alloc: Global, classes: &[Class]) -> Result<Vec<bool>, AllocError>
    ensures { IfOk result (λ v. v.items ≡ map (λ k. k.is_abstract) classes.now) }
{
    let mut all = Vec::new(alloc);
    for class in classes {
        all.push(class.is_abstract)?;
    }
    Ok(all)
}

/// What a class names behind `extends` and `implements`.
fn supers_of(alloc: Global, class: &Class) -> Result<Items<u16>, AllocError>
    ensures { IfOk result (λ v. v ≡ named_above class.now) }
{
    let mut all = Items::new(alloc);
    if let Some(parent) = class.parent {
        all.push(parent.0)?;
    }
    for interface in class.interfaces.as_slice() {
        all.push(interface.0)?;
    }
    Ok(all)
}

fn named_of(alloc: Global, classes: &[Class]) -> Result<Vec<Items<u16>>, AllocError>
    ensures { IfOk result (λ v. v.items ≡ supers classes.now) }
{
    let mut all = Vec::new(alloc);
    for class in classes {
        all.push(supers_of(alloc, class)?)?;
    }
    Ok(all)
}

impl ClassTable {
    pub fn build(alloc: Global, program: &Numbered) -> Result<ClassTable, NoMemory>
        ensures { IfOk result (λ t. t ≡ table_of program.now.classes) }
    {
        let classes = program.classes.as_slice();
        let names = names_of(alloc, program)?;
        let parents = parents_of(alloc, classes)?;
        let abstracts = abstracts_of(alloc, classes)?;
        let named = named_of(alloc, classes)?;
        let last = lasts(alloc, &parents)?;
        let above = all_rows(alloc, &named)?;
        Ok(ClassTable {
            names,
            parents,
            abstracts,
            named,
            last,
            above,
        })
    }

    pub fn count(&self) -> u32
        ensures { result ≡ length self.now.parents }
    {
        self.parents.len() as u32
    }

    pub fn name(&self, c: ClassId) -> &str
        requires { c.0 < length self.now.parents }
        ensures { slice_get self.now.names c.0 ≡ Some result.now }
    {
        self.names[c.0 as usize].as_str()
    }

    /// The class above c by `extends`: none for Object alone.
    pub fn parent(&self, c: ClassId) -> Option<ClassId>
        requires { c.0 < length self.now.parents }
        ensures parent { option_map (λ p. p.0) result ≡ parent_in self.now.parents c.0 }
        ensures root { IsNone result ↔ (c.0 ≡ 0) }
    {
        self.parents[c.0 as usize].map(ClassId)
    }

    pub fn is_abstract(&self, c: ClassId) -> bool
        requires { c.0 < length self.now.parents }
        ensures { slice_get self.now.abstracts c.0 ≡ Some result }
    {
        self.abstracts[c.0 as usize]
    }

    /// The greatest number among c and the classes below it.
    pub fn last_of(&self, c: ClassId) -> ClassId
        requires { c.0 < length self.now.parents }
        ensures { IsLast self.now.parents c.0 result.0 }
    {
        ClassId(self.last[c.0 as usize])
    }

    /// Whether b is a or above it by `extends`.
    pub fn is_subclass(&self, a: ClassId, b: ClassId) -> bool
        requires a_there { a.0 < length self.now.parents }
        requires b_there { b.0 < length self.now.parents }
        ensures above { IsTrue result ↔ IsTrue (is_above self.now.parents b.0 a.0) }
        ensures interval { (last : _) → IsLast self.now.parents b.0 last → IsTrue result ↔ ((b.0 ≤ a.0) × (a.0 ≤ last)) }
    {
        b.0 <= a.0 && a.0 <= self.last[b.0 as usize]
    }

    /// Whether b is a or above it by `extends` and `implements`.
    pub fn is_subtype(&self, a: ClassId, b: ClassId) -> bool
        requires a_there { a.0 < length self.now.parents }
        requires b_there { b.0 < length self.now.parents }
        ensures { result ≡ is_subtype self.now.named a.0 b.0 }
    {
        bits::contains(self.above[a.0 as usize].as_slice(), b.0 as usize)
    }
}
