// A program whose members can be looked up.
ghost use Rattle.std.specs.Prelude.{◌≡◌, ◌<◌, ◌≤◌, ◌+◌, ◌*◌, ℕ, length, IfOk, Some, codes, option_map};
ghost use Rattle.program.specs.declared.numbered.SelectorKind.{SelectorKind as Kind};
ghost use Rattle.program.specs.Hierarchy.{chain};
ghost use Rattle.program.specs.Parts.{parents};
ghost use Rattle.program.specs.Program.{parts_of};
ghost use Rattle.program.specs.Lookup.{lookup, resolve, no_such_method, if_accepts};
ghost use Rattle.class_table.specs.Table.{table_of};
ghost use Rattle.method_lookup.specs.Index.{name_number, selector_names, member_in, keyed, first_keyed, found_keyed};
ghost use Rattle.method_lookup.specs.Visits.{keyed_visits, lookup_visits, missing_visits, resolve_visits};

use crate::index::{Index, MemberKey, index_of, member_at};
use class_table::ClassTable;
use ds_base::{NoMemory, Steps};
use program::{ClassId, MethodId, Numbered, SelectorId, SelectorKind, Target};
use std::alloc::Global;
use std::marker::Brand;
use std::sync::ledger::{Blank, Ledger};

/// A program with its classes and with its members by class, kind and name.
#[derive(Drop)]
pub struct Linked {
    pub program: Numbered,
    classes: ClassTable,
    index: Index,
    pub ghost table: { classes ≡ table_of program.classes },
    ghost names: { index.selector_names.items ≡ selector_names program.methods program.selectors },
    ghost missing: { index.missing_name ≡ name_number program.methods (codes "noSuchMethod") },
    ghost members: { (c : ℕ) → (role : Kind) → (n : ℕ) → member_in index.members c role n ≡ keyed program.methods c role n },
}

impl Linked {
    /// Drops the program where there is no memory.
    pub fn build(alloc: Global, program: Numbered) -> Result<Linked, NoMemory>
        ensures { IfOk result (λ l. l.program ≡ program) }
    {
        let classes = ClassTable::build(alloc, &program)?;
        let index = index_of(alloc, &program)?;
        Ok(Linked {
            program,
            classes,
            index,
        })
    }

    pub fn program(&self) -> &Numbered
        ensures { result.now ≡ self.now.program }
    {
        &self.program
    }

    pub fn classes(&self) -> &ClassTable
        ensures { result.now ≡ table_of self.now.program.classes }
    {
        &self.classes
    }

    /// The first member up the chain of this kind and name.
    fn first_up<L: Ledger>(
        &self,
        c: ClassId,
        role: SelectorKind,
        name: Option<u16>,
        steps: &mut Steps<L>,
    ) -> Option<u16>
        requires { c.0 < length self.now.program.classes }
        ensures found { result ≡ first_keyed self.now.program.methods role name (chain (parents self.now.program.classes) c.0) }
        ensures visits { steps.new ≡ steps.old + keyed_visits self.now.program.methods role name (chain (parents self.now.program.classes) c.0) }
    {
        let name = name?;
        let mut at = Some(c);
        while let Some(class) = at {
            steps.tick();
            let key = MemberKey {
                owner: class.0,
                role,
                name,
            };
            if let Some(member) = member_at(&self.index.members, key) {
                return Some(member);
            }
            at = self.classes.parent(class);
        }
        None
    }

    /// The same, where it takes so many arguments.
    fn find<L: Ledger>(
        &self,
        c: ClassId,
        role: SelectorKind,
        name: Option<u16>,
        count: u32,
        steps: &mut Steps<L>,
    ) -> Option<MethodId>
        requires { c.0 < length self.now.program.classes }
        ensures found { option_map (λ m. m.0) result ≡ found_keyed (parts_of self.now.program) c.0 role name count }
        ensures visits { steps.new ≡ steps.old + keyed_visits self.now.program.methods role name (chain (parents self.now.program.classes) c.0) }
    {
        let member = self.first_up(c, role, name, steps)?;
        let method = self.program.methods.get(member as usize)?;
        if method.required > count || (count - method.required) as usize > method.defaults.len() {
            return None;
        }
        Some(MethodId(member))
    }

    /// What a call finds: the first member up the chain, where it takes the number of arguments.
    pub fn lookup<L: Ledger>(
        &self,
        c: ClassId,
        sel: SelectorId,
        steps: &mut Steps<L>,
    ) -> Option<MethodId>
        requires class { c.0 < length self.now.program.classes }
        requires selector { sel.0 < length self.now.program.selectors }
        ensures found { option_map (λ m. m.0) result ≡ lookup (parts_of self.now.program) c.0 sel.0 }
        ensures visits { steps.new ≡ steps.old + lookup_visits (parts_of self.now.program) c.0 sel.0 }
        ensures cost { steps.new ≤ steps.old + length (chain (parents self.now.program.classes) c.0) }
    {
        let selector = &self.program.selectors.as_slice()[sel.0 as usize];
        let name = self.index.selector_names[sel.0 as usize];
        self.find(c, selector.kind, name, selector.count, steps)
    }

    fn no_such_method<L: Ledger>(&self, c: ClassId, steps: &mut Steps<L>) -> MethodId
        requires { c.0 < length self.now.program.classes }
        ensures member { no_such_method (parts_of self.now.program) c.0 ≡ Some result.0 }
        ensures visits { steps.new ≡ steps.old + missing_visits (parts_of self.now.program) c.0 }
        ensures cost { steps.new ≤ steps.old + length (chain (parents self.now.program.classes) c.0) }
    {
        match self.find(c, SelectorKind::Call, self.index.missing_name, 1, steps) {
            Some(member) => member,
            None => unreachable!(),
        }
    }

    /// The target of a call: the member found, or else the receiver's `noSuchMethod`.
    pub fn resolve_target<L: Ledger>(
        &self,
        c: ClassId,
        sel: SelectorId,
        steps: &mut Steps<L>,
    ) -> Target
        requires class { c.0 < length self.now.program.classes }
        requires selector { sel.0 < length self.now.program.selectors }
        ensures target { result ≡ resolve (parts_of self.now.program) c.0 sel.0 }
        ensures visits { steps.new ≡ steps.old + resolve_visits (parts_of self.now.program) c.0 sel.0 }
        ensures cost { steps.new ≤ steps.old + 2 * length (chain (parents self.now.program.classes) c.0) }
    {
        match self.lookup(c, sel, steps) {
            Some(member) => Target::Method(member),
            None => Target::Nsm(self.no_such_method(c, steps)),
        }
    }

    fn target_from<L: Ledger>(&self, c: ClassId, sel: SelectorId, blank: Blank) -> Target
        requires name { blank.name ≡ L.name }
        requires parts { blank.parts ≡ L.parts }
        requires some { 0 < blank.parts }
        requires class { c.0 < length self.now.program.classes }
        requires selector { sel.0 < length self.now.program.selectors }
        ensures { result ≡ resolve (parts_of self.now.program) c.0 sel.0 }
    {
        let mut steps = Steps::<L>::begin(blank);
        self.resolve_target(c, sel, &mut steps)
    }

    /// The target of a call, by a counter of its own.
    pub fn target_of(&self, c: ClassId, sel: SelectorId) -> Target
        requires class { c.0 < length self.now.program.classes }
        requires selector { sel.0 < length self.now.program.selectors }
        ensures { result ≡ resolve (parts_of self.now.program) c.0 sel.0 }
    {
        self.target_from::<Brand>(c, sel, Blank::new(1))
    }
}
