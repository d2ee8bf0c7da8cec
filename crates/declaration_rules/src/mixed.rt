//! Names that are a method's in one class and a field's in another.

ghost use Rattle.std.specs.Prelude.{◌≡◌, ◌∷◌, ◌++◌, map, filter_map, IfOk, OnOk, option_map};
ghost use Rattle.std.specs.List.{cons_option};
ghost use Rattle.dart_syntax.specs.View.{member, unit};
ghost use Rattle.static_rules.specs.Members.{declared_by};
ghost use Rattle.static_rules.specs.MixedName.{mixed_name};
ghost use Rattle.declaration_rules.specs.Mixing.{declared_of, is_method_in, is_accessor_in, is_mixed, left, mixed_in, with_name_if};
ghost use Rattle.declaration_rules.specs.Seen.{class_of, has};

use crate::built_ins::built_ins;
use crate::classes::classes_of;
use crate::places::{earlier_of, place_if};
use crate::repeats::{Named, as_named, note};
use dart_syntax::token::Span;
use dart_syntax::tree::{ClassDecl, Member, Tree};
use program::{Method, SelectorKind};
use std::alloc::{AllocError, Global};
use std::collections::HashSet;

/// A member by its name, and whether it is a method.
#[derive(Clone, Copy)]
pub struct Declared<'a> {
    pub name: Named<'a>,
    pub is_method: bool,
}

/// The names of methods, and of fields, getters and setters, that were there before, and the first place so far that differs.
#[derive(Drop)]
pub struct Kinds<'a> {
    methods: HashSet<&'a [u8]>,
    accessors: HashSet<&'a [u8]>,
    at: Option<Span>,
}

fn declared_by(m: &Member) -> Option<Declared<'_>>
    ensures { option_map declared_of result ≡ declared_by (member m.now) }
{
    let (name, is_method) = match m {
        Member::Field(l) => (&l.name, false),
        Member::Method(name, _, _) => (name, true),
        Member::Getter(name, _) => (name, false),
        Member::Setter(name, _, _) => (name, false),
        Member::Operator(_, _, _, _) | Member::Constructor(_, _, _, _) => return None,
    };
    Some(Declared {
        name: as_named(name),
        is_method,
    })
}

/// Takes a name to those that were there, where it is one of them.
fn note_if<'a>(seen: &mut HashSet<&'a [u8]>, is_one: bool, text: &'a [u8]) -> Result<(), AllocError>
    ensures { OnOk result ((q : _) → has seen.new q ≡ with_name_if is_one text.now (has seen.old) q) }
{
    if is_one {
        note(seen, text)?;
    }
    Ok(())
}

/// Whether a method is built in that has this name.
pub fn is_method_in(built_in: &[Method], name: &[u8]) -> bool
    ensures { result ≡ is_method_in built_in.now name.now }
{
    built_in.iter().any(|m| m.name.as_slice() == name && matches!(m.role, SelectorKind::Call))
}

/// Whether a getter is built in that has this name.
pub fn is_accessor_in(built_in: &[Method], name: &[u8]) -> bool
    ensures { result ≡ is_accessor_in built_in.now name.now }
{
    built_in.iter().any(|m| m.name.as_slice() == name && !matches!(m.role, SelectorKind::Call))
}

impl<'a> Kinds<'a> {
    fn is_mixed(&self, built_in: &[Method], d: Declared<'a>) -> bool
        ensures { result ≡ is_mixed built_in.now self.now (declared_of d.entry) }
    {
        let name = d.name.text;
        if d.is_method {
            is_accessor_in(built_in, name) || self.accessors.contains(&name)
        } else {
            is_method_in(built_in, name) || self.methods.contains(&name)
        }
    }

    /// Takes one more member.
    fn take(&mut self, built_in: &[Method], d: Declared<'a>) -> Result<(), AllocError>
        ensures { OnOk result ((more : _) → left built_in.now self.new more ≡ left built_in.now self.old (declared_of d.entry ∷ more)) }
    {
        let wrong = self.is_mixed(built_in, d);
        self.at = earlier_of(self.at, place_if(wrong, d.name.span));
        note_if(&mut self.methods, d.is_method, d.name.text)?;
        note_if(&mut self.accessors, !d.is_method, d.name.text)?;
        Ok(())
    }

    fn take_option(
        &mut self,
        built_in: &[Method],
        d: Option<Declared<'a>>,
    ) -> Result<(), AllocError>
        ensures { OnOk result ((more : _) → left built_in.now self.new more ≡ left built_in.now self.old (cons_option (option_map declared_of d.entry) more)) }
    {
        if let Some(d) = d {
            self.take(built_in, d)?;
        }
        Ok(())
    }

    /// Takes the members of a class.
    fn take_all(&mut self, built_in: &[Method], members: &'a [Member]) -> Result<(), AllocError>
        ensures { OnOk result ((more : _) → left built_in.now self.new more ≡ left built_in.now self.old (filter_map declared_by (map member members.now) ++ more)) }
    {
        for m in members {
            self.take_option(built_in, declared_by(m))?;
        }
        Ok(())
    }
}

fn mixed_in(
    alloc: Global,
    built_in: &[Method],
    classes: &[&ClassDecl],
) -> Result<Option<Span>, AllocError>
    ensures { IfOk result (λ at. at ≡ mixed_in built_in.now (map class_of classes.now)) }
{
    let mut kinds = Kinds {
        methods: HashSet::new(alloc),
        accessors: HashSet::new(alloc),
        at: None,
    };
    for c in classes {
        kinds.take_all(built_in, c.members.as_slice())?;
    }
    Ok(kinds.at)
}

/// The first member that is a method where one of its name is none, or the other way round.
pub fn mixed_name(alloc: Global, tree: &Tree) -> Result<Option<Span>, AllocError>
    ensures { IfOk result (λ at. at ≡ mixed_name (unit tree.now)) }
{
    let classes = classes_of(alloc, tree.tops.as_slice())?;
    let built_in = built_ins(alloc)?;
    mixed_in(alloc, built_in.methods.as_slice(), &classes)
}
