//! What is kept of each class.

ghost use Rattle.std.specs.Prelude.{◌≡◌, ◌&&◌, ◌||◌, not, OnOk, IfOk, map, option_map};
ghost use Rattle.dart_syntax.specs.View.{class, member, local};
ghost use Rattle.program.specs.Lookup.{same_kind};
ghost use Rattle.dart_meaning.specs.Classes.{if_so};
ghost use Rattle.tree_numbers.specs.Maps.{in_set, no_names, with_first, nothing_known};
ghost use Rattle.tree_numbers.specs.Parts.{class_of, text_of};
ghost use Rattle.tree_numbers.specs.ClassFacts.{named, also_named, is_field_for, owned, also_owned, facts, facts_of, knows, also_classes};

use crate::known::{keep_first, no_names, nothing_known, put_some};
use crate::parts::field_names;
use crate::places::places_of;
use dart_meaning::operators::operator_name;
use dart_syntax::tree::{ClassDecl, Local, Member};
use ds_base::NoMemory;
use program::SelectorKind;
use std::alloc::{AllocError, Global};
use std::collections::{HashMap, HashSet};

/// A class, the names of its members and the places of its fields.
#[derive(Drop)]
pub struct ClassFacts<'a> {
    pub decl: &'a ClassDecl,
    pub named: HashSet<&'a [u8]>,
    pub fields: HashMap<&'a [u8], u32>,
    pub field_count: usize,
    /// The members with a body, by the kind of what calls them.
    pub reads: HashSet<&'a [u8]>,
    pub writes: HashSet<&'a [u8]>,
    pub calls: HashSet<&'a [u8]>,
}

/// The name by which a member is read, written or called.
fn named(m: &Member) -> Option<&[u8]>
    ensures { option_map text_of result ≡ named (member m.now) }
{
    match m {
        Member::Field(l) => Some(l.name.text.as_slice()),
        Member::Method(name, _, _) | Member::Getter(name, _) | Member::Setter(name, _, _) => {
            Some(name.text.as_slice())
        }
        Member::Operator(_, _, _, _) | Member::Constructor(_, _, _, _) => None,
    }
}

/// The names of members.
fn names_of<'a>(alloc: Global, members: &'a [Member]) -> Result<HashSet<&'a [u8]>, AllocError>
    ensures { IfOk result (λ set. in_set set ≡ also_named (map member members.now) no_names) }
{
    let mut set = no_names(alloc);
    for m in members {
        put_some(&mut set, named(m))?;
    }
    Ok(set)
}

fn text_if(is_one: bool, text: &[u8]) -> Option<&[u8]>
    ensures { option_map text_of result ≡ if_so is_one text.now }
{
    if is_one { Some(text) } else { None }
}

fn same_kind(a: SelectorKind, b: SelectorKind) -> bool
    ensures { result ≡ same_kind a b }
{
    a == b
}

/// A field is a getter and, unless it is final, a setter.
fn is_field_for(kind: SelectorKind, l: &Local) -> bool
    ensures { result ≡ is_field_for kind (local l.now) }
{
    match kind {
        SelectorKind::Get => true,
        SelectorKind::Set => !l.is_final,
        SelectorKind::Call => false,
    }
}

fn text_for<'a>(
    kind: SelectorKind,
    other: SelectorKind,
    has_body: bool,
    name: &'a [u8],
) -> Option<&'a [u8]>
    ensures { option_map text_of result ≡ if_so (same_kind kind other && has_body) name.now }
{
    text_if(same_kind(kind, other) && has_body, name)
}

/// The name of a member that is of the kind. An abstract declaration has no body.
fn owned(kind: SelectorKind, m: &Member) -> Option<&[u8]>
    ensures { option_map text_of result ≡ owned kind (member m.now) }
{
    match m {
        Member::Field(l) => text_if(is_field_for(kind, l), l.name.text.as_slice()),
        Member::Method(name, _, code) => {
            text_for(
                kind,
                SelectorKind::Call,
                code.is_some(),
                name.text.as_slice(),
            )
        }
        Member::Getter(name, code) => {
            text_for(
                kind,
                SelectorKind::Get,
                code.is_some(),
                name.text.as_slice(),
            )
        }
        Member::Setter(name, _, code) => {
            text_for(
                kind,
                SelectorKind::Set,
                code.is_some(),
                name.text.as_slice(),
            )
        }
        Member::Operator(op, _, params, code) => {
            let name = operator_name(*op, params.as_slice());
            text_for(kind, SelectorKind::Call, code.is_some(), name)
        }
        Member::Constructor(_, _, _, _) => None,
    }
}

/// The names of the members of a kind.
fn owned_by<'a>(
    alloc: Global,
    kind: SelectorKind,
    members: &'a [Member],
) -> Result<HashSet<&'a [u8]>, AllocError>
    ensures { IfOk result (λ set. in_set set ≡ also_owned kind (map member members.now) no_names) }
{
    let mut set = no_names(alloc);
    for m in members {
        put_some(&mut set, owned(kind, m))?;
    }
    Ok(set)
}

fn facts_of(alloc: Global, c: &ClassDecl) -> Result<ClassFacts<'_>, NoMemory>
    ensures { IfOk result (λ n. facts_of n ≡ facts (class c.now)) }
{
    let members = c.members.as_slice();
    let fields = field_names(alloc, members)?;
    Ok(ClassFacts {
        decl: c,
        named: names_of(alloc, members)?,
        fields: places_of(alloc, &fields)?,
        field_count: fields.len(),
        reads: owned_by(alloc, SelectorKind::Get, members)?,
        writes: owned_by(alloc, SelectorKind::Set, members)?,
        calls: owned_by(alloc, SelectorKind::Call, members)?,
    })
}

fn no_classes<'a>(alloc: Global) -> HashMap<&'a [u8], ClassFacts<'a>>
    ensures { knows result ≡ nothing_known }
{
    nothing_known(alloc)
}

fn keep_class<'a>(
    alloc: Global,
    known: &mut HashMap<&'a [u8], ClassFacts<'a>>,
    c: &'a ClassDecl,
) -> Result<(), NoMemory>
    ensures { OnOk result (knows known.new ≡ with_first (class c.now).name.text (facts (class c.now)) (knows known.old)) }
{
    let kept = facts_of(alloc, c)?;
    keep_first(known, c.name.text.as_slice(), kept)?;
    Ok(())
}

/// The classes by their names, the first of each name.
pub fn classes_by_name<'a>(
    alloc: Global,
    classes: &[&'a ClassDecl],
) -> Result<HashMap<&'a [u8], ClassFacts<'a>>, NoMemory>
    ensures { IfOk result (λ known. knows known ≡ also_classes (map class_of classes.now) nothing_known) }
{
    let mut known = no_classes(alloc);
    for c in classes {
        keep_class(alloc, &mut known, c)?;
    }
    Ok(known)
}
