//! Members of some sort, by their names.

ghost use Rattle.std.specs.Prelude.{◌≡◌, OnOk, IfOk, map, option_map};
ghost use Rattle.dart_syntax.specs.View.{member, local};
ghost use Rattle.dart_meaning.specs.Classes.{if_so};
ghost use Rattle.declaration_rules.specs.Seen.{class_of};
ghost use Rattle.text_names.specs.Maps.{in_set, no_names};
ghost use Rattle.text_names.specs.Noted.{is_field_of, has_methods, has_accessors, noted, also_noted, also_noted_in};

use crate::known::{no_names, put_some};
use dart_syntax::tree::{ClassDecl, Local, Member, Name};
use std::alloc::{AllocError, Global};
use std::collections::HashSet;

/// A sort of members.
#[derive(Clone, Copy, Debug, PartialEq, Eq)]
pub enum Sort {
    /// Every one that has a name.
    Named,
    Field,
    /// A final field with an initialiser.
    Initialised,
    Method,
    /// A field, a getter or a setter.
    Accessor,
}

fn is_field_of(sort: Sort, l: &Local) -> bool
    ensures { result ≡ is_field_of sort (local l.now) }
{
    match sort {
        Sort::Named | Sort::Field | Sort::Accessor => true,
        Sort::Initialised => l.is_final && l.value.is_some(),
        Sort::Method => false,
    }
}

fn has_methods(sort: Sort) -> bool
    ensures { result ≡ has_methods sort }
{
    match sort {
        Sort::Named | Sort::Method => true,
        Sort::Field | Sort::Initialised | Sort::Accessor => false,
    }
}

fn has_accessors(sort: Sort) -> bool
    ensures { result ≡ has_accessors sort }
{
    match sort {
        Sort::Named | Sort::Accessor => true,
        Sort::Field | Sort::Initialised | Sort::Method => false,
    }
}

fn text_if(is_one: bool, name: &Name) -> Option<&[u8]>
    ensures { option_map (λ t. t.now) result ≡ if_so is_one name.now.text }
{
    if is_one {
        Some(name.text.as_slice())
    } else {
        None
    }
}

/// The name of a member that is of the sort.
fn noted(sort: Sort, m: &Member) -> Option<&[u8]>
    ensures { option_map (λ t. t.now) result ≡ noted sort (member m.now) }
{
    match m {
        Member::Field(l) => text_if(is_field_of(sort, l), &l.name),
        Member::Method(name, _, _) => text_if(has_methods(sort), name),
        Member::Getter(name, _) => text_if(has_accessors(sort), name),
        Member::Setter(name, _, _) => text_if(has_accessors(sort), name),
        Member::Operator(_, _, _, _) | Member::Constructor(_, _, _, _) => None,
    }
}

/// Takes the names of members to a set, of those that are of the sort.
pub fn note_all<'a>(
    set: &mut HashSet<&'a [u8]>,
    sort: Sort,
    members: &'a [Member],
) -> Result<(), AllocError>
    ensures { OnOk result (in_set set.new ≡ also_noted sort (map member members.now) (in_set set.old)) }
{
    for m in members {
        put_some(set, noted(sort, m))?;
    }
    Ok(())
}

/// The names of the members that are of the sort.
pub fn names_of<'a>(
    alloc: Global,
    sort: Sort,
    members: &'a [Member],
) -> Result<HashSet<&'a [u8]>, AllocError>
    ensures { IfOk result (λ set. in_set set ≡ also_noted sort (map member members.now) no_names) }
{
    let mut set = no_names(alloc);
    note_all(&mut set, sort, members)?;
    Ok(set)
}

/// The names of the members of all classes that are of the sort.
pub fn names_in<'a>(
    alloc: Global,
    sort: Sort,
    classes: &[&'a ClassDecl],
) -> Result<HashSet<&'a [u8]>, AllocError>
    ensures { IfOk result (λ set. in_set set ≡ also_noted_in sort (map class_of classes.now) no_names) }
{
    let mut set = no_names(alloc);
    for c in classes {
        note_all(&mut set, sort, c.members.as_slice())?;
    }
    Ok(set)
}
