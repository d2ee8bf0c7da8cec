//! Members that one class declares twice, and names that are declared twice within a member.

ghost use Rattle.std.specs.Prelude.{◌≡◌, map, filter_map, IfOk, option_map};
ghost use Rattle.dart_syntax.specs.View.{member, class, body, all_stas};
ghost use Rattle.std.specs.Str.{bytes_eq};
ghost use Rattle.static_rules.specs.Places.{at_if, first_in};
ghost use Rattle.static_rules.specs.Repeats.{repeats};
ghost use Rattle.declaration_rules.specs.Seen.{name_of};
ghost use Rattle.declaration_rules.specs.Claims.{claimed};
ghost use Rattle.static_rules.specs.DuplicateName.{read_name, written_name, constructor_name, has_class_name, in_some, in_body, in_block, in_member, in_class};

use crate::duplicates::{repeated_in_block, repeated_in_body, repeated_param};
use crate::places::{earlier_of, place_if};
use crate::repeats::{Named, as_named, note_name};
use dart_meaning::operators::operator_name;
use dart_syntax::token::Span;
use dart_syntax::tree::{Body, ClassDecl, Member, Name, Stmt};
use sqlite_items::Items;
use std::alloc::{AllocError, Global};
use std::collections::HashSet;

/// What no two members of a class may both have.
#[derive(Clone, Copy)]
pub enum Claim {
    /// A name that is read, as by a getter.
    Read,
    /// A name that is written, as by a setter.
    Written,
    /// The name of a constructor.
    Constructor,
}

fn read_name(m: &Member) -> Option<Named<'_>>
    ensures { option_map name_of result ≡ read_name (member m.now) }
{
    match m {
        Member::Field(l) => Some(as_named(&l.name)),
        Member::Method(name, _, _) => Some(as_named(name)),
        Member::Getter(name, _) => Some(as_named(name)),
        Member::Setter(_, _, _) => None,
        Member::Operator(op, at, params, _) => Some(Named {
            text: operator_name(*op, params.as_slice()),
            span: *at,
        }),
        Member::Constructor(_, _, _, _) => None,
    }
}

fn written_name(m: &Member) -> Option<Named<'_>>
    ensures { option_map name_of result ≡ written_name (member m.now) }
{
    match m {
        Member::Field(l) => {
            if l.is_final {
                None
            } else {
                Some(as_named(&l.name))
            }
        }
        Member::Method(name, _, _) => Some(as_named(name)),
        Member::Getter(_, _) => None,
        Member::Setter(name, _, _) => Some(as_named(name)),
        Member::Operator(op, at, params, _) => Some(Named {
            text: operator_name(*op, params.as_slice()),
            span: *at,
        }),
        Member::Constructor(_, _, _, _) => None,
    }
}

fn constructor_name(m: &Member) -> Option<Named<'_>>
    ensures { option_map name_of result ≡ constructor_name (member m.now) }
{
    match m {
        Member::Constructor(name, _, _, _) => Some(as_named(name)),
        Member::Field(_)
        | Member::Method(_, _, _)
        | Member::Getter(_, _)
        | Member::Setter(_, _, _)
        | Member::Operator(_, _, _, _) => None,
    }
}

fn claimed(m: &Member, claim: Claim) -> Option<Named<'_>>
    ensures { option_map name_of result ≡ claimed claim (member m.now) }
{
    match claim {
        Claim::Read => read_name(m),
        Claim::Written => written_name(m),
        Claim::Constructor => constructor_name(m),
    }
}

/// The first member that claims what one before it has.
fn repeated_claim(
    alloc: Global,
    members: &[Member],
    claim: Claim,
) -> Result<Option<Span>, AllocError>
    ensures { IfOk result (λ at. at ≡ repeats (filter_map (claimed claim) (map member members.now))) }
{
    let mut seen: HashSet<&[u8]> = HashSet::new(alloc);
    let mut at = None;
    for m in members {
        at = note_name(&mut seen, claimed(m, claim), at)?;
    }
    Ok(at)
}

fn place_if_named(name: &Name, class: &[u8]) -> Option<Span>
    ensures { result ≡ at_if (bytes_eq name.now.text class.now) name.now.span }
{
    place_if(name.text.as_slice() == class, name.span)
}

/// A member, not the constructor, that has the class's name.
fn has_class_name(m: &Member, class: &[u8]) -> Option<Span>
    ensures { result ≡ has_class_name class.now (member m.now) }
{
    match m {
        Member::Field(l) => place_if_named(&l.name, class),
        Member::Method(name, _, _) => place_if_named(name, class),
        Member::Getter(name, _) => place_if_named(name, class),
        Member::Setter(name, _, _) => place_if_named(name, class),
        Member::Operator(_, _, _, _) | Member::Constructor(_, _, _, _) => None,
    }
}

fn has_class_name_in(members: &[Member], class: &[u8]) -> Option<Span>
    ensures { result ≡ first_in (has_class_name class.now) (map member members.now) }
{
    let mut at = None;
    for m in members {
        at = earlier_of(at, has_class_name(m, class));
    }
    at
}

fn repeated_in_some_body(alloc: Global, code: &Option<Body>) -> Result<Option<Span>, AllocError>
    ensures { IfOk result (λ at. at ≡ in_some in_body (option_map body code.now)) }
{
    match code {
        None => Ok(None),
        Some(code) => repeated_in_body(alloc, code),
    }
}

fn repeated_in_some_block(
    alloc: Global,
    all: &Option<Items<Stmt>>,
) -> Result<Option<Span>, AllocError>
    ensures { IfOk result (λ at. at ≡ in_some in_block (option_map all_stas all.now)) }
{
    match all {
        None => Ok(None),
        Some(all) => repeated_in_block(alloc, all.as_slice()),
    }
}

/// The first name that is declared twice within a member.
fn repeated_in_member(alloc: Global, m: &Member) -> Result<Option<Span>, AllocError>
    ensures { IfOk result (λ at. at ≡ in_member (member m.now)) }
{
    match m {
        Member::Field(_) => Ok(None),
        Member::Method(_, params, code) => {
            let at = repeated_param(alloc, params.as_slice())?;
            Ok(earlier_of(at, repeated_in_some_body(alloc, code)?))
        }
        Member::Getter(_, code) => repeated_in_some_body(alloc, code),
        Member::Setter(_, _, code) => repeated_in_some_body(alloc, code),
        Member::Operator(_, _, params, code) => {
            let at = repeated_param(alloc, params.as_slice())?;
            Ok(earlier_of(at, repeated_in_some_body(alloc, code)?))
        }
        Member::Constructor(_, params, _, code) => {
            let at = repeated_param(alloc, params.as_slice())?;
            Ok(earlier_of(at, repeated_in_some_block(alloc, code)?))
        }
    }
}

fn repeated_in_members(alloc: Global, members: &[Member]) -> Result<Option<Span>, AllocError>
    ensures { IfOk result (λ at. at ≡ first_in in_member (map member members.now)) }
{
    let mut at = None;
    for m in members {
        at = earlier_of(at, repeated_in_member(alloc, m)?);
    }
    Ok(at)
}

/// The first member, parameter or local of a class that has a name which it may not have.
pub fn repeated_in_class(alloc: Global, c: &ClassDecl) -> Result<Option<Span>, AllocError>
    ensures { IfOk result (λ at. at ≡ in_class (class c.now)) }
{
    let members = c.members.as_slice();
    let read = repeated_claim(alloc, members, Claim::Read)?;
    let written = repeated_claim(alloc, members, Claim::Written)?;
    let constructor = repeated_claim(alloc, members, Claim::Constructor)?;
    let of_class = has_class_name_in(members, c.name.text.as_slice());
    let within = repeated_in_members(alloc, members)?;
    let late = earlier_of(constructor, earlier_of(of_class, within));
    Ok(earlier_of(read, earlier_of(written, late)))
}
