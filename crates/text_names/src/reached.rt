//! Members with a body, and how many arguments they take.

ghost use Rattle.std.specs.Prelude.{◌≡◌, ◌≤◌, cond, not, ◌∷◌, [], OnOk, IfOk, map, option_map, length};
ghost use Rattle.dart_syntax.specs.View.{member, local, param};
ghost use Rattle.program.specs.Lookup.{same_kind};
ghost use Rattle.dart_meaning.specs.Classes.{if_so, required};
ghost use Rattle.text_names.specs.Maps.{in_map, nothing_known};
ghost use Rattle.text_names.specs.Reached.{fixed, reaching, reached_of, of_field, reached, with_reached, also_reached, params_in, constructor_params};

use crate::known::{keep_first, nothing_known};
use dart_meaning::operators::operator_name;
use dart_syntax::tree::{Local, Member, Param};
use program::SelectorKind;
use std::alloc::{AllocError, Global};
use std::collections::HashMap;

/// The least and the greatest number of arguments that a member takes.
#[derive(Clone, Copy, Debug, PartialEq, Eq)]
pub struct Takes {
    pub least: usize,
    pub most: usize,
}

/// A member by its name.
#[derive(Clone, Copy)]
pub struct Reached<'a> {
    pub name: &'a [u8],
    pub takes: Takes,
}

/// A parameter that each call has to give counts as one.
fn needed(p: &Param) -> usize
    ensures count { result ≡ cond (not p.now.optional) 1 0 }
    ensures one { result ≤ 1 }
{
    if p.optional { 0 } else { 1 }
}

fn required(params: &[Param]) -> usize
    ensures { result ≡ required (map param params.now) }
{
    let mut n = 0;
    for p in params {
        n += needed(p);
    }
    n
}

fn fixed(params: &[Param]) -> Takes
    ensures { result ≡ fixed (map param params.now) }
{
    Takes {
        least: required(params),
        most: params.len(),
    }
}

/// What the one parameter of a setter asks for.
fn of_one(one: &Param) -> Takes
    ensures { result ≡ fixed (param one.now ∷ []) }
{
    Takes {
        least: if one.optional { 0 } else { 1 },
        most: 1,
    }
}

pub fn same_kind(a: SelectorKind, b: SelectorKind) -> bool
    ensures { result ≡ same_kind a b }
{
    a == b
}

fn if_so(is_one: bool, name: &[u8], takes: Takes) -> Option<Reached<'_>>
    ensures { option_map reached_of result ≡ if_so is_one (reaching name.now takes) }
{
    if is_one {
        Some(Reached { name, takes })
    } else {
        None
    }
}

/// A field is a getter and, unless it is final, a setter.
fn of_field(kind: SelectorKind, l: &Local) -> Option<Reached<'_>>
    ensures { option_map reached_of result ≡ of_field kind (local l.now) }
{
    let name = l.name.text.as_slice();
    match kind {
        SelectorKind::Get => if_so(true, name, Takes { least: 0, most: 0 }),
        SelectorKind::Set => if_so(!l.is_final, name, Takes { least: 1, most: 1 }),
        SelectorKind::Call => None,
    }
}

/// What a member is for a kind. An abstract declaration has no body.
fn reached_by(kind: SelectorKind, m: &Member) -> Option<Reached<'_>>
    ensures { option_map reached_of result ≡ reached kind (member m.now) }
{
    match m {
        Member::Field(l) => of_field(kind, l),
        Member::Method(name, params, code) => {
            let is_one = same_kind(kind, SelectorKind::Call) && code.is_some();
            if_so(is_one, name.text.as_slice(), fixed(params.as_slice()))
        }
        Member::Getter(name, code) => {
            let is_one = same_kind(kind, SelectorKind::Get) && code.is_some();
            if_so(is_one, name.text.as_slice(), Takes { least: 0, most: 0 })
        }
        Member::Setter(name, one, code) => {
            let is_one = same_kind(kind, SelectorKind::Set) && code.is_some();
            if_so(is_one, name.text.as_slice(), of_one(one))
        }
        Member::Operator(op, _, params, code) => {
            let is_one = same_kind(kind, SelectorKind::Call) && code.is_some();
            let all = params.as_slice();
            if_so(is_one, operator_name(*op, all), fixed(all))
        }
        Member::Constructor(_, _, _, _) => None,
    }
}

fn keep<'a>(
    known: &mut HashMap<&'a [u8], Takes>,
    one: Option<Reached<'a>>,
) -> Result<(), AllocError>
    ensures { OnOk result (in_map known.new ≡ with_reached (option_map reached_of one.entry) (in_map known.old)) }
{
    match one {
        Some(one) => keep_first(known, one.name, one.takes),
        None => Ok(()),
    }
}

/// The members of a kind, the first of each name.
pub fn members_of<'a>(
    alloc: Global,
    kind: SelectorKind,
    members: &'a [Member],
) -> Result<HashMap<&'a [u8], Takes>, AllocError>
    ensures { IfOk result (λ known. in_map known ≡ also_reached kind (map member members.now) nothing_known) }
{
    let mut known = nothing_known(alloc);
    for m in members {
        keep(&mut known, reached_by(kind, m))?;
    }
    Ok(known)
}

/// How many parameters a member has, if it is a constructor.
fn params_in(m: &Member) -> Option<usize>
    ensures { result ≡ params_in (member m.now) }
{
    match m {
        Member::Constructor(_, params, _, _) => Some(params.len()),
        Member::Field(_)
        | Member::Method(_, _, _)
        | Member::Getter(_, _)
        | Member::Setter(_, _, _)
        | Member::Operator(_, _, _, _) => None,
    }
}

/// That of the first constructor. Without one, a class has one without parameters.
pub fn constructor_params(members: &[Member]) -> usize
    ensures { result ≡ constructor_params (map member members.now) }
{
    for m in members {
        if let Some(count) = params_in(m) {
            return count;
        }
    }
    0
}
