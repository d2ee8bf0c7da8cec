//! Names that are declared twice within one declaration.

ghost use Rattle.std.specs.Prelude.{◌≡◌, map, IfOk, option_map};
ghost use Rattle.std.specs.Option.{option_to_list};
ghost use Rattle.dart_syntax.specs.Syntax.{stas};
ghost use Rattle.dart_syntax.specs.View.{param, sta, body};
ghost use Rattle.dart_meaning.specs.Uses.{declared, locals};
ghost use Rattle.static_rules.specs.DuplicateName.{in_params, in_sta, in_stas, in_block, in_body};
ghost use Rattle.static_rules.specs.Repeats.{repeats};
ghost use Rattle.declaration_rules.specs.Seen.{name_of};

use crate::places::earlier_of;
use crate::repeats::{Named, as_named, note_name};
use dart_syntax::token::Span;
use dart_syntax::tree::{Body, Param, Stmt};
use std::alloc::{AllocError, Global};
use std::collections::HashSet;

/// The first parameter that has the name of one before it.
pub fn repeated_param(alloc: Global, params: &[Param]) -> Result<Option<Span>, AllocError>
    ensures { IfOk result (λ at. at ≡ in_params (map param params.now)) }
{
    let mut seen: HashSet<&[u8]> = HashSet::new(alloc);
    let mut at = None;
    for p in params {
        at = note_name(&mut seen, Some(as_named(&p.name)), at)?;
    }
    Ok(at)
}

/// The name that a statement declares in its block.
fn declared_by(s: &Stmt) -> Option<Named<'_>>
    ensures { option_to_list (option_map name_of result) ≡ declared (sta s.now) }
{
    match s {
        Stmt::Local(l) => Some(as_named(&l.name)),
        Stmt::Block(_)
        | Stmt::Run(_)
        | Stmt::Empty
        | Stmt::If(_, _, _)
        | Stmt::While(_, _)
        | Stmt::Do(_, _)
        | Stmt::For(_, _, _, _)
        | Stmt::Break(_)
        | Stmt::Continue(_)
        | Stmt::Return(_, _) => None,
    }
}

/// The first local of a block that has the name of one before it in the same block.
fn repeated_local(alloc: Global, all: &[Stmt]) -> Result<Option<Span>, AllocError>
    ensures { IfOk result (λ at. at ≡ repeats (locals (stas (map sta all.now)))) }
{
    let mut seen: HashSet<&[u8]> = HashSet::new(alloc);
    let mut at = None;
    for s in all {
        at = note_name(&mut seen, declared_by(s), at)?;
    }
    Ok(at)
}

/// The first in the blocks of a statement.
#[cycle(blocks)]
fn repeated_in(alloc: Global, s: &Stmt) -> Result<Option<Span>, AllocError>
    ensures { IfOk result (λ at. at ≡ in_sta (sta s.now)) }
{
    match s {
        Stmt::Block(all) => {
            let here = repeated_local(alloc, all.as_slice())?;
            Ok(earlier_of(here, repeated_in_all(alloc, all.as_slice())?))
        }
        Stmt::If(_, a, None) => repeated_in(alloc, a.get()),
        Stmt::If(_, a, Some(b)) => {
            let one = repeated_in(alloc, a.get())?;
            Ok(earlier_of(one, repeated_in(alloc, b.get())?))
        }
        Stmt::While(_, x) => repeated_in(alloc, x.get()),
        Stmt::Do(x, _) => repeated_in(alloc, x.get()),
        Stmt::For(_, _, _, x) => repeated_in(alloc, x.get()),
        Stmt::Local(_)
        | Stmt::Run(_)
        | Stmt::Empty
        | Stmt::Break(_)
        | Stmt::Continue(_)
        | Stmt::Return(_, _) => Ok(None),
    }
}

#[cycle(blocks)]
#[tactic(auto, using(crate::proofs::Firsts::or_else_assoc, crate::proofs::Firsts::or_else_none))]
fn repeated_in_all(alloc: Global, all: &[Stmt]) -> Result<Option<Span>, AllocError>
    ensures { IfOk result (λ at. at ≡ in_stas (stas (map sta all.now))) }
{
    let mut at = None;
    for s in all {
        at = earlier_of(at, repeated_in(alloc, s)?);
    }
    Ok(at)
}

/// The first local that stands twice in a block, or in one within it.
pub fn repeated_in_block(alloc: Global, all: &[Stmt]) -> Result<Option<Span>, AllocError>
    ensures { IfOk result (λ at. at ≡ in_block (stas (map sta all.now))) }
{
    let here = repeated_local(alloc, all)?;
    Ok(earlier_of(here, repeated_in_all(alloc, all)?))
}

pub fn repeated_in_body(alloc: Global, code: &Body) -> Result<Option<Span>, AllocError>
    ensures { IfOk result (λ at. at ≡ in_body (body code.now)) }
{
    match code {
        Body::Arrow(_) => Ok(None),
        Body::Block(all) => repeated_in_block(alloc, all.as_slice()),
    }
}
