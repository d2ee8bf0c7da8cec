//! What statements use, and what names mean in their blocks.

ghost use Rattle.std.specs.Prelude.{◌≡◌, ◌++◌, OnOk, map, true, option_map};
ghost use Rattle.dart_syntax.specs.Syntax as tree;
ghost use Rattle.dart_syntax.specs.Syntax.{exps, stas};
ghost use Rattle.dart_syntax.specs.declared.tree.First.TheVariants as first;
ghost use Rattle.dart_syntax.specs.View.{exp, sta, first_part};
ghost use Rattle.dart_meaning.specs.Uses as u;
ghost use Rattle.name_uses.specs.Undo.{meaning, Extends};
ghost use Rattle.name_uses.specs.Using.{branch_uses};

use crate::exprs::{uses_of, uses_of_all};
use crate::list::{Use, Uses};
use crate::scope::Scope;
use dart_meaning::Seen;
use dart_syntax::tree::{Expr, First, Local, Stmt};
use std::alloc::AllocError;

fn uses_of_option<'a>(
    out: &mut Uses<'a>,
    scope: &Scope<'a, Seen>,
    x: &'a Option<Expr>,
) -> Result<(), AllocError>
    ensures { OnOk result (out.new ≡ out.old ++ u.exp_if (meaning scope.now) (option_map exp x.now)) }
{
    match x {
        None => Ok(()),
        Some(x) => uses_of(out, scope, x),
    }
}

/// Says of a local what its name means outside of its block.
fn declare<'a>(out: &mut Uses<'a>, scope: &Scope<'a, Seen>, x: &'a Stmt) -> Result<(), AllocError>
    ensures { OnOk result (out.new ≡ out.old ++ u.declared_uses (meaning scope.now) (u.declared (sta x.now))) }
{
    match x {
        Stmt::Local(x) => {
            let seen = scope.look(x.name.text.as_slice());
            out.push(Use::Declares(&x.name, seen))
        }
        Stmt::Block(_)
        | Stmt::Run(_)
        | Stmt::Empty
        | Stmt::If(_, _, _)
        | Stmt::While(_, _)
        | Stmt::Do(_, _)
        | Stmt::For(_, _, _, _)
        | Stmt::Break(_)
        | Stmt::Continue(_)
        | Stmt::Return(_, _) => Ok(()),
    }
}

fn declare_all<'a>(
    out: &mut Uses<'a>,
    scope: &Scope<'a, Seen>,
    all: &'a [Stmt],
) -> Result<(), AllocError>
    ensures { OnOk result (out.new ≡ out.old ++ u.declared_uses (meaning scope.now) (u.locals (stas (map sta all.now)))) }
{
    for x in all {
        declare(out, scope, x)?;
    }
    Ok(())
}

/// A local belongs to its whole block.
#[tactic(auto, using(crate::proofs::Meanings::extends_none))]
fn begin<'a>(scope: &mut Scope<'a, Seen>, x: &'a Stmt) -> Result<(), AllocError>
    ensures begins { OnOk result (meaning scope.new ≡ u.opened (u.declared (sta x.now)) (meaning scope.old)) }
    ensures undo { OnOk result (Extends scope.old scope.new) }
{
    match x {
        Stmt::Local(x) => scope.set(x.name.text.as_slice(), Seen::Late),
        Stmt::Block(_)
        | Stmt::Run(_)
        | Stmt::Empty
        | Stmt::If(_, _, _)
        | Stmt::While(_, _)
        | Stmt::Do(_, _)
        | Stmt::For(_, _, _, _)
        | Stmt::Break(_)
        | Stmt::Continue(_)
        | Stmt::Return(_, _) => Ok(()),
    }
}

fn begin_all<'a>(scope: &mut Scope<'a, Seen>, all: &'a [Stmt]) -> Result<(), AllocError>
    ensures begins { OnOk result (meaning scope.new ≡ u.opened (u.locals (stas (map sta all.now))) (meaning scope.old)) }
    ensures undo { OnOk result (Extends scope.old scope.new) }
{
    for x in all {
        begin(scope, x)?;
    }
    Ok(())
}

/// Behind its declaration a local can be used.
#[tactic(auto, using(crate::proofs::Meanings::extends_none))]
fn pass<'a>(scope: &mut Scope<'a, Seen>, x: &'a Stmt) -> Result<(), AllocError>
    ensures after { OnOk result (meaning scope.new ≡ u.after (sta x.now) (meaning scope.old)) }
    ensures undo { OnOk result (Extends scope.old scope.new) }
{
    match x {
        Stmt::Local(x) => scope.set(x.name.text.as_slice(), Seen::Ready(x.is_final)),
        Stmt::Block(_)
        | Stmt::Run(_)
        | Stmt::Empty
        | Stmt::If(_, _, _)
        | Stmt::While(_, _)
        | Stmt::Do(_, _)
        | Stmt::For(_, _, _, _)
        | Stmt::Break(_)
        | Stmt::Continue(_)
        | Stmt::Return(_, _) => Ok(()),
    }
}

/// The local in the first part of a `for`.
fn uses_of_first_local<'a>(
    out: &mut Uses<'a>,
    scope: &mut Scope<'a, Seen>,
    x: &'a Local,
) -> Result<(), AllocError>
    ensures uses { OnOk result (out.new ≡ out.old ++ u.first_uses (meaning scope.old) (first_part (first.Local x.now))) }
    ensures after { OnOk result (meaning scope.new ≡ u.after_first (first_part (first.Local x.now)) (meaning scope.old)) }
    ensures undo { OnOk result (Extends scope.old scope.new) }
{
    let name = x.name.text.as_slice();
    let seen = scope.look(name);
    out.push(Use::Declares(&x.name, seen))?;
    scope.set(name, Seen::Late)?;
    uses_of_option(out, scope, &x.value)?;
    scope.set(name, Seen::Ready(x.is_final))?;
    Ok(())
}

/// The first part of a `for`.
#[tactic(auto, using(crate::proofs::Meanings::extends_none))]
fn uses_of_first<'a>(
    out: &mut Uses<'a>,
    scope: &mut Scope<'a, Seen>,
    x: &'a First,
) -> Result<(), AllocError>
    ensures uses { OnOk result (out.new ≡ out.old ++ u.first_uses (meaning scope.old) (first_part x.now)) }
    ensures after { OnOk result (meaning scope.new ≡ u.after_first (first_part x.now) (meaning scope.old)) }
    ensures undo { OnOk result (Extends scope.old scope.new) }
{
    match x {
        First::Nothing => Ok(()),
        First::Local(x) => uses_of_first_local(out, scope, x),
        First::Run(x) => uses_of(out, scope, x),
    }
}

/// What a statement uses. It leaves the scope as it was.
#[cycle(statements)]
pub fn uses_of_stmt<'a>(
    out: &mut Uses<'a>,
    scope: &mut Scope<'a, Seen>,
    loops: bool,
    x: &'a Stmt,
) -> Result<(), AllocError>
    ensures uses { OnOk result (out.new ≡ out.old ++ u.sta loops (meaning scope.old) (sta x.now)) }
    ensures same { OnOk result (meaning scope.new ≡ meaning scope.old) }
    ensures undo { OnOk result (scope.new.undo.items ≡ scope.old.undo.items) }
{
    match x {
        Stmt::Block(all) => uses_of_block(out, scope, loops, all.as_slice()),
        Stmt::Local(x) => uses_of_option(out, scope, &x.value),
        Stmt::Run(x) => uses_of(out, scope, x),
        Stmt::Empty => Ok(()),
        Stmt::If(test, then, None) => {
            uses_of(out, scope, test)?;
            uses_of_branch(out, scope, loops, then.get())
        }
        Stmt::If(test, then, Some(other)) => {
            uses_of(out, scope, test)?;
            uses_of_branch(out, scope, loops, then.get())?;
            uses_of_branch(out, scope, loops, other.get())
        }
        Stmt::While(test, body) => {
            uses_of(out, scope, test)?;
            uses_of_branch(out, scope, true, body.get())
        }
        Stmt::Do(body, test) => {
            uses_of_branch(out, scope, true, body.get())?;
            uses_of(out, scope, test)?;
            Ok(())
        }
        Stmt::For(first, test, last, body) => {
            let mark = scope.mark();
            uses_of_first(out, scope, first)?;
            uses_of_option(out, scope, test)?;
            uses_of_all(out, scope, last.as_slice())?;
            uses_of_branch(out, scope, true, body.get())?;
            scope.close(mark)?;
            Ok(())
        }
        Stmt::Break(at) | Stmt::Continue(at) => out.push(Use::LeavesLoop(*at, loops)),
        Stmt::Return(_, None) => Ok(()),
        Stmt::Return(at, Some(x)) => {
            out.push(Use::ReturnsValue(*at))?;
            uses_of(out, scope, x)
        }
    }
}

/// A branch, or the body of a loop, is a block of its own.
#[cycle(statements)]
fn uses_of_branch<'a>(
    out: &mut Uses<'a>,
    scope: &mut Scope<'a, Seen>,
    loops: bool,
    x: &'a Stmt,
) -> Result<(), AllocError>
    ensures uses { OnOk result (out.new ≡ out.old ++ branch_uses loops (meaning scope.old) (sta x.now)) }
    ensures same { OnOk result (meaning scope.new ≡ meaning scope.old) }
    ensures undo { OnOk result (scope.new.undo.items ≡ scope.old.undo.items) }
{
    let mark = scope.mark();
    declare(out, scope, x)?;
    begin(scope, x)?;
    uses_of_stmt(out, scope, loops, x)?;
    scope.close(mark)?;
    Ok(())
}

/// What a block uses. It leaves the scope as it was.
#[cycle(statements)]
pub fn uses_of_block<'a>(
    out: &mut Uses<'a>,
    scope: &mut Scope<'a, Seen>,
    loops: bool,
    all: &'a [Stmt],
) -> Result<(), AllocError>
    ensures uses { OnOk result (out.new ≡ out.old ++ u.sta loops (meaning scope.old) (tree.block (stas (map sta all.now)))) }
    ensures same { OnOk result (meaning scope.new ≡ meaning scope.old) }
    ensures undo { OnOk result (scope.new.undo.items ≡ scope.old.undo.items) }
{
    let mark = scope.mark();
    declare_all(out, scope, all)?;
    begin_all(scope, all)?;
    uses_of_stmts(out, scope, loops, all)?;
    scope.close(mark)?;
    Ok(())
}

/// The statements of a block that is open.
#[cycle(statements)]
fn uses_of_stmts<'a>(
    out: &mut Uses<'a>,
    scope: &mut Scope<'a, Seen>,
    loops: bool,
    all: &'a [Stmt],
) -> Result<(), AllocError>
    ensures uses { OnOk result (out.new ≡ out.old ++ u.stas loops (meaning scope.old) (stas (map sta all.now))) }
    ensures undo { OnOk result (Extends scope.old scope.new) }
{
    for x in all {
        uses_of_stmt(out, scope, loops, x)?;
        pass(scope, x)?;
    }
    Ok(())
}
