//! What expressions use.

ghost use Rattle.std.specs.Prelude.{◌≡◌, ◌++◌, OnOk, map, is_some};
ghost use Rattle.dart_syntax.specs.Syntax.{exps, pieces, links, selectors};
ghost use Rattle.dart_syntax.specs.View.{exp, piece, link, selector};
ghost use Rattle.dart_meaning.specs.Uses as u;
ghost use Rattle.name_uses.specs.Undo.{meaning};

use crate::list::{Use, Uses};
use crate::scope::Scope;
use dart_meaning::Seen;
use dart_meaning::operators::{compound, operator_of, step_operator};
use dart_syntax::token::Span;
use dart_syntax::tree::{Expr, Link, Name, Piece, Selector, Unary};
use program::BinaryOperator;
use std::alloc::AllocError;

fn is_number(x: &Expr) -> bool
    ensures { result ≡ u.is_number (exp x.now) }
{
    matches!(x, Expr::Int(_, _) | Expr::MinInt(_))
}

fn prefix_use<'a>(out: &mut Uses<'a>, op: Unary, at: Span, x: &Expr) -> Result<(), AllocError>
    ensures { OnOk result (out.new ≡ out.old ++ u.prefix_use op at (exp x.now)) }
{
    match op {
        Unary::Not => Ok(()),
        Unary::Minus => {
            if is_number(x) {
                Ok(())
            } else {
                out.push(Use::Prefixes(op, at))
            }
        }
        Unary::Complement => out.push(Use::Prefixes(op, at)),
    }
}

/// The operator that is called, if any.
fn operator_use<'a>(
    out: &mut Uses<'a>,
    op: Option<BinaryOperator>,
    at: Span,
) -> Result<(), AllocError>
    ensures { OnOk result (out.new ≡ out.old ++ u.operator_use op at) }
{
    match op {
        None => Ok(()),
        Some(op) => out.push(Use::Operates(op, at)),
    }
}

/// A bare name that is assigned to.
fn name_changed<'a>(
    out: &mut Uses<'a>,
    scope: &Scope<'a, Seen>,
    reads_too: bool,
    name: &'a Name,
) -> Result<(), AllocError>
    ensures { OnOk result (out.new ≡ out.old ++ u.changes reads_too (u.reads name.now (meaning scope.now name.now.text)) (u.writes name.now (meaning scope.now name.now.text))) }
{
    let seen = scope.look(name.text.as_slice());
    if reads_too {
        out.push(Use::Reads(name, seen))?;
    }
    out.push(Use::Writes(name, seen))
}

/// A member of `super` that is assigned to.
fn super_changed<'a>(
    out: &mut Uses<'a>,
    reads_too: bool,
    at: Span,
    name: &'a Name,
) -> Result<(), AllocError>
    ensures { OnOk result (out.new ≡ out.old ++ u.changes reads_too (u.super_reads at name.now) (u.super_writes at name.now)) }
{
    if reads_too {
        out.push(Use::SuperReads(at, name))?;
    }
    out.push(Use::SuperWrites(at, name))
}

/// A member that is assigned to.
fn member_changed<'a>(out: &mut Uses<'a>, reads_too: bool, name: &'a Name) -> Result<(), AllocError>
    ensures { OnOk result (out.new ≡ out.old ++ u.changes reads_too (u.member_reads name.now) (u.member_writes name.now)) }
{
    if reads_too {
        out.push(Use::MemberReads(name))?;
    }
    out.push(Use::MemberWrites(name))
}

/// An index that is assigned to.
fn index_changed<'a>(out: &mut Uses<'a>, reads_too: bool, at: Span) -> Result<(), AllocError>
    ensures { OnOk result (out.new ≡ out.old ++ u.changes reads_too (u.index_reads at) (u.index_writes at)) }
{
    if reads_too {
        out.push(Use::IndexReads(at))?;
    }
    out.push(Use::IndexWrites(at))
}

/// What an expression uses.
#[cycle(uses)]
pub fn uses_of<'a>(
    out: &mut Uses<'a>,
    scope: &Scope<'a, Seen>,
    x: &'a Expr,
) -> Result<(), AllocError>
    ensures { OnOk result (out.new ≡ out.old ++ u.exp (meaning scope.now) (exp x.now)) }
{
    match x {
        Expr::Null(_) | Expr::Bool(_, _) | Expr::Int(_, _) | Expr::MinInt(_) | Expr::Str(_, _) =>
            Ok(()),
        Expr::This(at) => out.push(Use::This(*at)),
        Expr::Joined(_, at, more) => uses_of_pieces(out, scope, *at, more.as_slice()),
        Expr::Name(name) => {
            let seen = scope.look(name.text.as_slice());
            out.push(Use::Reads(name, seen))
        }
        Expr::Call(name, args) => {
            let seen = scope.look(name.text.as_slice());
            out.push(Use::Calls(name, seen, args.len()))?;
            uses_of_all(out, scope, args.as_slice())
        }
        Expr::SuperGet(at, name) => out.push(Use::SuperReads(*at, name)),
        Expr::SuperCall(at, name, args) => {
            out.push(Use::SuperCalls(*at, name, args.len()))?;
            uses_of_all(out, scope, args.as_slice())
        }
        Expr::Paren(x) => uses_of(out, scope, x.get()),
        Expr::List(_, items) => uses_of_all(out, scope, items.as_slice()),
        Expr::Postfix(x, more) => {
            uses_of(out, scope, x.get())?;
            uses_of_selectors(out, scope, more.as_slice())
        }
        Expr::Step(_, step, at, to) => {
            uses_of_target(out, scope, true, to.get())?;
            out.push(Use::Operates(step_operator(*step), *at))
        }
        Expr::Unary(op, at, x) => {
            prefix_use(out, *op, *at, x.get())?;
            uses_of(out, scope, x.get())
        }
        Expr::Chain(x, more) => {
            uses_of(out, scope, x.get())?;
            uses_of_links(out, scope, more.as_slice())
        }
        Expr::Is(x, _, _, name) => {
            uses_of(out, scope, x.get())?;
            out.push(Use::NamesClass(name))
        }
        Expr::Cond(x, y, z) => {
            uses_of(out, scope, x.get())?;
            uses_of(out, scope, y.get())?;
            uses_of(out, scope, z.get())
        }
        Expr::Assign(to, op, at, x) => {
            let op = compound(*op);
            uses_of_target(out, scope, op.is_some(), to.get())?;
            operator_use(out, op, *at)?;
            uses_of(out, scope, x.get())
        }
        Expr::Throw(_, x) => uses_of(out, scope, x.get()),
    }
}

/// What expressions use, in their order.
#[cycle(uses)]
pub fn uses_of_all<'a>(
    out: &mut Uses<'a>,
    scope: &Scope<'a, Seen>,
    all: &'a [Expr],
) -> Result<(), AllocError>
    ensures { OnOk result (out.new ≡ out.old ++ u.exps (meaning scope.now) (exps (map exp all.now))) }
{
    for x in all {
        uses_of(out, scope, x)?;
    }
    Ok(())
}

#[cycle(uses)]
fn uses_of_pieces<'a>(
    out: &mut Uses<'a>,
    scope: &Scope<'a, Seen>,
    first: Span,
    all: &'a [Piece<Expr>],
) -> Result<(), AllocError>
    ensures { OnOk result (out.new ≡ out.old ++ u.pieces (meaning scope.now) first (pieces (map piece all.now))) }
{
    let mut at = first;
    for piece in all {
        out.push(Use::Shows(at))?;
        uses_of(out, scope, &piece.value)?;
        at = piece.span;
    }
    Ok(())
}

#[cycle(uses)]
fn uses_of_links<'a>(
    out: &mut Uses<'a>,
    scope: &Scope<'a, Seen>,
    all: &'a [Link<Expr>],
) -> Result<(), AllocError>
    ensures { OnOk result (out.new ≡ out.old ++ u.links (meaning scope.now) (links (map link all.now))) }
{
    for link in all {
        operator_use(out, operator_of(link.operator), link.span)?;
        uses_of(out, scope, &link.operand)?;
    }
    Ok(())
}

#[cycle(uses)]
fn uses_of_selector<'a>(
    out: &mut Uses<'a>,
    scope: &Scope<'a, Seen>,
    x: &'a Selector,
) -> Result<(), AllocError>
    ensures { OnOk result (out.new ≡ out.old ++ u.selector (meaning scope.now) (selector x.now)) }
{
    match x {
        Selector::Member(name) => out.push(Use::MemberReads(name)),
        Selector::Invoke(name, args) => {
            out.push(Use::MemberCalls(name, args.len()))?;
            uses_of_all(out, scope, args.as_slice())
        }
        Selector::Index(at, x) => {
            out.push(Use::IndexReads(*at))?;
            uses_of(out, scope, x)
        }
    }
}

#[cycle(uses)]
fn uses_of_selectors<'a>(
    out: &mut Uses<'a>,
    scope: &Scope<'a, Seen>,
    all: &'a [Selector],
) -> Result<(), AllocError>
    ensures { OnOk result (out.new ≡ out.old ++ u.selectors (meaning scope.now) (selectors (map selector all.now))) }
{
    for x in all {
        uses_of_selector(out, scope, x)?;
    }
    Ok(())
}

/// The last selector of a target.
#[cycle(uses)]
fn uses_of_changed<'a>(
    out: &mut Uses<'a>,
    scope: &Scope<'a, Seen>,
    reads_too: bool,
    x: &'a Selector,
) -> Result<(), AllocError>
    ensures { OnOk result (out.new ≡ out.old ++ u.changed (meaning scope.now) reads_too (selector x.now)) }
{
    match x {
        Selector::Member(name) => member_changed(out, reads_too, name),
        Selector::Invoke(_, _) => Ok(()),
        Selector::Index(at, x) => {
            uses_of(out, scope, x)?;
            index_changed(out, reads_too, *at)
        }
    }
}

/// The selectors of a target.
#[cycle(uses)]
fn uses_up_to_changed<'a>(
    out: &mut Uses<'a>,
    scope: &Scope<'a, Seen>,
    reads_too: bool,
    all: &'a [Selector],
) -> Result<(), AllocError>
    ensures { OnOk result (out.new ≡ out.old ++ u.up_to_changed (meaning scope.now) reads_too (selectors (map selector all.now))) }
{
    for (i, x) in all.iter().enumerate() {
        if i + 1 < all.len() {
            uses_of_selector(out, scope, x)?;
        } else {
            uses_of_changed(out, scope, reads_too, x)?;
        }
    }
    Ok(())
}

/// What is assigned to.
#[cycle(uses)]
fn uses_of_target<'a>(
    out: &mut Uses<'a>,
    scope: &Scope<'a, Seen>,
    reads_too: bool,
    to: &'a Expr,
) -> Result<(), AllocError>
    ensures { OnOk result (out.new ≡ out.old ++ u.target (meaning scope.now) reads_too (exp to.now)) }
{
    match to {
        Expr::Name(name) => name_changed(out, scope, reads_too, name),
        Expr::SuperGet(at, name) => super_changed(out, reads_too, *at, name),
        Expr::Postfix(x, more) => {
            uses_of(out, scope, x.get())?;
            uses_up_to_changed(out, scope, reads_too, more.as_slice())
        }
        Expr::Null(_)
        | Expr::Bool(_, _)
        | Expr::Int(_, _)
        | Expr::MinInt(_)
        | Expr::This(_)
        | Expr::Str(_, _)
        | Expr::Joined(_, _, _)
        | Expr::Call(_, _)
        | Expr::SuperCall(_, _, _)
        | Expr::Paren(_)
        | Expr::List(_, _)
        | Expr::Step(_, _, _, _)
        | Expr::Unary(_, _, _)
        | Expr::Chain(_, _)
        | Expr::Is(_, _, _, _)
        | Expr::Cond(_, _, _)
        | Expr::Assign(_, _, _, _)
        | Expr::Throw(_, _) => Ok(()),
    }
}
