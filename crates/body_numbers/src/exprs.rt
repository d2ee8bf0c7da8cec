//! Numbers expressions.

ghost use Rattle.std.specs.Prelude.{◌≡◌, ◌∷◌, [], IfOk, map};
ghost use Rattle.dart_syntax.specs.Syntax.{exps, pieces, links, selectors};
ghost use Rattle.dart_syntax.specs.View.{exp, piece, link, selector};
ghost use Rattle.program.specs.Bodies as c;
ghost use Rattle.dart_meaning.specs.Literals as literals;
ghost use Rattle.dart_meaning.specs.Numbering as num;
ghost use Rattle.body_numbers.specs.Views.{exps_of, pieces_of, calls_of, links_of, assignable_of};
ghost use Rattle.body_numbers.specs.Assigned.{named_last};

use crate::assignable::{Assignable, assigned, increment};
use crate::numbers::Numbers;
use crate::pieces::{
    bare, bare_assignable, call, joint_of, postfix, prefixed, room_for, site_call, string, units_of,
};
use crate::slots::Slots;
use dart_meaning::operators::{compound, negated, step_operator};
use dart_syntax::token::Span;
use dart_syntax::tree;
use dart_syntax::tree::{Expr, Selector, Unary};
use ds_base::NoMemory;
use program::{Expression, Link, Literal, Piece, SelectorKind, SiteCall};
use sqlite_items::{Boxed, Items};
use std::alloc::Global;

/// An expression.
#[cycle(numbering)]
pub fn expression<N: Numbers>(
    alloc: Global,
    numbers: &N,
    slots: &Slots,
    e: &Expr,
) -> Result<Expression, NoMemory>
    ensures { IfOk result (λ x. c.exp x ≡ num.exp (N.tree numbers.now) (N.site_of numbers.now) (N.here numbers.now) slots.now (exp e.now)) }
{
    match e {
        Expr::Null(_) | Expr::MinInt(_) => Ok(Expression::Constant(Literal::Null)),
        Expr::Bool(x, _) => Ok(Expression::Constant(Literal::Bool(*x))),
        Expr::Int(n, _) => Ok(Expression::Constant(Literal::Int(*n))),
        Expr::This(_) => Ok(Expression::This),
        Expr::Str(units, _) => string(alloc, units),
        Expr::Joined(units, at, more) => {
            let units = units_of(alloc, units)?;
            let more = interpolations(alloc, numbers, slots, *at, more.as_slice())?;
            Ok(Expression::Interpolation(units, more))
        }
        Expr::Name(name) => bare(alloc, numbers, slots, name),
        Expr::Call(name, args) => {
            let args = expressions(alloc, numbers, slots, args.as_slice())?;
            call(alloc, numbers, name, args)
        }
        Expr::SuperGet(_, name) => {
            let getter = numbers.super_number(SelectorKind::Get, name.text.as_slice());
            Ok(Expression::Super(getter, Items::new(alloc)))
        }
        Expr::SuperCall(_, name, args) => {
            let method = numbers.super_number(SelectorKind::Call, name.text.as_slice());
            let args = expressions(alloc, numbers, slots, args.as_slice())?;
            Ok(Expression::Super(method, args))
        }
        Expr::Paren(x) => expression(alloc, numbers, slots, x.get()),
        Expr::List(_, items) => {
            let items = expressions(alloc, numbers, slots, items.as_slice())?;
            Ok(Expression::List(items))
        }
        Expr::Postfix(x, more) => {
            let x = boxed(alloc, numbers, slots, x.get())?;
            let more = selected(alloc, numbers, slots, more.as_slice())?;
            Ok(Expression::Postfix(x, more))
        }
        Expr::Step(is_before, step, at, to) => {
            let operator = step_operator(*step);
            let to = assignable(alloc, numbers, slots, to.get())?;
            Ok(increment(numbers, *is_before, operator, *at, to))
        }
        Expr::Unary(op, at, x) => signed(alloc, numbers, slots, *op, *at, x.get()),
        Expr::Chain(x, more) => {
            let x = boxed(alloc, numbers, slots, x.get())?;
            let more = operations(alloc, numbers, slots, more.as_slice())?;
            Ok(Expression::Chain(x, more))
        }
        Expr::Is(x, is_denied, _, name) => {
            let x = boxed(alloc, numbers, slots, x.get())?;
            let class = numbers.class_number(name.text.as_slice());
            Ok(Expression::Is(x, *is_denied, class))
        }
        Expr::Cond(x, y, z) => {
            let x = boxed(alloc, numbers, slots, x.get())?;
            let y = boxed(alloc, numbers, slots, y.get())?;
            let z = boxed(alloc, numbers, slots, z.get())?;
            Ok(Expression::Conditional(x, y, z))
        }
        Expr::Assign(to, op, at, x) => {
            let x = boxed(alloc, numbers, slots, x.get())?;
            let to = assignable(alloc, numbers, slots, to.get())?;
            Ok(assigned(numbers, compound(*op), *at, to, x))
        }
        Expr::Throw(_, x) => {
            let x = boxed(alloc, numbers, slots, x.get())?;
            Ok(Expression::Throw(x))
        }
    }
}

/// An expression within another.
#[cycle(numbering)]
fn boxed<N: Numbers>(
    alloc: Global,
    numbers: &N,
    slots: &Slots,
    e: &Expr,
) -> Result<Boxed<Expression>, NoMemory>
    ensures { IfOk result (λ x. c.exp x ≡ num.exp (N.tree numbers.now) (N.site_of numbers.now) (N.here numbers.now) slots.now (exp e.now)) }
{
    let x = expression(alloc, numbers, slots, e)?;
    Ok(Boxed::new(alloc, x)?)
}

/// A sign and its operand. A minus directly before a number is part of it.
#[cycle(numbering)]
fn signed<N: Numbers>(
    alloc: Global,
    numbers: &N,
    slots: &Slots,
    op: Unary,
    at: Span,
    e: &Expr,
) -> Result<Expression, NoMemory>
    ensures { IfOk result (λ x. c.exp x ≡ num.unary (N.tree numbers.now) (N.site_of numbers.now) (N.here numbers.now) (literals.negated op (exp e.now)) (num.prefixed (N.tree numbers.now) (N.site_of numbers.now) (N.here numbers.now) op at (num.exp (N.tree numbers.now) (N.site_of numbers.now) (N.here numbers.now) slots.now (exp e.now)))) }
{
    match negated(op, e) {
        Some(number) => Ok(Expression::Constant(number)),
        None => {
            let x = boxed(alloc, numbers, slots, e)?;
            prefixed(alloc, numbers, op, at, x)
        }
    }
}

/// Expressions in their order, as arguments are.
#[cycle(numbering)]
pub fn expressions<N: Numbers>(
    alloc: Global,
    numbers: &N,
    slots: &Slots,
    all: &[Expr],
) -> Result<Items<Expression>, NoMemory>
    ensures { IfOk result (λ xs. exps_of xs ≡ num.exps (N.tree numbers.now) (N.site_of numbers.now) (N.here numbers.now) slots.now (exps (map exp all.now))) }
{
    let mut found = room_for(alloc, all.len())?;
    for e in all {
        let x = expression(alloc, numbers, slots, e)?;
        found.push(x)?;
    }
    Ok(found)
}

/// The interpolations of a string. The site of each is where the text before it begins.
#[cycle(numbering)]
fn interpolations<N: Numbers>(
    alloc: Global,
    numbers: &N,
    slots: &Slots,
    first: Span,
    all: &[tree::Piece<Expr>],
) -> Result<Items<Piece<Expression>>, NoMemory>
    ensures { IfOk result (λ xs. pieces_of xs ≡ num.pieces (N.tree numbers.now) (N.site_of numbers.now) (N.here numbers.now) slots.now first (pieces (map piece all.now))) }
{
    let mut found = room_for(alloc, all.len())?;
    let mut at = first;
    for piece in all {
        let site = numbers.site(at);
        let then = units_of(alloc, &piece.then)?;
        let value = expression(alloc, numbers, slots, &piece.value)?;
        found.push(Piece { site, value, then })?;
        at = piece.span;
    }
    Ok(found)
}

/// Operators of one level with their right sides.
#[cycle(numbering)]
fn operations<N: Numbers>(
    alloc: Global,
    numbers: &N,
    slots: &Slots,
    all: &[tree::Link<Expr>],
) -> Result<Items<Link<Expression>>, NoMemory>
    ensures { IfOk result (λ xs. links_of xs ≡ num.links (N.tree numbers.now) (N.site_of numbers.now) (N.here numbers.now) slots.now (links (map link all.now))) }
{
    let mut found = room_for(alloc, all.len())?;
    for link in all {
        let joint = joint_of(numbers, link.operator, link.span);
        let operand = expression(alloc, numbers, slots, &link.operand)?;
        found.push(Link { joint, operand })?;
    }
    Ok(found)
}

/// The calls of selectors, each on what the one before it answered.
#[cycle(numbering)]
fn selected<N: Numbers>(
    alloc: Global,
    numbers: &N,
    slots: &Slots,
    all: &[Selector],
) -> Result<Items<SiteCall<Expression>>, NoMemory>
    ensures { IfOk result (λ xs. calls_of xs ≡ num.selected (N.tree numbers.now) (N.site_of numbers.now) (N.here numbers.now) slots.now (selectors (map selector all.now))) }
{
    let mut found = room_for(alloc, all.len())?;
    for s in all {
        let call = select(alloc, numbers, slots, s)?;
        found.push(call)?;
    }
    Ok(found)
}

/// The call of one selector.
#[cycle(numbering)]
fn select<N: Numbers>(
    alloc: Global,
    numbers: &N,
    slots: &Slots,
    s: &Selector,
) -> Result<SiteCall<Expression>, NoMemory>
    ensures { IfOk result (λ x. calls_of (x ∷ []) ≡ num.select (N.tree numbers.now) (N.site_of numbers.now) (N.here numbers.now) slots.now (selector s.now) c.no_call) }
{
    match s {
        Selector::Member(name) => Ok(site_call(numbers, name.span, Items::new(alloc))),
        Selector::Invoke(name, args) => {
            let args = expressions(alloc, numbers, slots, args.as_slice())?;
            Ok(site_call(numbers, name.span, args))
        }
        Selector::Index(at, index) => {
            let args = alone(alloc, numbers, slots, index)?;
            Ok(site_call(numbers, *at, args))
        }
    }
}

/// One argument.
#[cycle(numbering)]
fn alone<N: Numbers>(
    alloc: Global,
    numbers: &N,
    slots: &Slots,
    e: &Expr,
) -> Result<Items<Expression>, NoMemory>
    ensures { IfOk result (λ xs. exps_of xs ≡ c.also (num.exp (N.tree numbers.now) (N.site_of numbers.now) (N.here numbers.now) slots.now (exp e.now)) c.no_more) }
{
    let mut args = room_for(alloc, 1)?;
    let x = expression(alloc, numbers, slots, e)?;
    args.push(x)?;
    Ok(args)
}

/// What is assigned to.
#[cycle(numbering)]
fn assignable<'a, N: Numbers>(
    alloc: Global,
    numbers: &N,
    slots: &Slots,
    to: &'a Expr,
) -> Result<Assignable<'a>, NoMemory>
    ensures { IfOk result (λ x. assignable_of x ≡ num.assignable (N.tree numbers.now) (N.site_of numbers.now) (N.here numbers.now) slots.now (exp to.now)) }
{
    match to {
        Expr::Name(name) => bare_assignable(alloc, numbers, slots, name),
        Expr::SuperGet(_, name) => Ok(Assignable::Super(name.text.as_slice())),
        Expr::Postfix(x, more) => {
            let x = boxed(alloc, numbers, slots, x.get())?;
            last_of(alloc, numbers, slots, more.as_slice(), x)
        }
        Expr::Null(_)
        | Expr::Bool(_, _)
        | Expr::Int(_, _)
        | Expr::MinInt(_)
        | Expr::This(_)
        | Expr::Str(_, _)
        | Expr::Joined(_, _, _)
        | Expr::Call(_, _)
        | Expr::SuperCall(_, _, _)
        | Expr::Paren(_)
        | Expr::List(_, _)
        | Expr::Step(_, _, _, _)
        | Expr::Unary(_, _, _)
        | Expr::Chain(_, _)
        | Expr::Is(_, _, _, _)
        | Expr::Cond(_, _, _)
        | Expr::Assign(_, _, _, _)
        | Expr::Throw(_, _) => Ok(Assignable::Local(0)),
    }
}

/// The last selector names what is assigned to, and those before it are its receiver.
#[cycle(numbering)]
fn last_of<'a, N: Numbers>(
    alloc: Global,
    numbers: &N,
    slots: &Slots,
    all: &'a [Selector],
    to: Boxed<Expression>,
) -> Result<Assignable<'a>, NoMemory>
    ensures { IfOk result (λ x. assignable_of x ≡ named_last (N.tree numbers.now) (N.site_of numbers.now) (N.here numbers.now) slots.now (c.exp to) (selectors (map selector all.now))) }
{
    let mut calls = room_for(alloc, all.len())?;
    for (i, s) in all.iter().enumerate() {
        if i + 1 == all.len() {
            let to = postfix(alloc, to, calls)?;
            return named_by(alloc, numbers, slots, s, to);
        }
        let call = select(alloc, numbers, slots, s)?;
        calls.push(call)?;
    }
    Ok(Assignable::Local(0))
}

/// What a selector names on a receiver.
#[cycle(numbering)]
fn named_by<'a, N: Numbers>(
    alloc: Global,
    numbers: &N,
    slots: &Slots,
    s: &'a Selector,
    to: Boxed<Expression>,
) -> Result<Assignable<'a>, NoMemory>
    ensures { IfOk result (λ x. assignable_of x ≡ num.named_by (N.tree numbers.now) (N.site_of numbers.now) (N.here numbers.now) slots.now (c.exp to) (selector s.now)) }
{
    match s {
        Selector::Member(name) => Ok(Assignable::Member(to, name.span)),
        Selector::Invoke(_, _) => Ok(Assignable::Local(0)),
        Selector::Index(at, index) => {
            let index = boxed(alloc, numbers, slots, index)?;
            Ok(Assignable::Element(to, index, *at))
        }
    }
}
