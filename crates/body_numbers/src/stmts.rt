//! Numbers statements, and opens and closes their variables.

ghost use Rattle.std.specs.Prelude.{◌≡◌, ◌-◌, IfOk, OnOk, map, drop, length, true};
ghost use Rattle.program.specs.declared.literal.Literal.TheVariants as lit;
ghost use Rattle.std.specs.Option.{option_map};
ghost use Rattle.dart_syntax.specs.Syntax.{stas, exps};
ghost use Rattle.dart_syntax.specs.View.{exp, sta, first_part};
ghost use Rattle.program.specs.Bodies as c;
ghost use Rattle.dart_meaning.specs.Numbering as num;
ghost use Rattle.body_numbers.specs.Open.{Grown};
ghost use Rattle.body_numbers.specs.Views.{stas_of, exps_of};

use crate::exprs::{expression, expressions};
use crate::numbers::Numbers;
use crate::pieces::room_for;
use crate::slots::Slots;
use dart_syntax::tree;
use dart_syntax::tree::{Expr, Stmt};
use ds_base::{NoMemory, let_go};
use program::{Expression, First, Literal, Statement};
use sqlite_items::{Boxed, Items};
use std::alloc::Global;

/// An expression, or a literal where there is none.
fn expression_or<N: Numbers>(
    alloc: Global,
    numbers: &N,
    slots: &Slots,
    other: Literal,
    e: &Option<Expr>,
) -> Result<Expression, NoMemory>
    ensures { IfOk result (λ x. c.exp x ≡ num.exp_or (N.tree numbers.now) (N.site_of numbers.now) (N.here numbers.now) slots.now other (option_map exp e.now)) }
{
    match e {
        None => Ok(Expression::Constant(other)),
        Some(e) => expression(alloc, numbers, slots, e),
    }
}

/// The first part of a `for`, whose variable is open behind it.
fn first_of<'a, N: Numbers>(
    alloc: Global,
    numbers: &N,
    slots: &mut Slots<'a>,
    start: &'a tree::First,
) -> Result<First, NoMemory>
    ensures form { IfOk result (λ x. c.first x ≡ num.first (N.tree numbers.now) (N.site_of numbers.now) (N.here numbers.now) slots.old (first_part start.now)) }
    ensures after { OnOk result (slots.new ≡ num.after_first slots.old (first_part start.now)) }
{
    match start {
        tree::First::Nothing => Ok(First::Nothing),
        tree::First::Local(x) => {
            let value = expression_or(alloc, numbers, slots, Literal::Null, &x.value)?;
            match slots.open(x.name.text.as_slice()) {
                Ok(()) => Ok(First::Declares(value)),
                Err(e) => {
                    let_go(value);
                    Err(e)
                }
            }
        }
        tree::First::Run(e) => Ok(First::Runs(expression(alloc, numbers, slots, e)?)),
    }
}

/// Behind its declaration a local is open.
fn pass<'a>(slots: &mut Slots<'a>, x: &'a Stmt) -> Result<(), NoMemory>
    ensures { OnOk result (slots.new ≡ num.after slots.old (sta x.now)) }
{
    match x {
        Stmt::Local(x) => slots.open(x.name.text.as_slice()),
        Stmt::Block(_)
        | Stmt::Run(_)
        | Stmt::Empty
        | Stmt::If(_, _, _)
        | Stmt::While(_, _)
        | Stmt::Do(_, _)
        | Stmt::For(_, _, _, _)
        | Stmt::Break(_)
        | Stmt::Continue(_)
        | Stmt::Return(_, _) => Ok(()),
    }
}

/// An `if` with an `else`.
fn if_else(test: Expression, then: Boxed<Statement>, other: Boxed<Statement>) -> Statement
    ensures { c.sta result ≡ c.when_else (c.exp test) (c.sta then) (c.sta other) }
{
    Statement::If(test, then, Some(other))
}

/// A statement. It leaves the variables that are open as they were.
#[cycle(numbering)]
pub fn statement<'a, N: Numbers>(
    alloc: Global,
    numbers: &N,
    slots: &mut Slots<'a>,
    x: &'a Stmt,
) -> Result<Statement, NoMemory>
    ensures form { IfOk result (λ s. c.sta s ≡ num.sta (N.tree numbers.now) (N.site_of numbers.now) (N.here numbers.now) slots.old (sta x.now)) }
    ensures same { OnOk result (slots.new ≡ slots.old) }
{
    match x {
        Stmt::Block(all) => {
            let all = block(alloc, numbers, slots, all.as_slice())?;
            Ok(Statement::Block(all))
        }
        Stmt::Local(x) => {
            let value = expression_or(alloc, numbers, slots, Literal::Null, &x.value)?;
            Ok(Statement::Declare(value))
        }
        Stmt::Run(e) => Ok(Statement::Run(expression(alloc, numbers, slots, e)?)),
        Stmt::Empty => Ok(Statement::Empty),
        Stmt::If(test, then, None) => {
            let then = boxed(alloc, numbers, slots, then.get())?;
            let test = expression(alloc, numbers, slots, test)?;
            Ok(Statement::If(test, then, None))
        }
        Stmt::If(test, then, Some(other)) => {
            let then = boxed(alloc, numbers, slots, then.get())?;
            let other = boxed(alloc, numbers, slots, other.get())?;
            let test = expression(alloc, numbers, slots, test)?;
            Ok(if_else(test, then, other))
        }
        Stmt::While(test, body) => {
            let body = boxed(alloc, numbers, slots, body.get())?;
            let test = expression(alloc, numbers, slots, test)?;
            Ok(Statement::While(test, body))
        }
        Stmt::Do(body, test) => {
            let body = boxed(alloc, numbers, slots, body.get())?;
            let test = expression(alloc, numbers, slots, test)?;
            Ok(Statement::Do(body, test))
        }
        Stmt::For(start, test, last, body) => {
            let count = slots.count();
            let start = first_of(alloc, numbers, slots, start)?;
            match turns(
                alloc,
                numbers,
                slots,
                count,
                body.get(),
                test,
                last.as_slice(),
            ) {
                Ok((test, last, body)) => Ok(Statement::For(start, test, last, body)),
                Err(e) => {
                    let_go(start);
                    Err(e)
                }
            }
        }
        Stmt::Break(_) => Ok(Statement::Break),
        Stmt::Continue(_) => Ok(Statement::Continue),
        Stmt::Return(_, e) => {
            let value = expression_or(alloc, numbers, slots, Literal::Null, e)?;
            Ok(Statement::Return(value))
        }
    }
}

/// What a `for` does in each turn. Behind it only the oldest variables are open.
#[cycle(numbering)]
fn turns<'a, N: Numbers>(
    alloc: Global,
    numbers: &N,
    slots: &mut Slots<'a>,
    count: usize,
    body: &'a Stmt,
    test: &Option<Expr>,
    last: &[Expr],
) -> Result<(Expression, Items<Expression>, Boxed<Statement>), NoMemory>
    ensures test { IfOk result (λ p. c.exp p.0 ≡ num.exp_or (N.tree numbers.now) (N.site_of numbers.now) (N.here numbers.now) slots.old (lit.Bool true) (option_map exp test.now)) }
    ensures last { IfOk result (λ p. exps_of p.1 ≡ num.exps (N.tree numbers.now) (N.site_of numbers.now) (N.here numbers.now) slots.old (exps (map exp last.now))) }
    ensures body { IfOk result (λ p. c.sta p.2 ≡ num.sta (N.tree numbers.now) (N.site_of numbers.now) (N.here numbers.now) slots.old (sta body.now)) }
    ensures closed { OnOk result (slots.new ≡ drop (length slots.old - count) slots.old) }
{
    let last = expressions(alloc, numbers, slots, last)?;
    let body = boxed(alloc, numbers, slots, body)?;
    let test = expression_or(alloc, numbers, slots, Literal::Bool(true), test)?;
    match slots.close(count) {
        Ok(()) => Ok((test, last, body)),
        Err(e) => {
            let_go(test);
            Err(e)
        }
    }
}

/// A branch, or the body of a loop.
#[cycle(numbering)]
fn boxed<'a, N: Numbers>(
    alloc: Global,
    numbers: &N,
    slots: &mut Slots<'a>,
    x: &'a Stmt,
) -> Result<Boxed<Statement>, NoMemory>
    ensures form { IfOk result (λ s. c.sta s ≡ num.sta (N.tree numbers.now) (N.site_of numbers.now) (N.here numbers.now) slots.old (sta x.now)) }
    ensures same { OnOk result (slots.new ≡ slots.old) }
{
    let x = statement(alloc, numbers, slots, x)?;
    Ok(Boxed::new(alloc, x)?)
}

/// A block, whose variables are closed behind it.
#[cycle(numbering)]
fn block<'a, N: Numbers>(
    alloc: Global,
    numbers: &N,
    slots: &mut Slots<'a>,
    all: &'a [Stmt],
) -> Result<Items<Statement>, NoMemory>
    ensures form { IfOk result (λ xs. stas_of xs ≡ num.stas (N.tree numbers.now) (N.site_of numbers.now) (N.here numbers.now) slots.old (stas (map sta all.now))) }
    ensures same { OnOk result (slots.new ≡ slots.old) }
{
    let before = slots.count();
    let all = statements(alloc, numbers, slots, all)?;
    slots.close(before)?;
    Ok(all)
}

/// The statements of a block that is open.
#[cycle(numbering)]
pub fn statements<'a, N: Numbers>(
    alloc: Global,
    numbers: &N,
    slots: &mut Slots<'a>,
    all: &'a [Stmt],
) -> Result<Items<Statement>, NoMemory>
    ensures form { IfOk result (λ xs. stas_of xs ≡ num.stas (N.tree numbers.now) (N.site_of numbers.now) (N.here numbers.now) slots.old (stas (map sta all.now))) }
    ensures grown { OnOk result (Grown slots.old slots.new) }
{
    let mut found = room_for(alloc, all.len())?;
    for x in all {
        let s = statement(alloc, numbers, slots, x)?;
        found.push(s)?;
        pass(slots, x)?;
    }
    Ok(found)
}
