//! The parts of expressions that hold no others of the tree: calls, names, and sites.

ghost use Rattle.std.specs.Prelude.{◌≡◌, ◌∷◌, [], IfOk, None};
ghost use Rattle.dart_syntax.specs.Syntax as tree;
ghost use Rattle.program.specs.declared.literal.Literal.TheVariants as literal;
ghost use Rattle.program.specs.Bodies as c;
ghost use Rattle.dart_meaning.specs.Operators as by;
ghost use Rattle.dart_meaning.specs.Numbering as num;
ghost use Rattle.body_numbers.specs.Views.{exps_of, calls_of, assignable_of};

use crate::assignable::{Assignable, operator_call};
use crate::meant::{Meant, meaning_of};
use crate::numbers::Numbers;
use crate::slots::Slots;
use dart_meaning::operators::operator_of;
use dart_syntax::token::{Span, Units};
use dart_syntax::tree::{Binary, Name, Unary};
use ds_base::NoMemory;
use program::{Expression, Joint, Literal, SiteCall};
use sqlite_items::{Boxed, Items};
use std::alloc::Global;

/// An empty list with room for as many items and no more, since trees are mostly of short lists.
pub fn room_for<T>(alloc: Global, count: usize) -> Result<Items<T>, NoMemory>
    ensures { IfOk result (λ xs. xs ≡ []) }
{
    Ok(Items::from_vec(Vec::with_capacity(alloc, count)?))
}

/// The code units of a string.
pub fn units_of(alloc: Global, units: &Units) -> Result<Units, NoMemory>
    ensures { IfOk result (λ x. x ≡ units.now) }
{
    Ok(Items::from_slice(alloc, units.as_slice())?)
}

/// A string without interpolations.
pub fn string(alloc: Global, units: &Units) -> Result<Expression, NoMemory>
    ensures { IfOk result (λ x. c.exp x ≡ c.constant (literal.Str units.now)) }
{
    Ok(Expression::Constant(Literal::Str(units_of(alloc, units)?)))
}

/// A call or a read through a site, of what stands before it.
pub fn site_call<N: Numbers>(
    numbers: &N,
    at: Span,
    arguments: Items<Expression>,
) -> SiteCall<Expression>
    ensures { calls_of (result ∷ []) ≡ c.call (num.site (N.tree numbers.now) (N.site_of numbers.now) (N.here numbers.now) at) (exps_of arguments) c.no_call }
{
    SiteCall {
        site: numbers.site(at),
        arguments,
    }
}

/// One call or read, on this receiver.
pub fn one_call<N: Numbers>(
    alloc: Global,
    numbers: &N,
    at: Span,
    to: Boxed<Expression>,
    args: Items<Expression>,
) -> Result<Expression, NoMemory>
    ensures { IfOk result (λ x. c.exp x ≡ num.one_call (N.tree numbers.now) (N.site_of numbers.now) (N.here numbers.now) at (c.exp to) (exps_of args)) }
{
    let mut calls = room_for(alloc, 1)?;
    calls.push(site_call(numbers, at, args))?;
    Ok(Expression::Postfix(to, calls))
}

/// A call or a read of a member of `this`.
fn call_this<N: Numbers>(
    alloc: Global,
    numbers: &N,
    at: Span,
    args: Items<Expression>,
) -> Result<Expression, NoMemory>
    ensures { IfOk result (λ x. c.exp x ≡ num.one_call (N.tree numbers.now) (N.site_of numbers.now) (N.here numbers.now) at c.this (exps_of args)) }
{
    let this = Boxed::new(alloc, Expression::This)?;
    one_call(alloc, numbers, at, this, args)
}

/// Calls on a receiver, as the receiver of what is behind them.
pub fn postfix(
    alloc: Global,
    to: Boxed<Expression>,
    calls: Items<SiteCall<Expression>>,
) -> Result<Boxed<Expression>, NoMemory>
    ensures { IfOk result (λ x. c.exp x ≡ c.postfix (c.exp to) (calls_of calls)) }
{
    Ok(Boxed::new(alloc, Expression::Postfix(to, calls))?)
}

/// A bare name that is read.
pub fn bare<N: Numbers>(
    alloc: Global,
    numbers: &N,
    slots: &Slots,
    name: &Name,
) -> Result<Expression, NoMemory>
    ensures { IfOk result (λ x. c.exp x ≡ num.exp (N.tree numbers.now) (N.site_of numbers.now) (N.here numbers.now) slots.now (tree.bare name.now)) }
{
    match meaning_of(numbers, slots, name.text.as_slice()) {
        Meant::Slot(slot) => Ok(Expression::Local(slot)),
        Meant::Variable(place) => Ok(Expression::Global(place)),
        Meant::Member => call_this(alloc, numbers, name.span, Items::new(alloc)),
    }
}

/// A bare name that is assigned to.
pub fn bare_assignable<'a, N: Numbers>(
    alloc: Global,
    numbers: &N,
    slots: &Slots,
    name: &'a Name,
) -> Result<Assignable<'a>, NoMemory>
    ensures { IfOk result (λ x. assignable_of x ≡ num.assignable (N.tree numbers.now) (N.site_of numbers.now) (N.here numbers.now) slots.now (tree.bare name.now)) }
{
    match meaning_of(numbers, slots, name.text.as_slice()) {
        Meant::Slot(slot) => Ok(Assignable::Local(slot)),
        Meant::Variable(place) => Ok(Assignable::Global(place)),
        Meant::Member => {
            let this = Boxed::new(alloc, Expression::This)?;
            Ok(Assignable::Member(this, name.span))
        }
    }
}

/// `&&` and `||` call nothing.
fn lazy_joint(sign: Binary) -> Joint
    ensures { (site : _) → result ≡ by.joint_by sign None site }
{
    match sign {
        Binary::Or => Joint::Or,
        _ => Joint::And,
    }
}

/// A sign between two operands.
pub fn joint_of<N: Numbers>(numbers: &N, sign: Binary, at: Span) -> Joint
    ensures { result ≡ by.joint_of sign (num.site (N.tree numbers.now) (N.site_of numbers.now) (N.here numbers.now) at) }
{
    match operator_of(sign) {
        Some(operator) => Joint::Operator(operator_call(numbers, operator, at)),
        None => lazy_joint(sign),
    }
}

/// What `print` prints, which is its one argument.
fn printed(alloc: Global, args: Items<Expression>) -> Result<Boxed<Expression>, NoMemory>
    ensures { IfOk result (λ x. c.exp x ≡ num.printed (exps_of args)) }
{
    let mut args = args;
    if args.is_empty() {
        return Ok(Boxed::new(alloc, Expression::Constant(Literal::Null))?);
    }
    Ok(Boxed::new(alloc, args.remove(0))?)
}

/// A call of a function, of `print`, of a constructor, or of a member of `this`.
pub fn call<N: Numbers>(
    alloc: Global,
    numbers: &N,
    name: &Name,
    args: Items<Expression>,
) -> Result<Expression, NoMemory>
    ensures { IfOk result (λ x. c.exp x ≡ num.call (N.tree numbers.now) (N.site_of numbers.now) (N.here numbers.now) name.now (exps_of args)) }
{
    let text = name.text.as_slice();
    if numbers.class_declares(text) {
        return call_this(alloc, numbers, name.span, args);
    }
    if let Some(function) = numbers.function_number(text) {
        return Ok(Expression::CallFunction(function, args));
    }
    if numbers.is_constructed(text) {
        return Ok(Expression::New(numbers.class_number(text), args));
    }
    if text == b"print".as_slice() {
        let value = printed(alloc, args)?;
        return Ok(Expression::Print(value));
    }
    call_this(alloc, numbers, name.span, args)
}

/// A sign before an operand that is no number behind a minus.
pub fn prefixed<N: Numbers>(
    alloc: Global,
    numbers: &N,
    op: Unary,
    at: Span,
    operand: Boxed<Expression>,
) -> Result<Expression, NoMemory>
    ensures { IfOk result (λ x. c.exp x ≡ num.prefixed (N.tree numbers.now) (N.site_of numbers.now) (N.here numbers.now) op at (c.exp operand)) }
{
    match op {
        Unary::Minus | Unary::Complement => one_call(
            alloc,
            numbers,
            at,
            operand,
            Items::new(alloc),
        ),
        Unary::Not => Ok(Expression::Not(operand)),
    }
}
