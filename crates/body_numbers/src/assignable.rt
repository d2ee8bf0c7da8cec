//! What is assigned to, once its operands are numbered, and the assignments to it.

ghost use Rattle.std.specs.Prelude.{◌≡◌};
ghost use Rattle.program.specs.Bodies as c;
ghost use Rattle.dart_meaning.specs.Operators as by;
ghost use Rattle.dart_meaning.specs.Numbering as num;
ghost use Rattle.body_numbers.specs.Views.{assignable_of, target_of, update_of};

use crate::numbers::Numbers;
use dart_syntax::token::Span;
use program::{
    AssignmentTarget, BinaryOperator, Expression, OperatorCall, SelectorKind, UpdateTarget,
};
use sqlite_items::Boxed;

/// What is assigned to, by its slot or number, its name, or its receiver and index.
#[derive(Drop)]
pub enum Assignable<'a> {
    Local(u32),
    Global(u32),
    /// A member of the superclass.
    Super(&'a [u8]),
    /// The receiver, and where the member's name stands.
    Member(Boxed<Expression>, Span),
    /// The receiver, the index, and where the bracket stands.
    Element(Boxed<Expression>, Boxed<Expression>, Span),
}

/// What a plain assignment writes.
pub fn assignment_target<N: Numbers>(
    numbers: &N,
    to: Assignable,
) -> AssignmentTarget<Boxed<Expression>>
    ensures { target_of result ≡ num.target_of (N.tree numbers.now) (N.site_of numbers.now) (N.here numbers.now) (assignable_of to.entry) }
{
    match to {
        Assignable::Local(slot) => AssignmentTarget::Local(slot),
        Assignable::Global(place) => AssignmentTarget::Global(place),
        Assignable::Super(name) => AssignmentTarget::Super(numbers.super_number(
            SelectorKind::Set,
            name,
        )),
        Assignable::Member(to, at) => AssignmentTarget::Member(to, numbers.writing_site(at)),
        Assignable::Element(to, index, at) => AssignmentTarget::Element(
            to,
            index,
            numbers.writing_site(at),
        ),
    }
}

/// What a compound assignment, `++` or `--` reads and then writes.
pub fn update_target<N: Numbers>(numbers: &N, to: Assignable) -> UpdateTarget<Boxed<Expression>>
    ensures { update_of result ≡ num.update_of (N.tree numbers.now) (N.site_of numbers.now) (N.here numbers.now) (assignable_of to.entry) }
{
    match to {
        Assignable::Local(slot) => UpdateTarget::Local(slot),
        Assignable::Global(place) => UpdateTarget::Global(place),
        Assignable::Super(name) => UpdateTarget::Super(
            numbers.super_number(SelectorKind::Get, name),
            numbers.super_number(SelectorKind::Set, name),
        ),
        Assignable::Member(to, at) => UpdateTarget::Member(
            to,
            numbers.site(at),
            numbers.writing_site(at),
        ),
        Assignable::Element(to, index, at) => UpdateTarget::Element(
            to,
            index,
            numbers.site(at),
            numbers.writing_site(at),
        ),
    }
}

/// A call of an operator through its site.
pub fn operator_call<N: Numbers>(numbers: &N, operator: BinaryOperator, at: Span) -> OperatorCall
    ensures { result ≡ by.operator_call operator (num.site (N.tree numbers.now) (N.site_of numbers.now) (N.here numbers.now) at) }
{
    OperatorCall {
        operator,
        site: numbers.site(at),
    }
}

/// An assignment, which is compound where it calls an operator.
pub fn assigned<N: Numbers>(
    numbers: &N,
    operator: Option<BinaryOperator>,
    at: Span,
    to: Assignable,
    value: Boxed<Expression>,
) -> Expression
    ensures { c.exp result ≡ num.assigned (N.tree numbers.now) (N.site_of numbers.now) (N.here numbers.now) operator at (assignable_of to.entry) (c.exp value) }
{
    match operator {
        None => Expression::Assign(assignment_target(numbers, to), value),
        Some(operator) => {
            let call = operator_call(numbers, operator, at);
            Expression::CompoundAssign(update_target(numbers, to), call, value)
        }
    }
}

/// `++` or `--`, before its target or behind it.
pub fn increment<N: Numbers>(
    numbers: &N,
    is_before: bool,
    operator: BinaryOperator,
    at: Span,
    to: Assignable,
) -> Expression
    ensures { c.exp result ≡ c.increment is_before (by.operator_call operator (num.site (N.tree numbers.now) (N.site_of numbers.now) (N.here numbers.now) at)) (num.update_of (N.tree numbers.now) (N.site_of numbers.now) (N.here numbers.now) (assignable_of to.entry)) }
{
    let call = operator_call(numbers, operator, at);
    Expression::Increment(is_before, call, update_target(numbers, to))
}
