// The members of bool and int. They take no memory.
ghost use Rattle.std.specs.Prelude.{◌≡◌, List, IfOk};
ghost use Rattle.dart_values.specs.Numbers.{bool_with, int_with, int_member, is_int, quotient, remainder, shift_left, shift_right, shift_unsigned, count_of};
ghost use Rattle.dart_values.specs.Values.{Text};
ghost use Rattle.dart_values.specs.Store.{value_in, result_in, IsPlain};

use crate::fault::Trap;
use crate::member::{BoolOperator, IntMember, IntOperator};
use crate::value::Value;

/// `&`, `|` and `^` of bools.
pub fn bool_with(operator: BoolOperator, x: bool, y: bool) -> bool
    ensures { result ≡ bool_with operator x y }
{
    match operator {
        BoolOperator::And => x & y,
        BoolOperator::Or => x | y,
        BoolOperator::Xor => x ^ y,
    }
}

/// An operator of ints.
pub fn int_with(operator: IntOperator, x: i64, y: i64) -> Result<Value, Trap>
    ensures value { (texts : List Text) → result_in texts result ≡ int_with operator x y }
    ensures plain { IfOk result IsPlain }
{
    match operator {
        IntOperator::Add => Ok(Value::Int(x.wrapping_add(y))),
        IntOperator::Subtract => Ok(Value::Int(x.wrapping_sub(y))),
        IntOperator::Multiply => Ok(Value::Int(x.wrapping_mul(y))),
        IntOperator::Divide => Ok(Value::Int(quotient(x, y)?)),
        IntOperator::Remainder => Ok(Value::Int(remainder(x, y)?)),
        IntOperator::And => Ok(Value::Int(x & y)),
        IntOperator::Or => Ok(Value::Int(x | y)),
        IntOperator::Xor => Ok(Value::Int(x ^ y)),
        IntOperator::ShiftLeft => Ok(Value::Int(shift_left(x, count_of(y)?))),
        IntOperator::ShiftRight => Ok(Value::Int(shift_right(x, count_of(y)?))),
        IntOperator::ShiftUnsigned => Ok(Value::Int(shift_unsigned(x, count_of(y)?))),
        IntOperator::Less => Ok(Value::Bool(x < y)),
        IntOperator::LessEqual => Ok(Value::Bool(x <= y)),
        IntOperator::Greater => Ok(Value::Bool(x > y)),
        IntOperator::GreaterEqual => Ok(Value::Bool(x >= y)),
    }
}

/// A member of int that takes any value, or none.
pub fn int_member(member: IntMember, x: i64, v: Value) -> Value
    ensures value { (texts : List Text) → value_in texts result ≡ int_member member x (value_in texts v) }
    ensures plain { IsPlain result }
{
    match member {
        IntMember::Equals => Value::Bool(is_int(x, v)),
        IntMember::Negate => Value::Int(x.wrapping_neg()),
        IntMember::Complement => Value::Int(!x),
        IntMember::IsEven => Value::Bool(x.rem_euclid(2) == 0),
        IntMember::IsOdd => Value::Bool(x.rem_euclid(2) == 1),
    }
}

fn is_int(x: i64, v: Value) -> bool
    ensures { (texts : List Text) → result ≡ is_int x (value_in texts v) }
{
    match v {
        Value::Int(y) => x == y,
        _ => false,
    }
}

fn quotient(x: i64, y: i64) -> Result<i64, Trap>
    ensures { result ≡ quotient x y }
{
    if y == 0 {
        return Err(Trap::DivideByZero);
    }
    Ok(x.wrapping_div(y))
}

fn remainder(x: i64, y: i64) -> Result<i64, Trap>
    ensures { result ≡ remainder x y }
{
    if y == 0 {
        return Err(Trap::DivideByZero);
    }
    Ok(x.wrapping_rem_euclid(y))
}

fn count_of(y: i64) -> Result<u64, Trap>
    ensures { result ≡ count_of y }
{
    if y < 0 {
        return Err(Trap::NegativeShift);
    }
    Ok(y as u64)
}

fn shift_left(x: i64, count: u64) -> i64
    ensures { result ≡ shift_left x count }
{
    if count < 64 { x << count } else { 0 }
}

/// The sign comes in.
fn shift_right(x: i64, count: u64) -> i64
    ensures { result ≡ shift_right x count }
{
    if count < 64 {
        x >> count
    } else if x < 0 {
        -1
    } else {
        0
    }
}

/// Zeros come in.
fn shift_unsigned(x: i64, count: u64) -> i64
    ensures { result ≡ shift_unsigned x count }
{
    if count < 64 {
        (x.cast_unsigned() >> count).cast_signed()
    } else {
        0
    }
}
