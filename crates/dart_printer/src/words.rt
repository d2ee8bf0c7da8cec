//! Tokens, each with a space behind it.

ghost use Rattle.std.specs.Prelude.{◌≡◌, ◌++◌, ◌<◌, OnOk};
ghost use Rattle.dart_syntax.specs.Text as text;
ghost use Rattle.dart_syntax.specs.Text.{word, int_text, unit_text, units_text};

use dart_syntax::tree::{Assignment, Binary, Operator, Step, Unary};
use std::alloc::{AllocError, Global};

pub fn put(out: &mut Vec<u8>, token: &[u8]) -> Result<(), AllocError>
    ensures { OnOk result (out.new.items ≡ out.old.items ++ word token.now) }
{
    out.extend_from_slice(token)?;
    out.push(b' ')?;
    Ok(())
}

pub fn put_int(alloc: Global, out: &mut Vec<u8>, n: i64) -> Result<(), AllocError>
    ensures { OnOk result (out.new.items ≡ out.old.items ++ word (int_text n)) }
{
    if n < 0 {
        let bits = u64::MAX - (n.unsigned_abs() - 1);
        let digits = format!(in alloc; "{bits:X}")?;
        out.extend_from_slice(b"0x")?;
        put(out, digits.as_bytes())
    } else {
        let digits = n.to_string(alloc)?;
        put(out, digits.as_bytes())
    }
}

/// A hexadecimal digit.
fn digit(d: u8) -> u8
    requires { d < 16 }
    ensures { result ≡ text.digit d }
{
    if d < 10 { b'0' + d } else { b'A' + (d - 10) }
}

fn is_plain(unit: u16) -> bool
    ensures { result ≡ text.is_plain unit }
{
    32 <= unit && unit <= 126 && unit != 36 && unit != 39 && unit != 92
}

fn put_unit(out: &mut Vec<u8>, unit: u16) -> Result<(), AllocError>
    ensures { OnOk result (out.new.items ≡ out.old.items ++ unit_text unit) }
{
    if is_plain(unit) {
        out.push(unit as u8)?;
        return Ok(());
    }
    out.extend_from_slice(b"\\u")?;
    out.push(digit((unit / 4096 % 16) as u8))?;
    out.push(digit((unit / 256 % 16) as u8))?;
    out.push(digit((unit / 16 % 16) as u8))?;
    out.push(digit((unit % 16) as u8))?;
    Ok(())
}

fn put_units(out: &mut Vec<u8>, units: &[u16]) -> Result<(), AllocError>
    ensures { OnOk result (out.new.items ≡ out.old.items ++ units_text units.now) }
{
    for unit in units {
        put_unit(out, *unit)?;
    }
    Ok(())
}

/// A piece of a string between its opening and its closing.
pub fn put_piece(
    out: &mut Vec<u8>,
    opening: &[u8],
    units: &[u16],
    closing: &[u8],
) -> Result<(), AllocError>
    ensures { OnOk result (out.new.items ≡ out.old.items ++ word (opening.now ++ (units_text units.now ++ closing.now))) }
{
    out.extend_from_slice(opening)?;
    put_units(out, units)?;
    put(out, closing)
}

pub fn put_unary(out: &mut Vec<u8>, operator: Unary) -> Result<(), AllocError>
    ensures { OnOk result (out.new.items ≡ out.old.items ++ word (text.unary_text operator)) }
{
    match operator {
        Unary::Minus => put(out, b"-"),
        Unary::Not => put(out, b"!"),
        Unary::Complement => put(out, b"~"),
    }
}

pub fn put_step(out: &mut Vec<u8>, step: Step) -> Result<(), AllocError>
    ensures { OnOk result (out.new.items ≡ out.old.items ++ word (text.step_text step)) }
{
    match step {
        Step::Increment => put(out, b"++"),
        Step::Decrement => put(out, b"--"),
    }
}

pub fn put_binary(out: &mut Vec<u8>, operator: Binary) -> Result<(), AllocError>
    ensures { OnOk result (out.new.items ≡ out.old.items ++ word (text.binary_text operator)) }
{
    match operator {
        Binary::Or => put(out, b"||"),
        Binary::And => put(out, b"&&"),
        Binary::Equal => put(out, b"=="),
        Binary::NotEqual => put(out, b"!="),
        Binary::Less => put(out, b"<"),
        Binary::LessEqual => put(out, b"<="),
        Binary::Greater => put(out, b">"),
        Binary::GreaterEqual => put(out, b">="),
        Binary::BitOr => put(out, b"|"),
        Binary::BitXor => put(out, b"^"),
        Binary::BitAnd => put(out, b"&"),
        Binary::ShiftLeft => put(out, b"<<"),
        Binary::ShiftRight => put(out, b">>"),
        Binary::ShiftUnsigned => put(out, b">>>"),
        Binary::Add => put(out, b"+"),
        Binary::Subtract => put(out, b"-"),
        Binary::Multiply => put(out, b"*"),
        Binary::Divide => put(out, b"~/"),
        Binary::Remainder => put(out, b"%"),
    }
}

pub fn put_assignment(out: &mut Vec<u8>, operator: Assignment) -> Result<(), AllocError>
    ensures { OnOk result (out.new.items ≡ out.old.items ++ word (text.assignment_text operator)) }
{
    match operator {
        Assignment::Plain => put(out, b"="),
        Assignment::Add => put(out, b"+="),
        Assignment::Subtract => put(out, b"-="),
        Assignment::Multiply => put(out, b"*="),
        Assignment::Divide => put(out, b"~/="),
        Assignment::Remainder => put(out, b"%="),
        Assignment::BitAnd => put(out, b"&="),
        Assignment::BitOr => put(out, b"|="),
        Assignment::BitXor => put(out, b"^="),
        Assignment::ShiftLeft => put(out, b"<<="),
        Assignment::ShiftRight => put(out, b">>="),
        Assignment::ShiftUnsigned => put(out, b">>>="),
    }
}

pub fn put_operator(out: &mut Vec<u8>, operator: Operator) -> Result<(), AllocError>
    ensures { OnOk result (out.new.items ≡ out.old.items ++ text.operator_text operator) }
{
    match operator {
        Operator::Add => put(out, b"+"),
        Operator::Subtract => put(out, b"-"),
        Operator::Multiply => put(out, b"*"),
        Operator::Divide => put(out, b"~/"),
        Operator::Remainder => put(out, b"%"),
        Operator::BitAnd => put(out, b"&"),
        Operator::BitOr => put(out, b"|"),
        Operator::BitXor => put(out, b"^"),
        Operator::ShiftLeft => put(out, b"<<"),
        Operator::ShiftRight => put(out, b">>"),
        Operator::ShiftUnsigned => put(out, b">>>"),
        Operator::Less => put(out, b"<"),
        Operator::LessEqual => put(out, b"<="),
        Operator::Greater => put(out, b">"),
        Operator::GreaterEqual => put(out, b">="),
        Operator::Equal => put(out, b"=="),
        Operator::Complement => put(out, b"~"),
        Operator::Get => {
            put(out, b"[")?;
            put(out, b"]")
        }
        Operator::Set => {
            put(out, b"[")?;
            put(out, b"]")?;
            put(out, b"=")
        }
    }
}
