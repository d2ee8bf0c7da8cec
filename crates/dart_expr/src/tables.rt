//! The signs that are operators of expressions.

ghost use Rattle.std.specs.Prelude.{◌≡◌};
ghost use Rattle.std.specs.Option.{option_copied};
ghost use Rattle.dart_syntax.specs.Operators as words;
ghost use Rattle.dart_syntax.specs.Grammar.{repeats};
ghost use Rattle.dart_expr.specs.Model as spec;

use crate::cursor::Cursor;
use dart_syntax::token::{Sign, TokenKind};
use dart_syntax::tree::{Assignment, Binary, Step, Unary};

fn unary_of(sign: Sign) -> Option<Unary>
    ensures { result ≡ words.unary_of sign }
{
    match sign {
        Sign::Minus => Some(Unary::Minus),
        Sign::Not => Some(Unary::Not),
        Sign::Tilde => Some(Unary::Complement),
        _ => None,
    }
}

/// Whether the sign may stand before the token.
pub(crate) fn may_precede(op: Unary, next: Option<&TokenKind>) -> bool
    ensures { result ≡ words.may_precede op (option_copied next.entry) }
{
    match next {
        Some(TokenKind::MinInt) => is_minus(op),
        _ => true,
    }
}

fn is_minus(op: Unary) -> bool
    ensures { result ≡ words.is_minus op }
{
    match op {
        Unary::Minus => true,
        Unary::Not | Unary::Complement => false,
    }
}

fn step_of(sign: Sign) -> Option<Step>
    ensures { result ≡ words.step_of sign }
{
    match sign {
        Sign::Increment => Some(Step::Increment),
        Sign::Decrement => Some(Step::Decrement),
        _ => None,
    }
}

fn assignment_of(sign: Sign) -> Option<Assignment>
    ensures { result ≡ words.assignment_of sign }
{
    match sign {
        Sign::Assign => Some(Assignment::Plain),
        Sign::PlusAssign => Some(Assignment::Add),
        Sign::MinusAssign => Some(Assignment::Subtract),
        Sign::StarAssign => Some(Assignment::Multiply),
        Sign::DivideAssign => Some(Assignment::Divide),
        Sign::PercentAssign => Some(Assignment::Remainder),
        Sign::AmpersandAssign => Some(Assignment::BitAnd),
        Sign::BarAssign => Some(Assignment::BitOr),
        Sign::CaretAssign => Some(Assignment::BitXor),
        Sign::ShiftLeftAssign => Some(Assignment::ShiftLeft),
        Sign::ShiftRightAssign => Some(Assignment::ShiftRight),
        Sign::ShiftUnsignedAssign => Some(Assignment::ShiftUnsigned),
        _ => None,
    }
}

fn binary_of(sign: Sign) -> Option<Binary>
    ensures { result ≡ words.binary_of sign }
{
    match sign {
        Sign::Or => Some(Binary::Or),
        Sign::And => Some(Binary::And),
        Sign::Equal => Some(Binary::Equal),
        Sign::NotEqual => Some(Binary::NotEqual),
        Sign::Less => Some(Binary::Less),
        Sign::LessEqual => Some(Binary::LessEqual),
        Sign::Greater => Some(Binary::Greater),
        Sign::GreaterEqual => Some(Binary::GreaterEqual),
        Sign::ShiftLeft => Some(Binary::ShiftLeft),
        Sign::ShiftRight => Some(Binary::ShiftRight),
        Sign::ShiftUnsigned => Some(Binary::ShiftUnsigned),
        Sign::Ampersand => Some(Binary::BitAnd),
        Sign::Bar => Some(Binary::BitOr),
        Sign::Caret => Some(Binary::BitXor),
        Sign::Plus => Some(Binary::Add),
        Sign::Minus => Some(Binary::Subtract),
        Sign::Star => Some(Binary::Multiply),
        Sign::Divide => Some(Binary::Divide),
        Sign::Percent => Some(Binary::Remainder),
        _ => None,
    }
}

fn level(op: Binary) -> u8
    ensures { result ≡ words.level op }
{
    match op {
        Binary::Multiply | Binary::Divide | Binary::Remainder => 1,
        Binary::Add | Binary::Subtract => 2,
        Binary::ShiftLeft | Binary::ShiftRight | Binary::ShiftUnsigned => 3,
        Binary::BitAnd => 4,
        Binary::BitXor => 5,
        Binary::BitOr => 6,
        Binary::Less | Binary::LessEqual | Binary::Greater | Binary::GreaterEqual => 7,
        Binary::Equal | Binary::NotEqual => 8,
        Binary::And => 9,
        Binary::Or => 10,
    }
}

fn repeats(level: u8) -> bool
    ensures { result ≡ repeats level }
{
    level != 7 && level != 8
}

/// The operator that the next token is.
pub(crate) fn unary_at(next: Option<&TokenKind>) -> Option<Unary>
    ensures { result ≡ spec.unary_at (option_copied next.entry) }
{
    match next {
        Some(TokenKind::Sign(sign)) => unary_of(*sign),
        _ => None,
    }
}

pub(crate) fn step_at(next: Option<&TokenKind>) -> Option<Step>
    ensures { result ≡ spec.step_at (option_copied next.entry) }
{
    match next {
        Some(TokenKind::Sign(sign)) => step_of(*sign),
        _ => None,
    }
}

pub(crate) fn assignment_at(next: Option<&TokenKind>) -> Option<Assignment>
    ensures { result ≡ spec.assignment_at (option_copied next.entry) }
{
    match next {
        Some(TokenKind::Sign(sign)) => assignment_of(*sign),
        _ => None,
    }
}

pub(crate) fn binary_at(n: u8, next: Option<&TokenKind>) -> Option<Binary>
    ensures { result ≡ spec.binary_at n (option_copied next.entry) }
{
    match next {
        Some(TokenKind::Sign(sign)) => {
            let op = binary_of(*sign)?;
            if level(op) == n { Some(op) } else { None }
        }
        _ => None,
    }
}

/// How many operators the level may have here.
pub(crate) fn turns(tokens: &Cursor<'_>, level: u8) -> usize
    ensures { result ≡ spec.turns level tokens.now }
{
    if repeats(level) { tokens.left() } else { 1 }
}
