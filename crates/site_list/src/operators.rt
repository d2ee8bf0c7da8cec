//! The members that operators call.

ghost use Rattle.std.specs.Prelude.{◌≡◌};
ghost use Rattle.program.specs.Sound.{binary_name};
ghost use Rattle.dart_meaning.specs.Sites.{prefix_name};

use dart_syntax::tree::Unary;
use program::BinaryOperator;

/// The name of the member that an operator between two operands calls.
pub fn binary_name(op: BinaryOperator) -> &'static [u8]
    ensures { result.now ≡ binary_name op }
{
    match op {
        BinaryOperator::Equal | BinaryOperator::NotEqual => b"==",
        BinaryOperator::Less => b"<",
        BinaryOperator::LessEqual => b"<=",
        BinaryOperator::Greater => b">",
        BinaryOperator::GreaterEqual => b">=",
        BinaryOperator::BitOr => b"|",
        BinaryOperator::BitXor => b"^",
        BinaryOperator::BitAnd => b"&",
        BinaryOperator::ShiftLeft => b"<<",
        BinaryOperator::ShiftRight => b">>",
        BinaryOperator::ShiftUnsigned => b">>>",
        BinaryOperator::Add => b"+",
        BinaryOperator::Subtract => b"-",
        BinaryOperator::Multiply => b"*",
        BinaryOperator::Divide => b"~/",
        BinaryOperator::Remainder => b"%",
    }
}

/// The same of a sign before an operand.
pub fn prefix_name(op: Unary) -> &'static [u8]
    ensures { result.now ≡ prefix_name op }
{
    match op {
        Unary::Minus => b"unary-",
        Unary::Complement => b"~",
        Unary::Not => b"!",
    }
}
