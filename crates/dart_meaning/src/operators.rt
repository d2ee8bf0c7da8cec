//! Operators of a tree as numbered programs write them, and a minus that is part of a number.

ghost use Rattle.std.specs.Prelude.{◌≡◌, map, neg_ℤ};
ghost use Rattle.dart_syntax.specs.declared.tree.Unary.TheVariants as unary;
ghost use Rattle.dart_syntax.specs.View.{exp, param};
ghost use Rattle.program.specs.declared.literal.Literal.TheVariants as literal;
ghost use Rattle.dart_values.specs.Numbers.{wrap};
ghost use Rattle.dart_meaning.specs.Literals as literals;
ghost use Rattle.dart_meaning.specs.Operators as by;

use dart_syntax::tree::{Assignment, Binary, Expr, Operator, Param, Step, Unary};
use program::{BinaryOperator, Literal};

/// The operator that a sign between two operands calls; `&&` and `||` call none.
pub fn operator_of(sign: Binary) -> Option<BinaryOperator>
    ensures { result ≡ by.operator_of sign }
{
    match sign {
        Binary::Or => None,
        Binary::And => None,
        Binary::Equal => Some(BinaryOperator::Equal),
        Binary::NotEqual => Some(BinaryOperator::NotEqual),
        Binary::Less => Some(BinaryOperator::Less),
        Binary::LessEqual => Some(BinaryOperator::LessEqual),
        Binary::Greater => Some(BinaryOperator::Greater),
        Binary::GreaterEqual => Some(BinaryOperator::GreaterEqual),
        Binary::BitOr => Some(BinaryOperator::BitOr),
        Binary::BitXor => Some(BinaryOperator::BitXor),
        Binary::BitAnd => Some(BinaryOperator::BitAnd),
        Binary::ShiftLeft => Some(BinaryOperator::ShiftLeft),
        Binary::ShiftRight => Some(BinaryOperator::ShiftRight),
        Binary::ShiftUnsigned => Some(BinaryOperator::ShiftUnsigned),
        Binary::Add => Some(BinaryOperator::Add),
        Binary::Subtract => Some(BinaryOperator::Subtract),
        Binary::Multiply => Some(BinaryOperator::Multiply),
        Binary::Divide => Some(BinaryOperator::Divide),
        Binary::Remainder => Some(BinaryOperator::Remainder),
    }
}

/// The operator of `+=` and its like.
pub fn compound(sign: Assignment) -> Option<BinaryOperator>
    ensures { result ≡ by.compound sign }
{
    match sign {
        Assignment::Plain => None,
        Assignment::Add => Some(BinaryOperator::Add),
        Assignment::Subtract => Some(BinaryOperator::Subtract),
        Assignment::Multiply => Some(BinaryOperator::Multiply),
        Assignment::Divide => Some(BinaryOperator::Divide),
        Assignment::Remainder => Some(BinaryOperator::Remainder),
        Assignment::BitAnd => Some(BinaryOperator::BitAnd),
        Assignment::BitOr => Some(BinaryOperator::BitOr),
        Assignment::BitXor => Some(BinaryOperator::BitXor),
        Assignment::ShiftLeft => Some(BinaryOperator::ShiftLeft),
        Assignment::ShiftRight => Some(BinaryOperator::ShiftRight),
        Assignment::ShiftUnsigned => Some(BinaryOperator::ShiftUnsigned),
    }
}

/// That of `++` and `--`.
pub fn step_operator(sign: Step) -> BinaryOperator
    ensures { result ≡ by.step_operator sign }
{
    match sign {
        Step::Increment => BinaryOperator::Add,
        Step::Decrement => BinaryOperator::Subtract,
    }
}

/// A minus that is declared without parameters has a name of its own.
fn minus_name(params: &[Param]) -> &'static [u8]
    ensures { result.now ≡ by.minus_name (map param params.now) }
{
    match params {
        [] => b"unary-",
        [_, ..] => b"-",
    }
}

/// The name of a declared operator.
pub fn operator_name(sign: Operator, params: &[Param]) -> &'static [u8]
    ensures { result.now ≡ by.operator_name sign (map param params.now) }
{
    match sign {
        Operator::Subtract => minus_name(params),
        Operator::Add => b"+",
        Operator::Multiply => b"*",
        Operator::Divide => b"~/",
        Operator::Remainder => b"%",
        Operator::BitAnd => b"&",
        Operator::BitOr => b"|",
        Operator::BitXor => b"^",
        Operator::ShiftLeft => b"<<",
        Operator::ShiftRight => b">>",
        Operator::ShiftUnsigned => b">>>",
        Operator::Less => b"<",
        Operator::LessEqual => b"<=",
        Operator::Greater => b">",
        Operator::GreaterEqual => b">=",
        Operator::Equal => b"==",
        Operator::Complement => b"~",
        Operator::Get => b"[]",
        Operator::Set => b"[]=",
    }
}

/// A number with its minus, wrapped to 64 bits.
fn minus(n: i64) -> Literal
    ensures { result ≡ literal.Int (wrap (neg_ℤ n)) }
{
    Literal::Int(n.wrapping_neg())
}

/// A number directly behind a minus, as the number with it.
fn number_below(x: &Expr) -> Option<Literal>
    ensures { result ≡ literals.negated unary.Minus (exp x.now) }
{
    match x {
        Expr::Int(n, _) => Some(minus(*n)),
        Expr::MinInt(_) => Some(Literal::Int(i64::MIN)),
        Expr::Null(_)
        | Expr::Bool(_, _)
        | Expr::This(_)
        | Expr::Str(_, _)
        | Expr::Joined(_, _, _)
        | Expr::Name(_)
        | Expr::Call(_, _)
        | Expr::SuperGet(_, _)
        | Expr::SuperCall(_, _, _)
        | Expr::Paren(_)
        | Expr::List(_, _)
        | Expr::Postfix(_, _)
        | Expr::Step(_, _, _, _)
        | Expr::Unary(_, _, _)
        | Expr::Chain(_, _)
        | Expr::Is(_, _, _, _)
        | Expr::Cond(_, _, _)
        | Expr::Assign(_, _, _, _)
        | Expr::Throw(_, _) => None,
    }
}

/// A minus directly before a number, as the number.
pub fn negated(sign: Unary, x: &Expr) -> Option<Literal>
    ensures { result ≡ literals.negated sign (exp x.now) }
{
    match sign {
        Unary::Minus => number_below(x),
        Unary::Not | Unary::Complement => None,
    }
}
