//! The values of literals.

ghost use Rattle.std.specs.Prelude.{◌≡◌, IfOk, option_map, unwrap_or};
ghost use Rattle.dart_syntax.specs.View.{exp};
ghost use Rattle.dart_values.specs.Values.{null, text};
ghost use Rattle.dart_meaning.specs.Literals as literals;
ghost use Rattle.dart_meaning.specs.Literals.{literal};

use dart_meaning::operators::negated;
use dart_syntax::token::Units;
use dart_syntax::tree::Expr;
use ds_base::NoMemory;
use program::Literal;
use sqlite_items::Items;
use std::alloc::Global;

/// A number with its minus; null where there is none.
fn or_null(k: Option<Literal>) -> Literal
    ensures { literal result ≡ unwrap_or (option_map literal k) null }
{
    match k {
        Some(k) => k,
        None => Literal::Null,
    }
}

fn string(alloc: Global, units: &Units) -> Result<Literal, NoMemory>
    ensures { IfOk result (λ k. literal k ≡ text units.now) }
{
    Ok(Literal::Str(Items::from_slice(alloc, units.as_slice())?))
}

/// A literal; null for any other expression.
pub fn literal(alloc: Global, e: &Expr) -> Result<Literal, NoMemory>
    ensures { IfOk result (λ k. literal k ≡ literals.literal_value (exp e.now)) }
{
    match e {
        Expr::Bool(x, _) => Ok(Literal::Bool(*x)),
        Expr::Int(n, _) => Ok(Literal::Int(*n)),
        Expr::Str(units, _) => string(alloc, units),
        Expr::Unary(op, _, x) => Ok(or_null(negated(*op, x.get()))),
        Expr::Null(_)
        | Expr::MinInt(_)
        | Expr::This(_)
        | Expr::Joined(_, _, _)
        | Expr::Name(_)
        | Expr::Call(_, _)
        | Expr::SuperGet(_, _)
        | Expr::SuperCall(_, _, _)
        | Expr::Paren(_)
        | Expr::List(_, _)
        | Expr::Postfix(_, _)
        | Expr::Step(_, _, _, _)
        | Expr::Chain(_, _)
        | Expr::Is(_, _, _, _)
        | Expr::Cond(_, _, _)
        | Expr::Assign(_, _, _, _)
        | Expr::Throw(_, _) => Ok(Literal::Null),
    }
}

/// The same where there may be none.
pub fn literal_or_null(alloc: Global, e: &Option<Expr>) -> Result<Literal, NoMemory>
    ensures { IfOk result (λ k. literal k ≡ literals.literal_or_null (option_map exp e.now)) }
{
    match e {
        Some(e) => literal(alloc, e),
        None => Ok(Literal::Null),
    }
}
