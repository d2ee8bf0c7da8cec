//! The literals that fields and top-level variables begin with.

ghost use Rattle.std.specs.Prelude.{option_map};
ghost use Rattle.dart_syntax.specs.View.{exp};
ghost use Rattle.dart_expr.specs.Input.{Reads};
ghost use Rattle.dart_parser.specs.Members as spec;

use dart_expr::Refusal;
use dart_expr::cursor::Cursor;
use dart_expr::names::copied_units;
use dart_syntax::token::{Keyword, Sign, TokenKind};
use dart_syntax::tree::{Expr, Unary};
use ds_base::let_go;
use sqlite_items::Boxed;
use std::alloc::Global;

#[tactic(auto, unfolding(crate::specs::Members::minus))]
fn minus(alloc: Global, tokens: &mut Cursor<'_>) -> Result<Expr, Refusal>
    ensures { Reads exp (spec.minus tokens.old) result tokens.new }
{
    let at = tokens.take();
    let operand = match tokens.peek() {
        Some(TokenKind::Int(n)) => Expr::Int(*n, tokens.take()),
        Some(TokenKind::MinInt) => Expr::MinInt(tokens.take()),
        _ => return Err(tokens.refuse()),
    };
    Ok(Expr::Unary(Unary::Minus, at, Boxed::new(alloc, operand)?))
}

#[tactic(auto, unfolding(crate::specs::Members::literal))]
fn literal(alloc: Global, tokens: &mut Cursor<'_>) -> Result<Expr, Refusal>
    ensures { Reads exp (spec.literal tokens.old) result tokens.new }
{
    match tokens.peek() {
        Some(TokenKind::Keyword(Keyword::Null)) => Ok(Expr::Null(tokens.take())),
        Some(TokenKind::Keyword(Keyword::True)) => Ok(Expr::Bool(true, tokens.take())),
        Some(TokenKind::Keyword(Keyword::False)) => Ok(Expr::Bool(false, tokens.take())),
        Some(TokenKind::Int(n)) => Ok(Expr::Int(*n, tokens.take())),
        Some(TokenKind::Str(units)) => {
            let units = copied_units(alloc, units)?;
            Ok(Expr::Str(units, tokens.take()))
        }
        Some(TokenKind::Sign(Sign::Minus)) => minus(alloc, tokens),
        _ => Err(tokens.refuse()),
    }
}

#[tactic(auto, unfolding(crate::specs::Members::given))]
pub(crate) fn given(alloc: Global, tokens: &mut Cursor<'_>) -> Result<Expr, Refusal>
    ensures { Reads exp (spec.given tokens.old) result tokens.new }
{
    let x = literal(alloc, tokens)?;
    match tokens.expect(Sign::Semicolon) {
        Ok(_) => Ok(x),
        Err(refusal) => {
            let_go(x);
            Err(refusal)
        }
    }
}

#[tactic(auto, unfolding(crate::specs::Members::value))]
pub(crate) fn value(alloc: Global, tokens: &mut Cursor<'_>) -> Result<Option<Expr>, Refusal>
    ensures { Reads (option_map exp) (spec.value tokens.old) result tokens.new }
{
    if tokens.eat(Sign::Semicolon) {
        return Ok(None);
    }
    tokens.expect(Sign::Assign)?;
    Ok(Some(given(alloc, tokens)?))
}
