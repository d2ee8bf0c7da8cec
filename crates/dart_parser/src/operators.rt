//! The operators that a class may declare.

ghost use Rattle.std.specs.Prelude.{◌≡◌, map};
ghost use Rattle.dart_syntax.specs.Derivation as grammar;
ghost use Rattle.dart_syntax.specs.View as view;
ghost use Rattle.dart_expr.specs.Input.{Reads};
ghost use Rattle.dart_parser.specs.Members as spec;

use crate::params::param_items;
use dart_expr::Refusal;
use dart_expr::cursor::Cursor;
use dart_syntax::token::{Sign, Span, TokenKind};
use dart_syntax::tree::{Operator, Param};
use sqlite_items::Items;
use std::alloc::Global;

fn operator_of(sign: Sign) -> Option<Operator>
    ensures { result ≡ grammar.operator_of sign }
{
    match sign {
        Sign::Plus => Some(Operator::Add),
        Sign::Minus => Some(Operator::Subtract),
        Sign::Star => Some(Operator::Multiply),
        Sign::Divide => Some(Operator::Divide),
        Sign::Percent => Some(Operator::Remainder),
        Sign::Ampersand => Some(Operator::BitAnd),
        Sign::Bar => Some(Operator::BitOr),
        Sign::Caret => Some(Operator::BitXor),
        Sign::ShiftLeft => Some(Operator::ShiftLeft),
        Sign::ShiftRight => Some(Operator::ShiftRight),
        Sign::ShiftUnsigned => Some(Operator::ShiftUnsigned),
        Sign::Less => Some(Operator::Less),
        Sign::LessEqual => Some(Operator::LessEqual),
        Sign::Greater => Some(Operator::Greater),
        Sign::GreaterEqual => Some(Operator::GreaterEqual),
        Sign::Equal => Some(Operator::Equal),
        Sign::Tilde => Some(Operator::Complement),
        _ => None,
    }
}

/// No operator has more parameters.
fn most(operator: Operator) -> usize
    ensures { result ≡ spec.most operator }
{
    match operator {
        Operator::Set => 2,
        Operator::Complement => 0,
        _ => 1,
    }
}

/// Whether the operator may have so many parameters.
fn takes(operator: Operator, count: usize) -> bool
    ensures { result ≡ grammar.takes operator count }
{
    match operator {
        Operator::Set => count == 2,
        Operator::Complement => count == 0,
        Operator::Subtract => count == 0 || count == 1,
        _ => count == 1,
    }
}

/// After the bracket.
#[tactic(auto, unfolding(crate::specs::Members::bracketed))]
fn bracketed(tokens: &mut Cursor<'_>) -> Result<(Operator, Span), Refusal>
    ensures { Reads (λ x. x) (spec.bracketed tokens.old) result tokens.new }
{
    let at = tokens.take();
    tokens.expect(Sign::BracketClose)?;
    if tokens.eat(Sign::Assign) {
        return Ok((Operator::Set, at));
    }
    if tokens.sees(Sign::ParenOpen) {
        return Ok((Operator::Get, at));
    }
    Err(tokens.refuse())
}

#[tactic(auto, unfolding(crate::specs::Members::operator))]
pub(crate) fn operator(tokens: &mut Cursor<'_>) -> Result<(Operator, Span), Refusal>
    ensures { Reads (λ x. x) (spec.operator tokens.old) result tokens.new }
{
    match tokens.peek() {
        Some(TokenKind::Sign(Sign::BracketOpen)) => bracketed(tokens),
        Some(TokenKind::Sign(sign)) => match operator_of(*sign) {
            Some(found) => Ok((found, tokens.take())),
            None => Err(tokens.refuse()),
        },
        _ => Err(tokens.refuse()),
    }
}

/// The parameters of an operator. What is one too many is refused, and the parenthesis where one is wanting.
#[tactic(auto, unfolding(crate::specs::Members::operator_params, crate::specs::Members::counted))]
pub(crate) fn operator_params(
    alloc: Global,
    tokens: &mut Cursor<'_>,
    operator: Operator,
) -> Result<Items<Param>, Refusal>
    ensures { Reads (map view.param) (spec.operator_params operator tokens.old) result tokens.new }
{
    let found = param_items(alloc, tokens, false, most(operator))?;
    if !takes(operator, found.len()) {
        return Err(tokens.refuse());
    }
    tokens.expect(Sign::ParenClose)?;
    Ok(found)
}
