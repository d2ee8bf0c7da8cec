//! Members of classes.

ghost use Rattle.std.specs.Prelude.{◌≡◌, option_map};
ghost use Rattle.dart_syntax.specs.View as view;
ghost use Rattle.dart_expr.specs.Input.{Reads};
ghost use Rattle.dart_expr.specs.Model.{expr};
ghost use Rattle.dart_parser.specs.Statements.{stmt};
ghost use Rattle.dart_parser.specs.Members as spec;

use crate::bodies::{LEVELS, some_block, some_body};
use crate::literals::value;
use crate::operators::{operator, operator_params};
use crate::params::{param, params};
use dart_expr::Refusal;
use dart_expr::cursor::Cursor;
use dart_expr::grammar::args;
use dart_expr::names::name;
use dart_syntax::same::same_text;
use dart_syntax::token::{Keyword, Sign, TokenKind};
use dart_syntax::tree::{Local, Member, Name, Passed};
use std::alloc::Global;

#[tactic(auto, unfolding(crate::specs::Members::method))]
fn method(alloc: Global, tokens: &mut Cursor<'_>, name: Name) -> Result<Member, Refusal>
    ensures { Reads view.member (spec.method (stmt LEVELS) (expr LEVELS) name tokens.old) result tokens.new }
{
    let params = params(alloc, tokens, false)?;
    Ok(Member::Method(name, params, some_body(alloc, tokens)?))
}

#[tactic(auto, unfolding(crate::specs::Members::passed))]
fn passed(alloc: Global, tokens: &mut Cursor<'_>) -> Result<Option<Passed>, Refusal>
    ensures { Reads (option_map view.passed) (spec.passed (stmt LEVELS) (expr LEVELS) tokens.old) result tokens.new }
{
    if !tokens.eat(Sign::Colon) {
        return Ok(None);
    }
    let span = tokens.span();
    if !tokens.eat_keyword(Keyword::Super) {
        return Err(tokens.refuse());
    }
    tokens.expect(Sign::ParenOpen)?;
    let args = args(alloc, tokens, LEVELS, Sign::ParenClose)?;
    Ok(Some(Passed { span, args }))
}

#[tactic(auto, unfolding(crate::specs::Members::constructor))]
fn constructor(alloc: Global, tokens: &mut Cursor<'_>, name: Name) -> Result<Member, Refusal>
    ensures { Reads view.member (spec.constructor (stmt LEVELS) (expr LEVELS) name tokens.old) result tokens.new }
{
    let params = params(alloc, tokens, true)?;
    let passed = passed(alloc, tokens)?;
    Ok(Member::Constructor(name, params, passed, some_block(alloc, tokens)?))
}

#[tactic(auto, unfolding(crate::specs::Members::getter))]
fn getter(alloc: Global, tokens: &mut Cursor<'_>) -> Result<Member, Refusal>
    ensures { Reads view.member (spec.getter (stmt LEVELS) (expr LEVELS) tokens.old) result tokens.new }
{
    tokens.skip();
    let name = name(alloc, tokens)?;
    Ok(Member::Getter(name, some_body(alloc, tokens)?))
}

#[tactic(auto, unfolding(crate::specs::Members::setter))]
fn setter(alloc: Global, tokens: &mut Cursor<'_>) -> Result<Member, Refusal>
    ensures { Reads view.member (spec.setter (stmt LEVELS) (expr LEVELS) tokens.old) result tokens.new }
{
    tokens.skip();
    let name = name(alloc, tokens)?;
    tokens.expect(Sign::ParenOpen)?;
    let param = param(alloc, tokens, false)?;
    tokens.expect(Sign::ParenClose)?;
    Ok(Member::Setter(name, param, some_body(alloc, tokens)?))
}

#[tactic(auto, unfolding(crate::specs::Members::operator_member))]
fn operator_member(alloc: Global, tokens: &mut Cursor<'_>) -> Result<Member, Refusal>
    ensures { Reads view.member (spec.operator_member (stmt LEVELS) (expr LEVELS) tokens.old) result tokens.new }
{
    tokens.skip();
    let (operator, at) = operator(tokens)?;
    tokens.expect(Sign::ParenOpen)?;
    let params = operator_params(alloc, tokens, operator)?;
    Ok(Member::Operator(operator, at, params, some_body(alloc, tokens)?))
}

#[tactic(auto, unfolding(crate::specs::Members::field))]
fn field(
    alloc: Global,
    tokens: &mut Cursor<'_>,
    is_final: bool,
    name: Name,
) -> Result<Member, Refusal>
    ensures { Reads view.member (spec.field (stmt LEVELS) (expr LEVELS) is_final name tokens.old) result tokens.new }
{
    let value = value(alloc, tokens)?;
    Ok(Member::Field(Local {
        is_final,
        name,
        value,
    }))
}

#[tactic(auto, unfolding(crate::specs::Members::function_member))]
fn function_member(
    alloc: Global,
    tokens: &mut Cursor<'_>,
    class: &[u8],
    typed: bool,
) -> Result<Member, Refusal>
    ensures { Reads view.member (spec.function_member (stmt LEVELS) (expr LEVELS) class.now typed tokens.old) result tokens.new }
{
    let name = name(alloc, tokens)?;
    tokens.expect(Sign::ParenOpen)?;
    if !typed && same_text(name.text.as_slice(), class) {
        constructor(alloc, tokens, name)
    } else {
        method(alloc, tokens, name)
    }
}

#[tactic(auto, unfolding(crate::specs::Members::plain))]
fn plain(
    alloc: Global,
    tokens: &mut Cursor<'_>,
    class: &[u8],
    typed: bool,
) -> Result<Member, Refusal>
    ensures { Reads view.member (spec.plain (stmt LEVELS) (expr LEVELS) class.now typed tokens.old) result tokens.new }
{
    match tokens.peek() {
        Some(TokenKind::Keyword(Keyword::Get)) => getter(alloc, tokens),
        Some(TokenKind::Keyword(Keyword::Set)) => setter(alloc, tokens),
        Some(TokenKind::Keyword(Keyword::Operator)) => operator_member(alloc, tokens),
        _ => function_member(alloc, tokens, class, typed),
    }
}

#[tactic(auto, unfolding(crate::specs::Members::named_member))]
fn named_member(alloc: Global, tokens: &mut Cursor<'_>, name: Name) -> Result<Member, Refusal>
    ensures { Reads view.member (spec.named_member (stmt LEVELS) (expr LEVELS) name tokens.old) result tokens.new }
{
    if tokens.eat(Sign::ParenOpen) {
        method(alloc, tokens, name)
    } else {
        field(alloc, tokens, false, name)
    }
}

#[tactic(auto, unfolding(crate::specs::Members::dynamic))]
fn dynamic(alloc: Global, tokens: &mut Cursor<'_>, class: &[u8]) -> Result<Member, Refusal>
    ensures { Reads view.member (spec.dynamic (stmt LEVELS) (expr LEVELS) class.now tokens.old) result tokens.new }
{
    match tokens.peek() {
        Some(TokenKind::Name(_)) => {
            let name = name(alloc, tokens)?;
            named_member(alloc, tokens, name)
        }
        _ => plain(alloc, tokens, class, true),
    }
}

#[tactic(auto, unfolding(crate::specs::Members::member))]
pub(crate) fn member(
    alloc: Global,
    tokens: &mut Cursor<'_>,
    class: &[u8],
) -> Result<Member, Refusal>
    ensures { Reads view.member (spec.member (stmt LEVELS) (expr LEVELS) class.now tokens.old) result tokens.new }
{
    match tokens.peek() {
        Some(TokenKind::Keyword(Keyword::Var)) => {
            tokens.skip();
            let name = name(alloc, tokens)?;
            field(alloc, tokens, false, name)
        }
        Some(TokenKind::Keyword(Keyword::Final)) => {
            tokens.skip();
            let name = name(alloc, tokens)?;
            field(alloc, tokens, true, name)
        }
        Some(TokenKind::Keyword(Keyword::Dynamic)) => {
            tokens.skip();
            dynamic(alloc, tokens, class)
        }
        Some(TokenKind::Keyword(Keyword::Void)) => {
            tokens.skip();
            plain(alloc, tokens, class, true)
        }
        _ => plain(alloc, tokens, class, false),
    }
}
