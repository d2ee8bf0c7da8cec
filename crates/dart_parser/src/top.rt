//! Top-level declarations, and whole lists of them.

ghost use Rattle.std.specs.Prelude.{map, option_map};
ghost use Rattle.dart_syntax.specs.View as view;
ghost use Rattle.dart_expr.specs.Input.{Reads};
ghost use Rattle.dart_expr.specs.Model.{expr};
ghost use Rattle.dart_parser.specs.Statements.{stmt};
ghost use Rattle.dart_parser.specs.Tops as spec;

use crate::bodies::{LEVELS, body};
use crate::class::class;
use crate::literals::{given, value};
use crate::metas::{any, metas};
use crate::params::params;
use dart_expr::Refusal;
use dart_expr::cursor::Cursor;
use dart_expr::names::name;
use dart_syntax::token::{Keyword, Sign, TokenKind};
use dart_syntax::tree::{Function, Local, Name, Top};
use sqlite_items::Items;
use std::alloc::Global;

#[tactic(auto, unfolding(crate::specs::Tops::function))]
fn function(
    alloc: Global,
    tokens: &mut Cursor<'_>,
    is_entry: bool,
    name: Name,
) -> Result<Top, Refusal>
    ensures { Reads view.top (spec.function (stmt LEVELS) (expr LEVELS) is_entry name tokens.old) result tokens.new }
{
    let params = params(alloc, tokens, false)?;
    let body = body(alloc, tokens)?;
    Ok(Top::Function(Function {
        is_entry,
        name,
        params,
        body,
    }))
}

#[tactic(auto, unfolding(crate::specs::Tops::variable))]
fn variable(
    alloc: Global,
    tokens: &mut Cursor<'_>,
    is_final: bool,
    name: Name,
) -> Result<Top, Refusal>
    ensures { Reads view.top (spec.variable (stmt LEVELS) (expr LEVELS) is_final name tokens.old) result tokens.new }
{
    let value = value(alloc, tokens)?;
    Ok(Top::Variable(Local {
        is_final,
        name,
        value,
    }))
}

#[tactic(auto, unfolding(crate::specs::Tops::named_function))]
fn named_function(alloc: Global, tokens: &mut Cursor<'_>, is_entry: bool) -> Result<Top, Refusal>
    ensures { Reads view.top (spec.named_function (stmt LEVELS) (expr LEVELS) is_entry tokens.old) result tokens.new }
{
    let name = name(alloc, tokens)?;
    tokens.expect(Sign::ParenOpen)?;
    function(alloc, tokens, is_entry, name)
}

#[tactic(auto, unfolding(crate::specs::Tops::dynamic_top))]
fn dynamic_top(alloc: Global, tokens: &mut Cursor<'_>, is_entry: bool) -> Result<Top, Refusal>
    ensures { Reads view.top (spec.dynamic_top (stmt LEVELS) (expr LEVELS) is_entry tokens.old) result tokens.new }
{
    let name = name(alloc, tokens)?;
    if tokens.eat(Sign::ParenOpen) {
        function(alloc, tokens, is_entry, name)
    } else {
        variable(alloc, tokens, false, name)
    }
}

#[tactic(auto, unfolding(crate::specs::Tops::constant))]
fn constant(alloc: Global, tokens: &mut Cursor<'_>) -> Result<Top, Refusal>
    ensures { Reads view.top (spec.constant (stmt LEVELS) (expr LEVELS) tokens.old) result tokens.new }
{
    let name = name(alloc, tokens)?;
    tokens.expect(Sign::Assign)?;
    let x = given(alloc, tokens)?;
    Ok(Top::Variable(Local {
        is_final: true,
        name,
        value: Some(x),
    }))
}

#[tactic(auto, unfolding(crate::specs::Tops::abstract_class))]
fn abstract_class(alloc: Global, tokens: &mut Cursor<'_>) -> Result<Top, Refusal>
    ensures { Reads view.top (spec.abstract_class (stmt LEVELS) (expr LEVELS) tokens.old) result tokens.new }
{
    if !tokens.eat_keyword(Keyword::Class) {
        return Err(tokens.refuse());
    }
    Ok(Top::Class(class(alloc, tokens, true)?))
}

#[tactic(auto, unfolding(crate::specs::Tops::declared))]
fn declared(alloc: Global, tokens: &mut Cursor<'_>, is_entry: bool) -> Result<Top, Refusal>
    ensures { Reads view.top (spec.declared (stmt LEVELS) (expr LEVELS) is_entry tokens.old) result tokens.new }
{
    match tokens.peek() {
        Some(TokenKind::Keyword(Keyword::Class)) => {
            tokens.skip();
            Ok(Top::Class(class(alloc, tokens, false)?))
        }
        Some(TokenKind::Keyword(Keyword::Abstract)) => {
            tokens.skip();
            abstract_class(alloc, tokens)
        }
        Some(TokenKind::Keyword(Keyword::Var)) => {
            tokens.skip();
            let name = name(alloc, tokens)?;
            variable(alloc, tokens, false, name)
        }
        Some(TokenKind::Keyword(Keyword::Dynamic)) => {
            tokens.skip();
            dynamic_top(alloc, tokens, is_entry)
        }
        Some(TokenKind::Keyword(Keyword::Final)) => {
            tokens.skip();
            constant(alloc, tokens)
        }
        Some(TokenKind::Keyword(Keyword::Void)) => {
            tokens.skip();
            named_function(alloc, tokens, is_entry)
        }
        _ => named_function(alloc, tokens, is_entry),
    }
}

#[tactic(auto, unfolding(crate::specs::Tops::top))]
fn top(alloc: Global, tokens: &mut Cursor<'_>) -> Result<Top, Refusal>
    ensures { Reads view.top (spec.top (stmt LEVELS) (expr LEVELS) tokens.old) result tokens.new }
{
    let metas = metas(alloc, tokens)?;
    declared(alloc, tokens, any(metas.as_slice()))
}

#[tactic(auto, unfolding(crate::specs::Tops::top_item))]
fn top_item(alloc: Global, tokens: &mut Cursor<'_>) -> Result<Option<Top>, Refusal>
    ensures { Reads (option_map view.top) (spec.top_item (stmt LEVELS) (expr LEVELS) tokens.old) result tokens.new }
{
    if tokens.is_end() {
        return Ok(None);
    }
    Ok(Some(top(alloc, tokens)?))
}

#[tactic(auto, unfolding(crate::specs::Tops::tops))]
fn tops(alloc: Global, tokens: &mut Cursor<'_>) -> Result<Items<Top>, Refusal>
    ensures { Reads (map view.top) (spec.tops (stmt LEVELS) (expr LEVELS) tokens.old) result tokens.new }
{
    let mut found = Items::new(alloc);
    for _turn in 0..tokens.left() {
        match top_item(alloc, tokens)? {
            Some(x) => found.push(x)?,
            None => return Ok(found),
        }
    }
    Ok(found)
}

#[tactic(auto, unfolding(crate::specs::Tops::whole_unit, crate::specs::Statements::is_last))]
pub(crate) fn whole_unit(alloc: Global, tokens: &mut Cursor<'_>) -> Result<Items<Top>, Refusal>
    ensures { Reads (map view.top) (spec.whole_unit (stmt LEVELS) (expr LEVELS) tokens.old) result tokens.new }
{
    let found = tops(alloc, tokens)?;
    if !(tokens.is_end() && tokens.left() == 1) {
        return Err(tokens.refuse());
    }
    tokens.skip();
    Ok(found)
}
