//! Bodies of functions and members.

ghost use Rattle.std.specs.Prelude.{map, option_map};
ghost use Rattle.dart_syntax.specs.View.{sta};
ghost use Rattle.dart_syntax.specs.View as view;
ghost use Rattle.dart_expr.specs.Input.{Reads, sees};
ghost use Rattle.dart_expr.specs.Model.{expr};
ghost use Rattle.dart_parser.specs.Statements.{stmt};
ghost use Rattle.dart_parser.specs.Statements as items;
ghost use Rattle.dart_parser.specs.Members as spec;

use crate::statement::stmt;
use dart_expr::Refusal;
use dart_expr::cursor::Cursor;
use dart_expr::grammar::expr;
use dart_syntax::token::Sign;
use dart_syntax::tree::{Body, Stmt};
use ds_base::let_go;
use sqlite_items::Items;
use std::alloc::Global;

/// How many levels statements and expressions may nest.
pub const LEVELS: usize = 200;

/// A statement, unless the closing brace comes.
#[tactic(auto, unfolding(crate::specs::Statements::item))]
fn item(alloc: Global, tokens: &mut Cursor<'_>) -> Result<Option<Stmt>, Refusal>
    ensures { Reads (option_map sta) (items.item (sees Sign.BraceClose) (stmt LEVELS) tokens.old) result tokens.new }
{
    if tokens.sees(Sign::BraceClose) {
        return Ok(None);
    }
    Ok(Some(stmt(alloc, tokens, LEVELS)?))
}

#[tactic(auto, unfolding(crate::specs::Members::statements))]
fn statements(alloc: Global, tokens: &mut Cursor<'_>) -> Result<Items<Stmt>, Refusal>
    ensures { Reads (map sta) (spec.statements (stmt LEVELS) (expr LEVELS) tokens.old) result tokens.new }
{
    let mut found = Items::new(alloc);
    for _turn in 0..tokens.left() {
        match item(alloc, tokens)? {
            Some(x) => found.push(x)?,
            None => return Ok(found),
        }
    }
    Ok(found)
}

#[tactic(auto, unfolding(crate::specs::Members::block))]
fn block(alloc: Global, tokens: &mut Cursor<'_>) -> Result<Items<Stmt>, Refusal>
    ensures { Reads (map sta) (spec.block (stmt LEVELS) (expr LEVELS) tokens.old) result tokens.new }
{
    tokens.expect(Sign::BraceOpen)?;
    let found = statements(alloc, tokens)?;
    tokens.expect(Sign::BraceClose)?;
    Ok(found)
}

#[tactic(auto, unfolding(crate::specs::Members::body))]
pub(crate) fn body(alloc: Global, tokens: &mut Cursor<'_>) -> Result<Body, Refusal>
    ensures { Reads view.body (spec.body (stmt LEVELS) (expr LEVELS) tokens.old) result tokens.new }
{
    if tokens.eat(Sign::Arrow) {
        let x = expr(alloc, tokens, LEVELS, false)?;
        return match tokens.expect(Sign::Semicolon) {
            Ok(_) => Ok(Body::Arrow(x)),
            Err(refusal) => {
                let_go(x);
                Err(refusal)
            }
        };
    }
    Ok(Body::Block(block(alloc, tokens)?))
}

#[tactic(auto, unfolding(crate::specs::Members::some_body))]
pub(crate) fn some_body(alloc: Global, tokens: &mut Cursor<'_>) -> Result<Option<Body>, Refusal>
    ensures { Reads (option_map view.body) (spec.some_body (stmt LEVELS) (expr LEVELS) tokens.old) result tokens.new }
{
    if tokens.eat(Sign::Semicolon) {
        return Ok(None);
    }
    Ok(Some(body(alloc, tokens)?))
}

#[tactic(auto, unfolding(crate::specs::Members::some_block))]
pub(crate) fn some_block(
    alloc: Global,
    tokens: &mut Cursor<'_>,
) -> Result<Option<Items<Stmt>>, Refusal>
    ensures { Reads (option_map view.all_stas) (spec.some_block (stmt LEVELS) (expr LEVELS) tokens.old) result tokens.new }
{
    if tokens.eat(Sign::Semicolon) {
        return Ok(None);
    }
    Ok(Some(block(alloc, tokens)?))
}
