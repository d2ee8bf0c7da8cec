//! Parameters.

ghost use Rattle.std.specs.Prelude.{map, option_map};
ghost use Rattle.dart_syntax.specs.View as view;
ghost use Rattle.dart_expr.specs.Input.{Reads};
ghost use Rattle.dart_parser.specs.Members as spec;

use dart_expr::Refusal;
use dart_expr::cursor::Cursor;
use dart_expr::names::name;
use dart_syntax::token::{Keyword, Sign, TokenKind};
use dart_syntax::tree::Param;
use ds_base::let_go;
use sqlite_items::Items;
use std::alloc::Global;

#[tactic(auto, unfolding(crate::specs::Members::param_name))]
fn param_name(
    alloc: Global,
    tokens: &mut Cursor<'_>,
    is_final: bool,
    is_field: bool,
) -> Result<Param, Refusal>
    ensures { Reads view.param (spec.param_name is_final is_field tokens.old) result tokens.new }
{
    let name = name(alloc, tokens)?;
    Ok(Param {
        name,
        is_final,
        is_field,
        optional: false,
        default: None,
    })
}

#[tactic(auto, unfolding(crate::specs::Members::param))]
pub(crate) fn param(
    alloc: Global,
    tokens: &mut Cursor<'_>,
    of_constructor: bool,
) -> Result<Param, Refusal>
    ensures { Reads view.param (spec.param of_constructor tokens.old) result tokens.new }
{
    match tokens.peek() {
        Some(TokenKind::Keyword(Keyword::Var | Keyword::Dynamic)) => {
            tokens.skip();
            param_name(alloc, tokens, false, false)
        }
        Some(TokenKind::Keyword(Keyword::Final)) => {
            tokens.skip();
            param_name(alloc, tokens, true, false)
        }
        Some(TokenKind::Keyword(Keyword::This)) if of_constructor => {
            tokens.skip();
            tokens.expect(Sign::Dot)?;
            param_name(alloc, tokens, false, true)
        }
        _ => param_name(alloc, tokens, false, false),
    }
}

/// Behind a parameter: a comma, or the parenthesis, which stays.
#[tactic(auto, unfolding(crate::specs::Members::listed))]
fn listed(tokens: &mut Cursor<'_>, x: Param) -> Result<Option<Param>, Refusal>
    ensures { Reads (option_map view.param) (spec.listed Sign.ParenClose (view.param x) tokens.old) result tokens.new }
{
    if tokens.sees(Sign::Comma) {
        tokens.skip();
        return Ok(Some(x));
    }
    if tokens.sees(Sign::ParenClose) {
        return Ok(Some(x));
    }
    let_go(x);
    Err(tokens.refuse())
}

#[tactic(auto, unfolding(crate::specs::Members::param_item))]
fn param_item(
    alloc: Global,
    tokens: &mut Cursor<'_>,
    of_constructor: bool,
) -> Result<Option<Param>, Refusal>
    ensures { Reads (option_map view.param) (spec.param_item of_constructor tokens.old) result tokens.new }
{
    if tokens.sees(Sign::ParenClose) {
        return Ok(None);
    }
    let x = param(alloc, tokens, of_constructor)?;
    listed(tokens, x)
}

/// Parameters up to the parenthesis, and no more than so many.
#[tactic(auto, unfolding(crate::specs::Members::param_items))]
pub(crate) fn param_items(
    alloc: Global,
    tokens: &mut Cursor<'_>,
    of_constructor: bool,
    most: usize,
) -> Result<Items<Param>, Refusal>
    ensures { Reads (map view.param) (spec.param_items of_constructor most tokens.old) result tokens.new }
{
    let mut found = Items::new(alloc);
    for _turn in 0..most {
        match param_item(alloc, tokens, of_constructor)? {
            Some(x) => found.push(x)?,
            None => return Ok(found),
        }
    }
    Ok(found)
}

#[tactic(auto, unfolding(crate::specs::Members::params))]
pub(crate) fn params(
    alloc: Global,
    tokens: &mut Cursor<'_>,
    of_constructor: bool,
) -> Result<Items<Param>, Refusal>
    ensures { Reads (map view.param) (spec.params of_constructor tokens.old) result tokens.new }
{
    let most = tokens.left();
    let found = param_items(alloc, tokens, of_constructor, most)?;
    tokens.expect(Sign::ParenClose)?;
    Ok(found)
}
