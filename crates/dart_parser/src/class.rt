//! Classes.

ghost use Rattle.std.specs.Prelude.{map, option_map};
ghost use Rattle.dart_syntax.specs.View as view;
ghost use Rattle.dart_expr.specs.Input.{Reads};
ghost use Rattle.dart_expr.specs.Model.{expr};
ghost use Rattle.dart_parser.specs.Statements.{stmt};
ghost use Rattle.dart_parser.specs.Tops as spec;

use crate::bodies::LEVELS;
use crate::member::member;
use crate::metas::metas;
use dart_expr::Refusal;
use dart_expr::cursor::Cursor;
use dart_expr::names::name;
use dart_syntax::token::{Keyword, Sign};
use dart_syntax::tree::{ClassDecl, Member, Name};
use sqlite_items::Items;
use std::alloc::Global;

#[tactic(auto, unfolding(crate::specs::Tops::parent))]
fn parent(alloc: Global, tokens: &mut Cursor<'_>) -> Result<Option<Name>, Refusal>
    ensures { Reads (λ x. x) (spec.parent tokens.old) result tokens.new }
{
    if !tokens.eat_keyword(Keyword::Extends) {
        return Ok(None);
    }
    Ok(Some(name(alloc, tokens)?))
}

#[tactic(auto, unfolding(crate::specs::Tops::comma_name))]
fn comma_name(alloc: Global, tokens: &mut Cursor<'_>) -> Result<Option<Name>, Refusal>
    ensures { Reads (λ x. x) (spec.comma_name tokens.old) result tokens.new }
{
    if !tokens.eat(Sign::Comma) {
        return Ok(None);
    }
    Ok(Some(name(alloc, tokens)?))
}

#[tactic(auto, unfolding(crate::specs::Tops::more_names))]
fn more_names(
    alloc: Global,
    tokens: &mut Cursor<'_>,
    mut found: Items<Name>,
) -> Result<Items<Name>, Refusal>
    ensures { Reads (λ x. x) (spec.more_names found tokens.old) result tokens.new }
{
    for _turn in 0..tokens.left() {
        match comma_name(alloc, tokens)? {
            Some(x) => found.push(x)?,
            None => return Ok(found),
        }
    }
    Ok(found)
}

#[tactic(auto, unfolding(crate::specs::Tops::interfaces))]
fn interfaces(alloc: Global, tokens: &mut Cursor<'_>) -> Result<Items<Name>, Refusal>
    ensures { Reads (λ x. x) (spec.interfaces tokens.old) result tokens.new }
{
    let mut found = Items::new(alloc);
    if !tokens.eat_keyword(Keyword::Implements) {
        return Ok(found);
    }
    found.push(name(alloc, tokens)?)?;
    more_names(alloc, tokens, found)
}

#[tactic(auto, unfolding(crate::specs::Tops::marked_member))]
fn marked_member(alloc: Global, tokens: &mut Cursor<'_>, class: &[u8]) -> Result<Member, Refusal>
    ensures { Reads view.member (spec.marked_member (stmt LEVELS) (expr LEVELS) class.now tokens.old) result tokens.new }
{
    let _metas = metas(alloc, tokens)?;
    member(alloc, tokens, class)
}

#[tactic(auto, unfolding(crate::specs::Tops::member_item))]
fn member_item(
    alloc: Global,
    tokens: &mut Cursor<'_>,
    class: &[u8],
) -> Result<Option<Member>, Refusal>
    ensures { Reads (option_map view.member) (spec.member_item (stmt LEVELS) (expr LEVELS) class.now tokens.old) result tokens.new }
{
    if tokens.sees(Sign::BraceClose) {
        return Ok(None);
    }
    Ok(Some(marked_member(alloc, tokens, class)?))
}

#[tactic(auto, unfolding(crate::specs::Tops::members))]
fn members(alloc: Global, tokens: &mut Cursor<'_>, class: &[u8]) -> Result<Items<Member>, Refusal>
    ensures { Reads (map view.member) (spec.members (stmt LEVELS) (expr LEVELS) class.now tokens.old) result tokens.new }
{
    let mut found = Items::new(alloc);
    for _turn in 0..tokens.left() {
        match member_item(alloc, tokens, class)? {
            Some(x) => found.push(x)?,
            None => return Ok(found),
        }
    }
    Ok(found)
}

#[tactic(auto, unfolding(crate::specs::Tops::class))]
pub(crate) fn class(
    alloc: Global,
    tokens: &mut Cursor<'_>,
    is_abstract: bool,
) -> Result<ClassDecl, Refusal>
    ensures { Reads view.class (spec.class (stmt LEVELS) (expr LEVELS) is_abstract tokens.old) result tokens.new }
{
    let name = name(alloc, tokens)?;
    let parent = parent(alloc, tokens)?;
    let interfaces = interfaces(alloc, tokens)?;
    tokens.expect(Sign::BraceOpen)?;
    let members = members(alloc, tokens, name.text.as_slice())?;
    tokens.expect(Sign::BraceClose)?;
    Ok(ClassDecl {
        name,
        is_abstract,
        parent,
        interfaces,
        members,
    })
}
