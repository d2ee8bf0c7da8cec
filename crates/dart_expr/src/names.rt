//! Names and texts of tokens.

ghost use Rattle.std.specs.Prelude.{◌≡◌, IfOk};
ghost use Rattle.dart_expr.specs.Input.{Reads};
ghost use Rattle.dart_expr.specs.Model as spec;

use crate::cursor::Cursor;
use crate::refusal::Refusal;
use dart_syntax::token::{Identifier, TokenKind, Units};
use dart_syntax::tree::Name;
use sqlite_items::Items;
use std::alloc::{AllocError, Global};

pub fn copied(alloc: Global, text: &Identifier) -> Result<Identifier, AllocError>
    ensures { IfOk result (λ t. t ≡ text.now) }
{
    Items::from_slice(alloc, text.as_slice())
}

pub fn copied_units(alloc: Global, units: &Units) -> Result<Units, AllocError>
    ensures { IfOk result (λ t. t ≡ units.now) }
{
    Items::from_slice(alloc, units.as_slice())
}

#[tactic(auto, unfolding(crate::specs::Model::name))]
pub fn name(alloc: Global, tokens: &mut Cursor<'_>) -> Result<Name, Refusal>
    ensures { Reads (λ n. n) (spec.name tokens.old) result tokens.new }
{
    match tokens.peek() {
        Some(TokenKind::Name(text)) => Ok(Name {
            text: copied(alloc, text)?,
            span: tokens.take(),
        }),
        _ => Err(tokens.refuse()),
    }
}
