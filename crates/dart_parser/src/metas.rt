//! What stands behind `@` before a declaration.

ghost use Rattle.std.specs.Prelude.{◌≡◌};
ghost use Rattle.dart_syntax.specs.Derivation.{any, marks_entry};
ghost use Rattle.dart_expr.specs.Input.{Reads};
ghost use Rattle.dart_parser.specs.Tops as spec;

use dart_expr::Refusal;
use dart_expr::cursor::Cursor;
use dart_syntax::same::{same_text, same_units};
use dart_syntax::token::{Sign, TokenKind, Units};
use sqlite_items::Items;
use std::alloc::Global;

/// `vm:entry-point`
const ENTRY: [u16; 14] = [
    118, 109, 58, 101, 110, 116, 114, 121, 45, 112, 111, 105, 110, 116,
];

fn marks_entry(units: &Units) -> bool
    ensures { result ≡ marks_entry units.now }
{
    same_units(units.as_slice(), ENTRY.as_slice())
}

#[tactic(auto, unfolding(crate::specs::Tops::pragma))]
fn pragma(tokens: &mut Cursor<'_>) -> Result<Option<bool>, Refusal>
    ensures { Reads (λ x. x) (spec.pragma tokens.old) result tokens.new }
{
    tokens.expect(Sign::ParenOpen)?;
    let marks = match tokens.peek() {
        Some(TokenKind::Str(units)) => marks_entry(units),
        _ => return Err(tokens.refuse()),
    };
    tokens.skip();
    tokens.expect(Sign::ParenClose)?;
    Ok(Some(marks))
}

/// Whether it marks an entry.
#[tactic(auto, unfolding(crate::specs::Tops::meta))]
fn meta(tokens: &mut Cursor<'_>) -> Result<Option<bool>, Refusal>
    ensures { Reads (λ x. x) (spec.meta tokens.old) result tokens.new }
{
    if !tokens.eat(Sign::At) {
        return Ok(None);
    }
    match tokens.peek() {
        Some(TokenKind::Name(text)) => {
            if same_text(text.as_slice(), b"override") {
                tokens.skip();
                Ok(Some(false))
            } else if same_text(text.as_slice(), b"pragma") {
                tokens.skip();
                pragma(tokens)
            } else {
                Err(tokens.refuse())
            }
        }
        _ => Err(tokens.refuse()),
    }
}

#[tactic(auto, unfolding(crate::specs::Tops::metas))]
pub(crate) fn metas(alloc: Global, tokens: &mut Cursor<'_>) -> Result<Items<bool>, Refusal>
    ensures { Reads (λ x. x) (spec.metas tokens.old) result tokens.new }
{
    let mut found = Items::new(alloc);
    for _turn in 0..tokens.left() {
        match meta(tokens)? {
            Some(x) => found.push(x)?,
            None => return Ok(found),
        }
    }
    Ok(found)
}

pub(crate) fn any(all: &[bool]) -> bool
    ensures { result ≡ any all.now }
{
    for x in all {
        if *x {
            return true;
        }
    }
    false
}
