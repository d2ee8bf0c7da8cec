//! All pieces of a text.

ghost use Rattle.std.specs.Prelude.{◌≡◌, ◌<◌, ◌^◌, length};
ghost use Rattle.dart_syntax.specs.Tokens as words;
ghost use Rattle.dart_lexer.specs.Input.{Gives};
ghost use Rattle.dart_lexer.specs.Model as spec;

use crate::fault::Fault;
use crate::input::Input;
use crate::open::Stack;
use crate::step::step;
use crate::text::span;
use dart_syntax::{Token, TokenKind};
use sqlite_items::Items;
use std::alloc::Global;

/// Behind all pieces: the end token, unless a string is open.
fn finish(total: usize, stack: &Stack, mut found: Items<Token>) -> Result<Items<Token>, Fault>
    requires { total < 2 ^ 32 }
    ensures { Gives (spec.finish_by (words.inside stack.now) total found) result }
{
    if let Some(opened) = stack.inside() {
        return Err(Fault::UnclosedString(opened));
    }
    found.push(Token {
        kind: TokenKind::End,
        span: span(total, 0, 0),
    })?;
    Ok(found)
}

/// The tokens of a text, or its first fault.
#[tactic(auto, unfolding(crate::specs::Model::lex))]
pub fn lex(alloc: Global, text: &[u8]) -> Result<Items<Token>, Fault>
    requires { length text.now < 2 ^ 32 }
    ensures { Gives (spec.lex text.now) result }
{
    let total = text.len();
    let mut input = Input::new(text);
    let mut stack = Stack::new(alloc);
    let mut found = Items::new(alloc);
    for _turn in 0..total {
        if input.left() == 0 {
            return finish(total, &stack, found);
        }
        (stack, found) = step(alloc, &mut input, total, stack, found)?;
    }
    finish(total, &stack, found)
}
