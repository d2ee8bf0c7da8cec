//! Comments.

ghost use Rattle.std.specs.Prelude.{◌≡◌, MatchBool, false, Ok, Err};
ghost use Rattle.dart_syntax.specs.Tokens.{fits_line};
ghost use Rattle.dart_lexer.specs.Model as spec;

use crate::input::{Input, is_in};
use dart_syntax::ByteKind;

fn fits_line(outer: Option<usize>, b: u8) -> bool
    ensures { result ≡ fits_line outer b }
{
    outer.is_none() || is_in(ByteKind::InLine, b)
}

/// Behind the opening of a comment. Says whether it ends, and goes behind the end, or to where there is none.
pub fn comment(input: &mut Input<'_>, outer: Option<usize>) -> bool
    ensures { MatchBool result (spec.past (fits_line outer) 0 false input.old ≡ Ok input.new) (spec.past (fits_line outer) 0 false input.old ≡ Err input.new) }
{
    let total = input.left();
    let mut depth = 0usize;
    while let Some(b) = input.first() {
        let second = input.second();
        if b == b'*' && second == Some(b'/') {
            input.skip();
            input.skip();
            if depth == 0 {
                return true;
            }
            depth -= 1;
        } else if b == b'/' && second == Some(b'*') {
            input.skip();
            input.skip();
            prove!(depth < total);
            depth += 1;
        } else if fits_line(outer, b) {
            input.skip();
        } else {
            return false;
        }
    }
    false
}
