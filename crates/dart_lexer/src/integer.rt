//! The tokens of integers.

ghost use Rattle.std.specs.Prelude.{◌≡◌, ◌<◌, ◌^◌, true};
ghost use Rattle.dart_syntax.specs.Bytes.{is_in};
ghost use Rattle.dart_syntax.specs.Tokens as words;
ghost use Rattle.dart_lexer.specs.Input.{Reads};
ghost use Rattle.dart_lexer.specs.Model as spec;

use crate::fault::Fault;
use crate::input::Input;
use crate::number::{decimal, hex};
use crate::open::Stack;
use crate::text::{joined, span};
use dart_syntax::{ByteKind, Token};
use sqlite_items::Items;
use std::alloc::Global;

/// Behind `0x`, which stands at the place `at`.
#[tactic(auto, unfolding(crate::specs::Model::hex_number))]
fn hex_number(
    input: &mut Input<'_>,
    total: usize,
    stack: Stack,
    mut found: Items<Token>,
    at: usize,
) -> Result<(Stack, Items<Token>), Fault>
    requires { total < 2 ^ 32 }
    ensures { Reads (spec.hex_number total stack found at input.old) result input.new }
{
    let digits = input.run(ByteKind::Hex);
    if digits.is_empty() {
        return Err(Fault::BadChar(at));
    }
    let Some(kind) = hex(digits) else {
        return Err(Fault::WideInteger(at));
    };
    found.push(Token {
        kind,
        span: span(total, at, input.left()),
    })?;
    Ok((stack, found))
}

/// Behind the first digit.
#[tactic(auto, unfolding(crate::specs::Model::number))]
pub fn number(
    alloc: Global,
    input: &mut Input<'_>,
    total: usize,
    stack: Stack,
    mut found: Items<Token>,
    b: u8,
) -> Result<(Stack, Items<Token>), Fault>
    requires small { total < 2 ^ 32 }
    requires digit { is_in ByteKind.Digit b ≡ true }
    ensures { Reads (spec.number total stack found b input.old) result input.new }
{
    let at = input.left() + 1;
    if b == b'0' && starts_x(input) {
        input.skip();
        return hex_number(input, total, stack, found, at);
    }
    let digits = joined(alloc, b, input.run(ByteKind::Digit))?;
    let Some(kind) = decimal(digits.as_slice()) else {
        return Err(Fault::WideInteger(at));
    };
    found.push(Token {
        kind,
        span: span(total, at, input.left()),
    })?;
    Ok((stack, found))
}

fn starts_x(input: &Input<'_>) -> bool
    ensures { result ≡ words.starts_x input.now }
{
    match input.first() {
        Some(b) => b == b'x' || b == b'X',
        None => false,
    }
}
