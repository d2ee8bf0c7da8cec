//! One piece of a text.

ghost use Rattle.std.specs.Prelude.{◌≡◌, ◌<◌, ◌^◌, true};
ghost use Rattle.dart_lexer.specs.Input.{Reads};
ghost use Rattle.dart_lexer.specs.FirstFault.{begins};
ghost use Rattle.dart_lexer.specs.Model as spec;

use crate::comment::comment;
use crate::fault::Fault;
use crate::input::{Input, is_in};
use crate::integer::number;
use crate::open::Stack;
use crate::text::{joined, segment, span};
use crate::word::{is_reserved, keyword_of};
use dart_syntax::{ByteKind, Open, Sign, Token, TokenKind};
use sqlite_items::Items;
use std::alloc::Global;

/// Behind a slash.
#[tactic(auto, unfolding(crate::specs::Model::slash))]
fn slash(
    input: &mut Input<'_>,
    stack: Stack,
    found: Items<Token>,
) -> Result<(Stack, Items<Token>), Fault>
    ensures { Reads (spec.slash stack found input.old) result input.new }
{
    let at = input.left();
    if input.first() == Some(b'/') {
        input.skip();
        input.run(ByteKind::InLine);
        return Ok((stack, found));
    }
    if input.first() != Some(b'*') {
        return Err(Fault::BadChar(at + 1));
    }
    input.skip();
    let outer = stack.inside();
    if comment(input, outer) {
        return Ok((stack, found));
    }
    match outer {
        Some(opened) if input.left() != 0 => Err(Fault::UnclosedString(opened)),
        _ => Err(Fault::UnclosedComment(at + 1)),
    }
}

/// Behind the first byte of a word.
#[tactic(auto, unfolding(crate::specs::Model::word))]
fn word(
    alloc: Global,
    input: &mut Input<'_>,
    total: usize,
    stack: Stack,
    mut found: Items<Token>,
    b: u8,
) -> Result<(Stack, Items<Token>), Fault>
    requires { total < 2 ^ 32 }
    ensures { Reads (spec.word total stack found b input.old) result input.new }
{
    let at = input.left();
    let text = joined(alloc, b, input.run(ByteKind::Part))?;
    if is_reserved(text.as_slice()) {
        return Err(Fault::ReservedWord(at + 1));
    }
    let kind = match keyword_of(text.as_slice()) {
        None => TokenKind::Name(text),
        Some(keyword) => TokenKind::Keyword(keyword),
    };
    found.push(Token {
        kind,
        span: span(total, at + 1, input.left()),
    })?;
    Ok((stack, found))
}

/// Behind a quote.
#[tactic(auto, unfolding(crate::specs::Model::string))]
fn string(
    alloc: Global,
    input: &mut Input<'_>,
    total: usize,
    mut stack: Stack,
    found: Items<Token>,
    quote: u8,
) -> Result<(Stack, Items<Token>), Fault>
    requires { total < 2 ^ 32 }
    ensures { Reads (spec.string total stack found quote input.old) result input.new }
{
    let at = input.left() + 1;
    let (found, is_closed) = segment(alloc, input, total, quote, at, true, at, found)?;
    if !is_closed {
        stack.push(Open::Text(quote, at))?;
    }
    Ok((stack, found))
}

/// Behind a closing brace.
#[tactic(auto, unfolding(crate::specs::Model::closing))]
fn closing(
    alloc: Global,
    input: &mut Input<'_>,
    total: usize,
    mut stack: Stack,
    mut found: Items<Token>,
) -> Result<(Stack, Items<Token>), Fault>
    requires { total < 2 ^ 32 }
    ensures { Reads (spec.closing total stack found input.old) result input.new }
{
    let at = input.left() + 1;
    if let Some(Open::Text(quote, opened)) = stack.pop() {
        let (found, is_closed) = segment(alloc, input, total, quote, opened, false, at, found)?;
        if !is_closed {
            stack.push(Open::Text(quote, opened))?;
        }
        return Ok((stack, found));
    }
    found.push(Token {
        kind: TokenKind::Sign(Sign::BraceClose),
        span: span(total, at, input.left()),
    })?;
    Ok((stack, found))
}

/// Whether a piece begins so that is no sign.
fn is_piece(b: u8) -> bool
    ensures { result ≡ begins b }
{
    is_in(ByteKind::Space, b)
        || is_in(ByteKind::LineEnd, b)
        || b == b'/'
        || is_in(ByteKind::Start, b)
        || (b == b'\'' || b == b'"')
        || is_in(ByteKind::Digit, b)
        || b == b'{'
        || b == b'}'
}

/// Behind a byte that begins a piece.
fn piece(
    alloc: Global,
    input: &mut Input<'_>,
    total: usize,
    mut stack: Stack,
    mut found: Items<Token>,
    b: u8,
) -> Result<(Stack, Items<Token>), Fault>
    requires small { total < 2 ^ 32 }
    requires begins { begins b ≡ true }
    ensures { Reads (spec.piece_by total stack found b input.old) result input.new }
{
    if is_in(ByteKind::Space, b) {
        return Ok((stack, found));
    }
    if is_in(ByteKind::LineEnd, b) {
        return match stack.inside() {
            None => Ok((stack, found)),
            Some(opened) => Err(Fault::UnclosedString(opened)),
        };
    }
    if b == b'/' {
        return slash(input, stack, found);
    }
    if is_in(ByteKind::Start, b) {
        return word(alloc, input, total, stack, found, b);
    }
    if b == b'\'' || b == b'"' {
        return string(alloc, input, total, stack, found, b);
    }
    if is_in(ByteKind::Digit, b) {
        return number(alloc, input, total, stack, found, b);
    }
    if b == b'{' {
        let at = input.left();
        found.push(Token {
            kind: TokenKind::Sign(Sign::BraceOpen),
            span: span(total, at + 1, at),
        })?;
        let outer = stack.inside();
        stack.push(Open::Brace(outer))?;
        return Ok((stack, found));
    }
    closing(alloc, input, total, stack, found)
}

/// Takes one piece: what is open behind it, and the tokens up to it.
#[tactic(auto, unfolding(crate::specs::Model::step))]
pub fn step(
    alloc: Global,
    input: &mut Input<'_>,
    total: usize,
    mut stack: Stack,
    mut found: Items<Token>,
) -> Result<(Stack, Items<Token>), Fault>
    requires { total < 2 ^ 32 }
    ensures { Reads (spec.step total stack found input.old) result input.new }
{
    let Some(b) = input.first() else {
        return Ok((stack, found));
    };
    if is_piece(b) {
        input.skip();
        return piece(alloc, input, total, stack, found, b);
    }
    let at = input.left();
    let Some(sign) = input.sign() else {
        return Err(Fault::BadChar(at));
    };
    found.push(Token {
        kind: TokenKind::Sign(sign),
        span: span(total, at, input.left()),
    })?;
    Ok((stack, found))
}
