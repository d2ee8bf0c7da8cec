//! The inside of strings.

ghost use Rattle.std.specs.Prelude.{◌≡◌, ◌<◌, ◌^◌, ◌∷◌, ◌++◌, IfOk, OnOk};
ghost use Rattle.dart_lexer.specs.Input.{Reads};
ghost use Rattle.std.specs.Char.Escape.{encode_utf16};
ghost use Rattle.dart_syntax.specs.Bytes as bytes;
ghost use Rattle.dart_syntax.specs.Names as names;
ghost use Rattle.dart_syntax.specs.Strings as words;
ghost use Rattle.dart_lexer.specs.Model as spec;

use crate::escape::one;
use crate::fault::Fault;
use crate::input::{Input, is_in};
use crate::word::{is_reserved, keyword_of};
use dart_syntax::{ByteKind, Keyword, Span, Token, TokenKind, Units};
use sqlite_items::Items;
use std::alloc::{AllocError, Global};

/// The span between two places of a text of `total` bytes.
pub fn span(total: usize, from: usize, to: usize) -> Span
    requires { total < 2 ^ 32 }
    ensures { result ≡ bytes.span total from to }
{
    Span {
        start: total.saturating_sub(from) as u32,
        end: total.saturating_sub(to) as u32,
    }
}

/// Adds the units of a character, or a unit that an escape names.
fn push_units(found: &mut Units, c: u32) -> Result<(), AllocError>
    requires { c < 2 ^ 23 }
    ensures { OnOk result (found.new ≡ found.old ++ encode_utf16 c) }
{
    if c < 0x1_0000 {
        found.push(c as u16)?;
        return Ok(());
    }
    let over = c - 0x1_0000;
    found.push((0xD800 + over / 0x400) as u16)?;
    found.push((0xDC00 + over % 0x400) as u16)?;
    Ok(())
}

/// The units up to the quote or a `$`, of a string whose opening quote stands at the place `opened`.
#[tactic(auto, unfolding(crate::specs::Model::raw))]
fn raw(alloc: Global, input: &mut Input<'_>, quote: u8, opened: usize) -> Result<Units, Fault>
    ensures { Reads (spec.raw quote opened input.old) result input.new }
{
    let mut found = Items::new(alloc);
    for _turn in 0..input.left() {
        match one(input, quote, opened)? {
            Some(c) => push_units(&mut found, c)?,
            None => return Ok(found),
        }
    }
    Err(Fault::UnclosedString(opened))
}

/// The word of a byte and those behind it.
pub fn joined(alloc: Global, b: u8, rest: &[u8]) -> Result<Items<u8>, AllocError>
    ensures { IfOk result (λ word. word ≡ b ∷ rest.now) }
{
    let mut word = Vec::new(alloc);
    word.push(b)?;
    word.extend_from_slice(rest)?;
    Ok(Items::from_vec(word))
}

/// The token of a word behind a `$`, if it may stand there.
fn simple_kind(word: Items<u8>) -> Option<TokenKind>
    ensures { result ≡ names.simple_kind (names.keyword_of word) word }
{
    match keyword_of(word.as_slice()) {
        None => Some(TokenKind::Name(word)),
        Some(Keyword::This) => Some(TokenKind::Keyword(Keyword::This)),
        Some(_) => None,
    }
}

/// A name behind a `$`, which stands at the place `at`.
#[tactic(auto, unfolding(crate::specs::Model::simple))]
fn simple(alloc: Global, input: &mut Input<'_>, at: usize) -> Result<TokenKind, Fault>
    ensures { Reads (spec.simple at input.old) result input.new }
{
    let here = input.left();
    let Some(b) = input.first() else {
        return Err(Fault::BadChar(at));
    };
    if !is_in(ByteKind::Initial, b) {
        return Err(Fault::BadChar(at));
    }
    input.skip();
    let word = joined(alloc, b, input.run(ByteKind::Simple))?;
    if is_reserved(word.as_slice()) {
        return Err(Fault::ReservedWord(here));
    }
    match simple_kind(word) {
        Some(kind) => Ok(kind),
        None => Err(Fault::BadChar(at)),
    }
}

/// The token of a piece, by whether it is the first of its string and whether it is the last.
fn piece(is_first: bool, is_last: bool, units: Units) -> TokenKind
    ensures { result ≡ words.piece is_first is_last units }
{
    match (is_first, is_last) {
        (true, true) => TokenKind::Str(units),
        (true, false) => TokenKind::StrOpen(units),
        (false, false) => TokenKind::StrMid(units),
        (false, true) => TokenKind::StrClose(units),
    }
}

/// Reads pieces up to the closing quote or into `${`, and says which. The first token stands at the place `from`.
#[tactic(auto, unfolding(crate::specs::Model::segment))]
pub fn segment(
    alloc: Global,
    input: &mut Input<'_>,
    total: usize,
    quote: u8,
    opened: usize,
    is_first: bool,
    from: usize,
    mut found: Items<Token>,
) -> Result<(Items<Token>, bool), Fault>
    requires { total < 2 ^ 32 }
    ensures { Reads (spec.segment total quote opened is_first from found input.old) result input.new }
{
    let mut is_first = is_first;
    let mut from = from;
    for _turn in 0..input.left() {
        let units = raw(alloc, input, quote, opened)?;
        let at = input.left();
        if input.first() == Some(quote) {
            input.skip();
            let kind = piece(is_first, true, units);
            let span = span(total, from, input.left());
            found.push(Token { kind, span })?;
            return Ok((found, true));
        }
        input.skip();
        if input.first() == Some(b'{') {
            input.skip();
            let kind = piece(is_first, false, units);
            let span = span(total, from, input.left());
            found.push(Token { kind, span })?;
            return Ok((found, false));
        }
        let here = input.left();
        let name = simple(alloc, input, at)?;
        let kind = piece(is_first, false, units);
        let before = span(total, from, here);
        found.push(Token { kind, span: before })?;
        let around = span(total, here, input.left());
        found.push(Token {
            kind: name,
            span: around,
        })?;
        is_first = false;
        from = input.left();
    }
    Err(Fault::UnclosedString(opened))
}
