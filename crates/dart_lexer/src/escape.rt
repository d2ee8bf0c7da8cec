//! Characters of strings, and escapes.

ghost use Rattle.std.specs.Prelude.{◌≡◌, ◌+◌, ◌*◌, ◌<◌, ◌≤◌, ◌^◌, true, IfOk, IfSome};
ghost use Rattle.dart_syntax.specs.Bytes.{first, is_in, next};
ghost use Rattle.dart_syntax.specs.Strings as words;
ghost use Rattle.dart_lexer.specs.FirstFault.{ends_line};
ghost use Rattle.dart_lexer.specs.Input.{Finds, Reads};
ghost use Rattle.dart_lexer.specs.Model as spec;

use crate::fault::Fault;
use crate::input::{Input, is_in};
use crate::number::{hex_value, value};
use dart_syntax::ByteKind;

/// Six more bits of the character `c`, from the byte that follows.
fn six_bits(input: &mut Input<'_>, c: u32) -> u32
    requires { c < 2 ^ 20 }
    ensures value { result ≡ words.six_bits c (first input.old) }
    ensures rest { input.new ≡ next input.old }
    ensures small { result < 64 * c + 128 }
{
    let first = input.first();
    input.skip();
    match first {
        Some(b) => 64 * c + u32::from(b.saturating_sub(128)),
        None => 64 * c,
    }
}

/// The character with the first byte `b`, behind that byte.
#[tactic(auto, unfolding(dart_syntax::specs::Strings::character))]
fn character(input: &mut Input<'_>, b: u8) -> u32
    ensures value { result ≡ (words.character b input.old).0 }
    ensures rest { input.new ≡ (words.character b input.old).1 }
    ensures small { result < 2 ^ 23 }
{
    if b < 128 {
        return u32::from(b);
    }
    if b < 224 {
        return six_bits(input, u32::from(b.saturating_sub(192)));
    }
    if b < 240 {
        let high = six_bits(input, u32::from(b - 224));
        return six_bits(input, high);
    }
    let high = six_bits(input, u32::from(b - 240));
    let middle = six_bits(input, high);
    six_bits(input, middle)
}

/// What a character behind a backslash stands for.
fn escaped(c: u32) -> u32
    requires { c < 2 ^ 23 }
    ensures value { result ≡ words.escaped c }
    ensures small { result < 2 ^ 23 }
{
    match c {
        // `n`, `r`, `f`, `b`, `t` and `v`.
        0x6E => 10,
        0x72 => 13,
        0x66 => 12,
        0x62 => 8,
        0x74 => 9,
        0x76 => 11,
        _ => c,
    }
}

/// One hexadecimal digit, behind others of the value `v`.
fn digit(input: &mut Input<'_>, v: u32) -> Option<u32>
    requires { v < 2 ^ 12 }
    ensures found { Finds (spec.digits_from 1 v input.old) result input.new }
    ensures small { IfSome result (λ c. c < 16 * v + 16) }
{
    let a = input.first()?;
    if !is_in(ByteKind::Hex, a) {
        return None;
    }
    input.skip();
    Some(16 * v + u32::from(hex_value(a)))
}

#[tactic(auto, using(crate::proofs::Digits::second_digit, crate::proofs::Digits::no_digit))]
fn two_digits(input: &mut Input<'_>, v: u32) -> Option<u32>
    requires { v < 2 ^ 8 }
    ensures found { Finds (spec.digits_from 2 v input.old) result input.new }
    ensures small { IfSome result (λ c. c < 256 * v + 256) }
{
    let high = digit(input, v)?;
    digit(input, high)
}

#[tactic(auto, using(crate::proofs::Digits::later_digits, crate::proofs::Digits::no_digits))]
fn four_digits(input: &mut Input<'_>) -> Option<u32>
    ensures found { Finds (spec.digits_from 4 0 input.old) result input.new }
    ensures small { IfSome result (λ c. c < 2 ^ 16) }
{
    let high = two_digits(input, 0)?;
    two_digits(input, high)
}

/// Behind `\u{`.
#[tactic(auto, unfolding(crate::specs::Model::braced))]
fn braced(input: &mut Input<'_>) -> Option<u32>
    ensures found { Finds (spec.braced input.old) result input.new }
    ensures small { IfSome result (λ c. c < 2 ^ 23) }
{
    let digits = input.run(ByteKind::Hex);
    if input.first() != Some(b'}') || digits.is_empty() || digits.len() > 6 {
        return None;
    }
    input.skip();
    let code = value(16, digits)?;
    if code > 0x10_FFFF {
        return None;
    }
    Some(code as u32)
}

/// Behind `\u`.
#[tactic(auto, unfolding(crate::specs::Model::unicode))]
fn unicode(input: &mut Input<'_>) -> Option<u32>
    ensures found { Finds (spec.unicode input.old) result input.new }
    ensures small { IfSome result (λ c. c < 2 ^ 23) }
{
    if input.first() == Some(b'{') {
        input.skip();
        return braced(input);
    }
    four_digits(input)
}

/// Behind a backslash and the byte `b`.
fn escape(input: &mut Input<'_>, b: u8) -> Option<u32>
    ensures found { Finds (spec.escape_by (Some b) input.old) result input.new }
    ensures small { IfSome result (λ c. c < 2 ^ 23) }
{
    if b == b'x' {
        return two_digits(input, 0);
    }
    if b == b'u' {
        return unicode(input);
    }
    Some(escaped(character(input, b)))
}

/// Whether a line or the text ends here.
fn ends_line(input: &Input<'_>) -> bool
    ensures { result ≡ ends_line input.now }
{
    match input.first() {
        Some(b) => is_in(ByteKind::LineEnd, b),
        None => true,
    }
}

/// Behind the backslash, which stands at the place `at`. The string's quote is at the place `l`.
#[tactic(auto, unfolding(crate::specs::Model::escaped_one, crate::specs::Model::escape))]
fn escaped_one(input: &mut Input<'_>, opened: usize, at: usize) -> Result<Option<u32>, Fault>
    ensures reads { Reads (spec.escaped_one opened at input.old) result input.new }
    ensures small { IfOk result (λ o. IfSome o (λ c. c < 2 ^ 23)) }
{
    if ends_line(input) {
        return Err(Fault::UnclosedString(opened));
    }
    let Some(b) = input.first() else {
        return Err(Fault::BadChar(at));
    };
    input.skip();
    match escape(input, b) {
        Some(c) => Ok(Some(c)),
        None => Err(Fault::BadChar(at)),
    }
}

/// One character of a string, or None at the quote and at `$`.
#[tactic(auto, unfolding(crate::specs::Model::one))]
pub fn one(input: &mut Input<'_>, quote: u8, opened: usize) -> Result<Option<u32>, Fault>
    ensures reads { Reads (spec.one quote opened input.old) result input.new }
    ensures small { IfOk result (λ o. IfSome o (λ c. c < 2 ^ 23)) }
{
    let Some(b) = input.first() else {
        return Err(Fault::UnclosedString(opened));
    };
    if b == quote || b == b'$' {
        return Ok(None);
    }
    let at = input.left();
    input.skip();
    if b == b'\\' {
        return escaped_one(input, opened, at);
    }
    if is_in(ByteKind::LineEnd, b) {
        return Err(Fault::UnclosedString(opened));
    }
    Ok(Some(character(input, b)))
}
