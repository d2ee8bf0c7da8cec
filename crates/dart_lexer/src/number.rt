//! Integers.

ghost use Rattle.std.specs.Prelude.{◌≡◌, ◌<◌, ◌≤◌, ◌^◌, ℕ, true, length, slice_index};
ghost use Rattle.dart_syntax.specs.Bytes.{is_in};
ghost use Rattle.dart_syntax.specs.Numbers as spec;

use dart_syntax::{ByteKind, TokenKind};

pub fn hex_value(b: u8) -> u16
    requires { is_in ByteKind.Hex b ≡ true }
    ensures value { result ≡ spec.hex_value b }
    ensures small { result < 16 }
{
    if b <= b'9' {
        u16::from(b - b'0')
    } else if b <= b'F' {
        u16::from(b - b'A') + 10
    } else {
        u16::from(b - b'a') + 10
    }
}

/// The value of the digits, or None from 2 ^ 64 on.
pub fn value(base: u64, digits: &[u8]) -> Option<u64>
    requires base { 1 ≤ base }
    requires digits { (k : ℕ) → k < length digits.now → is_in ByteKind.Hex (slice_index digits.now k) ≡ true }
    ensures { spec.IsValue (spec.value base digits.now) result }
{
    let mut v = 0u64;
    for b in digits {
        let digit = u64::from(hex_value(*b));
        let Some(scaled) = base.checked_mul(v) else {
            return None;
        };
        let Some(next) = scaled.checked_add(digit) else {
            return None;
        };
        v = next;
    }
    Some(v)
}

#[tactic(auto, unfolding(dart_syntax::specs::Numbers::decimal_kind))]
pub fn decimal(digits: &[u8]) -> Option<TokenKind>
    requires digits { (k : ℕ) → k < length digits.now → is_in ByteKind.Hex (slice_index digits.now k) ≡ true }
    ensures { result ≡ spec.decimal_kind (spec.value 10 digits.now) }
{
    let v = value(10, digits)?;
    if v < 1 << 63 {
        Some(TokenKind::Int(v as i64))
    } else if v == 1 << 63 {
        Some(TokenKind::MinInt)
    } else {
        None
    }
}

#[tactic(auto, unfolding(dart_syntax::specs::Numbers::hex_kind))]
pub fn hex(digits: &[u8]) -> Option<TokenKind>
    requires digits { (k : ℕ) → k < length digits.now → is_in ByteKind.Hex (slice_index digits.now k) ≡ true }
    ensures { result ≡ spec.hex_kind (spec.value 16 digits.now) }
{
    let v = value(16, digits)?;
    if v < 1 << 63 {
        Some(TokenKind::Int(v as i64))
    } else {
        Some(TokenKind::Int(-((u64::MAX - v) as i64) - 1))
    }
}
