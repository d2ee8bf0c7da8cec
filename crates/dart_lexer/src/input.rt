//! A place in a text.

ghost use Rattle.std.specs.Prelude.{◌≡◌, ◌<◌, ◌≤◌, ◌^◌, length, take, drop, ℕ, true, slice_index, MatchOption, Some, None};
ghost use Rattle.std.specs.List.{prefix_len};
ghost use Rattle.dart_syntax.specs.Bytes.{is_in, first, next};
ghost use Rattle.dart_syntax.specs.Signs.{signs};
ghost use Rattle.dart_lexer.specs.Signs.{sign_in};

use crate::sign::sign_at;
use dart_syntax::{ByteKind, Sign};
use std::marker::Model;

pub fn is_in(kind: ByteKind, b: u8) -> bool
    ensures { result ≡ is_in kind b }
{
    match kind {
        ByteKind::Space => b == b' ' || b == b'\t',
        ByteKind::LineEnd => b == b'\n' || b == b'\r',
        ByteKind::InLine => !(b == b'\n' || b == b'\r'),
        ByteKind::Digit => b.is_ascii_digit(),
        ByteKind::Hex => b.is_ascii_hexdigit(),
        ByteKind::Start => b.is_ascii_alphabetic() || b == b'_' || b == b'$',
        ByteKind::Initial => b.is_ascii_alphabetic() || b == b'_',
        ByteKind::Simple => b.is_ascii_alphanumeric() || b == b'_',
        ByteKind::Part => b.is_ascii_alphanumeric() || b == b'_' || b == b'$',
    }
}

#[derive(Drop)]
pub struct Input<'a> {
    rest: &'a [u8],
}

impl<'a> Model for Input<'a> {
    ghost use Rattle.std.specs.Prelude.{List, ℕ};

    ghost Value = { List ℕ };

    ghost view = { λ c. c.rest.now };
}

fn prefix(kind: ByteKind, bytes: &[u8]) -> usize
    ensures value { result ≡ prefix_len (is_in kind) bytes.now }
    ensures within { result ≤ length bytes.now }
{
    let mut end = 0;
    while end < bytes.len() && is_in(kind, bytes[end]) {
        end += 1;
    }
    end
}

impl<'a> Input<'a> {
    pub fn new(rest: &'a [u8]) -> Input<'a>
        ensures { result ≡ rest.now }
    {
        Input { rest }
    }

    pub fn left(&self) -> usize
        ensures value { result ≡ length self.now }
        ensures small { result < 2 ^ 63 }
    {
        self.rest.len()
    }

    /// The next byte.
    pub fn first(&self) -> Option<u8>
        ensures { result ≡ first self.now }
    {
        match self.rest {
            [first, ..] => Some(*first),
            [] => None,
        }
    }

    /// The byte after the next.
    pub fn second(&self) -> Option<u8>
        ensures { result ≡ first (next self.now) }
    {
        match self.rest {
            [_, second, ..] => Some(*second),
            _ => None,
        }
    }

    pub fn skip(&mut self)
        ensures { self.new ≡ next self.old }
    {
        if let [_, rest @ ..] = self.rest {
            self.rest = rest;
        }
    }

    /// Takes the bytes of the kind.
    pub fn run(&mut self, kind: ByteKind) -> &'a [u8]
        ensures text { result.now ≡ take (prefix_len (is_in kind) self.old) self.old }
        ensures rest { self.new ≡ drop (prefix_len (is_in kind) self.old) self.old }
        ensures all { (k : ℕ) → k < length result.now → is_in kind (slice_index result.now k) ≡ true }
    {
        let (text, rest) = self.rest.split_at(prefix(kind, self.rest));
        self.rest = rest;
        text
    }

    /// Takes the longest sign.
    pub fn sign(&mut self) -> Option<Sign>
        ensures { MatchOption result ((sign_in signs self.old ≡ None) × (self.new ≡ self.old)) (λ c. sign_in signs self.old ≡ Some (c, self.new)) }
    {
        let (sign, rest) = sign_at(self.rest)?;
        self.rest = rest;
        Some(sign)
    }
}
