//! Signs.

ghost use Rattle.std.specs.Prelude.{◌≡◌, map, option_map};
ghost use Rattle.std.specs.Option.{option_copied};
ghost use Rattle.dart_syntax.specs.Signs.{signs};
ghost use Rattle.dart_lexer.specs.Signs as spec;

use dart_syntax::{Sign, sign_table};

/// The bytes behind the text.
fn strip<'a>(mut text: &[u8], mut bytes: &'a [u8]) -> Option<&'a [u8]>
    ensures { option_copied result ≡ spec.strip text.entry.now bytes.entry.now }
{
    while let [a, more @ ..] = text {
        match bytes {
            [b, rest @ ..] if a == b => {
                text = more;
                bytes = rest;
            }
            _ => return None,
        }
    }
    Some(bytes)
}

fn sign_in<'a>(mut table: &[(&[u8], Sign)], bytes: &'a [u8]) -> Option<(Sign, &'a [u8])>
    ensures { option_map (λ p. (p.0, p.1.now)) result ≡ spec.sign_in (map (λ k. (k.0.now, k.1)) table.entry.now) bytes.now }
{
    while let [entry, others @ ..] = table {
        if let Some(rest) = strip(entry.0, bytes) {
            return Some((entry.1, rest));
        }
        table = others;
    }
    None
}

/// The longest sign at the front, and the bytes behind it.
pub fn sign_at(bytes: &[u8]) -> Option<(Sign, &[u8])>
    ensures { option_map (λ p. (p.0, p.1.now)) result ≡ spec.sign_in signs bytes.now }
{
    sign_in(sign_table(), bytes)
}
