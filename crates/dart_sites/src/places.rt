// Places of a source, as lines of refusals show them.
ghost use Rattle.std.specs.Prelude.{◌≡◌, ◌≤◌, ◌++◌, length, OnOk, take_while, reverse, ◌==◌, not};
ghost use Rattle.dart_syntax.specs.Places.{line_at, column_at};
ghost use Rattle.dart_sites.specs.Places.{place_text};

use byte_texts::{push, push_number};
use ds_base::NoMemory;

/// The line of a byte place, from 1.
fn line_at(source: &[u8], place: usize) -> u64
    requires { length source.now ≤ 1048576 }
    ensures exact { result ≡ line_at source.now place }
    ensures within { result ≤ 1048577 }
{
    let front = &source[..place.min(source.len())];
    1 + front.iter().filter(|b| **b == b'\n').count() as u64
}

/// The column of a byte place, from 1.
fn column_at(source: &[u8], place: usize) -> u64
    requires { length source.now ≤ 1048576 }
    ensures exact { result ≡ column_at source.now place }
    ensures within { result ≤ 1048577 }
{
    let front = &source[..place.min(source.len())];
    1 + back_to_line_feed(front) as u64
}

fn back_to_line_feed(front: &[u8]) -> usize
    ensures exact { result ≡ length (take_while (λ b. not (b == 10)) (reverse front.now)) }
    ensures within { result ≤ length front.now }
{
    front.iter().rev().take_while(|b| **b != b'\n').count()
}

/// LINE:COL of a byte place.
pub fn push_place(out: &mut Vec<u8>, source: &[u8], place: usize) -> Result<(), NoMemory>
    requires { length source.now ≤ 1048576 }
    ensures { OnOk result (out.new.items ≡ out.old.items ++ place_text source.now place) }
{
    push_number(out, line_at(source, place))?;
    push(out, b":")?;
    push_number(out, column_at(source, place))
}
