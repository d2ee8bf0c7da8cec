//! Texts that are written piece by piece, as bytes.
#![tactic(auto)]

ghost use Rattle.std.specs.Prelude.{◌≡◌, ◌++◌, OnOk};
ghost use Rattle.byte_texts.specs.Texts.{utf8_of};

use ds_base::NoMemory;
use itoa::{Buffer, Integer};
use std::alloc::Global;

/// Adds bytes.
pub fn push(out: &mut Vec<u8>, bytes: &[u8]) -> Result<(), NoMemory>
    ensures { OnOk result (out.new.items ≡ out.old.items ++ bytes.now) }
{
    out.extend_from_slice(bytes)?;
    Ok(())
}

/// Adds a number in decimal.
pub fn push_number<I: Integer>(out: &mut Vec<u8>, n: I) -> Result<(), NoMemory>
    ensures { OnOk result (out.new.items ≡ out.old.items ++ I.text n) }
{
    let mut buffer = Buffer::new();
    push(out, buffer.format(n).as_bytes())
}

/// Adds UTF-16 code units as UTF-8.
#[tactic(auto, unfolding(crate::specs::Texts::utf8_of))]
pub fn push_text(alloc: Global, out: &mut Vec<u8>, units: &[u16]) -> Result<(), NoMemory>
    ensures { OnOk result (out.new.items ≡ out.old.items ++ utf8_of units.now) }
{
    let text = String::from_utf16_lossy(alloc, units)?;
    push(out, text.as_bytes())
}
