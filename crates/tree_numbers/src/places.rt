//! The places of names in a list, the first of each.

ghost use Rattle.std.specs.Prelude.{◌≡◌, IfOk};
ghost use Rattle.tree_numbers.specs.Maps.{in_map, nothing_known};
ghost use Rattle.tree_numbers.specs.Parts.{texts};
ghost use Rattle.tree_numbers.specs.Places.{also_placed};

use crate::known::{keep_first, nothing_known};
use ds_base::NoMemory;
use std::alloc::Global;
use std::collections::HashMap;

/// A number of a class or a method. A program that is accepted has no more of them than 16 bits count, and no memory is wanted for others.
pub fn short(n: usize) -> Result<u16, NoMemory>
    ensures { IfOk result (λ k. k ≡ n) }
{
    if n > 65535 {
        return Err(NoMemory);
    }
    Ok(n as u16)
}

/// A number that 32 bits count. No memory holds as many things as they do not.
pub fn word(n: usize) -> Result<u32, NoMemory>
    ensures { IfOk result (λ k. k ≡ n) }
{
    if n > 4294967295 {
        return Err(NoMemory);
    }
    Ok(n as u32)
}

/// The place of each name.
pub fn places_of<'a>(alloc: Global, names: &[&'a [u8]]) -> Result<HashMap<&'a [u8], u32>, NoMemory>
    ensures { IfOk result (λ known. in_map known ≡ also_placed 0 (texts names.now) nothing_known) }
{
    let mut known = nothing_known(alloc);
    for (i, name) in names.iter().enumerate() {
        keep_first(&mut known, name, word(i)?)?;
    }
    Ok(known)
}

/// The same, as numbers of classes.
pub fn numbers_of<'a>(alloc: Global, names: &[&'a [u8]]) -> Result<HashMap<&'a [u8], u16>, NoMemory>
    ensures { IfOk result (λ known. in_map known ≡ also_placed 0 (texts names.now) nothing_known) }
{
    let mut known = nothing_known(alloc);
    for (i, name) in names.iter().enumerate() {
        keep_first(&mut known, name, short(i)?)?;
    }
    Ok(known)
}
