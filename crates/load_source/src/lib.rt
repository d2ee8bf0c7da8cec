//! Writes the text of a generated program: so many classes, and so many calls on objects of them.
#![tactic(auto)]

mod classes;
mod functions;
mod text;

ghost use Rattle.std.specs.Prelude.{◌≡◌, ◌≤◌, length, IfOk};
ghost use Rattle.load_source.specs.Generated.{generated};

use crate::classes::push_classes;
use crate::functions::{push_all, push_entries, push_work};
use ds_base::NoMemory;
use std::alloc::Global;

/// The text of the load with this first pseudo-random number, so many classes and so many calls.
pub fn generate(alloc: Global, number: u32, classes: u32, calls: u32) -> Result<Vec<u8>, NoMemory>
    ensures text { IfOk result (λ text. text.items ≡ generated number classes calls) }
    ensures short { classes ≤ 1000 → IfOk result (λ text. length text.items ≤ 1048576) }
{
    let mut out = Vec::new(alloc);
    push_classes(&mut out, number, classes)?;
    push_all(&mut out, classes)?;
    push_work(&mut out)?;
    push_entries(&mut out, calls)?;
    Ok(out)
}

#[cfg(test)]
mod tests;
