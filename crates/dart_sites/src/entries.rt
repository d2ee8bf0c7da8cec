// Entry points by their names.
ghost use Rattle.std.specs.Prelude.{IfOk};
ghost use Rattle.dart_sites.specs.Words.{texts};
ghost use Rattle.dart_sites.specs.Runs.{FoundSays};

use ds_base::NoMemory;
use program::{EntryId, Numbered};
use std::alloc::Global;

/// What looking up names of entry points answers.
#[derive(Drop)]
pub enum Found<'a> {
    /// The entry point of each name.
    All(Vec<EntryId>),
    /// The first name that is that of none.
    Missing(&'a String),
}

/// The entry points of the names, from left to right.
pub fn entries_of<'a>(
    alloc: Global,
    program: &Numbered,
    names: &'a [String],
) -> Result<Found<'a>, NoMemory>
    ensures { IfOk result (FoundSays program.now (texts names.now)) }
{
    let mut entries = Vec::new(alloc);
    for name in names {
        match program.entry_of(name.as_str()) {
            Some(entry) => entries.push(entry)?,
            None => return Ok(Found::Missing(name)),
        }
    }
    Ok(Found::All(entries))
}
