// From the entries of a linked program to the text of `run`.
ghost use Rattle.std.specs.Prelude.{◌≡◌, ◌≤◌, length, IfOk};
ghost use Rattle.std.specs.List.{list_all};
ghost use Rattle.program.specs.Program.{parts_of};
ghost use Rattle.compiled_runs.specs.Compiled.{EachTakesNothing};
ghost use Rattle.isolate_run.specs.declared.ended.Ended.{Ended as EndedEntry};
ghost use Rattle.isolate_run.specs.Ran.{ending_of};
ghost use Rattle.dart_sites.specs.Words.{texts};
ghost use Rattle.dart_sites.specs.Runs.{is_done, IsRunOf};

use crate::telling::Told;
use call_cell::PlainCells;
use compiled_runs::run_compiled;
use ds_base::NoMemory;
use group_runner::EndCells;
use isolate_run::{Ended, Ending};
use method_lookup::Linked;
use program::EntryId;
use site_report::run_text;
use std::alloc::Global;

fn is_done(ending: &Ending) -> bool
    ensures { result ≡ is_done (ending_of ending.now) }
{
    match ending {
        Ending::Done => true,
        Ending::Threw(_) | Ending::OutOfTurns | Ending::StackOverflow => false,
    }
}

/// Each of the entries ended done.
fn all_done(ended: &[Ended]) -> bool
    ensures { result ≡ list_all (λ (e : EndedEntry). is_done (ending_of e.ending)) ended.now }
{
    ended.iter().all(|e| is_done(&e.ending))
}

/// The cells of one worker.
fn plain_of(cells: &EndCells) -> &PlainCells
    ensures { cells.now ≡ EndCells.Plain result.now }
{
    match cells {
        EndCells::Plain(cells) => cells,
    }
}

/// Runs entries, and tells what they did.
pub fn run_entries(
    alloc: Global,
    linked: &Linked,
    names: &[String],
    entries: &[EntryId],
    turns: u64,
) -> Result<Told, NoMemory>
    requires entries { EachTakesNothing (parts_of linked.now.program) entries.now }
    requires names { length names.now ≡ length entries.now }
    requires few { length entries.now ≤ 64 }
    requires turns { turns ≤ 1000000000 }
    ensures { IfOk result (λ told. IsRunOf (parts_of linked.now.program) entries.now turns (texts names.now) told.text.items told.all_done) }
{
    let end = run_compiled(alloc, linked, entries, turns)?;
    let ended = end.ended.as_slice();
    let cells = plain_of(&end.cells);
    let text = run_text(alloc, linked, names, ended, cells)?;
    Ok(Told {
        text,
        all_done: all_done(ended),
    })
}
