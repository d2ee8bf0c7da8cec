// From the bytes of a source to the text of a request.
ghost use Rattle.std.specs.Prelude.{◌≡◌, ◌≤◌, length, IfOk, true};
ghost use Rattle.dart_syntax.specs.View.{unit};
ghost use Rattle.dart_sites.specs.Source.{IsTreeOf};
ghost use Rattle.dart_sites.specs.Top.{OutcomeSays};
ghost use Rattle.dart_sites.specs.Runs.{ProgramSays};
ghost use Rattle.dart_sites.specs.Words.{IsWithin};

use crate::entries::{Found, entries_of};
use crate::refusals::entry_line;
use crate::refusing::refused_tree;
use crate::running::run_entries;
use crate::source::{Read, read_tree, refusal_line};
use crate::words::Request;
use dart_syntax::Tree;
use ds_base::NoMemory;
use method_lookup::Linked;
use program::Numbered;
use resolver::resolve;
use site_report::{check_text, list_text};
use std::alloc::Global;

/// The text of a request, and whether each of its entries ended done.
#[derive(Drop)]
pub struct Told {
    pub text: Vec<u8>,
    pub all_done: bool,
}

/// What came of the bytes of a source. A line says why they are refused.
pub enum Outcome {
    Told(Told),
    /// They are no source.
    NoSource(Vec<u8>),
    /// They are a source whose names are refused: a rule is broken, or an entry is missing.
    WrongNames(Vec<u8>),
    /// They are a source of which a count is over its limit.
    OverLimit(Vec<u8>),
    NoMemory,
}

/// A text that tells of no entry.
fn text_alone(text: Vec<u8>) -> Outcome
    ensures { result ≡ Outcome.Told (record { text = text; all_done = true }) }
{
    Outcome::Told(Told {
        text,
        all_done: true,
    })
}

/// Runs the entries of these names.
fn tell_run(
    alloc: Global,
    linked: &Linked,
    turns: u64,
    names: &[String],
) -> Result<Outcome, NoMemory>
    requires turns { turns ≤ 1000000000 }
    requires few { length names.now ≤ 64 }
    ensures { IfOk result (ProgramSays (Request.Run turns names.entry) linked.now.program) }
{
    let outcome = match entries_of(alloc, linked.program(), names)? {
        Found::All(entries) => {
            Outcome::Told(run_entries(alloc, linked, names, entries.as_slice(), turns)?)
        }
        Found::Missing(name) => Outcome::WrongNames(entry_line(alloc, name.as_bytes())?),
    };
    Ok(outcome)
}

/// What a request says of a linked program.
fn tell_linked(alloc: Global, request: Request, linked: &Linked) -> Result<Outcome, NoMemory>
    requires { IsWithin request }
    ensures { IfOk result (ProgramSays request.entry linked.now.program) }
{
    match request {
        Request::Check => Ok(text_alone(check_text(alloc, linked)?)),
        Request::List => Ok(text_alone(list_text(alloc, linked)?)),
        Request::Run { turns, names } => tell_run(alloc, linked, turns, names),
    }
}

/// What a request says of a numbered program.
fn tell_program(alloc: Global, request: Request, program: Numbered) -> Outcome
    requires { IsWithin request }
    ensures { ProgramSays request.entry program result }
{
    match Linked::build(alloc, program) {
        Ok(linked) => match tell_linked(alloc, request, &linked) {
            Ok(outcome) => outcome,
            Err(_) => Outcome::NoMemory,
        },
        Err(_) => Outcome::NoMemory,
    }
}

/// What a request says of a source with this tree.
fn tell_tree(alloc: Global, request: Request, source: &[u8], tree: &Tree) -> Outcome
    requires source { length source.now ≤ 1048576 }
    requires tree { IsTreeOf source.now (unit tree.now) }
    requires within { IsWithin request }
    ensures { OutcomeSays request.entry source.now result }
{
    match resolve(alloc, tree, source) {
        Err(error) => refused_tree(alloc, request, source, tree, error),
        Ok(program) => tell_program(alloc, request, program),
    }
}

/// What a request says of the bytes of a source.
pub fn tell(alloc: Global, request: Request, source: &[u8]) -> Outcome
    requires source { length source.now ≤ 1048576 }
    requires within { IsWithin request }
    ensures { OutcomeSays request.entry source.now result }
{
    match read_tree(alloc, source) {
        Read::NoMemory => Outcome::NoMemory,
        Read::Refused(refusal) => match refusal_line(alloc, source, refusal) {
            Ok(line) => Outcome::NoSource(line),
            Err(_) => Outcome::NoMemory,
        },
        Read::Tree(tree) => tell_tree(alloc, request, source, &tree),
    }
}
