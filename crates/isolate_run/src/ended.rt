// How an entry ended.
ghost use Rattle.std.specs.Prelude.{◌≡◌};
ghost use Rattle.isolate_run.specs.Ran.{ending_of};
ghost use Rattle.isolate_run.specs.Loop.{ending_by};

use dart_values::Trap;
use isolate_state::{Flow, Isolate};
use program::Text;

/// Why an entry ended.
#[derive(Drop)]
pub enum Ending {
    Done,
    /// A trap ended it.
    Threw(Trap),
    /// One turn more than it had was needed.
    OutOfTurns,
    /// More bodies than 2,000 would have waited for each other.
    StackOverflow,
}

/// What an entry did.
#[derive(Drop)]
pub struct Ended {
    /// The lines that it printed.
    pub lines: Vec<Text>,
    pub ending: Ending,
    /// How often it asked the cell of each site.
    pub calls: Vec<u64>,
}

/// The ending that a flow stands for.
fn ending_of(flow: Flow, trap: Trap) -> Ending
    ensures { ending_of result ≡ ending_by flow trap }
{
    match flow {
        Flow::Here => Ending::Done,
        Flow::Elsewhere => Ending::Done,
        Flow::Done => Ending::Done,
        Flow::TypeFault => Ending::Threw(Trap::TypeFault),
        Flow::Trapped => Ending::Threw(trap),
        Flow::OutOfTurns => Ending::OutOfTurns,
        Flow::StackOverflow => Ending::StackOverflow,
    }
}

/// What an isolate did that ended by a flow.
pub fn ended_of(flow: Flow, isolate: Isolate) -> Ended
    ensures lines { result.lines ≡ isolate.lines }
    ensures ending { ending_of result.ending ≡ ending_by flow isolate.trap }
    ensures calls { result.calls ≡ isolate.calls }
{
    let Isolate {
        lines,
        calls,
        trap,
        ..
    } = isolate;
    Ended {
        lines,
        ending: ending_of(flow, trap),
        calls,
    }
}
