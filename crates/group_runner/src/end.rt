// What a group answers.
use call_cell::PlainCells;
use isolate_run::Ended;

/// The cells that the entries asked.
#[derive(Drop)]
pub enum EndCells {
    /// Those of one worker.
    Plain(PlainCells),
}

/// What a group of entries did.
#[derive(Drop)]
pub struct GroupEnd {
    /// What each entry did, in the order of the entries.
    pub ended: Vec<Ended>,
    /// The cells that they asked, as they are in the end.
    pub cells: EndCells,
}
