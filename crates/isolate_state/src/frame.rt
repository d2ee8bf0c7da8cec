// Frames, and where an instruction leads.
use program::UnitId;

/// A unit that runs, or waits for a call: its number, the place in its code, and where its slots begin.
#[derive(Clone, Copy, Debug, PartialEq, Eq)]
pub struct Frame {
    pub unit: UnitId,
    pub place: usize,
    pub base: usize,
}

/// Where an instruction leads. It has no payload, so that it stays in a register.
#[derive(Clone, Copy, Debug, PartialEq, Eq)]
pub enum Flow {
    /// On, in the same unit.
    Here,
    /// On, in another unit.
    Elsewhere,
    Done,
    TypeFault,
    /// To the end, by the trap that the isolate keeps.
    Trapped,
    OutOfTurns,
    StackOverflow,
}
