// The answer of a dispatch, and where it stands between two turns.
use call_cell::How;
use cell_rule::Entry;
use program::Target;

/// What is left to ask of the megamorphic table.
#[derive(Clone, Copy, Debug, PartialEq, Eq)]
pub enum Ask {
    Nothing,
    /// The class is looked for. It tells whether no pair was read before this one.
    Find(bool),
    /// The class is added.
    Add,
}

/// The target of a call, how it was found, the stamp that it was found at, and what is left to ask.
#[derive(Clone, Copy, Debug, PartialEq, Eq)]
pub struct Answer {
    pub target: Target,
    pub how: How,
    pub stamp: u16,
    pub asks: Ask,
}

/// Where a dispatch stands between two turns of its loop.
#[derive(Clone, Copy)]
pub struct Point {
    /// The target word loaded last.
    pub head: (u16, Entry),
    /// The greatest stamp of a data word seen in this call.
    pub newest: u16,
    /// A pair with equal stamps was read.
    pub tried: bool,
}

/// What a look through the checks of a row found.
#[derive(Clone, Copy)]
pub enum Sought {
    Stands(Target),
    Room(u8),
    Full,
}
