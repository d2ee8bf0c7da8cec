// What a pass knows. No value of these types is made: they are what proofs say of a pass.
use crate::words::{Entry, Info};
use miss_handler::Check;
use std::collections::LinkedList;

/// A word that was seen, by its site. What it says stands unpacked.
pub enum Seen {
    /// A target word: its stamp, and the rest.
    Head(u32, u16, Entry),
    /// A data word: its stamp, and the rest.
    Data(u32, u16, Info),
    /// A check that is set: its place in the row, and the check.
    Set(u32, u8, Check),
    /// A check that was empty: its place in the row.
    Empty(u32, u8),
}

/// A call that was opened.
pub struct Asked {
    pub site: u32,
    pub class: u16,
}

/// A transition that a call made: the stamp after it, and what stood before and after.
pub struct Change {
    pub stamp: u16,
    pub from: Info,
    pub to: Info,
}

/// The view of a pass. Each list has the newest first.
pub struct View {
    /// What it holds of the 65,536 shares of all passes.
    pub share: u64,
    /// All words that were seen.
    pub seen: LinkedList<Seen>,
    /// Those of the newest call.
    pub trace: LinkedList<Seen>,
    /// The transitions that the newest call made.
    pub changes: LinkedList<Change>,
    /// The calls opened.
    pub asked: LinkedList<Asked>,
    /// The newest call is not explained yet.
    pub pending: bool,
}
