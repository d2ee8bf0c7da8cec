// What a search found, and what a pass has seen.
use program::Target;
use std::collections::LinkedList;

/// What a search found in the generation that the root had.
#[derive(Clone, Copy, Debug, PartialEq, Eq)]
pub enum Found {
    /// The class stands there, with its target.
    At { target: Target, generation: u8 },
    /// It did not stand there when the first empty place of its window was read, or the last place.
    Absent { generation: u8 },
}

/// A word that was seen, by the number of its selector. A place is counted from the root, which is place 0.
pub enum Sight {
    /// The root, with its generation.
    Root {
        selector: u16,
        generation: u8,
    },
    /// A place, with the number of the class that stands there.
    Taken {
        selector: u16,
        place: u32,
        class: u16,
    },
    /// A place that was empty.
    Empty {
        selector: u16,
        place: u32,
    },
}

/// What a pass has seen. Only contracts speak of it: no value of it is made.
pub struct MegaView {
    /// The newest first.
    pub seen: LinkedList<Sight>,
}
