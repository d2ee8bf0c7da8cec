// Cells of one thread.
ghost use Rattle.call_cell.specs.Kept.{IsKept};

use crate::cell::Cell;
use method_lookup::Linked;
use program::Target;
use std::snapshot::Snapshot;

/// Cells for one thread: a state with its row and stamp for each site, and a table for each selector.
///
/// Each site is lawful, since it is what calls on concrete classes made of it: so a hit answers the target that stands there.
#[derive(Drop)]
pub struct PlainCells {
    pub cells: Vec<Cell>,
    /// A table for each selector, one behind the other, with a place for each class: the target of a class that a megamorphic site added.
    pub tables: Vec<Option<Target>>,
    /// The program of the cells, for contracts alone.
    pub linked: Snapshot<Linked>,
    pub ghost sound: { ∥ IsKept linked.value cells.items tables.items ∥₁ },
}
