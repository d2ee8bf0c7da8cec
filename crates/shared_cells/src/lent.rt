// A table's cells as one thread calls them.
ghost use Rattle.shared_cells.specs.Tables.{IsOf};

use crate::table::{CellTable, Pass};
use ds_base::Gate;

/// Cells that threads share, with the pass of one of them. The gate is asked between the two words of a site, with the number of the thread's entry.
pub struct SharedCells<'a, G: Gate> {
    pub table: &'a CellTable,
    pub pass: Pass,
    pub gate: &'a G,
    pub entry: u32,
    pub ghost own: { IsOf table.now pass },
}
