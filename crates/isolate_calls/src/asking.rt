// Calls that ask a cell.
ghost use Rattle.std.specs.Prelude.{◌≡◌, ◌+◌, ◌<◌, ◌%◌, ◌^◌, [], ◌∷◌, length, slice_set, slice_index, IsTrue};
ghost use Rattle.program.specs.Parts.{is_concrete};
ghost use Rattle.miss_handler.specs.Sites.{selector_of};

use call_cell::Cells;
use ds_base::Steps;
use isolate_state::Isolate;
use method_lookup::Linked;
use program::{ClassId, SiteId, Target};
use std::sync::ledger::Ledger;

/// Asks the cell of a site about a class, and counts the call, by 64 bits.
#[inline(always)]
pub fn ask<C: Cells, L: Ledger>(
    linked: &Linked,
    cells: &mut C,
    isolate: &mut Isolate,
    site: SiteId,
    c: ClassId,
    steps: &mut Steps<L>,
) -> Target
    requires made { C.fits cells.old linked.now }
    requires site { site.0 < length linked.now.program.sites }
    requires concrete { IsTrue (is_concrete linked.now.program.classes c.0) }
    requires counted { site.0 < length isolate.old.calls.items }
    ensures target { result ≡ C.answers cells.old linked.now c.0 (selector_of linked.now.program.sites site.0) }
    ensures answers { C.answers cells.new ≡ C.answers cells.old }
    ensures made { C.fits cells.new linked.now }
    ensures after { C.After cells.old ((site.0, c.0) ∷ []) cells.new }
    ensures calls { isolate.new.calls.items ≡ slice_set isolate.old.calls.items site.0 ((slice_index isolate.old.calls.items site.0 + 1) % 2 ^ 64) }
    ensures rest { isolate.new ≡ record isolate.old { calls = isolate.new.calls } }
{
    let target = cells.dispatch(linked, site, c, steps).target;
    let at = site.0 as usize;
    isolate.calls[at] = isolate.calls[at].wrapping_add(1);
    target
}
