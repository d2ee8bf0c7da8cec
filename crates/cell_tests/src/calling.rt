// Calls on any cells, and lookups. None where the program has no such site, or no such class that can be called.
ghost use Rattle.std.specs.Prelude.{◌≡◌};
ghost use Rattle.program.specs.Parts.{is_concrete};

use call_cell::{Cells, Dispatched};
use ds_base::Steps;
use method_lookup::Linked;
use miss_handler::selector_at;
use program::{ClassId, SiteId, Target};
use std::sync::ledger::Ledger;

fn is_concrete(linked: &Linked, class: ClassId) -> bool
    ensures { result ≡ is_concrete linked.now.program.classes class.0 }
{
    match linked.program().classes.get(class.0 as usize) {
        Some(k) => !k.is_abstract,
        None => false,
    }
}

pub fn target_of(linked: &Linked, site: u32, class: u16) -> Option<Target> {
    let sites = linked.program().sites.len();
    let classes = linked.program().classes.len();
    if site as usize >= sites || class as usize >= classes {
        return None;
    }
    let selector = selector_at(linked, SiteId(site));
    Some(linked.target_of(ClassId(class), selector))
}

pub fn call<C: Cells, L: Ledger>(
    cells: &mut C,
    linked: &Linked,
    site: u32,
    class: u16,
    steps: &mut Steps<L>,
) -> Option<Dispatched>
    requires made { C.fits cells.old linked.now }
    ensures made { C.fits cells.new linked.now }
{
    if site as usize >= linked.program().sites.len() || !is_concrete(linked, ClassId(class)) {
        return None;
    }
    Some(cells.dispatch(linked, SiteId(site), ClassId(class), steps))
}
