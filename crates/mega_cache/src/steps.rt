// The atomic steps on a table. Each counts as one.
ghost use Rattle.std.specs.Prelude.{◌≡◌, ◌+◌, ◌<◌, ◌≤◌};
ghost use Rattle.mega_cache.specs.Region.{width_of};
ghost use Rattle.mega_cache.specs.Finds.{IsNamed, InReach, SameSeat, IsEntry, SawRoot, SawOthers, SeesPlace, SeesAt, SeesRoot};

use crate::entry::{Entry, pack, unpack};
use crate::generations::window_place;
use crate::kinds::{ClaimPlace, LoadPlace, LoadRoot, Named, RaiseRoot};
use crate::table::MegaTable;
use crate::view::MegaView;
use atomic_table::Seat;
use ds_base::Steps;
use program::SelectorId;
use std::sync::ledger::Ledger;

pub fn load_root<N: Named, L: Ledger>(
    table: &MegaTable,
    seat: &mut Seat<(), MegaView>,
    selector: SelectorId,
    steps: &mut Steps<L>,
) -> u8
    requires named { IsNamed N.about N.selector table.now selector.0 }
    requires reach { InReach N.about N.selector table.now seat.old }
    ensures same { SameSeat seat.old seat.new }
    ensures cost { steps.new ≡ steps.old + 1 }
    ensures told { SeesRoot N.about N.selector seat.old result seat.new }
{
    steps.tick();
    let found = table
        .table
        .shared
        .load::<LoadRoot<N>>(seat, 1 + selector.0 as usize * table.width as usize);
    found as u8
}

/// Sets the root to the next generation, unless another thread did. It gives the root that stands then.
pub fn raise_root<N: Named, L: Ledger>(
    table: &MegaTable,
    seat: &mut Seat<(), MegaView>,
    selector: SelectorId,
    class: u16,
    generation: u8,
    steps: &mut Steps<L>,
) -> u8
    requires named { IsNamed N.about N.selector table.now selector.0 }
    requires reach { InReach N.about N.selector table.now seat.old }
    requires class { class < N.about.classes }
    requires root { SawRoot N.about N.selector generation seat.old }
    requires full { SawOthers N.selector class generation 8 seat.old.me.0 }
    ensures same { SameSeat seat.old seat.new }
    ensures cost { steps.new ≡ steps.old + 1 }
    ensures told { SeesRoot N.about N.selector seat.old result seat.new }
    ensures rose { generation < result }
{
    steps.tick();
    let old = generation as u64;
    let found = table.table.shared.compare_exchange::<RaiseRoot<N>>(
        seat,
        1 + selector.0 as usize * table.width as usize,
        old,
        old + 1,
    );
    if found == old {
        generation + 1
    } else {
        found as u8
    }
}

/// What stands at a place.
pub fn load_place<N: Named, L: Ledger>(
    table: &MegaTable,
    seat: &mut Seat<(), MegaView>,
    selector: SelectorId,
    place: u32,
    steps: &mut Steps<L>,
) -> Option<Entry>
    requires named { IsNamed N.about N.selector table.now selector.0 }
    requires reach { InReach N.about N.selector table.now seat.old }
    requires place { (0 < place) × (place < width_of N.about) }
    ensures same { SameSeat seat.old seat.new }
    ensures cost { steps.new ≡ steps.old + 1 }
    ensures told { SeesPlace N.about N.selector place seat.old result seat.new }
{
    steps.tick();
    let found = table.table.shared.load::<LoadPlace<N>>(
        seat,
        1 + selector.0 as usize * table.width as usize + place as usize,
    );
    unpack(found)
}

/// Sets a place of the window, unless another thread did. It gives what stands there then.
pub fn claim_place<N: Named, L: Ledger>(
    table: &MegaTable,
    seat: &mut Seat<(), MegaView>,
    selector: SelectorId,
    entry: Entry,
    generation: u8,
    turn: u32,
    steps: &mut Steps<L>,
) -> Entry
    requires named { IsNamed N.about N.selector table.now selector.0 }
    requires reach { InReach N.about N.selector table.now seat.old }
    requires entry { IsEntry N.about N.selector entry }
    requires root { SawRoot N.about N.selector generation seat.old }
    requires turn { turn < 8 }
    requires before { SawOthers N.selector entry.class.0 generation turn seat.old.me.0 }
    ensures same { SameSeat seat.old seat.new }
    ensures cost { steps.new ≡ steps.old + 1 }
    ensures told { SeesAt N.about N.selector entry generation turn seat.old result seat.new }
{
    steps.tick();
    let place = window_place(entry.class.0, generation, turn);
    let new = pack(entry);
    let found = table.table.shared.compare_exchange::<ClaimPlace<N>>(
        seat,
        1 + selector.0 as usize * table.width as usize + place as usize,
        0,
        new,
    );
    match unpack(found) {
        None => entry,
        Some(other) => other,
    }
}
