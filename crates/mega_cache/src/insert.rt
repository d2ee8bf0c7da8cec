// Adds a class in the generation of the root, or in a later one.
ghost use Rattle.std.specs.Prelude.{◌≡◌, ◌+◌, ◌*◌, ◌<◌, ◌≤◌};
ghost use Rattle.mega_cache.specs.Finds.{IsNamed, InReach, SameSeat, IsEntry, SawRoot, SawAt, SawOthers, KeepsSeen, IsSettled, StandsAt};

use crate::entry::Entry;
use crate::generations::window_place;
use crate::kinds::Named;
use crate::steps::{claim_place, load_place, load_root, raise_root};
use crate::table::MegaTable;
use crate::view::MegaView;
use atomic_table::Seat;
use ds_base::Steps;
use program::SelectorId;
use std::sync::ledger::Ledger;

/// The class at a place of the window, which is this one where the place was empty.
fn stand<N: Named, L: Ledger>(
    table: &MegaTable,
    seat: &mut Seat<(), MegaView>,
    selector: SelectorId,
    entry: Entry,
    generation: u8,
    turn: u32,
    steps: &mut Steps<L>,
) -> u16
    requires named { IsNamed N.about N.selector table.now selector.0 }
    requires reach { InReach N.about N.selector table.now seat.old }
    requires entry { IsEntry N.about N.selector entry }
    requires root { SawRoot N.about N.selector generation seat.old }
    requires turn { turn < 8 }
    requires before { SawOthers N.selector entry.class.0 generation turn seat.old.me.0 }
    ensures same { SameSeat seat.old seat.new }
    ensures later { KeepsSeen seat.old.me.0 seat.new.me.0 }
    ensures stands { SawAt N.selector entry.class.0 generation turn result seat.new.me.0 }
    ensures cost { steps.new ≤ steps.old + 2 }
{
    let place = window_place(entry.class.0, generation, turn);
    match load_place::<N, L>(table, seat, selector, place, steps) {
        Some(other) => other.class.0,
        None => {
            claim_place::<N, L>(table, seat, selector, entry, generation, turn, steps)
                .class
                .0
        }
    }
}

/// Adds the class in one generation, unless its window is full there.
fn settle<N: Named, L: Ledger>(
    table: &MegaTable,
    seat: &mut Seat<(), MegaView>,
    selector: SelectorId,
    entry: Entry,
    generation: u8,
    steps: &mut Steps<L>,
) -> bool
    requires named { IsNamed N.about N.selector table.now selector.0 }
    requires reach { InReach N.about N.selector table.now seat.old }
    requires entry { IsEntry N.about N.selector entry }
    requires root { SawRoot N.about N.selector generation seat.old }
    ensures same { SameSeat seat.old seat.new }
    ensures later { KeepsSeen seat.old.me.0 seat.new.me.0 }
    ensures settled { IsSettled N.selector entry.class.0 generation result seat.new.me.0 }
    ensures cost { steps.new ≤ steps.old + 16 }
{
    for turn in 0..8u32 {
        let stands = stand::<N, L>(table, seat, selector, entry, generation, turn, steps);
        if stands == entry.class.0 {
            return true;
        }
    }
    false
}

/// Adds the class, and gives the generation where it stands.
pub fn add<N: Named, L: Ledger>(
    table: &MegaTable,
    seat: &mut Seat<(), MegaView>,
    selector: SelectorId,
    entry: Entry,
    steps: &mut Steps<L>,
) -> u8
    requires named { IsNamed N.about N.selector table.now selector.0 }
    requires reach { InReach N.about N.selector table.now seat.old }
    requires entry { IsEntry N.about N.selector entry }
    ensures same { SameSeat seat.old seat.new }
    ensures later { KeepsSeen seat.old.me.0 seat.new.me.0 }
    ensures stands { StandsAt N.selector entry.class.0 result seat.new.me.0 }
    ensures within { result ≤ N.about.last }
    ensures cost { steps.new ≤ steps.old + (17 * result + 17) }
{
    let mut generation = load_root::<N, L>(table, seat, selector, steps);
    'generations: loop {
        if settle::<N, L>(table, seat, selector, entry, generation, steps) {
            return generation;
        }
        generation = raise_root::<N, L>(table, seat, selector, entry.class.0, generation, steps);
    }
}
