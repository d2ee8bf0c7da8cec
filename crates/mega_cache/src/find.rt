// Looks for a class in the generation of the root.
ghost use Rattle.std.specs.Prelude.{◌≡◌, ◌+◌, ◌<◌, ◌≤◌};
ghost use Rattle.mega_cache.specs.Finds.{IsNamed, InReach, SameSeat, FindIs, HasTarget, FoundAgain};

use crate::generations::window_place;
use crate::kinds::Named;
use crate::steps::{load_place, load_root};
use crate::table::MegaTable;
use crate::view::{Found, MegaView};
use atomic_table::Seat;
use ds_base::Steps;
use program::SelectorId;
use std::sync::ledger::Ledger;

/// Reads the window of the class up to the class or the first empty place.
pub fn search<N: Named, L: Ledger>(
    table: &MegaTable,
    seat: &mut Seat<(), MegaView>,
    selector: SelectorId,
    class: u16,
    steps: &mut Steps<L>,
) -> Found
    requires named { IsNamed N.about N.selector table.now selector.0 }
    requires reach { InReach N.about N.selector table.now seat.old }
    ensures same { SameSeat seat.old seat.new }
    ensures found { FindIs N.selector class result seat.old.me.0 seat.new.me.0 }
    ensures target { HasTarget (N.about.resolve class N.selector) result }
    ensures again { FoundAgain N.selector class result seat.old.me.0 }
    ensures cost { steps.new ≤ steps.old + 9 }
{
    let generation = load_root::<N, L>(table, seat, selector, steps);
    for turn in 0..8u32 {
        let place = window_place(class, generation, turn);
        match load_place::<N, L>(table, seat, selector, place, steps) {
            None => return Found::Absent { generation },
            Some(entry) => {
                if entry.class.0 == class {
                    let target = entry.target;
                    return Found::At { target, generation };
                }
            }
        }
    }
    Found::Absent { generation }
}
