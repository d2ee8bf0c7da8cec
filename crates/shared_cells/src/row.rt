// Looks through the checks of a site, and adds to them.
ghost use Rattle.miss_handler.specs.declared.state.CallState.TheVariants.{Mono};
ghost use Rattle.miss_handler.specs.States.{class_id};
ghost use Rattle.list_members.specs.Members.{Has};
ghost use Rattle.cell_rule.specs.Steps.{IsNamed, SameSeat, Knows, CachedSeen, CallsIt, OthersSeen};
ghost use Rattle.cell_rule.specs.Words.{CheckFits};
ghost use Rattle.shared_cells.specs.Callings.{IsCall, IsNamedOf, CanCall};
ghost use Rattle.shared_cells.specs.Reading.{SoughtIs, Standing, ReadsOn, FirstPlaced, MonoSeen};
ghost use Rattle.std.specs.Prelude.{◌≡◌, ◌+◌, ◌-◌, ◌<◌, ◌≤◌};

use crate::answer::Sought;
use crate::states::resolve;
use atomic_table::Seat;
use cell_rule::{Call, CellWords, View, claim_check, load_check};
use ds_base::Steps;
use method_lookup::Linked;
use miss_handler::{CallState, Check};
use program::{ClassId, SiteId};
use std::sync::ledger::Ledger;

/// Looks for the class from check 0 on, up to it, the first empty check or the fourth.
pub fn seek<N: Call, L: Ledger>(
    words: &CellWords,
    seat: &mut Seat<(), View>,
    site: SiteId,
    class: ClassId,
    steps: &mut Steps<L>,
) -> Sought
    requires named { IsCall N.about N.site N.class words.now site.0 class.0 }
    requires reach { CanCall N.about N.site N.class words.now seat.old }
    requires knows { Knows N.about seat.old.me.0 }
    ensures same { SameSeat seat.old seat.new }
    ensures knows { Knows N.about seat.new.me.0 }
    ensures sought { SoughtIs N.about N.site N.class result seat.old.me.0 seat.new.me.0 }
    ensures cost { steps.new ≤ steps.old + 4 }
{
    for place in 0..4u8 {
        match load_check::<N, L>(words, seat, site, place, steps) {
            None => return Sought::Room(place),
            Some(found) => {
                if found.class.0 == class.0 {
                    return Sought::Stands(found.target);
                }
            }
        }
    }
    Sought::Full
}

/// Claims the places from `from` on for a check, until its class stands. It tells whether it does.
pub fn take<N: Call, L: Ledger>(
    words: &CellWords,
    seat: &mut Seat<(), View>,
    site: SiteId,
    check: Check,
    from: u8,
    steps: &mut Steps<L>,
) -> bool
    requires named { IsNamed N.about N.site words.now site.0 }
    requires reach { CanCall N.about N.site N.class words.now seat.old }
    requires knows { Knows N.about seat.old.me.0 }
    requires from { from ≤ 4 }
    requires target { check.target ≡ (N.about.at N.site).resolve check.class.0 }
    requires fits { CheckFits check }
    requires cached { CachedSeen N.site seat.old.me.0 }
    requires called { CallsIt N.site check.class.0 seat.old.me.0 }
    requires before { OthersSeen N.site check.class.0 from seat.old.me.0 }
    ensures same { SameSeat seat.old seat.new }
    ensures knows { Knows N.about seat.new.me.0 }
    ensures on { ReadsOn N.site seat.old.me.0 seat.new.me.0 }
    ensures stands { Standing N.site check.class.0 result seat.new.me.0 }
    ensures cost { steps.new ≤ steps.old + (4 - from) }
{
    for place in from..4u8 {
        let stands = claim_check::<N, L>(words, seat, site, place, check, steps);
        if stands.class.0 == check.class.0 {
            return true;
        }
    }
    false
}

/// Adds the class of a site that was monomorphic.
pub fn add_first<N: Call, L: Ledger>(
    words: &CellWords,
    seat: &mut Seat<(), View>,
    linked: &Linked,
    site: SiteId,
    state: CallState,
    steps: &mut Steps<L>,
)
    requires named { IsNamedOf N.about N.site words.now linked.now site.0 }
    requires reach { CanCall N.about N.site N.class words.now seat.old }
    requires knows { Knows N.about seat.old.me.0 }
    requires cached { CachedSeen N.site seat.old.me.0 }
    requires first { MonoSeen N.about N.site state seat.old.me.0 }
    ensures same { SameSeat seat.old seat.new }
    ensures knows { Knows N.about seat.new.me.0 }
    ensures on { ReadsOn N.site seat.old.me.0 seat.new.me.0 }
    ensures placed { FirstPlaced N.site state seat.new.me.0 }
    ensures cost { steps.new ≤ steps.old + 4 }
{
    match state {
        CallState::Mono(class) => {
            let target = resolve(linked, site, class);
            take::<N, L>(words, seat, site, Check { class, target }, 0, steps);
        }
        CallState::Unlinked | CallState::Single(_, _, _) | CallState::Cached | CallState::Mega => {}
    }
}
