// The steps of a call, each one step of the table, and counted.
ghost use Rattle.cell_rule.specs.Steps.{IsNamed, InReach, SameSeat, IsCurrent, OpensTo, HeadTo, DataTo, AdvancedTo, CheckTo, OthersSeen, CallsIt, CachedSeen};
ghost use Rattle.cell_rule.specs.Words.{data_word, target_word, entry_of, DataFits, TargetFits, CheckFits, IsDataWord, IsTargetWord};
ghost use Rattle.cell_rule.specs.Histories.{Moved};
ghost use Rattle.list_members.specs.Members.{Has};
ghost use Rattle.cell_rule.specs.declared.view.Seen.TheVariants.{Head, Data};
ghost use Rattle.std.specs.Prelude.{◌≡◌, ℕ, ◌+◌, ◌*◌, ◌<◌, ◌≤◌, false, MatchOption, Some, IsTrue};

use crate::plays::{
    AdvanceData, Call, ClaimCheck, FinishTarget, LoadCheck, LoadData, LoadTarget, Open,
};
use crate::table::CellWords;
use crate::view::View;
use crate::words::{
    Entry, Info, entry_for, pack_check, pack_data, pack_target, unpack_check, unpack_data,
    unpack_target,
};
use atomic_table::Seat;
use ds_base::Steps;
use miss_handler::Check;
use program::SiteId;
use std::sync::ledger::Ledger;

fn read_target(word: u64) -> (u16, Entry)
    requires { IsTargetWord word }
    ensures { TargetFits result.0 result.1 × (word ≡ target_word result.0 result.1) }
{
    match unpack_target(word) {
        Some((stamp, stub, target)) => (stamp, Entry { stub, target }),
        None => unreachable!(),
    }
}

fn read_data(word: u64) -> (u16, Info)
    requires { IsDataWord word }
    ensures { DataFits result.0 result.1 × (word ≡ data_word result.0 result.1) }
{
    match unpack_data(word) {
        Some((stamp, state, target)) => (stamp, Info { state, target }),
        None => unreachable!(),
    }
}

/// Loads the target word, and opens a call.
pub fn open_call<N: Call, L: Ledger>(
    words: &CellWords,
    seat: &mut Seat<(), View>,
    site: SiteId,
    steps: &mut Steps<L>,
) -> (u16, Entry)
    requires named { IsNamed N.about N.site words.now site.0 }
    requires reach { InReach N.about N.site words.now seat.old }
    requires concrete { IsTrue ((N.about.at N.site).concrete N.class) }
    requires closed { seat.old.me.0.pending ≡ false }
    ensures same { SameSeat seat.old seat.new }
    ensures told { OpensTo N.about N.site N.class seat.old result seat.new }
    ensures cost { steps.new ≡ steps.old + 1 }
{
    steps.tick();
    let shared = &words.table.shared;
    let found = shared.load::<Open<N>>(seat, 6 * site.0 as usize + 1);
    read_target(found)
}

/// Loads the target word again.
pub fn load_target<N: Call, L: Ledger>(
    words: &CellWords,
    seat: &mut Seat<(), View>,
    site: SiteId,
    steps: &mut Steps<L>,
) -> (u16, Entry)
    requires named { IsNamed N.about N.site words.now site.0 }
    requires reach { InReach N.about N.site words.now seat.old }
    ensures same { SameSeat seat.old seat.new }
    ensures told { HeadTo N.about N.site seat.old result seat.new }
    ensures cost { steps.new ≡ steps.old + 1 }
{
    steps.tick();
    let shared = &words.table.shared;
    let found = shared.load::<LoadTarget<N>>(seat, 6 * site.0 as usize + 1);
    read_target(found)
}

/// Loads the data word.
pub fn load_data<N: Call, L: Ledger>(
    words: &CellWords,
    seat: &mut Seat<(), View>,
    site: SiteId,
    steps: &mut Steps<L>,
) -> (u16, Info)
    requires named { IsNamed N.about N.site words.now site.0 }
    requires reach { InReach N.about N.site words.now seat.old }
    requires current { IsCurrent N.site N.class seat.old.me.0 }
    ensures same { SameSeat seat.old seat.new }
    ensures told { DataTo N.about N.site N.class seat.old result seat.new }
    ensures cost { steps.new ≡ steps.old + 1 }
{
    steps.tick();
    let shared = &words.table.shared;
    let found = shared.load::<LoadData<N>>(seat, 6 * site.0 as usize + 2);
    read_data(found)
}

/// Installs the next data word over one that was seen with a target word of its stamp. None if it did, else the word that stood there.
pub fn advance_data<N: Call, L: Ledger>(
    words: &CellWords,
    seat: &mut Seat<(), View>,
    site: SiteId,
    seen: (u16, Info),
    next: Info,
    steps: &mut Steps<L>,
) -> Option<(u16, Info)>
    requires named { IsNamed N.about N.site words.now site.0 }
    requires reach { InReach N.about N.site words.now seat.old }
    requires current { IsCurrent N.site N.class seat.old.me.0 }
    requires head { (e : _) × Has (Head N.site seen.0 e) seat.old.me.0.seen }
    requires data { Has (Data N.site seen.0 seen.1) seat.old.me.0.seen }
    requires moved { Moved N.about N.site N.class seen.1 next seat.old.me.0.seen }
    requires fits { DataFits seen.0 seen.1 × DataFits (seen.0 + 1) next }
    ensures same { SameSeat seat.old seat.new }
    ensures won { AdvancedTo N.about N.site N.class seen next seat.old result seat.new }
    ensures rose { MatchOption result (Unit {0}) (λ r. seen.0 < r.0) }
    ensures cost { steps.new ≡ steps.old + 1 }
{
    let (stamp, info) = seen;
    let old = pack_data(stamp, info.state, info.target);
    let new = pack_data(stamp + 1, next.state, next.target);
    steps.tick();
    let shared = &words.table.shared;
    let found = shared.compare_exchange::<AdvanceData<N>>(seat, 6 * site.0 as usize + 2, old, new);
    if found == old {
        None
    } else {
        Some(read_data(found))
    }
}

/// Puts the target word that goes with a data word over the one before it, unless someone did. The target word that stands afterwards has a greater stamp.
pub fn finish_target<N: Call, L: Ledger>(
    words: &CellWords,
    seat: &mut Seat<(), View>,
    site: SiteId,
    head: (u16, Entry),
    info: Info,
    steps: &mut Steps<L>,
) -> (u16, Entry)
    requires named { IsNamed N.about N.site words.now site.0 }
    requires reach { InReach N.about N.site words.now seat.old }
    requires head { Has (Head N.site head.0 head.1) seat.old.me.0.seen }
    requires data { Has (Data N.site (head.0 + 1) info) seat.old.me.0.seen }
    requires fits { TargetFits head.0 head.1 × TargetFits (head.0 + 1) (entry_of info) }
    ensures same { SameSeat seat.old seat.new }
    ensures told { HeadTo N.about N.site seat.old result seat.new }
    ensures rose { head.0 < result.0 }
    ensures cost { steps.new ≡ steps.old + 1 }
{
    let (stamp, entry) = head;
    let old = pack_target(stamp, entry.stub, entry.target);
    let done = entry_for(info.state, info.target);
    let new = pack_target(stamp + 1, done.stub, done.target);
    steps.tick();
    let shared = &words.table.shared;
    let found = shared.compare_exchange::<FinishTarget<N>>(seat, 6 * site.0 as usize + 1, old, new);
    if found == old {
        (stamp + 1, done)
    } else {
        read_target(found)
    }
}

/// Loads the check at a place of the row. None where it is empty.
pub fn load_check<N: Call, L: Ledger>(
    words: &CellWords,
    seat: &mut Seat<(), View>,
    site: SiteId,
    place: u8,
    steps: &mut Steps<L>,
) -> Option<Check>
    requires named { IsNamed N.about N.site words.now site.0 }
    requires reach { InReach N.about N.site words.now seat.old }
    requires place { place < 4 }
    ensures same { SameSeat seat.old seat.new }
    ensures told { CheckTo N.about N.site place seat.old result seat.new }
    ensures cost { steps.new ≡ steps.old + 1 }
{
    steps.tick();
    let shared = &words.table.shared;
    let found = shared.load::<LoadCheck<N>>(seat, 6 * site.0 as usize + 3 + place as usize);
    unpack_check(found)
}

/// Sets the check at a place of the row, where none stands. It gives the check that stands afterwards.
pub fn claim_check<N: Call, L: Ledger>(
    words: &CellWords,
    seat: &mut Seat<(), View>,
    site: SiteId,
    place: u8,
    check: Check,
    steps: &mut Steps<L>,
) -> Check
    requires named { IsNamed N.about N.site words.now site.0 }
    requires reach { InReach N.about N.site words.now seat.old }
    requires place { place < 4 }
    requires target { check.target ≡ (N.about.at N.site).resolve check.class.0 }
    requires fits { CheckFits check }
    requires cached { CachedSeen N.site seat.old.me.0 }
    requires called { CallsIt N.site check.class.0 seat.old.me.0 }
    requires before { OthersSeen N.site check.class.0 place seat.old.me.0 }
    ensures same { SameSeat seat.old seat.new }
    ensures told { CheckTo N.about N.site place seat.old (Some result) seat.new }
    ensures cost { steps.new ≡ steps.old + 1 }
{
    steps.tick();
    let new = pack_check(check);
    let at = 6 * site.0 as usize + 3 + place as usize;
    let found = words
        .table
        .shared
        .compare_exchange::<ClaimCheck<N>>(seat, at, 0, new);
    match unpack_check(found) {
        None => check,
        Some(other) => other,
    }
}
