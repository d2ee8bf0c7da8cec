// What a miss makes of a call site.
ghost use Rattle.std.specs.Prelude.{◌≡◌, ◌<◌, ◌≤◌, ◌+◌, ◌*◌, ◌↔◌, min, IsTrue, length};
ghost use Rattle.program.specs.Parts.{is_concrete};
ghost use Rattle.miss_handler.specs.States.{checks_of, state_by_room, Covers, OneTarget, one_target, StaysLawful, CoversAfter, Later};
ghost use Rattle.miss_handler.specs.States as spec;
ghost use Rattle.miss_handler.specs.Sites.{selector_of, receivers_at, visits, range_visits, miss_visits, IsNamed, NeedsNoLookup};

use crate::row::Row;
use crate::state::{Advance, CallState};
use ds_base::Steps;
use method_lookup::Linked;
use program::{ClassId, SelectorId, SiteId, Target};
use std::sync::ledger::Ledger;

/// The selector that calls at a site ask.
pub fn selector_at(linked: &Linked, site: SiteId) -> SelectorId
    requires { site.0 < length linked.now.program.sites }
    ensures selector { result.0 ≡ selector_of linked.now.program.sites site.0 }
    ensures there { result.0 < length linked.now.program.selectors }
{
    linked.program().sites.as_slice()[site.0 as usize].selector
}

/// Where a call at a site on the class goes.
fn target_at<L: Ledger>(linked: &Linked, site: SiteId, c: ClassId, steps: &mut Steps<L>) -> Target
    requires site { site.0 < length linked.now.program.sites }
    requires class { c.0 < length linked.now.program.classes }
    ensures target { result ≡ (receivers_at linked.now site.0).resolve c.0 }
    ensures cost { steps.new ≤ steps.old + 2 * length linked.now.program.classes }
{
    let selector = selector_at(linked, site);
    linked.resolve_target(c, selector, steps)
}

/// Whether the class is abstract, or a call at a site on it goes to the target.
fn serves<L: Ledger>(
    linked: &Linked,
    site: SiteId,
    t: Target,
    c: ClassId,
    steps: &mut Steps<L>,
) -> bool
    requires site { site.0 < length linked.now.program.sites }
    requires class { c.0 < length linked.now.program.classes }
    ensures serves { result ≡ spec.serves (receivers_at linked.now site.0) t c.0 }
    ensures cost { steps.new ≤ steps.old + 2 * length linked.now.program.classes }
{
    linked.classes().is_abstract(c) || target_at(linked, site, c, steps) == t
}

/// The number behind a class, or behind the last one where it is none of the program's.
fn end_of(linked: &Linked, hi: ClassId) -> u32
    ensures { result ≡ min (hi.0 + 1) (length linked.now.program.classes) }
{
    (hi.0 as u32 + 1).min(linked.classes().count())
}

/// Whether calls at a site on each concrete class from lo to hi go to the target.
pub fn is_single_range<L: Ledger>(
    linked: &Linked,
    site: SiteId,
    lo: ClassId,
    hi: ClassId,
    t: Target,
    steps: &mut Steps<L>,
) -> bool
    requires { site.0 < length linked.now.program.sites }
    ensures range { IsTrue result ↔ OneTarget (receivers_at linked.now site.0) lo.0 hi.0 t }
    ensures test { result ≡ one_target (receivers_at linked.now site.0) lo.0 hi.0 t }
    ensures cost { steps.new ≤ steps.old + range_visits linked.now }
{
    for class in lo.0 as u32..end_of(linked, hi) {
        if !serves(linked, site, t, ClassId(class as u16), steps) {
            return false;
        }
    }
    true
}

/// The range, where it has one target, or else the other advance.
fn range_or<L: Ledger>(
    linked: &Linked,
    site: SiteId,
    ends: (ClassId, ClassId),
    t: Target,
    other: Advance,
    steps: &mut Steps<L>,
) -> Advance
    requires { site.0 < length linked.now.program.sites }
    ensures range { result ≡ spec.range_or (receivers_at linked.now site.0) ends.0.0 ends.1.0 t other }
    ensures cost { steps.new ≤ steps.old + range_visits linked.now }
{
    if is_single_range(linked, site, ends.0, ends.1, t, steps) {
        Advance::to(CallState::Single(ends.0, ends.1, t))
    } else {
        other
    }
}

/// Cached while the row has room for another check.
fn cached_or_mega(row: &Row) -> CallState
    ensures { result ≡ state_by_room (checks_of row.now) }
{
    if row.len() < 4 {
        CallState::Cached
    } else {
        CallState::Mega
    }
}

/// What a miss makes of a site, by the cases of the state.
fn advance_of<L: Ledger>(
    linked: &Linked,
    site: SiteId,
    state: CallState,
    row: &Row,
    c: ClassId,
    steps: &mut Steps<L>,
) -> Advance
    requires site { site.0 < length linked.now.program.sites }
    requires named { IsNamed (length linked.now.program.classes) state }
    ensures next { result ≡ spec.next (receivers_at linked.now site.0) state (checks_of row.now) c.0 }
    ensures cost { steps.new ≤ steps.old + miss_visits linked.now }
    ensures free { NeedsNoLookup state → steps.new ≡ steps.old }
{
    match state {
        CallState::Unlinked => Advance::to(CallState::Mono(c)),
        CallState::Mono(a) => {
            let t = target_at(linked, site, a, steps);
            let cached = Advance::adding_both(CallState::Cached, a, c);
            let ends = (ClassId(a.0.min(c.0)), ClassId(a.0.max(c.0)));
            range_or(linked, site, ends, t, cached, steps)
        }
        CallState::Single(lo, hi, t) => {
            let cached = Advance::adding(CallState::Cached, c);
            let ends = (ClassId(lo.0.min(c.0)), ClassId(hi.0.max(c.0)));
            range_or(linked, site, ends, t, cached, steps)
        }
        CallState::Cached => Advance::adding(cached_or_mega(row), c),
        CallState::Mega => Advance::adding(CallState::Mega, c),
    }
}

/// What a call on a class that is not covered makes of a site: the new state, and the classes to add to its row or, in Mega, to the table of its selector.
pub fn next<L: Ledger>(
    linked: &Linked,
    site: SiteId,
    state: CallState,
    row: &Row,
    c: ClassId,
    steps: &mut Steps<L>,
) -> Advance
    requires site { site.0 < length linked.now.program.sites }
    requires named { IsNamed (length linked.now.program.classes) state }
    requires concrete { IsTrue (is_concrete linked.now.program.classes c.0) }
    requires uncovered { ¬ Covers state (checks_of row.now) c.0 }
    ensures next { result ≡ spec.next (receivers_at linked.now site.0) state (checks_of row.now) c.0 }
    ensures later { Later state result.state }
    ensures lawful { StaysLawful (receivers_at linked.now site.0) state (checks_of row.now) result }
    ensures covers { CoversAfter (receivers_at linked.now site.0) (checks_of row.now) result c.0 }
    ensures cost { steps.new ≤ steps.old + miss_visits linked.now }
    ensures free { NeedsNoLookup state → steps.new ≡ steps.old }
{
    advance_of(linked, site, state, row, c, steps)
}
