// What plain cells keep of one site.
ghost use Rattle.std.specs.Prelude.{◌≡◌, ◌<◌, ◌≤◌, ◌+◌, ◌++◌, IsTrue, IfSome, if◌then◌else◌, length, false};
ghost use Rattle.program.specs.Parts.{is_concrete};
ghost use Rattle.miss_handler.specs.States.{checks_of, covers, moves, missed, added, row_after, unlinked, next};
ghost use Rattle.miss_handler.specs.Sites.{receivers_at, IsNamed};
ghost use Rattle.call_cell.specs.Kept.{is_mega, target_for, site_cell, HasTarget, HasRoom};

use ds_base::Steps;
use method_lookup::Linked;
use miss_handler::{Advance, CallState, Row, is_transition, next, selector_at};
use program::{ClassId, MethodId, SiteId, Target};
use std::marker::Brand;
use std::sync::ledger::{Blank, Ledger};

/// A site's state with its row, and the number of transitions that led there.
#[derive(Clone, Copy)]
pub struct Cell {
    pub state: CallState,
    /// Where calls on the class of a Mono go.
    pub target: Target,
    pub row: Row,
    pub stamp: u16,
}

/// A site that had no call.
pub fn unlinked() -> Cell
    ensures { site_cell result ≡ unlinked }
{
    Cell {
        state: CallState::Unlinked,
        target: Target::Method(MethodId(0)),
        row: Row::empty(),
        stamp: 0,
    }
}

#[inline(always)]
pub fn is_mega(state: CallState) -> bool
    ensures { result ≡ is_mega state }
{
    match state {
        CallState::Mega => true,
        CallState::Unlinked | CallState::Mono(_) | CallState::Single(_, _, _) | CallState::Cached =>
            false,
    }
}

/// The target that the site itself has for a class, if it covers it.
#[inline(always)]
pub fn target_for(cell: &Cell, c: ClassId) -> Option<Target>
    ensures { result ≡ target_for cell.now.state cell.now.target (checks_of cell.now.row) c.0 }
{
    match cell.state {
        CallState::Unlinked | CallState::Mega => None,
        CallState::Mono(a) => { if c.0 == a.0 { Some(cell.target) } else { None } }
        CallState::Single(lo, hi, t) => {
            if lo.0 <= c.0 && c.0 <= hi.0 {
                Some(t)
            } else {
                None
            }
        }
        CallState::Cached => cell.row.target_of(c),
    }
}

/// Where a call at a site on the class goes, by lookup.
pub fn target_at(linked: &Linked, site: SiteId, c: ClassId) -> Target
    requires site { site.0 < length linked.now.program.sites }
    requires class { c.0 < length linked.now.program.classes }
    ensures { result ≡ (receivers_at linked.now site.0).resolve c.0 }
{
    linked.target_of(c, selector_at(linked, site))
}

fn next_by<L: Ledger>(
    linked: &Linked,
    site: SiteId,
    cell: &Cell,
    c: ClassId,
    blank: Blank,
) -> Advance
    requires name { blank.name ≡ L.name }
    requires parts { blank.parts ≡ L.parts }
    requires some { 0 < blank.parts }
    requires site { site.0 < length linked.now.program.sites }
    requires concrete { IsTrue (is_concrete linked.now.program.classes c.0) }
    requires named { IsNamed (length linked.now.program.classes) cell.now.state }
    requires uncovered { covers cell.now.state (checks_of cell.now.row) c.0 ≡ false }
    ensures { result ≡ next (receivers_at linked.now site.0) cell.now.state (checks_of cell.now.row) c.0 }
{
    let mut steps = Steps::<L>::begin(blank);
    next(linked, site, cell.state, &cell.row, c, &mut steps)
}

/// What a miss makes of a site. Its lookups are counted apart.
fn advance_of(linked: &Linked, site: SiteId, cell: &Cell, c: ClassId) -> Advance
    requires site { site.0 < length linked.now.program.sites }
    requires concrete { IsTrue (is_concrete linked.now.program.classes c.0) }
    requires named { IsNamed (length linked.now.program.classes) cell.now.state }
    requires uncovered { covers cell.now.state (checks_of cell.now.row) c.0 ≡ false }
    ensures { result ≡ next (receivers_at linked.now site.0) cell.now.state (checks_of cell.now.row) c.0 }
{
    next_by::<Brand>(linked, site, cell, c, Blank::new(1))
}

/// The row with the check of a class, where there is one to add.
fn row_with(linked: &Linked, site: SiteId, row: Row, add: Option<ClassId>) -> Row
    requires site { site.0 < length linked.now.program.sites }
    requires class { IfSome add (λ c. c.0 < length linked.now.program.classes) }
    requires room { IfSome add (λ c. length (checks_of row) < 4) }
    ensures { checks_of result ≡ checks_of row ++ added (receivers_at linked.now site.0) add }
{
    match add {
        Some(c) => row.added(c, target_at(linked, site, c)),
        None => row,
    }
}

/// The row with the adds made, unless they go to the table of the selector.
fn row_after(linked: &Linked, site: SiteId, row: Row, advance: Advance) -> Row
    requires site { site.0 < length linked.now.program.sites }
    requires room { HasRoom (receivers_at linked.now site.0) (checks_of row) advance }
    ensures { checks_of result ≡ row_after (receivers_at linked.now site.0) (checks_of row) advance }
{
    if is_mega(advance.state) {
        return row;
    }
    let row = row_with(linked, site, row, advance.add_first);
    row_with(linked, site, row, advance.add_second)
}

fn stamp_after(cell: &Cell) -> u16
    requires { cell.now.stamp ≤ 3000 }
    ensures { result ≡ (if moves cell.now.state (checks_of cell.now.row) then cell.now.stamp + 1 else cell.now.stamp) }
{
    if is_transition(cell.state, &cell.row) {
        cell.stamp + 1
    } else {
        cell.stamp
    }
}

/// What a call on a class that is not covered makes of a site, where the call goes to the target.
pub fn missed(linked: &Linked, site: SiteId, cell: &Cell, c: ClassId, target: Target) -> Cell
    requires site { site.0 < length linked.now.program.sites }
    requires concrete { IsTrue (is_concrete linked.now.program.classes c.0) }
    requires target { target ≡ (receivers_at linked.now site.0).resolve c.0 }
    requires named { IsNamed (length linked.now.program.classes) cell.now.state }
    requires room { HasRoom (receivers_at linked.now site.0) (checks_of cell.now.row) (next (receivers_at linked.now site.0) cell.now.state (checks_of cell.now.row) c.0) }
    requires stamp { cell.now.stamp ≤ 3000 }
    requires uncovered { covers cell.now.state (checks_of cell.now.row) c.0 ≡ false }
    ensures cell { site_cell result ≡ missed (receivers_at linked.now site.0) (site_cell cell.now) c.0 }
    ensures target { HasTarget (receivers_at linked.now site.0) result }
{
    let advance = advance_of(linked, site, cell, c);
    Cell {
        state: advance.state,
        target,
        row: row_after(linked, site, cell.row, advance),
        stamp: stamp_after(cell),
    }
}
