// One site of plain cells through all states.
ghost use Rattle.std.specs.Prelude.{◌≡◌, ◌<◌};
ghost use Rattle.call_cell.specs.Plain.{linked_of};

use crate::calling::{call, target_of};
use crate::ladders::linked_of;
use call_cell::{How, PlainCells};
use ds_base::{NoMemory, Steps};
use method_lookup::Linked;
use miss_handler::{CallState, SiteStates};
use program::{ClassId, SiteId, Target};
use std::alloc::Global;
use std::marker::Brand;
use std::process::Abort;
use std::sync::ledger::{Blank, Ledger};
use std::test::Fail;

/// The state of site 0.
fn state_of(cells: &PlainCells, linked: &Linked) -> Option<CallState>
    requires { linked_of cells.now ≡ linked.now }
{
    if linked.program().sites.is_empty() {
        return None;
    }
    Some(cells.state(SiteId(0)))
}

/// Calls site 0 on a class, and compares the answer with lookup, and how it came and the stamp with what is expected.
fn turn<L: Ledger>(
    rt: &impl Abort,
    cells: &mut PlainCells,
    linked: &Linked,
    class: u16,
    how: How,
    stamp: u16,
    steps: &mut Steps<L>,
) -> Option<CallState>
    requires { linked_of cells.old ≡ linked.now }
    ensures { linked_of cells.new ≡ linked.now }
{
    let told = call(cells, linked, 0, class, steps);
    assert_eq!(rt; told.map(|d| d.target), target_of(linked, 0, class));
    assert_eq!(rt; told.map(|d| d.how), Some(how));
    assert_eq!(rt; told.map(|d| d.stamp), Some(stamp));
    state_of(cells, linked)
}

/// To Mono and Single, and hits there.
fn first_states<L: Ledger>(
    rt: &impl Abort,
    cells: &mut PlainCells,
    linked: &Linked,
    steps: &mut Steps<L>,
) -> Option<Target>
    requires { linked_of cells.old ≡ linked.now }
    ensures { linked_of cells.new ≡ linked.now }
{
    let m = target_of(linked, 0, 7)?;
    let single = CallState::Single(ClassId(7), ClassId(8), m);
    assert_eq!(rt; state_of(cells, linked), Some(CallState::Unlinked));
    assert_eq!(rt;
        turn(rt, cells, linked, 7, How::Miss, 1, steps),
        Some(CallState::Mono(ClassId(7)))
    );
    assert_eq!(rt;
        turn(rt, cells, linked, 7, How::Hit, 1, steps),
        Some(CallState::Mono(ClassId(7)))
    );
    assert_eq!(rt;
        turn(rt, cells, linked, 8, How::Miss, 2, steps),
        Some(single)
    );
    assert_eq!(rt;
        turn(rt, cells, linked, 7, How::Hit, 2, steps),
        Some(single)
    );
    Some(m)
}

/// To Cached and Mega, and hits there. Class 9 stands in the row when the site becomes megamorphic, and still is a miss.
fn last_states<L: Ledger>(
    rt: &impl Abort,
    cells: &mut PlainCells,
    linked: &Linked,
    steps: &mut Steps<L>,
)
    requires { linked_of cells.old ≡ linked.now }
    ensures { linked_of cells.new ≡ linked.now }
{
    assert_eq!(rt;
        turn(rt, cells, linked, 9, How::Miss, 3, steps),
        Some(CallState::Cached)
    );
    assert_eq!(rt;
        turn(rt, cells, linked, 9, How::Hit, 3, steps),
        Some(CallState::Cached)
    );
    assert_eq!(rt;
        turn(rt, cells, linked, 10, How::Miss, 3, steps),
        Some(CallState::Cached)
    );
    assert_eq!(rt;
        turn(rt, cells, linked, 11, How::Miss, 3, steps),
        Some(CallState::Cached)
    );
    assert_eq!(rt;
        turn(rt, cells, linked, 12, How::Miss, 3, steps),
        Some(CallState::Cached)
    );
    assert_eq!(rt;
        turn(rt, cells, linked, 10, How::Hit, 3, steps),
        Some(CallState::Cached)
    );
    assert_eq!(rt;
        turn(rt, cells, linked, 7, How::Miss, 4, steps),
        Some(CallState::Mega)
    );
    assert_eq!(rt;
        turn(rt, cells, linked, 7, How::Hit, 4, steps),
        Some(CallState::Mega)
    );
    assert_eq!(rt;
        turn(rt, cells, linked, 9, How::Miss, 4, steps),
        Some(CallState::Mega)
    );
    assert_eq!(rt;
        turn(rt, cells, linked, 9, How::Hit, 4, steps),
        Some(CallState::Mega)
    );
}

fn all_states<L: Ledger>(rt: &impl Abort, alloc: Global, blank: Blank) -> Result<(), NoMemory>
    requires name { blank.name ≡ L.name }
    requires parts { blank.parts ≡ L.parts }
    requires some { 0 < blank.parts }
{
    let mut steps = Steps::<L>::begin(blank);
    let linked = linked_of(alloc, 4)?;
    let mut cells = PlainCells::build(alloc, &linked)?;
    assert!(rt; first_states(rt, &mut cells, &linked, &mut steps).is_some());
    last_states(rt, &mut cells, &linked, &mut steps);
    Ok(())
}

#[test]
fn a_site_goes_through_all_states_and_back_to_hits(rt: HostRuntime) -> Result<(), Fail> {
    all_states::<Brand>(&rt, rt.alloc(), Blank::new(1))?;
    Ok(())
}
