// The texts of the program of the built-in classes.
ghost use Rattle.std.specs.Prelude.{◌≡◌, [], length, All, IfOk};
ghost use Rattle.isolate_run.specs.declared.ended.Ended.{Ended};
ghost use Rattle.miss_handler.specs.declared.state.CallState.TheVariants.{Unlinked};

use crate::{check_text, list_text, load_text, run_text};
use dart_values::Trap;
use ds_base::NoMemory;
use isolate_run::{Ended, Ending};
use method_lookup::Linked;
use miss_handler::{CallState, Row, SiteStates};
use program::{SiteId, built_in_program};
use sqlite_items::Items;
use std::alloc::Global;
use std::process::Abort;

/// So many sites that had no call.
struct NoCalls(u32);

impl SiteStates for NoCalls {
    ghost sites = { λ s. s.0 };

    ghost state_at = { λ s k. Unlinked };

    ghost row_at = { λ s k. [] };

    fn state(&self, _: SiteId) -> CallState {
        CallState::Unlinked
    }

    fn row(&self, _: SiteId) -> Row {
        Row::empty()
    }
}

/// An entry that printed `h` and half of a pair, and threw a pair.
fn thrown(alloc: Global) -> Result<Ended, NoMemory>
    ensures { IfOk result (λ e. length e.calls.items ≡ 2) }
{
    let pair = Items::from_slice(alloc, &[0xD83D, 0xDE00])?;
    let half = Items::from_slice(alloc, &[0x68, 0xD83D])?;
    let mut lines = Vec::new(alloc);
    lines.push(half)?;
    let calls = vec![in alloc; 3; 2]?;
    Ok(Ended {
        lines,
        ending: Ending::Threw(Trap::Thrown(pair)),
        calls,
    })
}

fn tells_entries(
    rt: &impl Abort,
    alloc: Global,
    linked: &Linked,
    names: &[String],
    ended: &[Ended],
) -> Result<(), NoMemory>
    requires names { length names.now ≡ 1 }
    requires ended { length ended.now ≡ 1 }
    requires sites { length linked.now.program.sites ≡ 2 }
    requires calls { All (λ (e : Ended). length e.calls.items ≡ 2) ended.now }
{
    let run = run_text(alloc, linked, names, ended, &NoCalls(2))?;
    let told =
        "entry 0 main\nh\u{FFFD}\nend threw Thrown \u{1F600}\nsites 2\n0 toString/0 print calls 3 unlinked\n1 toString/0 list calls 3 unlinked\n";
    assert!(rt; run.as_slice() == told.as_bytes());
    let load = load_text(alloc, linked, names, ended)?;
    let told =
        "classes 7\nsites 2\nentry 0 main lines 1 last h\u{FFFD} end threw Thrown \u{1F600}\ncalls 6\n";
    assert!(rt; load.as_slice() == told.as_bytes());
    Ok(())
}

fn tells_program(rt: &impl Abort, alloc: Global, linked: &Linked) -> Result<(), NoMemory> {
    let check = check_text(alloc, linked)?;
    assert!(rt; check.as_slice() == b"ok classes 7 methods 49 selectors 1 sites 2\n".as_slice());
    let list = list_text(alloc, linked)?;
    assert!(rt;
        list.starts_with(b"class 0 Object parent - last 6\nclass 1 Null parent 0 last 1\n")
    );
    assert!(rt; list.ends_with(b"site 0 toString/0 print\nsite 1 toString/0 list\n"));
    Ok(())
}

fn tells(rt: &impl Abort, alloc: Global, linked: &Linked) -> Result<(), NoMemory>
    requires { length linked.now.program.sites ≡ 2 }
{
    let mut names = Vec::new(alloc);
    names.push(String::from_str(alloc, "main")?)?;
    let mut ended = Vec::new(alloc);
    ended.push(thrown(alloc)?)?;
    tells_program(rt, alloc, linked)?;
    tells_entries(rt, alloc, linked, &names, &ended)
}

fn built_in(alloc: Global) -> Result<Linked, NoMemory>
    ensures { IfOk result (λ l. length l.program.sites ≡ 2) }
{
    Linked::build(alloc, built_in_program(alloc)?)
}

#[test]
fn tells_what_is_there_and_what_was_done(rt: HostRuntime) -> Result<(), NoMemory> {
    let linked = built_in(rt.alloc())?;
    tells(&rt, rt.alloc(), &linked)
}
