// The lines of sites in the text of `run`.
ghost use Rattle.std.specs.Prelude.{◌≡◌, ◌<◌, ◌≤◌, ◌++◌, length, OnOk, slice_get};
ghost use Rattle.std.specs.List.{flat_map, enumerate_from};
ghost use Rattle.program.specs.Program.{parts_of};
ghost use Rattle.miss_handler.specs.States.{checks_of};
ghost use Rattle.miss_handler.specs.Sites.{IsNamed};
ghost use Rattle.site_report.specs.Report.{arrow_text, check_of, row_text, state_text, site_line, sites_text, AreCounted, AreNamed, count_at};

use crate::counts::count_at;
use crate::names::{class_name, push_site_name, push_target};
use byte_texts::{push, push_number};
use ds_base::NoMemory;
use isolate_run::Ended;
use method_lookup::Linked;
use miss_handler::{CallState, Row, SiteStates};
use program::{ClassId, Numbered, SelectorId, Site, SiteId, Target};

#[tactic(auto, unfolding(crate::specs::Report::arrow_text))]
fn push_arrow(out: &mut Vec<u8>, program: &Numbered, c: ClassId, t: Target) -> Result<(), NoMemory>
    ensures { OnOk result (out.new.items ≡ out.old.items ++ arrow_text (parts_of program.now) c.0 t) }
{
    push(out, class_name(program, c))?;
    push(out, b" -> ")?;
    push_target(out, program, t)
}

fn push_check(out: &mut Vec<u8>, program: &Numbered, row: &Row, i: u32) -> Result<(), NoMemory>
    requires { i < length (checks_of row.now) }
    ensures { OnOk result (out.new.items ≡ out.old.items ++ check_of (parts_of program.now) (slice_get (checks_of row.now) i)) }
{
    push_arrow(out, program, row.class_at(i), row.target_at(i))
}

/// The checks of a row.
fn push_row(out: &mut Vec<u8>, program: &Numbered, row: &Row) -> Result<(), NoMemory>
    ensures { OnOk result (out.new.items ≡ out.old.items ++ row_text (parts_of program.now) (checks_of row.now)) }
{
    if row.len() == 0 {
        return Ok(());
    }
    push(out, b" ")?;
    push_check(out, program, row, 0)?;
    for i in 1..row.len() {
        push(out, b", ")?;
        push_check(out, program, row, i)?;
    }
    Ok(())
}

fn push_state(
    out: &mut Vec<u8>,
    linked: &Linked,
    selector: SelectorId,
    state: CallState,
    row: &Row,
) -> Result<(), NoMemory>
    requires selector { selector.0 < length linked.now.program.selectors }
    requires named { IsNamed (length linked.now.program.classes) state }
    ensures { OnOk result (out.new.items ≡ out.old.items ++ state_text (parts_of linked.now.program) selector.0 state (checks_of row.now)) }
{
    let program = linked.program();
    match state {
        CallState::Unlinked => push(out, b"unlinked"),
        CallState::Mono(a) => {
            push(out, b"mono ")?;
            push_arrow(out, program, a, linked.target_of(a, selector))
        }
        CallState::Single(lo, hi, t) => {
            push(out, b"single ")?;
            push(out, class_name(program, lo))?;
            push(out, b"..")?;
            push_arrow(out, program, hi, t)
        }
        CallState::Cached => {
            push(out, b"cached")?;
            push_row(out, program, row)
        }
        CallState::Mega => push(out, b"mega"),
    }
}

#[tactic(auto, unfolding(crate::specs::Report::site_line))]
fn push_site(
    out: &mut Vec<u8>,
    linked: &Linked,
    number: usize,
    site: Site,
    count: u128,
    state: CallState,
    row: &Row,
) -> Result<(), NoMemory>
    requires selector { site.selector.0 < length linked.now.program.selectors }
    requires named { IsNamed (length linked.now.program.classes) state }
    ensures { OnOk result (out.new.items ≡ out.old.items ++ site_line (parts_of linked.now.program) number site count state (checks_of row.now)) }
{
    push_site_name(out, linked.program(), number, site)?;
    push(out, b" calls ")?;
    push_number(out, count)?;
    push(out, b" ")?;
    push_state(out, linked, site.selector, state, row)?;
    push(out, b"\n")
}

/// How many sites there are, and the line of each.
#[tactic(auto, unfolding(crate::specs::Report::sites_text))]
pub fn push_sites<S: SiteStates>(
    out: &mut Vec<u8>,
    linked: &Linked,
    ended: &[Ended],
    states: &S,
) -> Result<(), NoMemory>
    requires few { length ended.now ≤ 64 }
    requires counted { AreCounted (parts_of linked.now.program) ended.now }
    requires sites { S.sites states.now ≡ length linked.now.program.sites }
    requires named { AreNamed (parts_of linked.now.program) (S.state_at states.now) }
    ensures { OnOk result (out.new.items ≡ out.old.items ++ sites_text (parts_of linked.now.program) (count_at ended.now) (S.state_at states.now) (S.row_at states.now)) }
{
    let sites = linked.program().sites.as_slice();
    push(out, b"sites ")?;
    push_number(out, sites.len())?;
    push(out, b"\n")?;
    for number in 0..sites.len() {
        let id = SiteId(number as u32);
        let count = count_at(ended, number);
        let row = states.row(id);
        push_site(
            out,
            linked,
            number,
            sites[number],
            count,
            states.state(id),
            &row,
        )?;
    }
    Ok(())
}
