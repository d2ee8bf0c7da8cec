// The texts of the commands.
ghost use Rattle.std.specs.Prelude.{◌≡◌, ◌≤◌, length, map, All, IfOk, string_bytes};
ghost use Rattle.program.specs.Program.{parts_of};
ghost use Rattle.site_report.specs.Report.{told_by, count_at, count_of, AreCounted, AreNamed, report_text, load_text_of, check_text_of};

use crate::counts::count_of;
use crate::entries::{push_entries, push_entry_lines};
use crate::sites::push_sites;
use byte_texts::{push, push_number};
use ds_base::NoMemory;
use isolate_run::Ended;
use method_lookup::Linked;
use miss_handler::SiteStates;
use std::alloc::Global;

/// The text of `run`: what each entry printed and how it ended, and then a line for each site.
#[tactic(auto, unfolding(crate::specs::Report::report_text))]
pub fn run_text<S: SiteStates>(
    alloc: Global,
    linked: &Linked,
    names: &[String],
    ended: &[Ended],
    states: &S,
) -> Result<Vec<u8>, NoMemory>
    requires as_many { length names.now ≡ length ended.now }
    requires few { length ended.now ≤ 64 }
    requires counted { AreCounted (parts_of linked.now.program) ended.now }
    requires sites { S.sites states.now ≡ length linked.now.program.sites }
    requires named { AreNamed (parts_of linked.now.program) (S.state_at states.now) }
    ensures { IfOk result (λ text. text.items
        ≡ report_text (parts_of linked.now.program) (told_by (map string_bytes names.now) ended.now) (count_at ended.now) (S.state_at states.now) (S.row_at states.now)) }
{
    let mut out = Vec::new(alloc);
    push_entries(alloc, &mut out, names, ended)?;
    push_sites(&mut out, linked, ended, states)?;
    Ok(out)
}

/// The text of `load`: how much there is, a line for each entry, and how often cells were asked.
#[tactic(auto, unfolding(crate::specs::Report::load_text_of))]
pub fn load_text(
    alloc: Global,
    linked: &Linked,
    names: &[String],
    ended: &[Ended],
) -> Result<Vec<u8>, NoMemory>
    requires as_many { length names.now ≡ length ended.now }
    requires few { length ended.now ≤ 64 }
    requires counted { AreCounted (parts_of linked.now.program) ended.now }
    ensures { IfOk result (λ text. text.items
        ≡ load_text_of (parts_of linked.now.program) (told_by (map string_bytes names.now) ended.now) (count_of ended.now)) }
{
    let program = linked.program();
    let mut out = Vec::new(alloc);
    push(&mut out, b"classes ")?;
    push_number(&mut out, program.classes.len())?;
    push(&mut out, b"\nsites ")?;
    push_number(&mut out, program.sites.len())?;
    push(&mut out, b"\n")?;
    push_entry_lines(alloc, &mut out, names, ended)?;
    push(&mut out, b"calls ")?;
    push_number(&mut out, count_of(ended))?;
    push(&mut out, b"\n")?;
    Ok(out)
}

/// The text of `check`: how many classes, methods, selectors and sites there are.
#[tactic(auto, unfolding(crate::specs::Report::check_text_of))]
pub fn check_text(alloc: Global, linked: &Linked) -> Result<Vec<u8>, NoMemory>
    ensures { IfOk result (λ text. text.items ≡ check_text_of (parts_of linked.now.program)) }
{
    let program = linked.program();
    let mut out = Vec::new(alloc);
    push(&mut out, b"ok classes ")?;
    push_number(&mut out, program.classes.len())?;
    push(&mut out, b" methods ")?;
    push_number(&mut out, program.methods.len())?;
    push(&mut out, b" selectors ")?;
    push_number(&mut out, program.selectors.len())?;
    push(&mut out, b" sites ")?;
    push_number(&mut out, program.sites.len())?;
    push(&mut out, b"\n")?;
    Ok(out)
}
