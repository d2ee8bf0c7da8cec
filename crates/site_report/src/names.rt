// Names of classes, members, selectors and sites.
ghost use Rattle.std.specs.Prelude.{◌≡◌, ◌++◌, OnOk};
ghost use Rattle.program.specs.Program.{parts_of};
ghost use Rattle.site_report.specs.Report.{class_name, setter_mark, member_name, target_text, kind_text, selector_text, place_text, site_name};

use byte_texts::{push, push_number};
use ds_base::NoMemory;
use program::{ClassId, MethodId, Numbered, SelectorId, SelectorKind, Site, SitePlace, Target};

/// The name of a class.
#[tactic(auto, unfolding(crate::specs::Report::class_name))]
pub fn class_name(program: &Numbered, c: ClassId) -> &[u8]
    ensures { result.now ≡ class_name (parts_of program.now) c.0 }
{
    match program.classes.get(c.0 as usize) {
        Some(class) => class.name.as_slice(),
        None => &[],
    }
}

fn setter_mark(role: SelectorKind) -> &'static str
    ensures { result.now ≡ setter_mark role }
{
    match role {
        SelectorKind::Call | SelectorKind::Get => "",
        SelectorKind::Set => "=",
    }
}

#[tactic(auto, unfolding(crate::specs::Report::member_name))]
fn push_member(out: &mut Vec<u8>, program: &Numbered, m: MethodId) -> Result<(), NoMemory>
    ensures { OnOk result (out.new.items ≡ out.old.items ++ member_name (parts_of program.now) m.0) }
{
    let Some(method) = program.methods.get(m.0 as usize) else {
        return Ok(());
    };
    push(out, class_name(program, method.owner))?;
    push(out, b".")?;
    push(out, method.name.as_slice())?;
    push(out, setter_mark(method.role).as_bytes())
}

/// Where a call goes.
pub fn push_target(out: &mut Vec<u8>, program: &Numbered, t: Target) -> Result<(), NoMemory>
    ensures { OnOk result (out.new.items ≡ out.old.items ++ target_text (parts_of program.now) t) }
{
    match t {
        Target::Method(m) => push_member(out, program, m),
        Target::Nsm(m) => {
            push(out, b"nsm ")?;
            push_member(out, program, m)
        }
    }
}

fn push_kind(out: &mut Vec<u8>, kind: SelectorKind, name: &[u8], count: u32) -> Result<(), NoMemory>
    ensures { OnOk result (out.new.items ≡ out.old.items ++ kind_text kind name.now count) }
{
    match kind {
        SelectorKind::Call => {
            push(out, name)?;
            push(out, b"/")?;
            push_number(out, count)
        }
        SelectorKind::Get => {
            push(out, b"get ")?;
            push(out, name)
        }
        SelectorKind::Set => {
            push(out, b"set ")?;
            push(out, name)
        }
    }
}

#[tactic(auto, unfolding(crate::specs::Report::selector_text))]
fn push_selector(out: &mut Vec<u8>, program: &Numbered, s: SelectorId) -> Result<(), NoMemory>
    ensures { OnOk result (out.new.items ≡ out.old.items ++ selector_text (parts_of program.now) s.0) }
{
    match program.selectors.get(s.0 as usize) {
        Some(selector) => push_kind(out, selector.kind, selector.name.as_slice(), selector.count),
        None => Ok(()),
    }
}

fn push_place(out: &mut Vec<u8>, place: SitePlace) -> Result<(), NoMemory>
    ensures { OnOk result (out.new.items ≡ out.old.items ++ place_text place) }
{
    match place {
        SitePlace::At { line, column } => {
            push_number(out, line)?;
            push(out, b":")?;
            push_number(out, column)
        }
        SitePlace::Print => push(out, b"print"),
        SitePlace::List => push(out, b"list"),
    }
}

/// A site by its number, its selector and its place.
#[tactic(auto, unfolding(crate::specs::Report::site_name))]
pub fn push_site_name(
    out: &mut Vec<u8>,
    program: &Numbered,
    number: usize,
    site: Site,
) -> Result<(), NoMemory>
    ensures { OnOk result (out.new.items ≡ out.old.items ++ site_name (parts_of program.now) number site) }
{
    push_number(out, number)?;
    push(out, b" ")?;
    push_selector(out, program, site.selector)?;
    push(out, b" ")?;
    push_place(out, site.place)
}
