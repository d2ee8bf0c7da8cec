// The text of `list`.
ghost use Rattle.std.specs.Prelude.{◌≡◌, ◌<◌, ◌++◌, length, IfOk, OnOk, slice_get, Some};
ghost use Rattle.std.specs.List.{flat_map, enumerate_from};
ghost use Rattle.program.specs.Program.{parts_of};
ghost use Rattle.program.specs.Parts.{parents};
ghost use Rattle.site_report.specs.Report.{last_below, parent_text, abstract_mark, class_line, listed_site, list_text_of};

use crate::names::push_site_name;
use byte_texts::{push, push_number};
use ds_base::NoMemory;
use method_lookup::Linked;
use program::{Class, ClassId, Numbered, Site};
use std::alloc::Global;

/// The greatest number among a class and the classes below it.
fn last_below(linked: &Linked, c: usize) -> u16
    requires { c < length linked.now.program.classes }
    ensures { result ≡ last_below (parents linked.now.program.classes) c }
{
    linked.classes().last_of(ClassId(c as u16)).0
}

fn push_parent(out: &mut Vec<u8>, parent: Option<ClassId>) -> Result<(), NoMemory>
    ensures { OnOk result (out.new.items ≡ out.old.items ++ parent_text parent) }
{
    match parent {
        Some(c) => push_number(out, c.0),
        None => push(out, b"-"),
    }
}

fn abstract_mark(is_abstract: bool) -> &'static str
    ensures { result.now ≡ abstract_mark is_abstract }
{
    if is_abstract { " abstract" } else { "" }
}

#[tactic(auto, unfolding(crate::specs::Report::class_line))]
fn push_class(
    out: &mut Vec<u8>,
    linked: &Linked,
    number: usize,
    class: &Class,
) -> Result<(), NoMemory>
    requires { number < length linked.now.program.classes }
    ensures { OnOk result (out.new.items ≡ out.old.items ++ class_line (parts_of linked.now.program) (number, class.now)) }
{
    push(out, b"class ")?;
    push_number(out, number)?;
    push(out, b" ")?;
    push(out, class.name.as_slice())?;
    push(out, b" parent ")?;
    push_parent(out, class.parent)?;
    push(out, b" last ")?;
    push_number(out, last_below(linked, number))?;
    push(out, abstract_mark(class.is_abstract).as_bytes())?;
    push(out, b"\n")
}

fn push_classes(out: &mut Vec<u8>, linked: &Linked) -> Result<(), NoMemory>
    ensures { OnOk result (out.new.items ≡ out.old.items ++ flat_map (class_line (parts_of linked.now.program)) (enumerate_from 0 linked.now.program.classes)) }
{
    let classes = linked.program().classes.as_slice();
    for number in 0..classes.len() {
        push_class(out, linked, number, &classes[number])?;
    }
    Ok(())
}

#[tactic(auto, unfolding(crate::specs::Report::listed_site))]
fn push_listed(
    out: &mut Vec<u8>,
    program: &Numbered,
    number: usize,
    site: Site,
) -> Result<(), NoMemory>
    ensures { OnOk result (out.new.items ≡ out.old.items ++ listed_site (parts_of program.now) (number, site)) }
{
    push(out, b"site ")?;
    push_site_name(out, program, number, site)?;
    push(out, b"\n")
}

fn push_listed_sites(out: &mut Vec<u8>, program: &Numbered) -> Result<(), NoMemory>
    ensures { OnOk result (out.new.items ≡ out.old.items ++ flat_map (listed_site (parts_of program.now)) (enumerate_from 0 program.now.sites)) }
{
    let sites = program.sites.as_slice();
    for number in 0..sites.len() {
        push_listed(out, program, number, sites[number])?;
    }
    Ok(())
}

/// The text of `list`: the classes by their ids, and then the sites.
#[tactic(auto, unfolding(crate::specs::Report::list_text_of))]
pub fn list_text(alloc: Global, linked: &Linked) -> Result<Vec<u8>, NoMemory>
    ensures { IfOk result (λ text. text.items ≡ list_text_of (parts_of linked.now.program)) }
{
    let mut out = Vec::new(alloc);
    push_classes(&mut out, linked)?;
    push_listed_sites(&mut out, linked.program())?;
    Ok(out)
}
