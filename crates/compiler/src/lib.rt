//! The compiler: the code of a numbered program.
#![tactic(auto)]

ghost use Rattle.std.specs.Prelude.{◌≡◌, ◌++◌, IfOk, map, drop};
ghost use Rattle.program.specs.Program.{parts_of};
ghost use Rattle.program_code.specs.IsCode.{HasCode, HasNoOtherUnit, selector_of};

mod groups;
#[cfg(test)]
mod tests;
mod units;

use body_writer::small;
use code_pool::CodePool;
use code_writer::{Emitter, Layout};
use ds_base::NoMemory;
use program::{Class, Numbered, SelectorId, Site, UnitId};
use std::alloc::{AllocError, Global};

/// The selectors of sites.
fn selectors(alloc: Global, sites: &[Site]) -> Result<Vec<SelectorId>, AllocError>
    ensures { IfOk result (λ all. all.items ≡ map selector_of sites.now) }
{
    let mut all = Vec::new(alloc);
    for site in sites {
        all.push(site.selector)?;
    }
    Ok(all)
}

/// Some units, and then others.
fn joined(alloc: Global, front: &[UnitId], back: &[UnitId]) -> Result<Vec<UnitId>, AllocError>
    ensures { IfOk result (λ all. all.items ≡ front.now ++ back.now) }
{
    let mut all = Vec::new(alloc);
    all.extend_from_slice(front)?;
    all.extend_from_slice(back)?;
    Ok(all)
}

/// The classes that are not built in.
fn users_of(classes: &[Class]) -> &[Class]
    ensures { result.now ≡ drop 7 classes.now }
{
    match classes.get(7..) {
        Some(users) => users,
        None => &[],
    }
}

/// The code of a program.
pub fn compile(alloc: Global, program: &Numbered) -> Result<CodePool, NoMemory>
    ensures code { IfOk result (HasCode (parts_of program.now)) }
    ensures no_other { IfOk result (HasNoOtherUnit (parts_of program.now)) }
{
    let sites = program.sites.as_slice();
    let base = Layout {
        first: 0,
        scratch: 0,
        print_site: small(sites.len().saturating_sub(2))?,
        functions: small(program.functions.len())?,
        of_constructor: false,
    };
    let list_site = small(sites.len().saturating_sub(1))?;
    let mut out = Emitter::new(alloc);
    let mut units = Vec::new(alloc);
    let entries = groups::functions(
        alloc,
        &mut out,
        base,
        &mut units,
        program.functions.as_slice(),
    )?;
    let classes = program.classes.as_slice();
    let constructors = groups::classes(alloc, &mut out, base, &mut units, users_of(classes))?;
    let text = groups::add(&mut units, units::list_unit(alloc, &mut out, list_site)?)?;
    let methods = groups::methods(
        alloc,
        &mut out,
        base,
        &mut units,
        text,
        program.methods.as_slice(),
    )?;
    let statics = joined(alloc, entries.as_slice(), constructors.as_slice())?;
    Ok(CodePool::build(
        units,
        out.constants(alloc)?,
        statics,
        selectors(alloc, sites)?,
        entries,
        methods,
    ))
}
