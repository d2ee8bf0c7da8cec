// The units of functions, constructors and members.
ghost use Rattle.std.specs.Prelude.{◌≡◌, ◌++◌, ◌∷◌, [], OnOk, IfOk, length, nat_eq, true, false};
ghost use Rattle.dart_meaning.specs.Calls.{list_to_string};
ghost use Rattle.code_pool.specs.declared.pool.MethodBody.TheVariants as pooled;
ghost use Rattle.program_code.specs.IsCode.{unit_id};
ghost use Rattle.compiler.specs.Units.{Grows, HasItem, Built, FunctionHas, ClassHas, MethodHas, BeginsWith, IsBodyUnit, Reaches, IsFor, code_of};

use crate::units::{body_unit, constructor_unit};
use body_writer::small;
use code_pool::MethodBody;
use code_unit::Unit;
use code_writer::{Emitter, Layout};
use program::{Class, Function, Method, NativeId, UnitId};
use std::alloc::{AllocError, Global};

/// Adds a unit, and answers its number.
pub fn add(units: &mut Vec<Unit>, unit: Unit) -> Result<UnitId, AllocError>
    ensures units { OnOk result (units.new.items ≡ units.old.items ++ unit ∷ []) }
    ensures number { IfOk result (λ id. id.0 ≡ length units.old.items) }
{
    let id = UnitId(small(units.len())?);
    units.push(unit)?;
    Ok(id)
}

/// The unit of a function.
fn function<'a>(
    alloc: Global,
    out: &mut Emitter<'a>,
    base: Layout,
    units: &mut Vec<Unit>,
    k: &'a Function,
) -> Result<UnitId, AllocError>
    ensures has { IfOk result (FunctionHas base units.new.items out.new.table k.now) }
    ensures one { IfOk result (λ id. IsFor unit_id id (length units.old.items) (length units.new.items)) }
    ensures grows { OnOk result (Grows units.old.items out.old.table units.new.items out.new.table) }
{
    let unit = body_unit(
        alloc,
        out,
        base,
        false,
        &k.body,
        k.required,
        k.defaults.as_slice(),
    )?;
    let id = add(units, unit)?;
    Ok(id)
}

/// The units of functions.
pub fn functions<'a>(
    alloc: Global,
    out: &mut Emitter<'a>,
    base: Layout,
    units: &mut Vec<Unit>,
    all: &'a [Function],
) -> Result<Vec<UnitId>, AllocError>
    ensures built { IfOk result (λ ids. Built (FunctionHas base units.new.items out.new.table) all.now (length all.now) ids.items) }
    ensures uses { IfOk result (λ ids. Reaches unit_id ids.items (length units.old.items) (length units.new.items)) }
    ensures grows { OnOk result (Grows units.old.items out.old.table units.new.items out.new.table) }
{
    let mut ids = Vec::new(alloc);
    for k in all {
        ids.push(function(alloc, out, base, units, k)?)?;
    }
    Ok(ids)
}

/// The unit of a class's constructor.
fn class<'a>(
    alloc: Global,
    out: &mut Emitter<'a>,
    base: Layout,
    units: &mut Vec<Unit>,
    k: &'a Class,
) -> Result<UnitId, AllocError>
    ensures has { IfOk result (ClassHas base units.new.items out.new.table k.now) }
    ensures one { IfOk result (λ id. IsFor unit_id id (length units.old.items) (length units.new.items)) }
    ensures grows { OnOk result (Grows units.old.items out.old.table units.new.items out.new.table) }
{
    let unit = constructor_unit(alloc, out, base, k)?;
    let id = add(units, unit)?;
    Ok(id)
}

/// The units of the constructors of classes, without those that are built in.
pub fn classes<'a>(
    alloc: Global,
    out: &mut Emitter<'a>,
    base: Layout,
    units: &mut Vec<Unit>,
    all: &'a [Class],
) -> Result<Vec<UnitId>, AllocError>
    ensures built { IfOk result (λ ids. Built (ClassHas base units.new.items out.new.table) all.now (length all.now) ids.items) }
    ensures uses { IfOk result (λ ids. Reaches unit_id ids.items (length units.old.items) (length units.new.items)) }
    ensures grows { OnOk result (Grows units.old.items out.old.table units.new.items out.new.table) }
{
    let mut ids = Vec::new(alloc);
    for k in all {
        ids.push(class(alloc, out, base, units, k)?)?;
    }
    Ok(ids)
}

/// What a built-in member does. The text of a list is a unit.
fn native(text: UnitId, member: NativeId) -> MethodBody
    ensures other { nat_eq member.0 list_to_string ≡ false → result ≡ pooled.Native member }
    ensures list { nat_eq member.0 list_to_string ≡ true → result ≡ pooled.Code text }
{
    if member.0 == 43 {
        MethodBody::Code(text)
    } else {
        MethodBody::Native(member)
    }
}

/// What a member does.
fn method<'a>(
    alloc: Global,
    out: &mut Emitter<'a>,
    base: Layout,
    units: &mut Vec<Unit>,
    text: UnitId,
    k: &'a Method,
) -> Result<MethodBody, AllocError>
    ensures has { IfOk result (MethodHas base units.new.items out.new.table text k.now) }
    ensures own { IfOk result (λ body. IsFor code_of body (length units.old.items) (length units.new.items)) }
    ensures grows { OnOk result (Grows units.old.items out.old.table units.new.items out.new.table) }
{
    match &k.body {
        program::MethodBody::Native(n) => Ok(native(text, *n)),
        program::MethodBody::ReadField(field) => Ok(MethodBody::ReadField(*field)),
        program::MethodBody::WriteField(field) => Ok(MethodBody::WriteField(*field)),
        program::MethodBody::Code(body) => {
            let unit = body_unit(
                alloc,
                out,
                base,
                true,
                body,
                k.required,
                k.defaults.as_slice(),
            )?;
            let id = add(units, unit)?;
            Ok(MethodBody::Code(id))
        }
    }
}

/// What members do.
pub fn methods<'a>(
    alloc: Global,
    out: &mut Emitter<'a>,
    base: Layout,
    units: &mut Vec<Unit>,
    text: UnitId,
    all: &'a [Method],
) -> Result<Vec<MethodBody>, AllocError>
    ensures built { IfOk result (λ bodies. Built (MethodHas base units.new.items out.new.table text) all.now (length all.now) bodies.items) }
    ensures uses { IfOk result (λ bodies. Reaches code_of bodies.items (length units.old.items) (length units.new.items)) }
    ensures grows { OnOk result (Grows units.old.items out.old.table units.new.items out.new.table) }
{
    let mut bodies = Vec::new(alloc);
    for k in all {
        bodies.push(method(alloc, out, base, units, text, k)?)?;
    }
    Ok(bodies)
}
