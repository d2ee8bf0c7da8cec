// Units: bodies, constructors, and the text of a list.
ghost use Rattle.std.specs.Prelude.{◌≡◌, [], ◌∷◌, OnOk, IfOk, map, option_map, unwrap_or};
ghost use Rattle.program.specs.Bodies.{exp, exps};
ghost use Rattle.program_code.specs.IsCode.{first_of};
ghost use Rattle.code_writer.specs.Views.{stas_of};
ghost use Rattle.code_writer.specs.EmittedStatements.{emit_body, emit_sets, emit_above, emit_constructor, emit_list_text};
ghost use Rattle.code_writer.specs.declared.layout.Layout.{Layout};
ghost use Rattle.compiler.specs.Units.{IsUnit, IsTextUnit, IsBodyUnit, IsPartsUnit, IsConstructorUnit, IsListUnit, BeginsWith, HasParts};

use body_writer::{
    Scope, count_of, emit, emit_all, emit_statements, most_of, most_open_all, small,
};
use code_unit::{Instr, Unit};
use code_writer::{Emitter, Key, Layout, constructor, depths_of, literals, sum};
use program::{Body, Class, ClassId, Constructor, Expression, Literal, SiteId, Statement};
use sqlite_items::Items;
use std::alloc::{AllocError, Global};

const OPEN_BRACKET: [u16; 1] = [91];

const COMMA: [u16; 2] = [44, 32];

const CLOSE_BRACKET: [u16; 1] = [93];

/// The depths of the text of a list. Read from its first instruction to its last, that of the place where its loop ends would be another.
const LIST_TEXT_DEPTHS: [u32; 21] = [
    0, 1, 2, 1, 2, 1, 2, 3, 4, 4, 3, 3, 3, 3, 1, 2, 1, 2, 1, 2, 1,
];

/// The unit of what is written.
fn written_unit(
    alloc: Global,
    out: &Emitter<'_>,
    params: u32,
    scratch: u32,
    defaults: &[Literal],
) -> Result<Unit, AllocError>
    ensures { IfOk result (IsUnit out.now params scratch defaults.now) }
{
    let code = out.instructions(alloc)?;
    let depths = depths_of(alloc, code.as_slice())?;
    let room = out.room();
    let locals = sum(scratch, if room < 1 { 1 } else { room })?;
    Ok(Unit {
        code,
        depths,
        params,
        defaults: literals(alloc, defaults)?,
        locals,
    })
}

/// Writes a body with so many parameters.
fn emit_body<'a>(
    out: &mut Emitter<'a>,
    layout: Layout,
    body: &'a Body,
    parameters: u32,
) -> Result<(), AllocError>
    ensures { OnOk result (out.new ≡ emit_body layout body.now parameters out.old) }
{
    out.put(Instr::Return)?;
    match body {
        Body::Arrow(e) => emit(out, layout, e),
        Body::Block(all) => {
            out.put_constant(Key::Null)?;
            let end = out.behind()?;
            let scope = Scope {
                variables: parameters,
                break_to: end,
                continue_to: end,
            };
            emit_statements(out, layout, scope, all.as_slice())
        }
    }
}

/// The slot of the first parameter.
fn first_slot(of_this: bool) -> u32
    ensures { result ≡ first_of of_this }
{
    if of_this { 1 } else { 0 }
}

/// The unit of a body, with `this` or without.
pub fn body_unit<'a>(
    alloc: Global,
    out: &mut Emitter<'a>,
    base: Layout,
    of_this: bool,
    body: &'a Body,
    required: u32,
    defaults: &[Literal],
) -> Result<Unit, AllocError>
    ensures unit { IfOk result (IsBodyUnit base out.new.table of_this body.now required defaults.now) }
    ensures table { OnOk result (BeginsWith out.old.table out.new.table) }
{
    let parameters = sum(required, small(defaults.len())?)?;
    let first = first_slot(of_this);
    let scratch = sum(first, most_of(body, parameters)?)?;
    let params = sum(first, parameters)?;
    let layout = Layout {
        first,
        scratch,
        of_constructor: false,
        ..base
    };
    out.begin();
    emit_body(out, layout, body, parameters)?;
    let unit = written_unit(alloc, out, params, scratch, defaults)?;
    Ok(unit)
}

/// Writes a parameter `this.x`, if it is one.
fn emit_set(out: &mut Emitter<'_>, slot: u32, field: &Option<u32>) -> Result<(), AllocError>
    ensures { OnOk result ((layout : Layout) → out.new ≡ emit_sets layout (field.now ∷ []) slot out.old) }
{
    match field {
        None => Ok(()),
        Some(field) => {
            out.put(Instr::SetField(*field))?;
            out.put(Instr::Local(slot))?;
            out.put(Instr::Local(0))
        }
    }
}

/// Writes the parameters `this.x`, the last one first.
fn emit_sets(out: &mut Emitter<'_>, layout: Layout, sets: &[Option<u32>]) -> Result<(), AllocError>
    ensures { OnOk result (out.new ≡ emit_sets layout sets.now layout.first out.old) }
{
    for i in (0..sets.len()).rev() {
        let slot = sum(layout.first, small(i)?)?;
        emit_set(out, slot, &sets[i])?;
    }
    Ok(())
}

/// Writes the call of the superclass's constructor.
fn emit_above<'a>(
    out: &mut Emitter<'a>,
    layout: Layout,
    above: ClassId,
    passes: &'a [Expression],
) -> Result<(), AllocError>
    ensures { OnOk result (out.new ≡ emit_above layout above.0 (exps (map exp passes.now)) out.old) }
{
    if above.0 == 0 {
        return Ok(());
    }
    let values = sum(count_of(passes)?, 1)?;
    out.put(Instr::Pop)?;
    out.put(Instr::CallStatic(constructor(layout, above)?, values))?;
    emit_all(out, layout, passes)?;
    out.put(Instr::Local(0))
}

/// Writes a constructor with so many parameters.
fn emit_constructor<'a>(
    out: &mut Emitter<'a>,
    layout: Layout,
    above: ClassId,
    parts: ConstructorParts<'a>,
    parameters: u32,
) -> Result<(), AllocError>
    ensures { OnOk result (out.new ≡ emit_constructor layout above.0 parts.entry.sets.now (exps (map exp parts.entry.passes.now)) (stas_of parts.entry.body.now) parameters out.old) }
{
    out.put(Instr::Return)?;
    out.put(Instr::Local(0))?;
    let end = out.behind()?;
    let scope = Scope {
        variables: parameters,
        break_to: end,
        continue_to: end,
    };
    emit_statements(out, layout, scope, parts.body)?;
    emit_above(out, layout, above, parts.passes)?;
    emit_sets(out, layout, parts.sets)
}

/// What a constructor has, written or not.
#[derive(Clone, Copy)]
struct ConstructorParts<'a> {
    required: u32,
    defaults: &'a [Literal],
    sets: &'a [Option<u32>],
    passes: &'a [Expression],
    body: &'a [Statement],
}

/// The unit of a constructor, in a class below another.
fn parts_unit<'a>(
    alloc: Global,
    out: &mut Emitter<'a>,
    base: Layout,
    above: ClassId,
    parts: ConstructorParts<'a>,
) -> Result<Unit, AllocError>
    ensures unit { IfOk result (IsPartsUnit base out.new.table above.0 parts.entry.sets.now (exps (map exp parts.entry.passes.now)) (stas_of parts.entry.body.now) parts.entry.required parts.entry.defaults.now) }
    ensures table { OnOk result (BeginsWith out.old.table out.new.table) }
{
    let parameters = sum(parts.required, small(parts.defaults.len())?)?;
    let scratch = sum(1, most_open_all(parts.body, parameters)?)?;
    let params = sum(1, parameters)?;
    let layout = Layout {
        first: 1,
        scratch,
        of_constructor: true,
        ..base
    };
    out.begin();
    emit_constructor(out, layout, above, parts, parameters)?;
    let unit = written_unit(alloc, out, params, scratch, parts.defaults)?;
    Ok(unit)
}

fn parts_of<'a>(constructor: &'a Option<Constructor>) -> ConstructorParts<'a>
    ensures { HasParts constructor.now result }
{
    match constructor {
        Some(b) => ConstructorParts {
            required: b.required,
            defaults: b.defaults.as_slice(),
            sets: b.sets.as_slice(),
            passes: b.passes.as_slice(),
            body: b.body.as_slice(),
        },
        None => ConstructorParts {
            required: 0,
            defaults: &[],
            sets: &[],
            passes: &[],
            body: &[],
        },
    }
}

/// The class above, or Object.
fn class_above(class: &Class) -> ClassId
    ensures { result.0 ≡ unwrap_or (option_map (λ p. p.0) class.now.parent) 0 }
{
    match class.parent {
        Some(parent) => parent,
        None => ClassId(0),
    }
}

/// The unit of a class's constructor.
pub fn constructor_unit<'a>(
    alloc: Global,
    out: &mut Emitter<'a>,
    base: Layout,
    class: &'a Class,
) -> Result<Unit, AllocError>
    ensures unit { IfOk result (IsConstructorUnit base out.new.table class.now) }
    ensures table { OnOk result (BeginsWith out.old.table out.new.table) }
{
    let parts = parts_of(&class.constructor);
    let unit = parts_unit(alloc, out, base, class_above(class), parts)?;
    Ok(unit)
}

/// Writes the text of a list.
fn emit_list_text(out: &mut Emitter<'_>, list_site: u32) -> Result<(), AllocError>
    ensures { OnOk result (out.new ≡ emit_list_text list_site out.old) }
{
    // the end
    out.put(Instr::Return)?;
    out.put(Instr::Concat(2))?;
    out.put_constant(Key::Text(&CLOSE_BRACKET))?;
    out.put(Instr::Pop)?;
    // an element
    out.put(Instr::Jump(16))?;
    out.put(Instr::SetLocal(2))?;
    out.put_constant(Key::Text(&COMMA))?;
    out.put(Instr::Concat(3))?;
    out.put(Instr::ExpectString)?;
    out.put(Instr::Call(SiteId(list_site), 0))?;
    out.put(Instr::LoopTurn)?;
    out.put(Instr::SetLocal(1))?;
    out.put(Instr::ElementOr(17))?;
    out.put(Instr::Local(1))?;
    out.put(Instr::Local(0))?;
    out.put(Instr::Local(2))?;
    // the beginning
    out.put(Instr::SetLocal(2))?;
    out.put_constant(Key::Text(&[]))?;
    out.put(Instr::SetLocal(1))?;
    out.put_constant(Key::Int(0))?;
    out.put_constant(Key::Text(&OPEN_BRACKET))
}

/// The unit of what is written as the text of a list: `this` and two slots of its own.
fn text_unit(alloc: Global, out: &Emitter<'_>) -> Result<Unit, AllocError>
    ensures { IfOk result (IsTextUnit out.now) }
{
    Ok(Unit {
        code: out.instructions(alloc)?,
        depths: Items::from_slice(alloc, &LIST_TEXT_DEPTHS)?,
        params: 1,
        defaults: Items::new(alloc),
        locals: 3,
    })
}

/// The unit of the text of a list. Null is taken to the constants.
pub fn list_unit<'a>(
    alloc: Global,
    out: &mut Emitter<'a>,
    list_site: u32,
) -> Result<Unit, AllocError>
    ensures unit { IfOk result (IsListUnit list_site out.new.table) }
    ensures table { OnOk result (BeginsWith out.old.table out.new.table) }
{
    out.put_constant(Key::Null)?;
    out.begin();
    emit_list_text(out, list_site)?;
    let unit = text_unit(alloc, out)?;
    Ok(unit)
}
