// The code of expressions.
ghost use Rattle.std.specs.Prelude.{◌≡◌, ◌+◌, ◌*◌, OnOk, IfOk, map};
ghost use Rattle.program.specs.Bodies.{exp, exps, count};
ghost use Rattle.program_code.specs.Sizes.{pieces_count};
ghost use Rattle.code_writer.specs.Views.{pieces_of, calls_of, links_of, target_of, update_of};
ghost use Rattle.code_writer.specs.Emitted.{emit, emit_all, emit_pieces, emit_calls, emit_links, emit_place, emit_update};

use code_unit::Instr;
use code_writer::{
    Emitter, Key, Layout, assigned, key_of, put_joint, put_keep, put_make, put_operator, put_read,
    put_set, put_step, put_test, sum, written,
};
use program::{AssignmentTarget, Expression, Link, Piece, SiteCall, SiteId, UpdateTarget};
use sqlite_items::Boxed;
use std::alloc::AllocError;

/// A number of parts, for an instruction.
pub fn small(n: usize) -> Result<u32, AllocError>
    ensures { IfOk result (λ k. k ≡ n) }
{
    if n < 4294967296 {
        Ok(n as u32)
    } else {
        Err(AllocError)
    }
}

/// How many arguments there are.
pub fn count_of(all: &[Expression]) -> Result<u32, AllocError>
    ensures { IfOk result (λ n. n ≡ count (exps (map exp all.now))) }
{
    small(all.len())
}

/// How many texts an interpolation joins.
fn texts_of(all: &[Piece<Expression>]) -> Result<u32, AllocError>
    ensures { IfOk result (λ n. n ≡ 1 + 2 * pieces_count (pieces_of all.now)) }
{
    let n = small(all.len())?;
    let twice = sum(n, n)?;
    sum(1, twice)
}

/// Writes an expression.
#[cycle(emit)]
pub fn emit<'a>(out: &mut Emitter<'a>, layout: Layout, e: &'a Expression) -> Result<(), AllocError>
    ensures { OnOk result (out.new ≡ emit layout (exp e.now) out.old) }
{
    match e {
        Expression::Constant(literal) => out.put_constant(key_of(literal)),
        Expression::This => out.put(Instr::Local(0)),
        Expression::Local(k) => out.put(Instr::Local(sum(layout.first, *k)?)),
        Expression::Global(k) => out.put(Instr::Global(*k)),
        Expression::Interpolation(units, more) => {
            out.put(Instr::Concat(texts_of(more.as_slice())?))?;
            emit_pieces(out, layout, more.as_slice())?;
            out.put_constant(Key::Text(units.as_slice()))
        }
        Expression::CallFunction(f, args) => {
            out.put(Instr::CallStatic(*f, count_of(args.as_slice())?))?;
            emit_all(out, layout, args.as_slice())
        }
        Expression::Print(e) => {
            out.put_constant(Key::Null)?;
            out.put(Instr::Emit)?;
            out.put(Instr::ExpectString)?;
            out.put(Instr::Call(SiteId(layout.print_site), 0))?;
            emit(out, layout, e.get())
        }
        Expression::New(class, args) => {
            put_make(out, layout, *class, count_of(args.as_slice())?)?;
            emit_all(out, layout, args.as_slice())
        }
        Expression::Super(m, args) => {
            let values = sum(count_of(args.as_slice())?, 1)?;
            out.put(Instr::CallMethod(*m, values))?;
            emit_all(out, layout, args.as_slice())?;
            out.put(Instr::Local(0))
        }
        Expression::List(items) => {
            out.put(Instr::MakeList(count_of(items.as_slice())?))?;
            emit_all(out, layout, items.as_slice())
        }
        Expression::Postfix(e, more) => {
            emit_calls(out, layout, more.as_slice())?;
            emit(out, layout, e.get())
        }
        Expression::Chain(e, more) => {
            emit_links(out, layout, more.as_slice())?;
            emit(out, layout, e.get())
        }
        Expression::Not(e) => {
            out.put(Instr::Not)?;
            emit(out, layout, e.get())
        }
        Expression::Is(e, is_denied, class) => {
            if *is_denied {
                out.put(Instr::Not)?;
            }
            out.put(Instr::IsClass(*class))?;
            emit(out, layout, e.get())
        }
        Expression::Conditional(x, y, z) => {
            let end = out.behind()?;
            emit(out, layout, z.get())?;
            let otherwise = out.behind()?;
            out.put(Instr::Jump(end))?;
            emit(out, layout, y.get())?;
            out.put(Instr::JumpIfFalse(otherwise))?;
            emit(out, layout, x.get())
        }
        Expression::Assign(to, e) => {
            put_set(out, layout, assigned(to))?;
            put_keep(out, layout, assigned(to))?;
            emit(out, layout, e.get())?;
            emit_place(out, layout, to)
        }
        Expression::CompoundAssign(to, call, e) => {
            put_set(out, layout, written(to))?;
            put_keep(out, layout, written(to))?;
            put_operator(out, layout, *call)?;
            emit(out, layout, e.get())?;
            put_read(out, layout, to)?;
            emit_update(out, layout, to)
        }
        Expression::Increment(is_before, call, to) => {
            put_step(out, layout, *is_before, *call, to)?;
            emit_update(out, layout, to)
        }
        Expression::Throw(e) => {
            out.put(Instr::Throw)?;
            emit(out, layout, e.get())
        }
    }
}

/// Writes expressions, the last one first.
#[cycle(emit)]
pub fn emit_all<'a>(
    out: &mut Emitter<'a>,
    layout: Layout,
    all: &'a [Expression],
) -> Result<(), AllocError>
    ensures { OnOk result (out.new ≡ emit_all layout (exps (map exp all.now)) out.old) }
{
    for i in (0..all.len()).rev() {
        emit(out, layout, &all[i])?;
    }
    Ok(())
}

/// Writes interpolations, the last one first.
#[cycle(emit)]
fn emit_pieces<'a>(
    out: &mut Emitter<'a>,
    layout: Layout,
    all: &'a [Piece<Expression>],
) -> Result<(), AllocError>
    ensures { OnOk result (out.new ≡ emit_pieces layout (pieces_of all.now) out.old) }
{
    for i in (0..all.len()).rev() {
        let piece = &all[i];
        out.put_constant(Key::Text(piece.then.as_slice()))?;
        out.put(Instr::ExpectString)?;
        out.put(Instr::Call(piece.site, 0))?;
        emit(out, layout, &piece.value)?;
    }
    Ok(())
}

/// Writes the calls of a chain, the last one first.
#[cycle(emit)]
fn emit_calls<'a>(
    out: &mut Emitter<'a>,
    layout: Layout,
    all: &'a [SiteCall<Expression>],
) -> Result<(), AllocError>
    ensures { OnOk result (out.new ≡ emit_calls layout (calls_of all.now) out.old) }
{
    for i in (0..all.len()).rev() {
        let args = all[i].arguments.as_slice();
        out.put(Instr::Call(all[i].site, count_of(args)?))?;
        for j in (0..args.len()).rev() {
            emit(out, layout, &args[j])?;
        }
    }
    Ok(())
}

/// Writes operators with their right sides, the last one first.
#[cycle(emit)]
fn emit_links<'a>(
    out: &mut Emitter<'a>,
    layout: Layout,
    all: &'a [Link<Expression>],
) -> Result<(), AllocError>
    ensures { OnOk result (out.new ≡ emit_links layout (links_of all.now) out.old) }
{
    for i in (0..all.len()).rev() {
        let link = &all[i];
        let end = out.behind()?;
        put_joint(out, layout, link.joint)?;
        emit(out, layout, &link.operand)?;
        put_test(out, layout, link.joint, end)?;
    }
    Ok(())
}

/// Writes the operands of what is assigned to.
#[cycle(emit)]
fn emit_place<'a>(
    out: &mut Emitter<'a>,
    layout: Layout,
    to: &'a AssignmentTarget<Boxed<Expression>>,
) -> Result<(), AllocError>
    ensures { OnOk result (out.new ≡ emit_place layout (target_of to.now) out.old) }
{
    match to {
        AssignmentTarget::Local(_) | AssignmentTarget::Global(_) => Ok(()),
        AssignmentTarget::Super(_) => out.put(Instr::Local(0)),
        AssignmentTarget::Member(e, _) => emit(out, layout, e.get()),
        AssignmentTarget::Element(e, i, _) => {
            emit(out, layout, i.get())?;
            emit(out, layout, e.get())
        }
    }
}

/// Writes the operands of what is updated.
#[cycle(emit)]
fn emit_update<'a>(
    out: &mut Emitter<'a>,
    layout: Layout,
    to: &'a UpdateTarget<Boxed<Expression>>,
) -> Result<(), AllocError>
    ensures { OnOk result (out.new ≡ emit_update layout (update_of to.now) out.old) }
{
    match to {
        UpdateTarget::Local(_) | UpdateTarget::Global(_) => Ok(()),
        UpdateTarget::Super(_, _) => out.put(Instr::Local(0)),
        UpdateTarget::Member(e, _, _) => emit(out, layout, e.get()),
        UpdateTarget::Element(e, i, _, _) => {
            emit(out, layout, i.get())?;
            emit(out, layout, e.get())
        }
    }
}
