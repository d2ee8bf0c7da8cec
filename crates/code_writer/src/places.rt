// What stands behind operands: reads, writes, operators and constructions.
ghost use Rattle.std.specs.Prelude.{◌≡◌, ◌+◌, OnOk, IfOk, pos};
ghost use Rattle.code_writer.specs.Views.{target_of, update_of};
ghost use Rattle.program_code.specs.Sizes.{written};
ghost use Rattle.code_writer.specs.Emitted.{destination, put_read, put_keep, put_call, put_set, put_operator, put_step, put_combined, put_joint, put_test, put_make, put_stash, put_fetch, constructor};

use crate::emitter::Emitter;
use crate::key::Key;
use crate::layout::Layout;
use code_unit::Instr;
use program::{
    AssignmentTarget, BinaryOperator, ClassId, Expression, Joint, MethodId, OperatorCall, SiteId,
    UpdateTarget,
};
use sqlite_items::Boxed;
use std::alloc::AllocError;

/// Where a value is written.
#[derive(Clone, Copy)]
pub enum Destination {
    Local(u32),
    Global(u32),
    Super(MethodId),
    Member(SiteId),
    Element(SiteId),
}

pub fn sum(a: u32, b: u32) -> Result<u32, AllocError>
    ensures { IfOk result (λ n. n ≡ a + b) }
{
    match a.checked_add(b) {
        Some(n) => Ok(n),
        None => Err(AllocError),
    }
}

/// Where an assignment writes.
pub fn assigned(to: &AssignmentTarget<Boxed<Expression>>) -> Destination
    ensures { result ≡ destination (target_of to.now) }
{
    match to {
        AssignmentTarget::Local(k) => Destination::Local(*k),
        AssignmentTarget::Global(k) => Destination::Global(*k),
        AssignmentTarget::Super(m) => Destination::Super(*m),
        AssignmentTarget::Member(_, s) => Destination::Member(*s),
        AssignmentTarget::Element(_, _, s) => Destination::Element(*s),
    }
}

/// Where an update writes.
pub fn written(to: &UpdateTarget<Boxed<Expression>>) -> Destination
    ensures { result ≡ destination (written (update_of to.now)) }
{
    match to {
        UpdateTarget::Local(k) => Destination::Local(*k),
        UpdateTarget::Global(k) => Destination::Global(*k),
        UpdateTarget::Super(_, m) => Destination::Super(*m),
        UpdateTarget::Member(_, _, s) => Destination::Member(*s),
        UpdateTarget::Element(_, _, _, s) => Destination::Element(*s),
    }
}

/// Writes the read of what is updated.
pub fn put_read(
    out: &mut Emitter<'_>,
    layout: Layout,
    to: &UpdateTarget<Boxed<Expression>>,
) -> Result<(), AllocError>
    ensures { OnOk result (out.new ≡ put_read layout (update_of to.now) out.old) }
{
    match to {
        UpdateTarget::Local(k) => out.put(Instr::Local(sum(layout.first, *k)?)),
        UpdateTarget::Global(k) => out.put(Instr::Global(*k)),
        UpdateTarget::Super(m, _) => {
            out.put(Instr::CallMethod(*m, 1))?;
            out.put(Instr::Dup)
        }
        UpdateTarget::Member(_, s, _) => {
            out.put(Instr::Call(*s, 0))?;
            out.put(Instr::Dup)
        }
        UpdateTarget::Element(_, _, s, _) => {
            out.put(Instr::Call(*s, 1))?;
            out.put(Instr::Dup2)
        }
    }
}

/// Writes what keeps the value.
pub fn put_keep(out: &mut Emitter<'_>, layout: Layout, to: Destination) -> Result<(), AllocError>
    ensures { OnOk result (out.new ≡ put_keep layout to out.old) }
{
    match to {
        Destination::Local(_) | Destination::Global(_) => out.put(Instr::Dup),
        Destination::Super(_) | Destination::Member(_) | Destination::Element(_) => {
            out.put(Instr::SetLocal(layout.scratch))?;
            out.put(Instr::Dup)
        }
    }
}

fn put_call(out: &mut Emitter<'_>, layout: Layout, call: Instr) -> Result<(), AllocError>
    ensures { OnOk result (out.new ≡ put_call layout call out.old) }
{
    out.put(Instr::Local(layout.scratch))?;
    out.put(Instr::Pop)?;
    out.put(call)
}

/// Writes what writes the value.
pub fn put_set(out: &mut Emitter<'_>, layout: Layout, to: Destination) -> Result<(), AllocError>
    ensures { OnOk result (out.new ≡ put_set layout to out.old) }
{
    match to {
        Destination::Local(k) => out.put(Instr::SetLocal(sum(layout.first, k)?)),
        Destination::Global(k) => out.put(Instr::SetGlobal(k)),
        Destination::Super(m) => put_call(out, layout, Instr::CallMethod(m, 2)),
        Destination::Member(s) => put_call(out, layout, Instr::Call(s, 1)),
        Destination::Element(s) => put_call(out, layout, Instr::Call(s, 2)),
    }
}

/// Writes an operator's call.
pub fn put_operator(
    out: &mut Emitter<'_>,
    layout: Layout,
    call: OperatorCall,
) -> Result<(), AllocError>
    ensures { OnOk result (out.new ≡ put_operator layout call out.old) }
{
    out.put(Instr::Call(call.site, 1))
}

/// Writes `++` or `--` behind its operands.
pub fn put_step(
    out: &mut Emitter<'_>,
    layout: Layout,
    is_before: bool,
    call: OperatorCall,
    to: &UpdateTarget<Boxed<Expression>>,
) -> Result<(), AllocError>
    ensures { OnOk result (out.new ≡ put_step layout is_before call (update_of to.now) out.old) }
{
    let at = written(to);
    put_set(out, layout, at)?;
    if is_before {
        put_keep(out, layout, at)?;
    }
    put_operator(out, layout, call)?;
    out.put_constant(Key::Int(1))?;
    if !is_before {
        put_keep(out, layout, at)?;
    }
    put_read(out, layout, to)
}

/// Writes an operator's call behind both operands, as `==` and `!=` have it.
pub fn put_combined(
    out: &mut Emitter<'_>,
    layout: Layout,
    operator: BinaryOperator,
    site: SiteId,
) -> Result<(), AllocError>
    ensures { OnOk result (out.new ≡ put_combined layout operator site out.old) }
{
    match operator {
        BinaryOperator::Equal => {
            out.put(Instr::ExpectBool)?;
            out.put(Instr::Equal(site))
        }
        BinaryOperator::NotEqual => {
            out.put(Instr::Not)?;
            out.put(Instr::ExpectBool)?;
            out.put(Instr::Equal(site))
        }
        BinaryOperator::Less
        | BinaryOperator::LessEqual
        | BinaryOperator::Greater
        | BinaryOperator::GreaterEqual
        | BinaryOperator::BitOr
        | BinaryOperator::BitXor
        | BinaryOperator::BitAnd
        | BinaryOperator::ShiftLeft
        | BinaryOperator::ShiftRight
        | BinaryOperator::ShiftUnsigned
        | BinaryOperator::Add
        | BinaryOperator::Subtract
        | BinaryOperator::Multiply
        | BinaryOperator::Divide
        | BinaryOperator::Remainder => out.put(Instr::Call(site, 1)),
    }
}

/// Writes what stands behind the right side of an operator.
pub fn put_joint(out: &mut Emitter<'_>, layout: Layout, joint: Joint) -> Result<(), AllocError>
    ensures { OnOk result (out.new ≡ put_joint layout joint out.old) }
{
    match joint {
        Joint::And | Joint::Or => out.put(Instr::ExpectBool),
        Joint::Operator(call) => put_combined(out, layout, call.operator, call.site),
    }
}

/// Writes the test before the right side of a lazy operator, where so many instructions are behind it all.
pub fn put_test(
    out: &mut Emitter<'_>,
    layout: Layout,
    joint: Joint,
    end: u32,
) -> Result<(), AllocError>
    ensures { OnOk result (out.new ≡ put_test layout joint end out.old) }
{
    match joint {
        Joint::And => {
            out.put(Instr::Pop)?;
            out.put(Instr::JumpIfFalse(end))?;
            out.put(Instr::Dup)
        }
        Joint::Or => {
            out.put(Instr::Pop)?;
            out.put(Instr::JumpIfFalse(end))?;
            out.put(Instr::Not)?;
            out.put(Instr::Dup)
        }
        Joint::Operator(_) => Ok(()),
    }
}

/// The static number of a class's constructor.
pub fn constructor(layout: Layout, class: ClassId) -> Result<u32, AllocError>
    ensures { IfOk result (λ k. k ≡ constructor layout class.0) }
{
    sum(layout.functions, (class.0 as u32).saturating_sub(7))
}

/// Writes the pops of arguments into slots.
fn put_stash(out: &mut Emitter<'_>, layout: Layout, count: u32) -> Result<(), AllocError>
    ensures { OnOk result (out.new ≡ put_stash layout 0 count out.old) }
{
    for k in (0..count).rev() {
        out.put(Instr::SetLocal(sum(layout.scratch, k)?))?;
    }
    Ok(())
}

/// Writes the pushes of these slots.
fn put_fetch(out: &mut Emitter<'_>, layout: Layout, count: u32) -> Result<(), AllocError>
    ensures { OnOk result (out.new ≡ put_fetch layout count out.old) }
{
    for k in 0..count {
        out.put(Instr::Local(sum(layout.scratch, k)?))?;
    }
    Ok(())
}

/// Writes a construction behind its arguments.
pub fn put_make(
    out: &mut Emitter<'_>,
    layout: Layout,
    class: ClassId,
    count: u32,
) -> Result<(), AllocError>
    ensures { OnOk result (out.new ≡ put_make layout class.0 count out.old) }
{
    out.note_room(count);
    if class.0 == 0 {
        return out.put(Instr::New(class));
    }
    let values = sum(count, 1)?;
    out.put(Instr::CallStatic(constructor(layout, class)?, values))?;
    put_fetch(out, layout, count)?;
    out.put(Instr::New(class))?;
    put_stash(out, layout, count)
}
