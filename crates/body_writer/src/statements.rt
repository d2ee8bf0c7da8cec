// The code of statements.
ghost use Rattle.std.specs.Prelude.{◌≡◌, suc, OnOk, IfOk, map};
ghost use Rattle.program.specs.Bodies.{exp, exps, sta, first, when_else, while, for, do_while};
ghost use Rattle.program.specs.Sound.{after_first};
ghost use Rattle.program_code.specs.Needs.{all_after};
ghost use Rattle.code_writer.specs.Views.{stas_of};
ghost use Rattle.code_writer.specs.EmittedStatements.{put_leave, emit_drops, emit_first, emit_sta, emit_stas};
ghost use Rattle.body_writer.specs.Variables.{declared};

use crate::expressions::emit;
use crate::variables::{declares, open_behind, open_in_for};
use code_unit::Instr;
use code_writer::{Emitter, Layout, sum};
use program::{Expression, First, Statement};
use std::alloc::AllocError;

/// What is open where a statement stands.
#[derive(Clone, Copy)]
pub struct Scope {
    /// How many variables.
    pub variables: u32,
    /// How many instructions stand behind the target of `break`.
    pub break_to: u32,
    /// And behind that of `continue`.
    pub continue_to: u32,
}

/// Writes what `return` does behind its value.
fn put_leave(out: &mut Emitter<'_>, layout: Layout) -> Result<(), AllocError>
    ensures { OnOk result (out.new ≡ put_leave layout out.old) }
{
    out.put(Instr::Return)?;
    if layout.of_constructor {
        out.put(Instr::Local(0))?;
        out.put(Instr::Pop)?;
    }
    Ok(())
}

/// Writes expressions whose values are dropped, the last one first.
fn emit_drops<'a>(
    out: &mut Emitter<'a>,
    layout: Layout,
    all: &'a [Expression],
) -> Result<(), AllocError>
    ensures { OnOk result (out.new ≡ emit_drops layout (exps (map exp all.now)) out.old) }
{
    for i in (0..all.len()).rev() {
        out.put(Instr::Pop)?;
        emit(out, layout, &all[i])?;
    }
    Ok(())
}

/// Writes the first part of a `for`.
fn emit_first<'a>(
    out: &mut Emitter<'a>,
    layout: Layout,
    count: u32,
    start: &'a First,
) -> Result<(), AllocError>
    ensures { OnOk result (out.new ≡ emit_first layout (first start.now) count out.old) }
{
    match start {
        First::Nothing => Ok(()),
        First::Declares(e) => {
            out.put(Instr::SetLocal(sum(layout.first, count)?))?;
            emit(out, layout, e)
        }
        First::Runs(e) => {
            out.put(Instr::Pop)?;
            emit(out, layout, e)
        }
    }
}

/// Writes a statement.
#[cycle(statements)]
fn emit_statement<'a>(
    out: &mut Emitter<'a>,
    layout: Layout,
    scope: Scope,
    x: &'a Statement,
) -> Result<(), AllocError>
    ensures { OnOk result (out.new ≡ emit_sta layout (sta x.now) scope.variables scope.break_to scope.continue_to out.old) }
{
    match x {
        Statement::Block(all) => emit_statements(out, layout, scope, all.as_slice()),
        Statement::Declare(e) => {
            out.put(Instr::SetLocal(sum(layout.first, scope.variables)?))?;
            emit(out, layout, e)
        }
        Statement::Run(e) => {
            out.put(Instr::Pop)?;
            emit(out, layout, e)
        }
        Statement::Empty => Ok(()),
        Statement::If(test, x, None) => {
            let end = out.behind()?;
            emit_statement(out, layout, scope, x.get())?;
            out.put(Instr::JumpIfFalse(end))?;
            emit(out, layout, test)
        }
        Statement::If(test, x, Some(y)) => {
            let end = out.behind()?;
            emit_statement(out, layout, scope, y.get())?;
            let otherwise = out.behind()?;
            out.put(Instr::Jump(end))?;
            emit_statement(out, layout, scope, x.get())?;
            out.put(Instr::JumpIfFalse(otherwise))?;
            emit(out, layout, test)
        }
        Statement::While(test, body) => emit_while(out, layout, scope, body.get(), test),
        Statement::For(start, test, last, body) => {
            emit_for(out, layout, scope, body.get(), start, test, last.as_slice())
        }
        Statement::Do(body, test) => emit_do(out, layout, scope, body.get(), test),
        Statement::Break => out.put(Instr::Jump(scope.break_to)),
        Statement::Continue => out.put(Instr::Jump(scope.continue_to)),
        Statement::Return(e) => {
            put_leave(out, layout)?;
            emit(out, layout, e)
        }
    }
}

#[cycle(statements)]
fn emit_while<'a>(
    out: &mut Emitter<'a>,
    layout: Layout,
    scope: Scope,
    body: &'a Statement,
    test: &'a Expression,
) -> Result<(), AllocError>
    ensures { OnOk result (out.new ≡ emit_sta layout (while (exp test.now) (sta body.now)) scope.variables scope.break_to scope.continue_to out.old) }
{
    let end = out.behind()?;
    out.put(Instr::Jump(0))?;
    let next = out.behind()?;
    let inside = Scope {
        variables: scope.variables,
        break_to: end,
        continue_to: next,
    };
    emit_statement(out, layout, inside, body)?;
    out.put(Instr::LoopTurn)?;
    out.put(Instr::JumpIfFalse(end))?;
    emit(out, layout, test)?;
    let top = out.behind()?;
    out.patch(end, top);
    Ok(())
}

#[cycle(statements)]
fn emit_for<'a>(
    out: &mut Emitter<'a>,
    layout: Layout,
    scope: Scope,
    body: &'a Statement,
    start: &'a First,
    test: &'a Expression,
    last: &'a [Expression],
) -> Result<(), AllocError>
    ensures { OnOk result (out.new ≡ emit_sta layout (for (first start.now) (exp test.now) (exps (map exp last.now)) (sta body.now)) scope.variables scope.break_to scope.continue_to out.old) }
{
    let end = out.behind()?;
    out.put(Instr::Jump(0))?;
    emit_drops(out, layout, last)?;
    let next = out.behind()?;
    let inside = Scope {
        variables: open_in_for(start, scope.variables)?,
        break_to: end,
        continue_to: next,
    };
    emit_statement(out, layout, inside, body)?;
    out.put(Instr::LoopTurn)?;
    out.put(Instr::JumpIfFalse(end))?;
    emit(out, layout, test)?;
    let top = out.behind()?;
    out.patch(end, top);
    emit_first(out, layout, scope.variables, start)
}

#[cycle(statements)]
fn emit_do<'a>(
    out: &mut Emitter<'a>,
    layout: Layout,
    scope: Scope,
    body: &'a Statement,
    test: &'a Expression,
) -> Result<(), AllocError>
    ensures { OnOk result (out.new ≡ emit_sta layout (do_while (sta body.now) (exp test.now)) scope.variables scope.break_to scope.continue_to out.old) }
{
    let end = out.behind()?;
    out.put(Instr::Jump(0))?;
    out.put(Instr::JumpIfFalse(end))?;
    emit(out, layout, test)?;
    let next = out.behind()?;
    let inside = Scope {
        variables: scope.variables,
        break_to: end,
        continue_to: next,
    };
    emit_statement(out, layout, inside, body)?;
    out.put(Instr::LoopTurn)?;
    let top = out.behind()?;
    out.patch(end, top);
    Ok(())
}

/// Writes statements, the last one first.
#[cycle(statements)]
pub fn emit_statements<'a>(
    out: &mut Emitter<'a>,
    layout: Layout,
    scope: Scope,
    all: &'a [Statement],
) -> Result<(), AllocError>
    ensures { OnOk result (out.new ≡ emit_stas layout (stas_of all.now) scope.variables scope.break_to scope.continue_to out.old) }
{
    let mut variables = open_behind(all, scope.variables)?;
    for i in (0..all.len()).rev() {
        if declares(&all[i]) {
            variables -= 1;
        }
        emit_statement(out, layout, Scope { variables, ..scope }, &all[i])?;
    }
    Ok(())
}
