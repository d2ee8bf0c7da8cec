// One instruction, where it asks no cell.
ghost use Rattle.std.specs.Prelude.{◌+◌, ◌<◌, ◌^◌, IfOk};
ghost use Rattle.program.specs.Program.{parts_of};
ghost use Rattle.code_unit.specs.declared.unit.Unit.{Unit as CodeUnit};
ghost use Rattle.isolate_state.specs.State.{AreOf, Did, IsHeld, Needs};

use crate::elements::element_or;
use crate::fields::make_object;
use crate::frame::{Flow, Frame};
use crate::frames::{enter, give_back};
use crate::isolate::Isolate;
use crate::jumps::{expect_bool, expect_text, jump, jump_if_false, loop_turn, not};
use crate::making::{concat, make_list};
use crate::members::call_method;
use crate::objects::{emit, set_field, throw};
use crate::slots::{constant, dup, dup_two, global, local, pop, set_global, set_local};
use code_pool::CodePool;
use code_unit::Instr;
use ds_base::NoMemory;
use program::Numbered;
use std::alloc::Global;

/// Does an instruction. One that asks a cell or a test of types is done elsewhere: here it has the free answer.
#[inline(always)]
pub fn act(
    alloc: Global,
    program: &Numbered,
    pool: &CodePool,
    instr: Instr,
    isolate: &mut Isolate,
    frame: &mut Frame,
    turns: &mut u64,
) -> Result<Flow, NoMemory>
    requires place { frame.old.place + 1 < 2 ^ 64 }
    requires held { AreOf isolate.old }
    requires needs { Needs (parts_of program.now) pool.now instr isolate.old frame.old turns.old }
    ensures { IfOk result (λ flow. (unit : CodeUnit) → IsHeld (parts_of program.now) pool.now isolate.old
        → Did (parts_of program.now) pool.now unit instr isolate.old frame.old turns.old flow isolate.new frame.new turns.new) }
{
    match instr {
        Instr::Const(k) => {
            let flow = constant(isolate, frame, k)?;
            Ok(flow)
        }
        Instr::Local(k) => {
            let flow = local(isolate, frame, k)?;
            Ok(flow)
        }
        Instr::SetLocal(k) => Ok(set_local(isolate, frame, k)),
        Instr::Global(g) => {
            let flow = global(isolate, frame, g)?;
            Ok(flow)
        }
        Instr::SetGlobal(g) => Ok(set_global(isolate, frame, g)),
        Instr::Pop => Ok(pop(isolate, frame)),
        Instr::Dup => {
            let flow = dup(isolate, frame)?;
            Ok(flow)
        }
        Instr::Dup2 => {
            let flow = dup_two(isolate, frame)?;
            Ok(flow)
        }
        Instr::Jump(to) => Ok(jump(isolate, frame, to)),
        Instr::JumpIfFalse(to) => Ok(jump_if_false(isolate, frame, to)),
        Instr::ExpectBool => Ok(expect_bool(isolate, frame)),
        Instr::Not => {
            let flow = not(isolate, frame)?;
            Ok(flow)
        }
        Instr::LoopTurn => Ok(loop_turn(isolate, frame, turns)),
        Instr::CallStatic(k, n) => {
            let u = pool.static_target(k);
            let flow = enter(alloc, pool, isolate, frame, turns, u, n as usize)?;
            Ok(flow)
        }
        Instr::CallMethod(m, n) => {
            let flow = call_method(alloc, program, pool, isolate, frame, turns, m, n as usize)?;
            Ok(flow)
        }
        Instr::Return => {
            let flow = give_back(isolate, frame)?;
            Ok(flow)
        }
        Instr::Throw => {
            let flow = throw(alloc, program, isolate)?;
            Ok(flow)
        }
        Instr::SetField(k) => Ok(set_field(isolate, frame, k)),
        Instr::MakeList(n) => {
            make_list(alloc, isolate, n)?;
            frame.place += 1;
            Ok(Flow::Here)
        }
        Instr::Concat(n) => {
            concat(isolate, n)?;
            frame.place += 1;
            Ok(Flow::Here)
        }
        Instr::ExpectString => Ok(expect_text(isolate, frame)),
        Instr::Emit => {
            emit(alloc, isolate)?;
            frame.place += 1;
            Ok(Flow::Here)
        }
        Instr::ElementOr(to) => {
            let flow = element_or(isolate, frame, to)?;
            Ok(flow)
        }
        Instr::New(c) => {
            make_object(alloc, program, isolate, c)?;
            frame.place += 1;
            Ok(Flow::Here)
        }
        Instr::Call(_, _) | Instr::Equal(_) | Instr::IsClass(_) => Err(NoMemory),
    }
}
