use crate::{Instr, Unit, check_unit};
use sqlite_items::Items;
use std::alloc::AllocError;

/// A unit without parameters.
fn unit(rt: &HostRuntime, code: &[Instr], depths: &[u32], locals: u32) -> Result<Unit, AllocError> {
    Ok(Unit {
        code: Items::from_slice(rt.alloc(), code)?,
        depths: Items::from_slice(rt.alloc(), depths)?,
        params: 0,
        defaults: Items::new(rt.alloc()),
        locals,
    })
}

#[test]
fn passes_a_loop(rt: HostRuntime) -> Result<(), AllocError> {
    let code = [
        Instr::Const(0),
        Instr::JumpIfFalse(4),
        Instr::LoopTurn,
        Instr::Jump(0),
        Instr::Local(0),
        Instr::Return,
    ];
    let depths = [0, 1, 0, 0, 0, 1];
    assert!(rt; check_unit(&unit(&rt, &code, &depths, 1)?));
    assert!(rt; !check_unit(&unit(&rt, &code, &depths, 0)?));
    Ok(())
}

#[test]
fn refuses_no_code(rt: HostRuntime) -> Result<(), AllocError> {
    assert!(rt; !check_unit(&unit(&rt, &[], &[], 0)?));
    Ok(())
}

#[test]
fn an_instruction_is_small(rt: HostRuntime) -> Result<(), AllocError> {
    assert!(rt; size_of::<Instr>() <= 12);
    assert!(rt; Instr::Dup2.effect().leaves == 4);
    Ok(())
}
