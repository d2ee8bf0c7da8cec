// Code that is written to its end: places, depths and constants.
ghost use Rattle.std.specs.Prelude.{◌≡◌, IfOk, map};
ghost use Rattle.program_code.specs.Depths.{depth_behind, depths_from};
ghost use Rattle.code_writer.specs.Constants.{literal_of};
ghost use Rattle.code_writer.specs.Out.{placed, left_by};

use crate::key::{Key, key_of};
use code_unit::Instr;
use program::Literal;
use sqlite_items::Items;
use std::alloc::{AllocError, Global};

/// An instruction of a unit of so many, with its jump's place.
pub fn placed(count: u32, instr: Instr) -> Instr
    ensures { result ≡ placed count instr }
{
    match instr {
        Instr::Jump(behind) => Instr::Jump(count.saturating_sub(behind)),
        Instr::JumpIfFalse(behind) => Instr::JumpIfFalse(count.saturating_sub(behind)),
        Instr::Const(_)
        | Instr::Local(_)
        | Instr::SetLocal(_)
        | Instr::Global(_)
        | Instr::SetGlobal(_)
        | Instr::Pop
        | Instr::Dup
        | Instr::Dup2
        | Instr::ExpectBool
        | Instr::Not
        | Instr::LoopTurn
        | Instr::Call(_, _)
        | Instr::Equal(_)
        | Instr::CallStatic(_, _)
        | Instr::CallMethod(_, _)
        | Instr::Return
        | Instr::Throw
        | Instr::New(_)
        | Instr::SetField(_)
        | Instr::MakeList(_)
        | Instr::Concat(_)
        | Instr::ExpectString
        | Instr::IsClass(_)
        | Instr::Emit
        | Instr::ElementOr(_) => instr,
    }
}

/// What an instruction that goes on leaves of so many operands.
fn left(instr: Instr, depth: u32) -> Result<u32, AllocError>
    ensures { IfOk result (λ n. n ≡ left_by instr depth) }
{
    let effect = instr.effect();
    let rest = (depth as u64).saturating_sub(effect.takes);
    let after = rest + effect.leaves as u64;
    if after < 4294967296 {
        Ok(after as u32)
    } else {
        Err(AllocError)
    }
}

/// The depth of the next place.
fn depth_behind(instr: Instr, depth: u32) -> Result<u32, AllocError>
    ensures { IfOk result (λ n. n ≡ depth_behind instr depth) }
{
    match instr {
        Instr::Jump(_) => Ok(depth.saturating_sub(1)),
        Instr::Throw => Ok(depth),
        Instr::JumpIfFalse(_)
        | Instr::Const(_)
        | Instr::Local(_)
        | Instr::SetLocal(_)
        | Instr::Global(_)
        | Instr::SetGlobal(_)
        | Instr::Pop
        | Instr::Dup
        | Instr::Dup2
        | Instr::ExpectBool
        | Instr::Not
        | Instr::LoopTurn
        | Instr::Call(_, _)
        | Instr::Equal(_)
        | Instr::CallStatic(_, _)
        | Instr::CallMethod(_, _)
        | Instr::Return
        | Instr::New(_)
        | Instr::SetField(_)
        | Instr::MakeList(_)
        | Instr::Concat(_)
        | Instr::ExpectString
        | Instr::IsClass(_)
        | Instr::Emit
        | Instr::ElementOr(_) => left(instr, depth),
    }
}

/// The depth of each place.
pub fn depths_of(alloc: Global, code: &[Instr]) -> Result<Items<u32>, AllocError>
    ensures { IfOk result (λ depths. depths ≡ depths_from 0 code.now) }
{
    let mut depths = Items::new(alloc);
    let mut depth = 0;
    for instr in code {
        depths.push(depth)?;
        depth = depth_behind(*instr, depth)?;
    }
    Ok(depths)
}

/// The literal of a key.
pub fn literal(alloc: Global, key: Key<'_>) -> Result<Literal, AllocError>
    ensures { IfOk result (λ l. l ≡ literal_of key.entry) }
{
    match key {
        Key::Null => Ok(Literal::Null),
        Key::Bool(b) => Ok(Literal::Bool(b)),
        Key::Int(n) => Ok(Literal::Int(n)),
        Key::Text(units) => Ok(Literal::Str(Items::from_slice(alloc, units)?)),
    }
}

/// The literals of keys.
pub fn literals_of(alloc: Global, keys: &[Key<'_>]) -> Result<Vec<Literal>, AllocError>
    ensures { IfOk result (λ all. all.items ≡ map literal_of keys.now) }
{
    let mut all = Vec::new(alloc);
    for key in keys {
        all.push(literal(alloc, *key)?)?;
    }
    Ok(all)
}

/// Literals once more.
pub fn literals(alloc: Global, all: &[Literal]) -> Result<Items<Literal>, AllocError>
    ensures { IfOk result (λ copies. copies ≡ all.now) }
{
    let mut copies = Items::new(alloc);
    for l in all {
        copies.push(literal(alloc, key_of(l))?)?;
    }
    Ok(copies)
}
