// Sound units.
ghost use Rattle.std.specs.Prelude.{◌≡◌, ◌<◌, ◌↔◌, IsTrue, IfSome, Some, length, slice_get};
ghost use Rattle.std.specs.Bool.{OnTrue};
ghost use Rattle.code_unit.specs.Sound.{IsSound, IsDepth, DepthsAgreeAt, IsFine};

use crate::effect::Effect;
use crate::instr::Instr;
use crate::unit::Unit;

/// Whether the unit states this depth for the place.
fn is_depth(unit: &Unit, place: usize, depth: u64) -> bool
    ensures { IsTrue result ↔ IsDepth unit.now place depth }
{
    match unit.depths.get(place) {
        Some(stated) => *stated as u64 == depth,
        None => false,
    }
}

fn is_in_code(unit: &Unit, jump: Option<u32>) -> bool
    ensures { IsTrue result ↔ IfSome jump (λ to. to < length unit.now.code) }
{
    match jump {
        Some(to) => (to as usize) < unit.code.len(),
        None => true,
    }
}

fn is_slot(unit: &Unit, slot: Option<u32>) -> bool
    ensures { IsTrue result ↔ IfSome slot (λ k. k < unit.now.locals) }
{
    match slot {
        Some(k) => k < unit.locals,
        None => true,
    }
}

/// Whether the operands are there, and each place that the step leads to states what it leaves.
fn depths_agree(unit: &Unit, next: usize, depth: u32, effect: Effect) -> bool
    ensures { IsTrue result ↔ DepthsAgreeAt unit.now next depth effect }
{
    let depth = depth as u64;
    if depth < effect.takes {
        return false;
    }
    let rest = depth - effect.takes;
    let on = !effect.goes_on || is_depth(unit, next, rest + effect.leaves as u64);
    let jump = match effect.jump {
        Some(to) => is_depth(unit, to as usize, rest),
        None => true,
    };
    on && jump
}

/// Whether the instruction at a place is as in a sound unit.
fn is_fine(unit: &Unit, place: usize, instr: Instr) -> bool
    requires { place < length unit.now.code }
    ensures { IsTrue result ↔ IsFine unit.now place instr }
{
    let effect = instr.effect();
    let count = unit.code.len();
    let next = place + 1;
    let Some(depth) = unit.depths.get(place) else {
        return false
    };
    is_in_code(unit, effect.jump)
        && (!effect.goes_on || next < count)
        && is_slot(unit, effect.slot)
        && depths_agree(unit, next, *depth, effect)
}

/// Whether the unit's jumps lie in its code, no step runs past its end, each slot is there, and the stated depths
/// agree along every step, with no operand missing.
pub fn check_unit(unit: &Unit) -> bool
    ensures { IsTrue result ↔ IsSound unit.now }
{
    if unit.depths.len() != unit.code.len() || !is_depth(unit, 0, 0) {
        return false;
    }
    let code = unit.code.as_slice();
    for place in 0..code.len() {
        if !is_fine(unit, place, code[place]) {
            return false;
        }
    }
    true
}
