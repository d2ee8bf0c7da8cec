//! The units of a program's code are sound.
#![tactic(auto)]

ghost use Rattle.sound_code.specs.Laws.{CodeIsSound};

/// In the code of a sound program each unit has its jumps, slots and operands.
pub fn code_is_sound()
    ensures { CodeIsSound }
{}
