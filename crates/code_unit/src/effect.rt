// What instructions do to the operands.
ghost use Rattle.std.specs.Prelude.{◌≡◌};
ghost use Rattle.code_unit.specs.Effects.{effect, simple, with_slot, or_jump, and_ends};

use crate::instr::Instr;

/// What an instruction does to the operands, and where it may lead.
#[derive(Clone, Copy, Debug, PartialEq, Eq)]
pub struct Effect {
    /// The operands that it needs, and takes.
    pub takes: u64,
    /// Those that it leaves in their place, where it goes on.
    pub leaves: u32,
    /// Whether it may go on to the next place.
    pub goes_on: bool,
    /// The place that it may jump to, where it leaves none.
    pub jump: Option<u32>,
    /// The slot that it reads or writes.
    pub slot: Option<u32>,
}

impl Effect {
    /// An instruction that goes on and does not jump, and uses no slot.
    fn simple(takes: u64, leaves: u32) -> Effect
        ensures { result ≡ simple takes leaves }
    {
        Effect {
            takes,
            leaves,
            goes_on: true,
            jump: None,
            slot: None,
        }
    }

    fn with_slot(self, slot: u32) -> Effect
        ensures { result ≡ with_slot slot self }
    {
        Effect {
            slot: Some(slot),
            ..self
        }
    }

    fn or_jump(self, to: u32) -> Effect
        ensures { result ≡ or_jump to self }
    {
        Effect {
            jump: Some(to),
            ..self
        }
    }

    fn and_ends(self) -> Effect
        ensures { result ≡ and_ends self }
    {
        Effect {
            goes_on: false,
            ..self
        }
    }
}

impl Instr {
    pub fn effect(self) -> Effect
        ensures { result ≡ effect self }
    {
        match self {
            Instr::Const(_) | Instr::Global(_) | Instr::New(_) => Effect::simple(0, 1),
            Instr::SetGlobal(_) | Instr::Pop | Instr::Emit => Effect::simple(1, 0),
            Instr::Local(slot) => Effect::simple(0, 1).with_slot(slot),
            Instr::SetLocal(slot) => Effect::simple(1, 0).with_slot(slot),
            Instr::Dup => Effect::simple(1, 2),
            Instr::Dup2 => Effect::simple(2, 4),
            Instr::Jump(to) => Effect::simple(0, 0).or_jump(to).and_ends(),
            Instr::JumpIfFalse(to) => Effect::simple(1, 0).or_jump(to),
            Instr::ElementOr(to) => Effect::simple(2, 2).or_jump(to),
            Instr::ExpectBool | Instr::Not | Instr::ExpectString | Instr::IsClass(_) => {
                Effect::simple(1, 1)
            }
            Instr::LoopTurn => Effect::simple(0, 0),
            Instr::Call(_, count) => Effect::simple(count as u64 + 1, 1),
            Instr::Equal(_) => Effect::simple(2, 1),
            Instr::CallStatic(_, count)
            | Instr::CallMethod(_, count)
            | Instr::MakeList(count)
            | Instr::Concat(count) => Effect::simple(count as u64, 1),
            Instr::SetField(_) => Effect::simple(2, 0),
            Instr::Throw | Instr::Return => Effect::simple(1, 0).and_ends(),
        }
    }
}
