//! Laws of the machine. Each is for every pool, and so its function does nothing.

ghost use Rattle.code_pool.specs.Laws.{SoundUnitsHaveTheirParts};

/// Over sound units the machine never lacks a place, an operand or a slot.
pub fn sound_units_have_their_parts()
    ensures law { SoundUnitsHaveTheirParts }
{}
