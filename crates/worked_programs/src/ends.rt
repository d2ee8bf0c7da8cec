//! Programs that end in each way, and what they do.

ghost use Rattle.std.specs.Prelude.{List, [], ◌∷◌, ◌++◌, codes};
ghost use Rattle.dart_values.specs.declared.fault.Trap.TheVariants as trap;
ghost use Rattle.dart_meaning.specs.Run.{done, threw, out_of_turns, stack_overflow};
ghost use Rattle.worked_programs.specs.Reading.{Does};
ghost use Rattle.worked_programs.specs.Texts as text;

/// A condition that is no bool is a TypeFault. The lines so far stay.
pub fn condition_is_no_bool()
    ensures { Does text.condition_is_no_bool (codes "main") 100 (codes "1" ∷ []) (threw trap.TypeFault) ((0, 3) ∷ []) [] }
{}

/// An index that is not there is a RangeFault.
pub fn index_is_not_there()
    ensures { Does text.index_is_not_there (codes "main") 100 [] (threw trap.RangeFault) ((0, 5) ∷ []) [] }
{}

/// A shift by a negative count is a NegativeShift.
pub fn shift_is_negative()
    ensures { Does text.shift_is_negative (codes "main") 100 [] (threw trap.NegativeShift) ((0, 3) ∷ []) [] }
{}

/// A thrown object tells its class, without a call. Tests count also here.
pub fn throws_an_object()
    ensures { Does text.throws_an_object (codes "main") 100 [] (threw (trap.Thrown (codes "Instance of 'A'"))) [] ((3, 3) ∷ []) }
{}

/// A thrown string tells itself.
pub fn throws_a_text()
    ensures { Does text.throws_a_text (codes "main") 100 [] (threw (trap.Thrown (codes "xy"))) ((0, 4) ∷ []) [] }
{}

/// `throw null` is a TypeFault.
pub fn throws_null()
    ensures { Does text.throws_null (codes "main") 100 [] (threw trap.TypeFault) [] [] }
{}

/// A `toString` that answers no String is a TypeFault.
pub fn text_is_no_string()
    ensures { Does text.text_is_no_string (codes "main") 100 [] (threw trap.TypeFault) ((0, 7) ∷ []) [] }
{}

/// A `==` that answers no bool is a TypeFault.
pub fn equal_is_no_bool()
    ensures { Does text.equal_is_no_bool (codes "main") 100 [] (threw trap.TypeFault) ((0, 7) ∷ []) [] }
{}
