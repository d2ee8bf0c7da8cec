//! Programs that a nearby meaning would do otherwise, each for one clause.

ghost use Rattle.std.specs.Prelude.{List, [], ◌∷◌, codes};
ghost use Rattle.dart_values.specs.declared.fault.Trap.TheVariants as trap;
ghost use Rattle.dart_meaning.specs.Run.{done, threw};
ghost use Rattle.worked_programs.specs.Reading.{Does};
ghost use Rattle.worked_programs.specs.Texts as text;

/// `return` leaves the body, out of a loop too.
pub fn return_leaves_a_loop()
    ensures { Does text.return_leaves_a_loop (codes "main") 100 (codes "1" ∷ []) done ((0, 3) ∷ []) [] }
{}

/// The right side of `&&` has to be a bool.
pub fn right_sides_are_bools()
    ensures { Does text.right_sides_are_bools (codes "main") 100 [] (threw trap.TypeFault) [] [] }
{}

/// So has that of `||`.
pub fn right_side_of_or()
    ensures { Does text.right_side_of_or (codes "main") 100 [] (threw trap.TypeFault) [] [] }
{}

/// `print` answers null.
pub fn print_answers_null()
    ensures { Does text.print_answers_null (codes "main") 100 (codes "1" ∷ codes "null" ∷ []) done ((0, 3) ∷ (0, 1) ∷ []) [] }
{}

/// A field is read without a turn: there is one for `main` and one for the constructor.
pub fn fields_spend_no_turn()
    ensures { Does text.fields_spend_no_turn (codes "main") 2 (codes "1" ∷ []) done ((0, 7) ∷ (1, 3) ∷ []) [] }
{}

/// The text of a list goes on to the length that the list has then.
pub fn lists_grow_while_shown()
    ensures { Does text.lists_grow_while_shown (codes "main") 100 (codes "[g, 7]" ∷ []) done ((5, 5) ∷ (6, 5) ∷ (7, 7) ∷ (0, 7) ∷ (1, 5) ∷ (2, 3) ∷ (3, 7) ∷ (4, 5) ∷ (7, 3) ∷ []) [] }
{}

/// A compound assignment reads before its right side is evaluated.
pub fn old_value_first()
    ensures { Does text.old_value_first (codes "main") 100 (codes "2" ∷ []) done ((0, 3) ∷ (1, 3) ∷ []) [] }
{}

/// A `this.x` is set before the superclass's constructor is entered.
pub fn fields_before_super()
    ensures { Does text.fields_before_super (codes "main") 100 (codes "1" ∷ []) done ((0, 8) ∷ (1, 8) ∷ (2, 3) ∷ []) [] }
{}

/// A block drops its locals: behind it the name is the field.
pub fn blocks_drop_their_locals()
    ensures { Does text.blocks_drop_their_locals (codes "main") 100 (codes "1" ∷ []) done ((1, 7) ∷ (0, 7) ∷ (2, 3) ∷ []) [] }
{}
