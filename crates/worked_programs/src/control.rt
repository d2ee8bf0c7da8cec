//! Programs of conditions, loops, turns and depth, and what they do.

ghost use Rattle.std.specs.Prelude.{List, [], ◌∷◌, ◌++◌, codes};
ghost use Rattle.dart_values.specs.declared.fault.Trap.TheVariants as trap;
ghost use Rattle.dart_meaning.specs.Run.{done, threw, out_of_turns, stack_overflow};
ghost use Rattle.worked_programs.specs.Reading.{Does, DoesWithin, times};
ghost use Rattle.worked_programs.specs.Texts as text;

/// A usual program.
pub fn shapes()
    ensures { Does text.shapes (codes "main") 1000 (codes "area 9" ∷ codes "area 10" ∷ []) done ((9, 5) ∷ (8, 3) ∷ (11, 5) ∷ (12, 8) ∷ (1, 8) ∷ (2, 8) ∷ (4, 8) ∷ (3, 3) ∷ (0, 3) ∷ (10, 3) ∷ (9, 5) ∷ (8, 3) ∷ (11, 5) ∷ (12, 9) ∷ (1, 9) ∷ (5, 9) ∷ (7, 9) ∷ (6, 3) ∷ (0, 3) ∷ (10, 3) ∷ (9, 5) ∷ (8, 3) ∷ []) [] }
{}

/// `&&` and `||` evaluate their right side only where it is needed, and `?:` one branch.
pub fn conditions()
    ensures { Does text.conditions (codes "main") 100 (codes "false" ∷ codes "false" ∷ codes "true" ∷ codes "true" ∷ codes "true" ∷ codes "false" ∷ codes "true" ∷ codes "1" ∷ codes "false" ∷ codes "4" ∷ codes "true" ∷ codes "5" ∷ []) done ((0, 2) ∷ (0, 2) ∷ (0, 2) ∷ (0, 2) ∷ (0, 2) ∷ (0, 2) ∷ (0, 2) ∷ (0, 3) ∷ (0, 2) ∷ (0, 3) ∷ (0, 2) ∷ (0, 3) ∷ []) [] }
{}

/// `while` tests first and `do` last; `continue` goes to the test, in `for` to the last part first. Each turn of a loop is one turn.
pub fn loops()
    ensures enough { Does text.loops (codes "main") 12 (codes "1" ∷ codes "3" ∷ codes "3" ∷ codes "1" ∷ codes "0" ∷ codes "2" ∷ codes "31" ∷ []) done ((0, 3) ∷ (1, 3) ∷ (2, 3) ∷ (10, 3) ∷ (0, 3) ∷ (1, 3) ∷ (0, 3) ∷ (1, 3) ∷ (2, 3) ∷ (10, 3) ∷ (0, 3) ∷ (1, 3) ∷ (2, 3) ∷ (3, 3) ∷ (4, 3) ∷ (10, 3) ∷ (5, 3) ∷ (3, 3) ∷ (4, 3) ∷ (5, 3) ∷ (3, 3) ∷ (4, 3) ∷ (10, 3) ∷ (5, 3) ∷ (6, 3) ∷ (9, 3) ∷ (10, 3) ∷ (7, 3) ∷ (8, 3) ∷ (6, 3) ∷ (9, 3) ∷ (7, 3) ∷ (8, 3) ∷ (6, 3) ∷ (9, 3) ∷ (10, 3) ∷ (7, 3) ∷ (8, 3) ∷ (6, 3) ∷ (10, 3) ∷ []) [] }
    ensures too_few { Does text.loops (codes "main") 11 (codes "1" ∷ codes "3" ∷ codes "3" ∷ codes "1" ∷ codes "0" ∷ []) out_of_turns ((0, 3) ∷ (1, 3) ∷ (2, 3) ∷ (10, 3) ∷ (0, 3) ∷ (1, 3) ∷ (0, 3) ∷ (1, 3) ∷ (2, 3) ∷ (10, 3) ∷ (0, 3) ∷ (1, 3) ∷ (2, 3) ∷ (3, 3) ∷ (4, 3) ∷ (10, 3) ∷ (5, 3) ∷ (3, 3) ∷ (4, 3) ∷ (5, 3) ∷ (3, 3) ∷ (4, 3) ∷ (10, 3) ∷ (5, 3) ∷ (6, 3) ∷ (9, 3) ∷ (10, 3) ∷ (7, 3) ∷ (8, 3) ∷ (6, 3) ∷ (9, 3) ∷ (7, 3) ∷ (8, 3) ∷ (6, 3) ∷ []) [] }
{}

/// A body that ends without `return`, and `return;`, answer null. A block drops its locals.
pub fn returns()
    ensures { Does text.returns (codes "main") 100 (codes "2" ∷ codes "3" ∷ codes "[1, null, null, 4]" ∷ []) done ((0, 3) ∷ (0, 3) ∷ (0, 5) ∷ (1, 3) ∷ (1, 1) ∷ (1, 1) ∷ (1, 3) ∷ []) [] }
{}

/// With n turns, n are spent, here one for `main`; the next one is not begun.
pub fn endless_loop()
    ensures { Does text.endless_loop (codes "main") 1000 (times 999 (codes "1" ∷ [])) out_of_turns (times 999 ((0, 3) ∷ [])) [] }
{}

/// An entry spends its turn, and then has to have a level left. The entry point has depth 1, and 2,000 is the greatest depth.
pub fn depth_limit()
    ensures turns { Does text.depth_limit (codes "main") 1999 [] out_of_turns (times 1998 ((0, 3) ∷ (2, 3) ∷ [])) [] }
    ensures overflows { Does text.depth_limit (codes "deeper") 5000 [] stack_overflow (times 1999 ((0, 3) ∷ (2, 3) ∷ [])) [] }
{}

/// The same with 20 levels in place of 2,000.
pub fn twenty_levels()
    ensures fits { DoesWithin 20 text.twenty_levels (codes "main") 20 (codes "18" ∷ []) done (times 18 ((0, 3) ∷ (2, 3) ∷ []) ++ ((0, 3) ∷ times 18 ((1, 3) ∷ []) ++ (3, 3) ∷ [])) [] }
    ensures turns { DoesWithin 20 text.twenty_levels (codes "main") 19 [] out_of_turns (times 18 ((0, 3) ∷ (2, 3) ∷ [])) [] }
    ensures overflows { DoesWithin 20 text.twenty_levels (codes "deeper") 50 [] stack_overflow (times 19 ((0, 3) ∷ (2, 3) ∷ [])) [] }
{}

/// The turn comes before the level.
pub fn deepest()
    ensures overflows { Does text.deepest (codes "main") 2001 [] stack_overflow [] [] }
    ensures turns { Does text.deepest (codes "main") 2000 [] out_of_turns [] [] }
{}
