//! Programs of numbers, strings, lists and tests of classes, and what they do.

ghost use Rattle.std.specs.Prelude.{List, [], ◌∷◌, ◌++◌, codes};
ghost use Rattle.dart_values.specs.declared.fault.Trap.TheVariants as trap;
ghost use Rattle.dart_meaning.specs.Run.{done, threw, out_of_turns, stack_overflow};
ghost use Rattle.worked_programs.specs.Reading.{Does};
ghost use Rattle.worked_programs.specs.Texts as text;

/// A class, a method and a call: three turns are spent, for `main`, the constructor and the method.
pub fn first_run()
    ensures enough { Does text.first_run (codes "main") 3 (codes "7" ∷ []) done ((0, 7) ∷ (1, 3) ∷ []) [] }
    ensures too_few { Does text.first_run (codes "main") 2 [] out_of_turns ((0, 7) ∷ []) [] }
{}

/// Integers wrap at 64 bits; quotients go towards zero, and remainders are not negative.
pub fn integer_edges()
    ensures { Does text.integer_edges (codes "main") 100 (codes "-9223372036854775808" ∷ codes "9223372036854775807" ∷ codes "0" ∷ codes "-1" ∷ codes "15" ∷ codes "2" ∷ codes "-3" ∷ []) (threw trap.DivideByZero) ((0, 3) ∷ (8, 3) ∷ (1, 3) ∷ (8, 3) ∷ (2, 3) ∷ (8, 3) ∷ (3, 3) ∷ (8, 3) ∷ (4, 3) ∷ (8, 3) ∷ (5, 3) ∷ (8, 3) ∷ (6, 3) ∷ (8, 3) ∷ (7, 3) ∷ []) [] }
{}

/// A string is a list of code units, and a character above U+FFFF has two.
pub fn surrogates()
    ensures { Does text.surrogates (codes "main") 100 (codes "2" ∷ (55357 ∷ []) ∷ (55357 ∷ 56832 ∷ []) ∷ []) done ((0, 4) ∷ (5, 3) ∷ (1, 4) ∷ (5, 4) ∷ (2, 4) ∷ (4, 4) ∷ (3, 4) ∷ (5, 4) ∷ []) [] }
{}

/// Operators of one level go from left to right. A minus directly before a number calls nothing.
pub fn arithmetic()
    ensures { Does text.arithmetic (codes "main") 100 (codes "5" ∷ codes "11" ∷ codes "2" ∷ codes "-6" ∷ codes "-3" ∷ codes "-3" ∷ codes "-3" ∷ []) done ((1, 3) ∷ (0, 3) ∷ (3, 3) ∷ (4, 3) ∷ (2, 3) ∷ (14, 3) ∷ (5, 3) ∷ (7, 3) ∷ (6, 3) ∷ (14, 3) ∷ (8, 3) ∷ (9, 3) ∷ (10, 3) ∷ (14, 3) ∷ (11, 3) ∷ (14, 3) ∷ (12, 3) ∷ (14, 3) ∷ (13, 3) ∷ (14, 3) ∷ (14, 3) ∷ []) [] }
{}

/// With null on either side `==` asks no cell, and `!=` is its negation.
pub fn comparisons()
    ensures { Does text.comparisons (codes "main") 100 (codes "true" ∷ codes "false" ∷ codes "true" ∷ codes "false" ∷ codes "true" ∷ codes "false" ∷ codes "false" ∷ codes "true" ∷ codes "true" ∷ []) done ((0, 3) ∷ (9, 2) ∷ (1, 3) ∷ (9, 2) ∷ (2, 3) ∷ (9, 2) ∷ (3, 3) ∷ (9, 2) ∷ (4, 4) ∷ (9, 2) ∷ (5, 4) ∷ (9, 2) ∷ (6, 3) ∷ (9, 2) ∷ (9, 2) ∷ (9, 2) ∷ []) [] }
{}

/// Each interpolation is evaluated, and its `toString` is called at once. A printed text stands as it is.
pub fn interpolations()
    ensures { Does text.interpolations (codes "main") 100 (codes "1 and 2in 1" ∷ (120 ∷ 10 ∷ 121 ∷ []) ∷ []) done ((0, 3) ∷ (2, 3) ∷ (1, 3) ∷ (4, 3) ∷ (3, 4) ∷ (5, 4) ∷ (5, 4) ∷ []) [] }
{}

/// The text of a list spends a turn for itself and one for each element, and calls the `toString` of each.
pub fn lists()
    ensures enough { Does text.lists (codes "main") 13 (codes "[1, a, null, [true]]" ∷ codes "false" ∷ codes "[a, a, null, 1]" ∷ []) done ((6, 5) ∷ (7, 3) ∷ (7, 4) ∷ (7, 1) ∷ (7, 5) ∷ (7, 2) ∷ (1, 5) ∷ (2, 5) ∷ (0, 5) ∷ (4, 5) ∷ (3, 5) ∷ (5, 5) ∷ (6, 2) ∷ (6, 5) ∷ (7, 4) ∷ (7, 4) ∷ (7, 1) ∷ (7, 3) ∷ []) [] }
    ensures too_few { Does text.lists (codes "main") 12 (codes "[1, a, null, [true]]" ∷ codes "false" ∷ []) out_of_turns ((6, 5) ∷ (7, 3) ∷ (7, 4) ∷ (7, 1) ∷ (7, 5) ∷ (7, 2) ∷ (1, 5) ∷ (2, 5) ∷ (0, 5) ∷ (4, 5) ∷ (3, 5) ∷ (5, 5) ∷ (6, 2) ∷ (6, 5) ∷ (7, 4) ∷ (7, 4) ∷ (7, 1) ∷ []) [] }
{}

/// A value is of its class and of the classes above it by `extends` and `implements`. Null is of class Null alone, and no test is counted for it.
pub fn tests_of_classes()
    ensures { Does text.tests_of_classes (codes "main") 100 (codes "true" ∷ codes "false" ∷ codes "true" ∷ codes "false" ∷ codes "true" ∷ codes "false" ∷ codes "true" ∷ codes "false" ∷ []) done ((0, 2) ∷ (0, 2) ∷ (0, 2) ∷ (0, 2) ∷ (0, 2) ∷ (0, 2) ∷ (0, 2) ∷ (0, 2) ∷ []) ((8, 7) ∷ (7, 8) ∷ (9, 7) ∷ (9, 8) ∷ (3, 0) ∷ (4, 4) ∷ []) }
{}
