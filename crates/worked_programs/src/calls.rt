//! Programs of calls, members, names and construction, and what they do.

ghost use Rattle.std.specs.Prelude.{List, [], ◌∷◌, ◌++◌, codes};
ghost use Rattle.dart_values.specs.declared.fault.Trap.TheVariants as trap;
ghost use Rattle.dart_meaning.specs.Run.{done, threw, out_of_turns, stack_overflow};
ghost use Rattle.worked_programs.specs.Reading.{Does};
ghost use Rattle.worked_programs.specs.Texts as text;

/// A call that finds nothing makes an Invocation, and calls `noSuchMethod` with it. What a setter answers is dropped.
pub fn no_such_method()
    ensures { Does text.no_such_method (codes "main") 100 (codes "foo [1, 2]" ∷ codes "5" ∷ codes "x= [3]" ∷ codes "x []" ∷ codes "5" ∷ []) done ((4, 7) ∷ (1, 6) ∷ (0, 4) ∷ (3, 6) ∷ (2, 5) ∷ (8, 3) ∷ (8, 3) ∷ (7, 4) ∷ (7, 3) ∷ (5, 7) ∷ (1, 6) ∷ (0, 4) ∷ (3, 6) ∷ (2, 5) ∷ (8, 3) ∷ (7, 4) ∷ (6, 7) ∷ (1, 6) ∷ (0, 4) ∷ (3, 6) ∷ (2, 5) ∷ (7, 4) ∷ (7, 3) ∷ []) [] }
{}

/// A method that takes another number of arguments is not found.
pub fn wrong_argument_count()
    ensures { Does text.wrong_argument_count (codes "main") 9 [] (threw (trap.NoSuchMethod (codes "m"))) ((0, 7) ∷ []) [] }
{}

/// Null is a receiver as any other.
pub fn null_receiver()
    ensures { Does text.null_receiver (codes "main") 9 (codes "false" ∷ []) (threw (trap.NoSuchMethod (codes "foo"))) ((2, 2) ∷ (1, 1) ∷ []) [] }
{}

/// A compound assignment evaluates its receiver and its index once.
pub fn compound_assignment()
    ensures { Does text.compound_assignment (codes "main") 9 (codes "f" ∷ codes "[2]" ∷ []) done ((3, 4) ∷ (0, 5) ∷ (2, 3) ∷ (1, 5) ∷ (3, 5) ∷ (4, 3) ∷ []) [] }
{}

/// An Invocation tells its kind and its name; operators are methods, and a setter has a `=`. The value of an assignment is that on its right.
pub fn kinds_of_calls()
    ensures { Does text.kinds_of_calls (codes "main") 100 (codes "m" ∷ codes "[true, false, false]" ∷ codes "g" ∷ codes "[false, true, false]" ∷ codes "s=" ∷ codes "[false, false, true]" ∷ codes "9" ∷ codes "+" ∷ codes "[true, false, false]" ∷ codes "unary-" ∷ codes "[true, false, false]" ∷ codes "[]=" ∷ codes "[true, false, false]" ∷ []) done ((4, 7) ∷ (0, 6) ∷ (10, 4) ∷ (1, 6) ∷ (2, 6) ∷ (3, 6) ∷ (10, 5) ∷ (11, 2) ∷ (11, 2) ∷ (11, 2) ∷ (5, 7) ∷ (0, 6) ∷ (10, 4) ∷ (1, 6) ∷ (2, 6) ∷ (3, 6) ∷ (10, 5) ∷ (11, 2) ∷ (11, 2) ∷ (11, 2) ∷ (6, 7) ∷ (0, 6) ∷ (10, 4) ∷ (1, 6) ∷ (2, 6) ∷ (3, 6) ∷ (10, 5) ∷ (11, 2) ∷ (11, 2) ∷ (11, 2) ∷ (10, 3) ∷ (7, 7) ∷ (0, 6) ∷ (10, 4) ∷ (1, 6) ∷ (2, 6) ∷ (3, 6) ∷ (10, 5) ∷ (11, 2) ∷ (11, 2) ∷ (11, 2) ∷ (8, 7) ∷ (0, 6) ∷ (10, 4) ∷ (1, 6) ∷ (2, 6) ∷ (3, 6) ∷ (10, 5) ∷ (11, 2) ∷ (11, 2) ∷ (11, 2) ∷ (9, 7) ∷ (0, 6) ∷ (10, 4) ∷ (1, 6) ∷ (2, 6) ∷ (3, 6) ∷ (10, 5) ∷ (11, 2) ∷ (11, 2) ∷ (11, 2) ∷ []) [] }
{}

/// Fields, getters, setters and operators are members that a site calls.
pub fn members()
    ensures { Does text.members (codes "main") 100 (codes "8" ∷ codes "20" ∷ codes "17" ∷ codes "-5" ∷ codes "17" ∷ codes "19" ∷ []) done ((13, 7) ∷ (15, 3) ∷ (14, 7) ∷ (16, 7) ∷ (0, 7) ∷ (2, 7) ∷ (1, 3) ∷ (32, 3) ∷ (17, 7) ∷ (3, 7) ∷ (18, 7) ∷ (4, 7) ∷ (6, 7) ∷ (5, 3) ∷ (19, 7) ∷ (32, 3) ∷ (20, 7) ∷ (7, 3) ∷ (8, 7) ∷ (22, 3) ∷ (21, 7) ∷ (10, 7) ∷ (23, 7) ∷ (7, 3) ∷ (8, 7) ∷ (32, 3) ∷ (24, 7) ∷ (12, 7) ∷ (11, 3) ∷ (25, 7) ∷ (32, 3) ∷ (26, 7) ∷ (28, 3) ∷ (27, 7) ∷ (32, 3) ∷ (30, 7) ∷ (29, 3) ∷ (31, 7) ∷ (32, 3) ∷ []) [] }
{}

/// A member of `super` is the first one with a body above the class that holds the text. No cell is asked for it, only for the operator.
pub fn super_members()
    ensures { Does text.super_members (codes "main") 100 (codes "30" ∷ codes "3" ∷ codes "5" ∷ codes "BA" ∷ []) done ((4, 8) ∷ (0, 3) ∷ (1, 3) ∷ (6, 3) ∷ (5, 8) ∷ (2, 3) ∷ (6, 3) ∷ (6, 3) ∷ (6, 8) ∷ (3, 4) ∷ []) [] }
{}

/// A bare name is a local or a parameter, a member that the class declares, a variable of the text, and else a member of `this`.
pub fn names()
    ensures { Does text.names (codes "main") 100 (codes "5" ∷ codes "other" ∷ codes "2" ∷ codes "-3" ∷ codes "null" ∷ []) done ((8, 7) ∷ (0, 3) ∷ (2, 7) ∷ (3, 3) ∷ (1, 7) ∷ (4, 7) ∷ (6, 7) ∷ (9, 3) ∷ (5, 7) ∷ (7, 6) ∷ (9, 4) ∷ (9, 3) ∷ (9, 3) ∷ (9, 1) ∷ []) [] }
{}

/// An object comes with the literals of its fields. Its constructor sets `this.x`, passes its arguments on, and runs its body last.
pub fn construction()
    ensures { Does text.construction (codes "main") 100 (codes "in A" ∷ codes "in B" ∷ codes "3" ∷ codes "b" ∷ codes "4" ∷ codes "Instance of 'Object'" ∷ []) done ((0, 3) ∷ (7, 4) ∷ (2, 8) ∷ (3, 3) ∷ (1, 8) ∷ (7, 4) ∷ (4, 8) ∷ (7, 3) ∷ (5, 8) ∷ (7, 4) ∷ (6, 8) ∷ (7, 3) ∷ (7, 0) ∷ []) [] }
{}

/// A constructor's parameters are variables of what it passes on and of its body, each one variable.
pub fn parameters_of_a_constructor()
    ensures { Does text.parameters_of_a_constructor (codes "main") 100 (codes "5" ∷ codes "2" ∷ codes "2" ∷ codes "8" ∷ codes "2" ∷ []) done ((7, 3) ∷ (0, 3) ∷ (7, 3) ∷ (1, 3) ∷ (7, 3) ∷ (2, 3) ∷ (4, 11) ∷ (5, 3) ∷ (3, 11) ∷ (6, 11) ∷ (7, 3) ∷ (2, 3) ∷ (4, 11) ∷ (5, 3) ∷ (3, 11) ∷ (6, 11) ∷ (7, 3) ∷ []) [] }
{}

/// A chain of calls goes from its receiver on, and a receiver is evaluated before its index, and both before what is assigned.
pub fn calls_in_order()
    ensures { Does text.calls_in_order (codes "main") 100 (codes "l1" ∷ codes "i2" ∷ codes "1[2]" ∷ codes "12.g" ∷ codes "i3" ∷ codes "13[3]" ∷ codes "133" ∷ codes "l4" ∷ codes "i5" ∷ codes "i6" ∷ codes "4[5]=" ∷ []) done ((13, 3) ∷ (20, 4) ∷ (14, 3) ∷ (20, 4) ∷ (15, 7) ∷ (1, 7) ∷ (0, 3) ∷ (2, 3) ∷ (20, 4) ∷ (3, 7) ∷ (4, 3) ∷ (5, 3) ∷ (16, 7) ∷ (10, 7) ∷ (9, 3) ∷ (20, 4) ∷ (11, 7) ∷ (12, 3) ∷ (14, 3) ∷ (20, 4) ∷ (17, 7) ∷ (1, 7) ∷ (0, 3) ∷ (2, 3) ∷ (20, 4) ∷ (3, 7) ∷ (4, 3) ∷ (5, 3) ∷ (18, 7) ∷ (20, 3) ∷ (13, 3) ∷ (20, 4) ∷ (14, 3) ∷ (20, 4) ∷ (14, 3) ∷ (20, 4) ∷ (19, 7) ∷ (7, 7) ∷ (6, 3) ∷ (8, 3) ∷ (20, 4) ∷ []) [] }
{}
