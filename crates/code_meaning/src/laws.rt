//! Laws of code. Each is for every sound program and every pool with its code, and so its function does nothing.

ghost use Rattle.code_meaning.specs.Laws.{CodeMeansProgram, EachTurnPaysForOneUnit, EachTurnPaysForNodes, AsksAreCounted};

/// The code of a program does what the program does.
pub fn code_means_program()
    ensures same { CodeMeansProgram }
{}

/// The instructions that it takes, and the calls that ask a cell.
pub fn turns_bound_instructions()
    ensures units { EachTurnPaysForOneUnit }
    ensures nodes { EachTurnPaysForNodes }
    ensures asks { AsksAreCounted }
{}
