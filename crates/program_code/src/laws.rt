//! Laws of code. Each is for every program, and so its function does nothing.

ghost use Rattle.program_code.specs.Laws.{ExpressionsHaveTheirSizes, StatementsHaveTheirSizes};

/// The code of an expression has its size.
pub fn expressions_have_their_sizes()
    ensures law { ExpressionsHaveTheirSizes }
{}

/// The code of a statement has its size.
pub fn statements_have_their_sizes()
    ensures law { StatementsHaveTheirSizes }
{}
