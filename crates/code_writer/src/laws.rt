//! Laws of what is written. Each is for every program, and so its function does nothing.

ghost use Rattle.code_writer.specs.Laws.{WrittenExpressionsAreCode};

/// What is written for an expression is its code.
pub fn written_expressions_are_code()
    ensures law { WrittenExpressionsAreCode }
{}
