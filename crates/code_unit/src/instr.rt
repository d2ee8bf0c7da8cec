// Instructions.
use program::{ClassId, MethodId, SiteId};

/// One instruction. A `place` is a place in the code of its own unit; operands are values above the slots.
///
/// What each takes and leaves is `Effect`; what each means is said where the machine stands, in code_pool.
#[derive(Clone, Copy, Debug, PartialEq, Eq)]
pub enum Instr {
    // Values in and out.
    /// Pushes a constant of the pool.
    Const(u32),
    /// Pushes the value of a slot.
    Local(u32),
    /// Pops a value into a slot.
    SetLocal(u32),
    /// Pushes a variable of the top level.
    Global(u32),
    /// Pops a value into a variable of the top level.
    SetGlobal(u32),
    Pop,
    /// Pushes the top value again.
    Dup,
    /// Pushes the top two values again, in their order.
    Dup2,

    // Places and turns.
    Jump(u32),
    /// Pops a bool, and goes to the place where it is false.
    JumpIfFalse(u32),
    /// A top value that is no bool is a TypeFault.
    ExpectBool,
    /// The other bool.
    Not,
    /// Spends a turn.
    LoopTurn,

    // Calls.
    /// Asks the cell of the site about the receiver, below so many arguments, and calls its target.
    Call(SiteId, u32),
    /// As `Call` with one argument, but null is asked for nothing: where either is null, whether both are.
    Equal(SiteId),
    /// Enters a function or constructor by its number in the pool, with so many values.
    CallStatic(u32, u32),
    /// Calls a member of a superclass with so many values, `this` among them.
    CallMethod(MethodId, u32),
    /// Pops the answer, and goes on behind the call in the unit that waits.
    Return,
    /// Pops a value and ends the run with its text; null is a TypeFault.
    Throw,

    // Objects, lists and texts.
    /// Pushes a new object, with the literals of its fields.
    New(ClassId),
    /// Pops a value and the object below it, and writes the field.
    SetField(u32),
    /// Makes one list of so many values.
    MakeList(u32),
    /// Makes one text of so many texts.
    Concat(u32),
    /// A top value that is no text is a TypeFault.
    ExpectString,
    /// Whether the class of the value is this one, or below it.
    IsClass(ClassId),
    /// Pops a text and adds it to the lines.
    Emit,
    /// Pops a list and a number; pushes the element there and the next number, or goes to the place where there is none.
    ElementOr(u32),
}
