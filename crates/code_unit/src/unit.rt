// Units of code.
use crate::instr::Instr;
use program::Literal;
use sqlite_items::Items;

/// The code of a body. Its slots are the parameters and then the other variables, 0 to `locals` - 1.
#[derive(Drop)]
pub struct Unit {
    pub code: Items<Instr>,
    /// For each place of the code, how many operands stand above the slots.
    pub depths: Items<u32>,
    /// The parameters, `this` among them where there is one: it is slot 0.
    pub params: u32,
    /// What the last parameters are where their arguments are missing; none until a program has such.
    pub defaults: Items<Literal>,
    pub locals: u32,
}
