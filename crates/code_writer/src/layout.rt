// Numbers that the code of a body names.

/// Where a body's variables are, and what else its code names by number.
#[derive(Clone, Copy)]
pub struct Layout {
    /// The slot of its first variable.
    pub first: u32,
    /// The first slot for a value that is used twice.
    pub scratch: u32,
    /// The site of `print`.
    pub print_site: u32,
    /// How many functions there are: the constructors are numbered behind them.
    pub functions: u32,
    /// Whether `return` answers the object of a constructor.
    pub of_constructor: bool,
}
