//! What is open at a place between tokens.

/// A place is told by how many bytes the text has from there on.
#[derive(Clone, Copy, Debug, PartialEq, Eq)]
pub enum Open {
    /// A brace, and the opening quote of the innermost string that it stands in.
    Brace(Option<usize>),
    /// An interpolation: the quote of its string, and the place of that quote.
    Text(u8, usize),
}
