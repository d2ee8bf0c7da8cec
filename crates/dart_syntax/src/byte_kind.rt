//! Kinds of bytes.

/// The bytes that the rules on tokens speak of. A comment or a word is a run of one kind.
#[derive(Clone, Copy, Debug, PartialEq, Eq)]
pub enum ByteKind {
    /// A space or a tab.
    Space,
    /// A line feed or a carriage return.
    LineEnd,
    /// Any byte but those that end a line.
    InLine,
    Digit,
    Hex,
    /// The first byte of a word: a letter, `_` or `$`.
    Start,
    /// A byte of a word: a letter, a digit, `_` or `$`.
    Part,
    /// The first byte of a name behind a `$` in a string: a letter or `_`.
    Initial,
    /// A byte of such a name: a letter, a digit or `_`.
    Simple,
}
