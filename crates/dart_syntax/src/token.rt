//! Tokens.

use sqlite_items::Items;

/// The bytes of an identifier: ASCII letters, digits, `_` and `$`.
pub type Identifier = Items<u8>;

/// UTF-16 code units, as strings hold them.
pub type Units = Items<u16>;

/// A part of the text, by byte places: from `start` up to, and without, `end`.
#[derive(Clone, Copy, Debug, PartialEq, Eq)]
pub struct Span {
    pub start: u32,
    pub end: u32,
}

#[derive(Clone, Copy, Debug, PartialEq, Eq)]
pub enum Keyword {
    Abstract,
    Break,
    Class,
    Continue,
    Do,
    Dynamic,
    Else,
    Extends,
    False,
    Final,
    For,
    Get,
    If,
    Implements,
    Is,
    Null,
    Operator,
    Return,
    Set,
    Super,
    This,
    Throw,
    True,
    Var,
    Void,
    While,
}

#[derive(Clone, Copy, Debug, PartialEq, Eq)]
pub enum Sign {
    ParenOpen,
    ParenClose,
    BracketOpen,
    BracketClose,
    BraceOpen,
    BraceClose,
    Comma,
    Semicolon,
    Colon,
    Dot,
    Question,
    At,
    Arrow,
    Assign,
    Equal,
    NotEqual,
    Not,
    Less,
    LessEqual,
    Greater,
    GreaterEqual,
    ShiftLeft,
    ShiftRight,
    ShiftUnsigned,
    Plus,
    Minus,
    Star,
    Divide,
    Percent,
    Ampersand,
    Bar,
    Caret,
    Tilde,
    And,
    Or,
    Increment,
    Decrement,
    PlusAssign,
    MinusAssign,
    StarAssign,
    DivideAssign,
    PercentAssign,
    AmpersandAssign,
    BarAssign,
    CaretAssign,
    ShiftLeftAssign,
    ShiftRightAssign,
    ShiftUnsignedAssign,
}

#[derive(Debug, Drop)]
pub enum TokenKind {
    Name(Identifier),
    Keyword(Keyword),
    Sign(Sign),
    /// A decimal up to 2^63 - 1, or a hexadecimal below 2^64 as two's complement.
    Int(i64),
    /// The decimal 2^63, which stands only behind a minus.
    MinInt,
    /// A string without interpolations.
    Str(Units),
    /// The piece of a string before its first interpolation.
    StrOpen(Units),
    /// The piece between two interpolations.
    StrMid(Units),
    /// The piece behind the last interpolation.
    StrClose(Units),
    /// The end of the text.
    End,
}

#[derive(Debug, Drop)]
pub struct Token {
    pub kind: TokenKind,
    pub span: Span,
}
